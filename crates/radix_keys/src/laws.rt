//! Laws of encodings that callers name: which keys begin with which.
ghost use Rattle.std.specs.Prelude.{◌≡◌, ◌↔◌, ℕ, ◌-◌, ◌*◌, ◌/◌, ◌%◌, ◌^◌, ◌<◌, ◌≤◌, List, length, min, slice_index, All};
ghost use Rattle.std.specs.Int.{bytes_high_first};
ghost use Rattle.nibble_map.specs.Lists.{IsPrefix};
ghost use Rattle.nibble_map.specs.Nibbles.{nibbles};
ghost use Rattle.radix_keys.specs.Bits.{bits_high_first, bits_of, first_bits};
ghost use Rattle.radix_keys.specs.Parts.{AreParts, part_bytes, IsPartsPrefix};

/// The nibbles of bytes begin with those of other bytes exactly where the bytes do. So one text's
/// encoding begins with another's exactly where the text does.
pub fn nibbles_keep_prefixes()
    ensures { (a b : List ℕ) → IsPrefix (nibbles a) (nibbles b) ↔ IsPrefix a b }
{}

/// The bits of bytes begin with those of other bytes exactly where the bytes do.
pub fn bits_keep_prefixes()
    ensures { (a b : List ℕ) → All (λ x. x < 256) a → All (λ x. x < 256) b
        → IsPrefix (bits_of a) (bits_of b) ↔ IsPrefix a b }
{}

/// The encoding of a list of parts begins with that of another exactly where the list does: where
/// the other is a prefix of it.
pub fn parts_keep_prefixes()
    ensures { (p q : List (List ℕ)) → AreParts p → AreParts q
        → IsPrefix (nibbles (part_bytes p)) (nibbles (part_bytes q)) ↔ IsPartsPrefix p q }
{}

/// What the first bits of a number are: each is a digit of the number in base 2, and there are as
/// many as are asked for, up to the number's width.
pub fn first_bits_are_digits()
    ensures bit { (w n k i : ℕ) → i < k → i < w
        → slice_index (first_bits w n k) i ≡ n / 2 ^ (w - 1 - i) % 2 }
    ensures count { (w n k : ℕ) → length (first_bits w n k) ≡ min k w }
    ensures of_bytes { (k n : ℕ) → bits_of (bytes_high_first k n) ≡ bits_high_first (8 * k) n }
{}

/// The first m bits of a number begin the first n of another exactly where the two agree in what
/// is left of the m highest bits: where the second lies in the network of the first.
pub fn first_bits_tell_networks()
    ensures { (w a b m n : ℕ) → a < 2 ^ w → b < 2 ^ w → m ≤ n → n ≤ w
        → IsPrefix (first_bits w a m) (first_bits w b n)
        ↔ (a / 2 ^ (w - m) ≡ b / 2 ^ (w - m)) }
{}

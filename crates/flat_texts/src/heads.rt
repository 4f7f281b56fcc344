//! The first bytes of keys as numbers, which tell the order of most keys.
ghost use Rattle.std.specs.Prelude.{◌≡◌, ◌<◌, ℕ, slice_index};
ghost use Rattle.std.specs.Int.{w64, from_be_bytes};
ghost use Rattle.nibble_map.specs.Nibbles.{nibbles};
ghost use Rattle.flat_texts.specs.TextImages.{key_bound, key_head};

/// The byte at an index, and zero past the end.
#[inline(always)]
fn byte_or_zero(bytes: &[u8], i: usize) -> u8
    ensures { result ≡ slice_index bytes.now i }
{
    if i < bytes.len() { bytes[i] } else { 0 }
}

/// The first eight bytes as a number, the first the highest, with a zero for each that is lacking.
#[inline(always)]
fn first_word(bytes: &[u8]) -> u64
    ensures { result ≡ from_be_bytes w64 bytes.now }
{
    if bytes.len() < 8 {
        return u64::from_be_bytes([
            byte_or_zero(bytes, 0),
            byte_or_zero(bytes, 1),
            byte_or_zero(bytes, 2),
            byte_or_zero(bytes, 3),
            byte_or_zero(bytes, 4),
            byte_or_zero(bytes, 5),
            byte_or_zero(bytes, 6),
            0,
        ]);
    }
    u64::from_be_bytes([
        bytes[0], bytes[1], bytes[2], bytes[3], bytes[4], bytes[5], bytes[6], bytes[7],
    ])
}

/// The head of a key: its first eight bytes as such a number.
#[inline(always)]
#[tactic(auto, using(crate::proofs::HeadLemmas::head_of_word))]
pub(crate) fn head_of(key: &[u8]) -> u64
    ensures { result ≡ key_head key.now }
{
    first_word(key)
}

/// The same of a key that is searched for; where the search is one through it, with 255 for each
/// byte that it lacks.
#[inline(always)]
pub(crate) fn bound_of(key: &[u8], is_through: bool) -> u64
    ensures bound { result ≡ key_bound is_through (nibbles key.now) }
    ensures nibbles { (k : ℕ) → slice_index (nibbles key.now) k < 16 }
{
    let head = head_of(key);
    if !is_through {
        return head;
    }
    if key.len() >= 8 {
        return head;
    }
    head + (u64::MAX >> (8 * key.len()))
}

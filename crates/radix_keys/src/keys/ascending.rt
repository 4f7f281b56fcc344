//! Signed integers as keys in ascending order.
ghost use Rattle.std.specs.Prelude.{◌≡◌, ◌<ℤ◌, ℤ, FitsSigned, IsOk, IfOk, OnOk, refl};
ghost use Rattle.std.specs.Int.{Width, w8, w16, w32, w64, byte_len};
ghost use Rattle.nibble_map.specs.Nibbles.{nibbles, IsShort};
ghost use Rattle.nibble_map.specs.Turned.{turned};
ghost use Rattle.radix_keys.specs.AscendingKeys.{turned_bytes, turned_bytes-injective};
ghost use Rattle.radix_keys.specs.Distinct.{nibbles-injective};
ghost use Rattle.radix_keys.specs.Integers.{signed_bytes};
ghost use Rattle.radix_keys.specs.Order.{Precedes};

use crate::endian::{Ascending, KeyInt};
use crate::keys::TrieKey;
use crate::keys::integers::push_bytes;
use crate::nibbles::{Memory, Nibblet};
use smallvec::SmallVec;
use std::alloc::Global;

/// A signed integer as a key, and the number that it is.
///
/// Its encoding is the nibbles of its bytes, and the bytes of a number within the type's bounds
/// are the number's two's complement.
pub trait KeySigned: KeyInt + TrieKey {
    // How many bits the number has.
    ghost bits: { Width };

    // The key's number.
    ghost number: { Self → ℤ };

    ghost width: { byte_len bits ≡ Self.KeyInt.WIDTH };

    ghost within: { (x : Self) → Self.KeyInt.is_value x → FitsSigned bits (number x) };

    ghost twos_complement: { (x : Self) → Self.KeyInt.is_value x
        → Self.KeyInt.bytes x ≡ signed_bytes bits (number x) };

    ghost plain: { (x : Self) → Self.TrieKey.encoding x ≡ nibbles (Self.KeyInt.bytes x) };
}

impl KeySigned for i8 {
    ghost bits = { w8 };

    ghost number = { λ z. z };

    ghost width = { refl };

    ghost within = { λ _ h. h };

    ghost twos_complement = { λ _ _. refl };

    ghost plain = { λ _. refl };
}

impl KeySigned for i16 {
    ghost bits = { w16 };

    ghost number = { λ z. z };

    ghost width = { refl };

    ghost within = { λ _ h. h };

    ghost twos_complement = { λ _ _. refl };

    ghost plain = { λ _. refl };
}

impl KeySigned for i32 {
    ghost bits = { w32 };

    ghost number = { λ z. z };

    ghost width = { refl };

    ghost within = { λ _ h. h };

    ghost twos_complement = { λ _ _. refl };

    ghost plain = { λ _. refl };
}

impl KeySigned for i64 {
    ghost bits = { w64 };

    ghost number = { λ z. z };

    ghost width = { refl };

    ghost within = { λ _ h. h };

    ghost twos_complement = { λ _ _. refl };

    ghost plain = { λ _. refl };
}

impl KeySigned for isize {
    ghost bits = { w64 };

    ghost number = { λ z. z };

    ghost width = { refl };

    ghost within = { λ _ h. h };

    ghost twos_complement = { λ _ _. refl };

    ghost plain = { λ _. refl };
}

impl<T: KeySigned> TrieKey for Ascending<T> {
    ghost encoding = { λ w. nibbles (turned_bytes (T.KeyInt.bytes w)) };

    ghost is_inline = { λ w. IsShort (nibbles (turned_bytes (T.KeyInt.bytes w))) };

    ghost is_value = { λ w. T.KeyInt.is_value w };

    ghost distinct = { λ x y p q e.
        T.KeyInt.distinct x y p q (turned_bytes-injective _ _ (nibbles-injective _ _ e)) };

    ghost inline_is_short = { λ _ h. h };

    /// The nibbles of the bytes, the highest first, with the top bit of the first byte
    /// flipped. The smaller number has the smaller encoding.
    fn encode(&self, alloc: Global) -> Result<Nibblet, Memory>
        ensures ok { IfOk result (λ v. v ≡ nibbles (turned_bytes (T.KeyInt.bytes self.now))) }
        ensures value { OnOk result (T.KeyInt.is_value self.now) }
        ensures inline { IsShort (nibbles (turned_bytes (T.KeyInt.bytes self.now))) → IsOk result }
        // It is the plain encoding with the top bit of its first nibble flipped.
        ensures turned { (x : T)
            → nibbles (turned_bytes (T.KeyInt.bytes x)) ≡ turned (T.TrieKey.encoding x) }
        ensures order { (x y : T) → T.KeyInt.is_value x → T.KeyInt.is_value y
            → T.number x <ℤ T.number y
            → Precedes (nibbles (turned_bytes (T.KeyInt.bytes x)))
            (nibbles (turned_bytes (T.KeyInt.bytes y))) }
    {
        let mut bytes = SmallVec::new(alloc);
        push_bytes(&mut bytes, &self.value())?;
        let mut list = Nibblet::from_small(bytes);
        list.turn_over();
        Ok(list)
    }
}

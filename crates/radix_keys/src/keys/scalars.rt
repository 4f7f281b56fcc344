//! Truth values, characters and arrays of bytes as keys.
ghost use Rattle.std.specs.Prelude.{◌≡◌, ℕ, ◌*◌, ◌<◌, ◌≤◌, ◌^◌, [], ◌∷◌, length, IsOk, IfOk, OnOk};
ghost use Rattle.std.specs.Int.{w32, from_bool};
ghost use Rattle.std.proofs.Common.{lit≤};
ghost use Rattle.nibble_map.specs.Nibbles.{nibbles, IsShort};
ghost use Rattle.radix_keys.specs.Distinct.{bytes-distinct, bool-distinct, unsigned_key-distinct};
ghost use Rattle.radix_keys.specs.Integers.{unsigned_key};
ghost use Rattle.radix_keys.specs.Order.{KeepsByteOrder, KeepsUnsignedOrder};

use crate::keys::TrieKey;
use crate::keys::integers::encode_integer;
use crate::nibbles::{Memory, Nibblet};
use std::alloc::Global;

impl TrieKey for bool {
    ghost encoding = { λ b. nibbles (from_bool b ∷ []) };

    ghost is_inline = { λ _. Unit {0} };

    ghost is_value = { λ _. Unit {0} };

    ghost distinct = { λ x y _ _ e. bool-distinct x y e };

    ghost inline_is_short = { λ _ _. lit≤ tt };

    /// The nibbles of one byte, 0 of false and 1 of true.
    ///
    /// Never fails.
    fn encode(&self, alloc: Global) -> Result<Nibblet, Memory>
        ensures ok { IfOk result (λ v. v ≡ nibbles (from_bool self.now ∷ [])) }
        ensures value { OnOk result (⟦<bool as TrieKey>⟧.is_value self.now) }
        ensures inline { IsOk result }
    {
        Nibblet::from_slice(alloc, &[u8::from(*self)])
    }
}

impl TrieKey for char {
    ghost encoding = { unsigned_key w32 };

    ghost is_inline = { λ c. IsShort (unsigned_key w32 c) };

    ghost is_value = { λ c. c < 2 ^ 32 };

    ghost distinct = { unsigned_key-distinct w32 };

    ghost inline_is_short = { λ _ h. h };

    /// The nibbles of the scalar value's four bytes, the highest first. The smaller scalar value
    /// has the smaller encoding.
    ///
    /// Never fails.
    fn encode(&self, alloc: Global) -> Result<Nibblet, Memory>
        ensures ok { IfOk result (λ v. v ≡ unsigned_key w32 self.now) }
        ensures value { self.now < 2 ^ 32 }
        ensures inline { IsOk result }
        ensures order { KeepsUnsignedOrder w32 }
    {
        encode_integer(alloc, &u32::from(*self))
    }
}

impl<const N: usize> TrieKey for [u8; N] {
    ghost encoding = { nibbles };

    ghost is_inline = { λ bytes. IsShort (nibbles bytes) };

    ghost is_value = { λ bytes. length bytes ≡ N };

    ghost distinct = { λ x y _ _ e. bytes-distinct x y e };

    ghost inline_is_short = { λ _ h. h };

    /// The nibbles of the bytes. The smaller array has the smaller encoding.
    ///
    /// Never fails for at most 16 bytes.
    fn encode(&self, alloc: Global) -> Result<Nibblet, Memory>
        ensures ok { IfOk result (λ v. v ≡ nibbles self.now) }
        ensures value { OnOk result (length self.now ≡ N) }
        ensures inline { IsShort (nibbles self.now) → IsOk result }
        ensures narrow { N ≤ 16 → IsOk result }
        ensures order { KeepsByteOrder }
    {
        Nibblet::from_slice(alloc, self.as_slice())
    }
}

//! Signed integers as keys, by their bytes in two's complement.
ghost use Rattle.std.specs.Prelude.{◌≡◌, FitsSigned, IsOk, IfOk, refl};
ghost use Rattle.std.specs.Int.{w8, w16, w32, w64};
ghost use Rattle.nibble_map.specs.Nibbles.{IsShort};
ghost use Rattle.radix_keys.specs.Distinct.{signed_key-distinct};
ghost use Rattle.radix_keys.specs.Integers.{signed_key};
ghost use Rattle.radix_keys.specs.Order.{KeepsSignedOrder};

use crate::keys::TrieKey;
use crate::keys::integers::encode_integer;
use crate::nibbles::{Memory, Nibblet};
use std::alloc::Global;

impl TrieKey for i8 {
    ghost encoding = { signed_key w8 };

    ghost is_inline = { λ n. IsShort (signed_key w8 n) };

    ghost is_value = { FitsSigned w8 };

    ghost distinct = { signed_key-distinct w8 refl };

    ghost inline_is_short = { λ _ h. h };

    /// The nibbles of the bytes in two's complement, the highest first. Encodings rise from 0
    /// upward, and then over the negative numbers upward.
    ///
    /// Never fails.
    fn encode(&self, alloc: Global) -> Result<Nibblet, Memory>
        ensures ok { IfOk result (λ v. v ≡ signed_key w8 self.now) }
        ensures value { FitsSigned w8 self.now }
        ensures inline { IsOk result }
        ensures order { KeepsSignedOrder w8 }
    {
        encode_integer(alloc, self)
    }
}

impl TrieKey for i16 {
    ghost encoding = { signed_key w16 };

    ghost is_inline = { λ n. IsShort (signed_key w16 n) };

    ghost is_value = { FitsSigned w16 };

    ghost distinct = { signed_key-distinct w16 refl };

    ghost inline_is_short = { λ _ h. h };

    /// The nibbles of the bytes in two's complement, the highest first. Encodings rise from 0
    /// upward, and then over the negative numbers upward.
    ///
    /// Never fails.
    fn encode(&self, alloc: Global) -> Result<Nibblet, Memory>
        ensures ok { IfOk result (λ v. v ≡ signed_key w16 self.now) }
        ensures value { FitsSigned w16 self.now }
        ensures inline { IsOk result }
        ensures order { KeepsSignedOrder w16 }
    {
        encode_integer(alloc, self)
    }
}

impl TrieKey for i32 {
    ghost encoding = { signed_key w32 };

    ghost is_inline = { λ n. IsShort (signed_key w32 n) };

    ghost is_value = { FitsSigned w32 };

    ghost distinct = { signed_key-distinct w32 refl };

    ghost inline_is_short = { λ _ h. h };

    /// The nibbles of the bytes in two's complement, the highest first. Encodings rise from 0
    /// upward, and then over the negative numbers upward.
    ///
    /// Never fails.
    fn encode(&self, alloc: Global) -> Result<Nibblet, Memory>
        ensures ok { IfOk result (λ v. v ≡ signed_key w32 self.now) }
        ensures value { FitsSigned w32 self.now }
        ensures inline { IsOk result }
        ensures order { KeepsSignedOrder w32 }
    {
        encode_integer(alloc, self)
    }
}

impl TrieKey for i64 {
    ghost encoding = { signed_key w64 };

    ghost is_inline = { λ n. IsShort (signed_key w64 n) };

    ghost is_value = { FitsSigned w64 };

    ghost distinct = { signed_key-distinct w64 refl };

    ghost inline_is_short = { λ _ h. h };

    /// The nibbles of the bytes in two's complement, the highest first. Encodings rise from 0
    /// upward, and then over the negative numbers upward.
    ///
    /// Never fails.
    fn encode(&self, alloc: Global) -> Result<Nibblet, Memory>
        ensures ok { IfOk result (λ v. v ≡ signed_key w64 self.now) }
        ensures value { FitsSigned w64 self.now }
        ensures inline { IsOk result }
        ensures order { KeepsSignedOrder w64 }
    {
        encode_integer(alloc, self)
    }
}

impl TrieKey for isize {
    ghost encoding = { signed_key w64 };

    ghost is_inline = { λ n. IsShort (signed_key w64 n) };

    ghost is_value = { FitsSigned w64 };

    ghost distinct = { signed_key-distinct w64 refl };

    ghost inline_is_short = { λ _ h. h };

    /// The nibbles of the bytes in two's complement, the highest first. Encodings rise from 0
    /// upward, and then over the negative numbers upward.
    ///
    /// Never fails.
    fn encode(&self, alloc: Global) -> Result<Nibblet, Memory>
        ensures ok { IfOk result (λ v. v ≡ signed_key w64 self.now) }
        ensures value { FitsSigned w64 self.now }
        ensures inline { IsOk result }
        ensures order { KeepsSignedOrder w64 }
    {
        encode_integer(alloc, self)
    }
}

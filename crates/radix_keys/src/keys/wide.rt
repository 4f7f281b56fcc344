//! Integers of 128 bits as keys.
ghost use Rattle.std.specs.Prelude.{◌≡◌, ◌<◌, ◌^◌, FitsSigned, IsOk, IfOk, refl};
ghost use Rattle.std.specs.Int.{w128, to_be_bytes};
ghost use Rattle.std.proofs.Common.{lit<};
ghost use Rattle.nibble_map.specs.Nibbles.{IsShort};
ghost use Rattle.radix_keys.specs.Distinct.{unsigned-distinct, signed-distinct, unsigned_key-distinct, signed_key-distinct};
ghost use Rattle.radix_keys.specs.Integers.{signed_bytes, unsigned_key, signed_key};
ghost use Rattle.radix_keys.specs.Order.{KeepsUnsignedOrder, KeepsSignedOrder};

use crate::endian::KeyInt;
use crate::keys::TrieKey;
use crate::keys::ascending::KeySigned;
use crate::keys::integers::encode_integer;
use crate::nibbles::{Memory, Nibblet};
use std::alloc::Global;

impl KeyInt for u128 {
    ghost WIDTH = { 16 };

    ghost bytes = { to_be_bytes w128 };

    ghost is_value = { λ n. n < 2 ^ 128 };

    ghost width_positive = { lit< tt };

    ghost bytes_len = { λ _. refl };

    ghost distinct = { unsigned-distinct w128 };

    const WIDTH: usize = 16;

    fn byte(&self, i: usize) -> u8 {
        let value: u128 = *self;
        value.to_be_bytes()[i]
    }
}

impl KeyInt for i128 {
    ghost WIDTH = { 16 };

    ghost bytes = { signed_bytes w128 };

    ghost is_value = { FitsSigned w128 };

    ghost width_positive = { lit< tt };

    ghost bytes_len = { λ _. refl };

    ghost distinct = { signed-distinct w128 refl };

    const WIDTH: usize = 16;

    fn byte(&self, i: usize) -> u8 {
        let value: i128 = *self;
        value.to_be_bytes()[i]
    }
}

impl TrieKey for u128 {
    ghost encoding = { unsigned_key w128 };

    ghost is_inline = { λ n. IsShort (unsigned_key w128 n) };

    ghost is_value = { λ n. n < 2 ^ 128 };

    ghost distinct = { unsigned_key-distinct w128 };

    ghost inline_is_short = { λ _ h. h };

    /// The nibbles of the bytes, the highest first. The smaller number has the smaller encoding.
    ///
    /// Never fails.
    fn encode(&self, alloc: Global) -> Result<Nibblet, Memory>
        ensures ok { IfOk result (λ v. v ≡ unsigned_key w128 self.now) }
        ensures value { self.now < 2 ^ 128 }
        ensures inline { IsOk result }
        ensures order { KeepsUnsignedOrder w128 }
    {
        encode_integer(alloc, self)
    }
}

impl TrieKey for i128 {
    ghost encoding = { signed_key w128 };

    ghost is_inline = { λ n. IsShort (signed_key w128 n) };

    ghost is_value = { FitsSigned w128 };

    ghost distinct = { signed_key-distinct w128 refl };

    ghost inline_is_short = { λ _ h. h };

    /// The nibbles of the bytes in two's complement, the highest first. Encodings rise from 0
    /// upward, and then over the negative numbers upward.
    ///
    /// Never fails.
    fn encode(&self, alloc: Global) -> Result<Nibblet, Memory>
        ensures ok { IfOk result (λ v. v ≡ signed_key w128 self.now) }
        ensures value { FitsSigned w128 self.now }
        ensures inline { IsOk result }
        ensures order { KeepsSignedOrder w128 }
    {
        encode_integer(alloc, self)
    }
}

impl KeySigned for i128 {
    ghost bits = { w128 };

    ghost number = { λ z. z };

    ghost width = { refl };

    ghost within = { λ _ h. h };

    ghost twos_complement = { λ _ _. refl };

    ghost plain = { λ _. refl };
}

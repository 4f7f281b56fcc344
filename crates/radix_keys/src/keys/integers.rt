//! Unsigned integers as keys.
ghost use Rattle.std.specs.Prelude.{◌≡◌, ◌+◌, ◌<◌, ◌≤◌, ◌^◌, ◌++◌, length, IsOk, IfOk, OnOk};
ghost use Rattle.std.specs.Int.{w8, w16, w32, w64};
ghost use Rattle.nibble_map.specs.Nibbles.{nibbles, IsShort};
ghost use Rattle.radix_keys.specs.Distinct.{unsigned_key-distinct};
ghost use Rattle.radix_keys.specs.Integers.{unsigned_key};
ghost use Rattle.radix_keys.specs.Order.{KeepsUnsignedOrder};

use crate::endian::KeyInt;
use crate::keys::TrieKey;
use crate::nibbles::{Memory, Nibblet};
use smallvec::SmallVec;
use std::alloc::Global;

impl TrieKey for u8 {
    ghost encoding = { unsigned_key w8 };

    ghost is_inline = { λ n. IsShort (unsigned_key w8 n) };

    ghost is_value = { λ n. n < 2 ^ 8 };

    ghost distinct = { unsigned_key-distinct w8 };

    ghost inline_is_short = { λ _ h. h };

    /// The nibbles of the bytes, the highest first. The smaller number has the smaller encoding.
    ///
    /// Never fails.
    fn encode(&self, alloc: Global) -> Result<Nibblet, Memory>
        ensures ok { IfOk result (λ v. v ≡ unsigned_key w8 self.now) }
        ensures value { self.now < 2 ^ 8 }
        ensures inline { IsOk result }
        ensures order { KeepsUnsignedOrder w8 }
    {
        encode_integer(alloc, self)
    }
}

impl TrieKey for u16 {
    ghost encoding = { unsigned_key w16 };

    ghost is_inline = { λ n. IsShort (unsigned_key w16 n) };

    ghost is_value = { λ n. n < 2 ^ 16 };

    ghost distinct = { unsigned_key-distinct w16 };

    ghost inline_is_short = { λ _ h. h };

    /// The nibbles of the bytes, the highest first. The smaller number has the smaller encoding.
    ///
    /// Never fails.
    fn encode(&self, alloc: Global) -> Result<Nibblet, Memory>
        ensures ok { IfOk result (λ v. v ≡ unsigned_key w16 self.now) }
        ensures value { self.now < 2 ^ 16 }
        ensures inline { IsOk result }
        ensures order { KeepsUnsignedOrder w16 }
    {
        encode_integer(alloc, self)
    }
}

impl TrieKey for u32 {
    ghost encoding = { unsigned_key w32 };

    ghost is_inline = { λ n. IsShort (unsigned_key w32 n) };

    ghost is_value = { λ n. n < 2 ^ 32 };

    ghost distinct = { unsigned_key-distinct w32 };

    ghost inline_is_short = { λ _ h. h };

    /// The nibbles of the bytes, the highest first. The smaller number has the smaller encoding.
    ///
    /// Never fails.
    fn encode(&self, alloc: Global) -> Result<Nibblet, Memory>
        ensures ok { IfOk result (λ v. v ≡ unsigned_key w32 self.now) }
        ensures value { self.now < 2 ^ 32 }
        ensures inline { IsOk result }
        ensures order { KeepsUnsignedOrder w32 }
    {
        encode_integer(alloc, self)
    }
}

impl TrieKey for u64 {
    ghost encoding = { unsigned_key w64 };

    ghost is_inline = { λ n. IsShort (unsigned_key w64 n) };

    ghost is_value = { λ n. n < 2 ^ 64 };

    ghost distinct = { unsigned_key-distinct w64 };

    ghost inline_is_short = { λ _ h. h };

    /// The nibbles of the bytes, the highest first. The smaller number has the smaller encoding.
    ///
    /// Never fails.
    fn encode(&self, alloc: Global) -> Result<Nibblet, Memory>
        ensures ok { IfOk result (λ v. v ≡ unsigned_key w64 self.now) }
        ensures value { self.now < 2 ^ 64 }
        ensures inline { IsOk result }
        ensures order { KeepsUnsignedOrder w64 }
    {
        encode_integer(alloc, self)
    }
}

impl TrieKey for usize {
    ghost encoding = { unsigned_key w64 };

    ghost is_inline = { λ n. IsShort (unsigned_key w64 n) };

    ghost is_value = { λ n. n < 2 ^ 64 };

    ghost distinct = { unsigned_key-distinct w64 };

    ghost inline_is_short = { λ _ h. h };

    /// The nibbles of the bytes, the highest first. The smaller number has the smaller encoding.
    ///
    /// Never fails.
    fn encode(&self, alloc: Global) -> Result<Nibblet, Memory>
        ensures ok { IfOk result (λ v. v ≡ unsigned_key w64 self.now) }
        ensures value { self.now < 2 ^ 64 }
        ensures inline { IsOk result }
        ensures order { KeepsUnsignedOrder w64 }
    {
        encode_integer(alloc, self)
    }
}

/// The nibbles of the bytes of one integer, the highest first.
pub(super) fn encode_integer<T: KeyInt>(alloc: Global, x: &T) -> Result<Nibblet, Memory>
    ensures ok { IfOk result (λ v. v ≡ nibbles (T.bytes x.now)) }
    ensures value { OnOk result (T.is_value x.now) }
    ensures inline { IsShort (nibbles (T.bytes x.now)) → IsOk result }
{
    let mut bytes = SmallVec::new(alloc);
    push_bytes(&mut bytes, x)?;
    Ok(Nibblet::from_small(bytes))
}

/// Appends the bytes of an integer, the highest first.
pub(super) fn push_bytes<T: KeyInt>(out: &mut SmallVec<u8, 16>, x: &T) -> Result<(), Memory>
    requires { 16 ≤ out.old.capacity }
    ensures ok { OnOk result (out.new.items ≡ out.old.items ++ T.bytes x.now) }
    ensures value { OnOk result (T.is_value x.now) }
    ensures capacity { 16 ≤ out.new.capacity }
    ensures succeeds { length out.old.items + length (T.bytes x.now) ≤ 16 → IsOk result }
{
    for i in 0..T::WIDTH {
        out.push(x.byte(i))?;
    }
    Ok(())
}

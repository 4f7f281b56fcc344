//! Integers of either byte order, and vectors of integers, as keys.
ghost use Rattle.std.specs.Prelude.{◌≡◌, reverse, flat_map, All};
ghost use Rattle.nibble_map.specs.Nibbles.{nibbles, IsShort};
ghost use Rattle.radix_keys.specs.Distinct.{reverse-injective, nibbles-injective, list-distinct};

use crate::endian::{BigEndian, KeyInt, LittleEndian};
use crate::keys::TrieKey;
use crate::keys::integers::{encode_integer, push_bytes};
use crate::nibbles::{Memory, Nibblet};
use smallvec::SmallVec;
use std::alloc::Global;

impl<T: KeyInt> TrieKey for BigEndian<T> {
    ghost encoding = { λ w. nibbles (T.bytes w) };

    ghost is_inline = { λ w. IsShort (nibbles (T.bytes w)) };

    ghost is_value = { λ w. T.is_value w };

    ghost distinct = { λ x y p q e. T.distinct x y p q (nibbles-injective _ _ e) };

    ghost inline_is_short = { λ _ h. h };

    fn encode(&self, alloc: Global) -> Result<Nibblet, Memory> {
        encode_integer(alloc, &self.value())
    }
}

impl<T: KeyInt> TrieKey for LittleEndian<T> {
    ghost encoding = { λ w. nibbles (reverse (T.bytes w)) };

    ghost is_inline = { λ w. IsShort (nibbles (reverse (T.bytes w))) };

    ghost is_value = { λ w. T.is_value w };

    ghost distinct = { λ x y p q e.
        T.distinct x y p q (reverse-injective _ _ (nibbles-injective _ _ e)) };

    ghost inline_is_short = { λ _ h. h };

    fn encode(&self, alloc: Global) -> Result<Nibblet, Memory> {
        let value = self.value();
        let mut out = SmallVec::new(alloc);
        for i in 0..T::WIDTH {
            out.push(value.byte(T::WIDTH - 1 - i))?;
        }
        Ok(Nibblet::from_small(out))
    }
}

impl<T: KeyInt> TrieKey for Vec<T> {
    ghost encoding = { λ v. nibbles (flat_map T.bytes v.items) };

    ghost is_inline = { λ v. IsShort (nibbles (flat_map T.bytes v.items)) };

    ghost is_value = { λ v. All T.is_value v.items };

    ghost distinct = { λ x y p q e.
        list-distinct T.bytes T.eq T.is_value T.WIDTH T.width_positive T.bytes_len T.distinct
        x.items y.items p q e };

    ghost inline_is_short = { λ _ h. h };

    fn encode(&self, alloc: Global) -> Result<Nibblet, Memory> {
        let mut out = SmallVec::new(alloc);
        for x in self {
            push_bytes(&mut out, x)?;
        }
        Ok(Nibblet::from_small(out))
    }
}

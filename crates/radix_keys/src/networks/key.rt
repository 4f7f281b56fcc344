//! Networks as keys of a trie.
ghost use Rattle.std.specs.Prelude.{◌≡◌, ◌-◌, ◌*◌, ◌^◌, IfOk, IsOk, OnOk};
ghost use Rattle.nibble_map.specs.Nibbles.{IsShort};
ghost use Rattle.radix_keys.specs.Bits.{first_bits};
ghost use Rattle.radix_keys.specs.FirstBits.{first_bits-distinct};
ghost use Rattle.radix_keys.specs.NetworkOrder.{KeepsNetworkOrder};
ghost use Rattle.radix_keys.specs.Networks.{IsBase};

use crate::bits::Bits;
use crate::keys::{AsNibbles, TrieKey};
use crate::networks::{Address, Network};
use crate::nibbles::{Memory, Nibblet};
use crate::slices::NibbleSlice;
use std::alloc::Global;

impl<A: Address> TrieKey for Network<A> {
    ghost encoding = { λ n. first_bits A.BITS (A.number n.base) n.bits };

    ghost is_inline = { λ n. IsShort (first_bits A.BITS (A.number n.base) n.bits) };

    ghost is_value = { λ n. IsBase A.BITS n.bits (A.number n.base) };

    ghost distinct = { λ x y p q e.
        first_bits-distinct A.BITS (A.number x.base) x.bits (A.number y.base) y.bits p q e };

    ghost inline_is_short = { λ _ h. h };

    /// The shared bits of the addresses, a nibble for each. The smaller network has the smaller
    /// encoding.
    fn encode(&self, alloc: Global) -> Result<Nibblet, Memory>
        ensures ok { IfOk result
            (λ v. v ≡ first_bits A.BITS (A.number self.now.base) self.now.bits) }
        ensures value { OnOk result (IsBase A.BITS self.now.bits (A.number self.now.base)) }
        ensures inline { IsShort (first_bits A.BITS (A.number self.now.base) self.now.bits)
            → IsOk result }
        ensures order { KeepsNetworkOrder A.BITS }
    {
        let aligned = self.base.to_number() << (128 - A::BITS);
        match Bits::first_of_u128(alloc, aligned, self.bits as usize) {
            Ok(bits) => Ok(bits.into_list()),
            Err(refused) => Err(refused),
        }
    }
}

impl<A: Address> AsNibbles for Network<A> {
    fn as_nibbles(&self) -> Option<NibbleSlice<'_>> {
        None
    }
}

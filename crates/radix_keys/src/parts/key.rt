//! Lists of parts as keys of a trie.
ghost use Rattle.std.specs.Prelude.{◌≡◌, IfOk, IsOk};
ghost use Rattle.nibble_map.specs.Nibbles.{nibbles, IsShort};
ghost use Rattle.radix_keys.specs.PartBytes.{parts-distinct};
ghost use Rattle.radix_keys.specs.Parts.{AreParts, part_bytes, KeepsPartsOrder};

use crate::keys::{AsNibbles, TrieKey};
use crate::nibbles::{Memory, Nibblet};
use crate::parts::Parts;
use crate::slices::NibbleSlice;
use std::alloc::Global;

impl TrieKey for Parts {
    ghost encoding = { λ parts. nibbles (part_bytes parts) };

    ghost is_inline = { λ parts. IsShort (nibbles (part_bytes parts)) };

    ghost is_value = { AreParts };

    ghost distinct = { parts-distinct };

    ghost inline_is_short = { λ _ h. h };

    /// The nibbles of each part's bytes, and of a 0 behind them. The smaller list has the smaller
    /// encoding.
    fn encode(&self, alloc: Global) -> Result<Nibblet, Memory>
        ensures ok { IfOk result (λ v. v ≡ nibbles (part_bytes self.now)) }
        ensures value { AreParts self.now }
        ensures inline { IsShort (nibbles (part_bytes self.now)) → IsOk result }
        ensures order { KeepsPartsOrder }
    {
        Nibblet::from_slice(alloc, self.bytes.as_slice())
    }
}

impl AsNibbles for Parts {
    ghost is_lent = { λ _. Unit {0} };

    fn as_nibbles(&self) -> Option<NibbleSlice<'_>> {
        Some(NibbleSlice::from_bytes(self.bytes.as_slice()))
    }
}

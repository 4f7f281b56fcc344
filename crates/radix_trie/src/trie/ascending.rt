//! The trie of keys in ascending order that a trie of plain signed keys becomes.
ghost use Rattle.std.specs.Prelude.{◌≡◌, IsOk, IfOk};
ghost use Rattle.std.specs.FinMap as map;
ghost use Rattle.nibble_map.specs.Copies.{IsPairClone};
ghost use Rattle.nibble_map.specs.Nibbles.{nibbles};
ghost use Rattle.nibble_map.specs.Turned.{IsTurnedCopy, IsSameFootprint};
ghost use Rattle.radix_keys.specs.AscendingKeys.{turned_bytes};
ghost use Rattle.radix_trie.specs.Keys.{IsKeyed};

use crate::trie::Trie;
use radix_keys::{Ascending, KeySigned, Memory};
use radix_nodes::whole::ascending::turned_copy;

impl<T: KeySigned, V: Clone> Trie<T, V> {
    /// The trie of the same keys in ascending order: the wrapper of each key, with a clone of its
    /// value, and nothing else. The new trie has as many nodes and nibbles. It takes the time of a
    /// walk and of the clones. The trie without pairs needs no allocation.
    ///
    /// # Errors
    ///
    /// `Memory`: an allocation fails, for the nodes or in a clone of a value. What was built is
    /// dropped, and the trie itself stays as it is.
    pub fn to_ascending(&self) -> Result<Trie<Ascending<T>, V>, Memory>
        // Each list comes with its top bit flipped, as the wrapper's encoding has it.
        ensures moved { IfOk result (λ moved.
            IsTurnedCopy (IsPairClone (λ x y. y ≡ x) V.is_clone) self.now moved) }
        ensures keyed { IfOk result (λ moved.
            IsKeyed T.TrieKey.encoding T.KeyInt.is_value self.now → IsKeyed
            (λ key. nibbles (turned_bytes (T.KeyInt.bytes key))) T.KeyInt.is_value moved) }
        ensures footprint { IfOk result (λ moved. IsSameFootprint self.now moved) }
        ensures inline { map.len self.now ≡ 0 → IsOk result }
    {
        Ok(Trie {
            root: turned_copy(&self.root, self.alloc)?,
            length: self.length,
            nodes: self.nodes,
            nibbles: self.nibbles,
            alloc: self.alloc,
        })
    }
}

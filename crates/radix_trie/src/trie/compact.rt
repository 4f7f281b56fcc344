//! The nodes laid anew in the order of walks.
ghost use Rattle.std.specs.Prelude.{◌≡◌, IsOk};
ghost use Rattle.std.specs.FinMap as map;

use crate::trie::Trie;
use radix_keys::{Memory, TrieKey};
use radix_nodes::whole::compact::lay_anew;

impl<K: TrieKey + Drop, V: Drop> Trie<K, V> {
    /// Lays the nodes anew in memory, in the order in which a walk comes to them. The map and the
    /// counts stay the same, and so does what each call returns.
    ///
    /// A trie that was filled in any other order has its nodes scattered, so this is for a table
    /// that is read often and changed seldom. Later changes are as before: the nodes that they make
    /// lie wherever the allocator puts them, and the others stay. A node has no room for more
    /// children than it has, so the first child that is added to it allocates room for all of them.
    ///
    /// Its time is that of a walk over all nodes. While it runs, the trie holds a second
    /// set of nodes with their lists of children, and gives the first set back at the end. Pairs
    /// stay in the boxes where they are, and so do the nibbles of a fragment of more than 32: no
    /// key and no value is cloned. The trie without pairs allocates nothing.
    ///
    /// # Errors
    ///
    /// `Memory`: an allocation fails. Nothing has been moved then.
    pub fn compact(&mut self) -> Result<(), Memory>
        ensures same { self.new ≡ self.old }
        ensures inline { map.len self.old ≡ 0 → IsOk result }
    {
        lay_anew(&mut self.root, self.alloc)
    }
}

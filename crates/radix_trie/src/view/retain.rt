//! The removal of the pairs within a view that a closure doesn't keep.
ghost use Rattle.std.specs.FinMap as map;
ghost use Rattle.std.specs.Prelude.{◌≡◌, All, IsOk, OnOk, OnErr};
ghost use Rattle.nibble_map.specs.Maps.{below, without_below};
ghost use Rattle.radix_trie.specs.Keys.{IsKeyed};
ghost use Rattle.radix_trie.specs.Retains.{Retains, RetainsAtLeast, RetainsBefore, ReturnsAtPair, TakesPairAt};
ghost use Rattle.radix_trie.specs.Views.{pairs_below};
ghost use Rattle.radix_trie.specs.WriteViews.{map_behind, path_of, SameView};

use crate::view::subtrie_mut::SubTrieMut;
use radix_keys::{Memory, TrieKey};

impl<'a, K: TrieKey + Drop, V: Drop> SubTrieMut<'a, K, V> {
    /// Keeps, of the pairs at and below the path, those of which the closure returns true, and
    /// removes all others of these, as `Trie::retain_below` does.
    ///
    /// The closure has to be callable on each of these pairs.
    ///
    /// # Errors
    ///
    /// Those of `Trie::retain_below`, but none for the path.
    pub fn retain<F: Fn(&K, &V) -> bool>(&mut self, keep: F) -> Result<(), Memory>
        requires callable { All (TakesPairAt F.Fn keep)
            (pairs_below (map_behind self.old) (path_of self.old)) }
        ensures same_view { SameView self.old self.new }
        ensures retained { OnOk result (Retains (ReturnsAtPair F.Fn keep)
            (below (map_behind self.old) (path_of self.old))
            (below (map_behind self.new) (path_of self.old))) }
        ensures at_least { RetainsAtLeast (ReturnsAtPair F.Fn keep)
            (below (map_behind self.old) (path_of self.old))
            (below (map_behind self.new) (path_of self.old)) }
        ensures stopped { OnErr result (RetainsBefore (ReturnsAtPair F.Fn keep)
            (below (map_behind self.old) (path_of self.old))
            (below (map_behind self.new) (path_of self.old))) }
        ensures elsewhere { without_below (map_behind self.new) (path_of self.old)
            ≡ without_below (map_behind self.old) (path_of self.old) }
        ensures keyed { IsKeyed K.encoding K.is_value (map_behind self.old)
            → IsKeyed K.encoding K.is_value (map_behind self.new) }
        ensures none { map.len (below (map_behind self.old) (path_of self.old)) ≡ 0
            → IsOk result }
    {
        self.trie.retain_at(&self.path, &keep)
    }
}

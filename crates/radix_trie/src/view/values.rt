//! Changes of all values within a view.
ghost use Rattle.std.specs.Prelude.{◌≡◌, All};
ghost use Rattle.nibble_map.specs.Maps.{below, without_below};
ghost use Rattle.radix_trie.specs.Keys.{IsKeyed};
ghost use Rattle.radix_trie.specs.Values.{ChangesEachPair, LeavesAtPair, TakesPairAtMut};
ghost use Rattle.radix_trie.specs.Views.{pairs_below};
ghost use Rattle.radix_trie.specs.WriteViews.{map_behind, path_of, SameView};

use crate::view::subtrie_mut::SubTrieMut;
use radix_keys::TrieKey;

impl<'a, K: TrieKey, V> SubTrieMut<'a, K, V> {
    /// Changes each value at and below the path by one call of the closure with the pair's key, as
    /// `Trie::for_each_mut_below` does. No memory is allocated.
    ///
    /// The closure has to be callable on each of these pairs.
    pub fn for_each_mut<F: Fn(&K, &mut V)>(&mut self, f: F)
        requires callable { All (TakesPairAtMut F.Fn f)
            (pairs_below (map_behind self.old) (path_of self.old)) }
        ensures same_view { SameView self.old self.new }
        ensures changed { ChangesEachPair (LeavesAtPair F.Fn f)
            (below (map_behind self.old) (path_of self.old))
            (below (map_behind self.new) (path_of self.old)) }
        ensures elsewhere { without_below (map_behind self.new) (path_of self.old)
            ≡ without_below (map_behind self.old) (path_of self.old) }
        ensures keyed { IsKeyed K.encoding K.is_value (map_behind self.old)
            → IsKeyed K.encoding K.is_value (map_behind self.new) }
    {
        self.trie.change_below(&self.path, &f);
    }
}

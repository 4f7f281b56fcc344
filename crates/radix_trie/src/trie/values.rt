//! Changes of all values, and of those below a key.
ghost use Rattle.std.specs.Prelude.{◌≡◌, [], All, IsOk, OnErr, OnOk};
ghost use Rattle.nibble_map.specs.Maps.{below, without_below};
ghost use Rattle.radix_trie.specs.Keys.{IsKeyed};
ghost use Rattle.radix_trie.specs.Values.{ChangesEachPair, LeavesAtPair, TakesPairAtMut};
ghost use Rattle.radix_trie.specs.Views.{pairs_below};

use crate::trie::Trie;
use radix_keys::{Memory, Nibblet, TrieKey};
use radix_nodes::whole::values::{change_branch, change_values};

impl<K: TrieKey, V> Trie<K, V> {
    /// Changes each value by one call of the closure with the pair's key, in the time of a walk.
    /// The encodings and the keys stay, and no memory is allocated.
    ///
    /// The closure has to be callable on each pair.
    pub fn for_each_mut<F: Fn(&K, &mut V)>(&mut self, f: F)
        requires callable { All (TakesPairAtMut F.Fn f) (pairs_below self.old []) }
        ensures changed { ChangesEachPair (LeavesAtPair F.Fn f) self.old self.new }
        ensures keyed { IsKeyed K.encoding K.is_value self.old
            → IsKeyed K.encoding K.is_value self.new }
    {
        change_values(&mut self.root, &f);
    }

    /// Changes each value at and below the key by one call of the closure with the pair's
    /// key. The encodings and the keys stay. The time is that of a lookup and of the pairs below
    /// the key.
    ///
    /// The closure has to be callable on each of these pairs. The key needn't be stored, nor be a
    /// point.
    ///
    /// # Errors
    ///
    /// `Memory`: the encoding's allocation fails; an inline key needs none. On failure the trie is
    /// as before.
    pub fn for_each_mut_below<Q: TrieKey, F: Fn(&K, &mut V)>(
        &mut self,
        key: &Q,
        f: F,
    ) -> Result<(), Memory>
        requires callable { All (TakesPairAtMut F.Fn f)
            (pairs_below self.old (Q.encoding key.now)) }
        ensures changed { OnOk result (ChangesEachPair (LeavesAtPair F.Fn f)
            (below self.old (Q.encoding key.now)) (below self.new (Q.encoding key.now))) }
        ensures elsewhere { without_below self.new (Q.encoding key.now)
            ≡ without_below self.old (Q.encoding key.now) }
        ensures unchanged { OnErr result (self.new ≡ self.old) }
        ensures keyed { IsKeyed K.encoding K.is_value self.old
            → IsKeyed K.encoding K.is_value self.new }
        ensures inline { Q.is_inline key.now → IsOk result }
    {
        let list = key.encode(self.alloc)?;
        self.change_below(&list, &f);
        Ok(())
    }

    /// What `for_each_mut_below` does, with the key's encoding in hand.
    pub(crate) fn change_below<F: Fn(&K, &mut V)>(&mut self, list: &Nibblet, f: &F)
        requires callable { All (TakesPairAtMut F.Fn f.now) (pairs_below self.old list.now) }
        ensures changed { ChangesEachPair (LeavesAtPair F.Fn f.now)
            (below self.old list.now) (below self.new list.now) }
        ensures elsewhere { without_below self.new list.now ≡ without_below self.old list.now }
    {
        if list.len() == 0 {
            change_values(&mut self.root, f);
        } else {
            change_branch(&mut self.root, list, 0, f);
        }
    }
}

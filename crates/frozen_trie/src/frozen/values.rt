//! Changes of all values, each by one call of a closure. No pair moves, so encodings and links
//! stay.
ghost use Rattle.std.specs.Prelude.{◌≡◌, [], All};
ghost use Rattle.radix_trie.specs.Values.{ChangesEachPair, LeavesAtPair, TakesPairAtMut};
ghost use Rattle.radix_trie.specs.Views.{pairs_below};
ghost use Rattle.frozen_trie.specs.Changes.{AreChanged};

use crate::frozen::FrozenTrie;
use radix_keys::TrieKey;

impl<K: TrieKey, V> FrozenTrie<K, V> {
    /// Changes each value by one call of the closure with the pair's key, in the order of the
    /// encodings. The keys stay, and no memory is allocated.
    ///
    /// The closure has to be callable on each pair.
    pub fn for_each_mut<F: Fn(&K, &mut V)>(&mut self, f: F)
        requires callable { All (TakesPairAtMut F.Fn f) (pairs_below self.old []) }
        ensures changed { ChangesEachPair (LeavesAtPair F.Fn f) self.old self.new }
    {
        change_pairs(&mut self.pairs, &f);
    }
}

/// Changes the value of each pair by one call of the closure, in order.
fn change_pairs<K, V, F: Fn(&K, &mut V)>(pairs: &mut [(K, V)], f: &F)
    requires callable { All (TakesPairAtMut F.Fn f.now) pairs.old }
    ensures { AreChanged (LeavesAtPair F.Fn f.now) pairs.old pairs.new }
{
    for i in 0..pairs.len() {
        change(&mut pairs[i], f);
    }
}

/// Changes the value of a pair by one call of the closure.
fn change<K, V, F: Fn(&K, &mut V)>(pair: &mut (K, V), f: &F)
    requires callable { TakesPairAtMut F.Fn f.now pair.old }
    ensures key { pair.new.0 ≡ pair.old.0 }
    ensures value { LeavesAtPair F.Fn f.now pair.old pair.new.1 }
{
    let (key, value) = pair;
    f(key, value);
}

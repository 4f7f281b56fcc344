//! Removals of the pairs that a closure doesn't keep.
ghost use Rattle.std.specs.FinMap as map;
ghost use Rattle.std.specs.Prelude.{◌≡◌, [], All, IsOk, IfOk, OnOk, OnErr};
ghost use Rattle.nibble_map.specs.Maps.{below, without_below};
ghost use Rattle.radix_trie.specs.Keys.{IsKeyed};
ghost use Rattle.radix_trie.specs.Retains.{RemovesAll, RemovesBeforeOne, RemovesSome, Retains, RetainsAtLeast, RetainsBefore, ReturnsAtPair, Sifts, TakesPairAt};
ghost use Rattle.radix_trie.specs.Views.{pairs_below};

use crate::key_laws::keys_stand_at_their_encodings;
use crate::locus::Locus;
use crate::trie::Trie;
use radix_keys::{Memory, Nibblet, TrieKey};

impl<K: TrieKey + Drop, V: Drop> Trie<K, V> {
    /// Keeps the pairs of which the closure returns true, and removes all others. It is called once
    /// for each pair, in the order of the encodings, before the first one is removed.
    ///
    /// The closure has to be callable on each pair. The time is that of the walk, and of a lookup
    /// for each pair that is removed.
    ///
    /// # Errors
    ///
    /// Those of `retain_below`.
    pub fn retain<F: Fn(&K, &V) -> bool>(&mut self, keep: F) -> Result<(), Memory>
        requires callable { All (TakesPairAt F.Fn keep) (pairs_below self.old []) }
        ensures retained { OnOk result (Retains (ReturnsAtPair F.Fn keep) self.old self.new) }
        ensures at_least { RetainsAtLeast (ReturnsAtPair F.Fn keep) self.old self.new }
        ensures stopped { OnErr result
            (RetainsBefore (ReturnsAtPair F.Fn keep) self.old self.new) }
        ensures keyed { IsKeyed K.encoding K.is_value self.old
            → IsKeyed K.encoding K.is_value self.new }
        ensures none { map.len self.old ≡ 0 → IsOk result }
    {
        let whole = Nibblet::new(self.alloc);
        self.retain_at(&whole, &keep)
    }

    /// Keeps, of the pairs at and below the key, those of which the closure returns true,
    /// and removes all others of these. It is called once for each of them, in the order of the
    /// encodings, before the first one is removed.
    ///
    /// The closure has to be callable on each of these pairs. The key needn't be stored, nor be a
    /// point. The time is that of the walk below it, and of a lookup for each pair that is removed.
    ///
    /// # Errors
    ///
    /// `Memory`: an allocation fails, for an encoding, the walk, the list of encodings, or for
    /// joining two fragments, as in `remove`. If it fails for a join, the pairs before it that
    /// weren't kept are gone, and no other; else nothing has changed.
    pub fn retain_below<Q: TrieKey, F: Fn(&K, &V) -> bool>(
        &mut self,
        key: &Q,
        keep: F,
    ) -> Result<(), Memory>
        requires callable { All (TakesPairAt F.Fn keep)
            (pairs_below self.old (Q.encoding key.now)) }
        ensures retained { OnOk result (Retains (ReturnsAtPair F.Fn keep)
            (below self.old (Q.encoding key.now)) (below self.new (Q.encoding key.now))) }
        ensures at_least { RetainsAtLeast (ReturnsAtPair F.Fn keep)
            (below self.old (Q.encoding key.now)) (below self.new (Q.encoding key.now)) }
        ensures stopped { OnErr result (RetainsBefore (ReturnsAtPair F.Fn keep)
            (below self.old (Q.encoding key.now)) (below self.new (Q.encoding key.now))) }
        ensures elsewhere { without_below self.new (Q.encoding key.now)
            ≡ without_below self.old (Q.encoding key.now) }
        ensures keyed { IsKeyed K.encoding K.is_value self.old
            → IsKeyed K.encoding K.is_value self.new }
        ensures inline_none { Q.is_inline key.now
            → map.len (below self.old (Q.encoding key.now)) ≡ 0
            → IsOk result }
    {
        let list = key.encode(self.alloc)?;
        self.retain_at(&list, &keep)
    }

    /// What `retain_below` does, with the key's encoding in hand.
    pub(crate) fn retain_at<F: Fn(&K, &V) -> bool>(
        &mut self,
        list: &Nibblet,
        keep: &F,
    ) -> Result<(), Memory>
        requires callable { All (TakesPairAt F.Fn keep.now) (pairs_below self.old list.now) }
        ensures retained { OnOk result (Retains (ReturnsAtPair F.Fn keep.now)
            (below self.old list.now) (below self.new list.now)) }
        ensures at_least { RetainsAtLeast (ReturnsAtPair F.Fn keep.now)
            (below self.old list.now) (below self.new list.now) }
        ensures stopped { OnErr result (RetainsBefore (ReturnsAtPair F.Fn keep.now)
            (below self.old list.now) (below self.new list.now)) }
        ensures elsewhere { without_below self.new list.now ≡ without_below self.old list.now }
        ensures keyed { IsKeyed K.encoding K.is_value self.old
            → IsKeyed K.encoding K.is_value self.new }
        ensures none { map.len (below self.old list.now) ≡ 0 → IsOk result }
    {
        keys_stand_at_their_encodings(&*self);
        let gone = self.not_kept(list, keep)?;
        self.remove_all(&gone)
    }

    /// The encodings of the keys at and below a list whose pairs the closure doesn't keep, in
    /// order.
    fn not_kept<F: Fn(&K, &V) -> bool>(
        &self,
        list: &Nibblet,
        keep: &F,
    ) -> Result<Vec<Nibblet>, Memory>
        requires callable { All (TakesPairAt F.Fn keep.now) (pairs_below self.now list.now) }
        ensures gone { IfOk result (λ gone. Sifts (ReturnsAtPair F.Fn keep.now) K.encoding
            (pairs_below self.now list.now) gone.items) }
        ensures none { map.len (below self.now list.now) ≡ 0 → IsOk result }
    {
        let mut gone = Vec::new(self.alloc);
        let mut pairs = Locus::find(self, list).cursor();
        while let Some((key, value)) = pairs.next()? {
            if !keeps(keep, key, value) {
                gone.push(key.encode(self.alloc)?)?;
            }
        }
        Ok(gone)
    }

    /// Removes the pairs at the lists, in order.
    fn remove_all(&mut self, lists: &[Nibblet]) -> Result<(), Memory>
        ensures removed { OnOk result (RemovesAll lists.now self.old self.new) }
        ensures some { RemovesSome lists.now self.old self.new }
        ensures stopped { OnErr result (RemovesBeforeOne lists.now self.old self.new) }
        ensures none { lists.now ≡ [] → IsOk result }
    {
        let mut rest = lists;
        while let Some((list, others)) = rest.split_first() {
            let _ = self.take_at(list)?;
            rest = others;
        }
        Ok(())
    }
}

/// What the closure returns of a pair.
fn keeps<K, V, F: Fn(&K, &V) -> bool>(keep: &F, key: &K, value: &V) -> bool
    requires { TakesPairAt F.Fn keep.now (key.now, value.now) }
    ensures { ReturnsAtPair F.Fn keep.now (key.now, value.now) result }
{
    keep(key, value)
}

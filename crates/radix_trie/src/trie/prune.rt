//! The removal of all pairs at and below a key's place.
ghost use Rattle.std.specs.Prelude.{[], ◌≡◌, ◌<◌, length, None, IsOk, IfOk, IfErr, OnOk, OnErr};
ghost use Rattle.std.specs.FinMap as map;
ghost use Rattle.nibble_map.specs.Maps.{below, without_below};
ghost use Rattle.radix_trie.specs.Views.{pairs_below};

use crate::locus::Locus;
use crate::trie::Trie;
use radix_keys::{Memory, Nibblet, TrieKey};
use radix_nodes::removal::prune::{prune_all, prune_root};

impl<K: TrieKey + Drop, V: Drop> Trie<K, V> {
    /// Removes all pairs at and below the key, and returns them in the order of their
    /// encodings.
    ///
    /// The key needn't be stored, nor be a point. Where nothing stands there nothing changes, and
    /// the list is empty. The time is that of a lookup and of two walks over these pairs.
    ///
    /// # Errors
    ///
    /// `Memory`: an allocation fails, for the encoding, the list of pairs, or for joining two
    /// fragments. On failure the trie is as before.
    ///
    /// # Examples
    ///
    /// ```
    /// # use nifazombi::{radix_trie::Trie, rattle_std::alloc::Global};
    /// let mut all = Trie::from_iter(Global, [("tea", 1), ("team", 2), ("inn", 3)].into_iter())?;
    /// for (key, value) in all.remove_prefix(&"te")? {
    ///     println!("{key} {value}");
    /// }
    /// assert_eq!(all.len(), 1);
    /// # Ok::<(), Box<dyn std::error::Error>>(())
    /// ```
    ///
    /// `move_below` in `crates/trie_examples/src/moves.rt` proves that nothing else changes.
    pub fn remove_prefix<Q: TrieKey>(&mut self, key: &Q) -> Result<Vec<(K, V)>, Memory>
        ensures pairs { IfOk result
            (λ gone. gone.items ≡ pairs_below self.old (Q.encoding key.now)) }
        ensures removed { OnOk result (self.new ≡ without_below self.old (Q.encoding key.now)) }
        ensures unchanged { OnErr result (self.new ≡ self.old) }
        ensures inline_none { Q.is_inline key.now
            → map.len (below self.old (Q.encoding key.now)) ≡ 0
            → IsOk result }
    {
        let list = key.encode(self.alloc)?;
        self.prune_at(&list)
    }

    /// What `remove_prefix` does, with the key's encoding in hand.
    pub(crate) fn prune_at(&mut self, list: &Nibblet) -> Result<Vec<(K, V)>, Memory>
        ensures pairs { IfOk result (λ gone. gone.items ≡ pairs_below self.old list.now) }
        ensures removed { OnOk result (self.new ≡ without_below self.old list.now) }
        ensures unchanged { OnErr result (self.new ≡ self.old) }
        ensures none { map.len (below self.old list.now) ≡ 0 → IsOk result }
    {
        if list.len() == 0 {
            return self.prune_whole();
        }
        let room = Vec::with_capacity(self.alloc, Locus::find(&*self, list).len())?;
        match prune_root(&mut self.root, list, room) {
            Ok(Some(pruned)) => {
                self.length -= pruned.pairs.len();
                self.nodes -= pruned.nodes;
                self.nibbles -= pruned.nibbles;
                Ok(pruned.pairs)
            }
            Ok(None) => Ok(Vec::new(self.alloc)),
            Err(refusal) => Err(refusal),
        }
    }

    /// All pairs, in the order of their encodings. It takes the time of a walk.
    ///
    /// # Errors
    ///
    /// The trie itself, as it was: the allocation of the list fails.
    pub fn into_pairs(self) -> Result<Vec<(K, V)>, Trie<K, V>>
        ensures pairs { IfOk result (λ pairs. pairs.items ≡ pairs_below self []) }
        ensures handed_back { IfErr result (λ trie. trie ≡ self) }
        ensures none { map.len (below self []) ≡ 0 → IsOk result }
    {
        let mut trie = self;
        match trie.prune_whole() {
            Ok(pairs) => Ok(pairs),
            Err(_) => Err(trie),
        }
    }

    // The same of all pairs.
    fn prune_whole(&mut self) -> Result<Vec<(K, V)>, Memory>
        ensures pairs { IfOk result (λ gone. gone.items ≡ pairs_below self.old []) }
        ensures removed { OnOk result (self.new ≡ without_below self.old []) }
        ensures unchanged { OnErr result (self.new ≡ self.old) }
        ensures none { map.len (below self.old []) ≡ 0 → IsOk result }
    {
        match prune_all(&mut self.root, self.alloc) {
            Ok(pruned) => {
                self.length -= pruned.pairs.len();
                self.nodes -= pruned.nodes;
                self.nibbles -= pruned.nibbles;
                Ok(pruned.pairs)
            }
            Err(refusal) => Err(refusal),
        }
    }
}

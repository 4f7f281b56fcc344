//! Removals of one pair, and of all.
ghost use Rattle.std.specs.Prelude.{◌≡◌, ℕ, List, None, IsOk, IfOk, OnOk, OnErr};
ghost use Rattle.std.specs.FinMap as map;
ghost use Rattle.nibble_map.specs.Maps.{IsStored, value_at};
ghost use Rattle.nibble_map.specs.Nibbles.{IsShort};
ghost use Rattle.radix_trie.specs.Refusals.{JoinsAreShort};

use crate::trie::Trie;
use radix_keys::{Memory, Nibblet, TrieKey};
use radix_nodes::removal::remove::remove_root;

impl<K: TrieKey + Drop, V: Drop> Trie<K, V> {
    /// Removes the pair at the key's encoding, and returns its value. Where none is stored
    /// there, nothing changes.
    ///
    /// # Errors
    ///
    /// `Memory`: an allocation fails, for the encoding or for joining two fragments: that of a node
    /// which is left with no pair and one child, and that of this child, where they have more than
    /// 32 nibbles together. On failure the trie is as before.
    ///
    /// # Examples
    ///
    /// ```
    /// # use nifazombi::{radix_trie::Trie, rattle_std::alloc::Global};
    /// let mut trie = Trie::new(Global);
    /// trie.insert("haskell", 36)?;
    /// assert_eq!(trie.remove(&"haskell")?, Some(36));
    /// assert_eq!(trie.get(&"haskell")?, None);
    /// # Ok::<(), Box<dyn std::error::Error>>(())
    /// ```
    ///
    /// `taken_away` in `crates/trie_examples/src/cited.rt` proves that nothing is found then.
    pub fn remove<Q: TrieKey>(&mut self, key: &Q) -> Result<Option<V>, Memory>
        ensures old_value { IfOk result (λ old. old ≡ value_at self.old (Q.encoding key.now)) }
        ensures removed { OnOk result (self.new ≡ map.remove self.old (Q.encoding key.now)) }
        ensures unchanged { OnErr result (self.new ≡ self.old) }

        ensures inline_absent { Q.is_inline key.now → map.get self.old (Q.encoding key.now) ≡ None
            → IsOk result }
        ensures inline_short { Q.is_inline key.now
            → ((e : List ℕ) → IsStored self.old e → IsShort e)
            → IsOk result }
        ensures join { Q.is_inline key.now → JoinsAreShort self.old (Q.encoding key.now)
            → IsOk result }
    {
        let list = key.encode(self.alloc)?;
        self.take_at(&list)
    }

    /// Removes the pair at the key's encoding, and returns the stored key and its value. Where
    /// none is stored there, nothing changes.
    ///
    /// # Errors
    ///
    /// Those of `remove`. On failure the trie is as before.
    pub fn remove_entry<Q: TrieKey>(&mut self, key: &Q) -> Result<Option<(K, V)>, Memory>
        ensures old_pair { IfOk result (λ old. old ≡ map.get self.old (Q.encoding key.now)) }
        ensures removed { OnOk result (self.new ≡ map.remove self.old (Q.encoding key.now)) }
        ensures unchanged { OnErr result (self.new ≡ self.old) }

        ensures inline_absent { Q.is_inline key.now → map.get self.old (Q.encoding key.now) ≡ None
            → IsOk result }
        ensures inline_short { Q.is_inline key.now
            → ((e : List ℕ) → IsStored self.old e → IsShort e)
            → IsOk result }
        ensures join { Q.is_inline key.now → JoinsAreShort self.old (Q.encoding key.now)
            → IsOk result }
    {
        let list = key.encode(self.alloc)?;
        self.take_entry_at(&list)
    }

    /// What `remove` does, with the key's encoding in hand.
    pub(crate) fn take_at(&mut self, list: &Nibblet) -> Result<Option<V>, Memory>
        ensures old_value { IfOk result (λ old. old ≡ value_at self.old list.now) }
        ensures removed { OnOk result (self.new ≡ map.remove self.old list.now) }
        ensures unchanged { OnErr result (self.new ≡ self.old) }
        ensures absent { map.get self.old list.now ≡ None → IsOk result }
        ensures short { ((e : List ℕ) → IsStored self.old e → IsShort e) → IsOk result }
        ensures join { JoinsAreShort self.old list.now → IsOk result }
    {
        match self.take_entry_at(list) {
            Ok(Some((_, value))) => Ok(Some(value)),
            Ok(None) => Ok(None),
            Err(refusal) => Err(refusal),
        }
    }

    /// What `remove_entry` does, with the key's encoding in hand.
    pub(crate) fn take_entry_at(&mut self, list: &Nibblet) -> Result<Option<(K, V)>, Memory>
        ensures old_pair { IfOk result (λ old. old ≡ map.get self.old list.now) }
        ensures removed { OnOk result (self.new ≡ map.remove self.old list.now) }
        ensures unchanged { OnErr result (self.new ≡ self.old) }
        ensures absent { map.get self.old list.now ≡ None → IsOk result }
        ensures short { ((e : List ℕ) → IsStored self.old e → IsShort e) → IsOk result }
        ensures join { JoinsAreShort self.old list.now → IsOk result }
    {
        match remove_root(&mut self.root, list) {
            Ok(Some(removed)) => {
                self.length -= 1;
                self.nodes -= removed.nodes as u128;
                self.nibbles -= removed.nibbles as u128;
                Ok(Some((removed.pair.key, removed.pair.value)))
            }
            Ok(None) => Ok(None),
            Err(refusal) => Err(refusal),
        }
    }

    /// Removes all pairs, in the time of a walk. It allocates nothing.
    pub fn clear(&mut self)
        ensures empty { self.new ≡ map.empty }
    {
        *self = Trie::new(self.alloc);
    }
}

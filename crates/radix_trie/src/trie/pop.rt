//! Removals of the first pair and of the last.
ghost use Rattle.std.specs.Prelude.{◌≡◌, ◌-◌, ℕ, List, [], length, IsOk, IfOk, OnErr, MatchOption, slice_get};
ghost use Rattle.std.specs.Option.{ForSome};
ghost use Rattle.std.specs.FinMap as map;
ghost use Rattle.nibble_map.specs.Maps.{IsStored};
ghost use Rattle.nibble_map.specs.Nibbles.{IsShort};
ghost use Rattle.radix_nodes.specs.Ends.{at_end};
ghost use Rattle.radix_trie.specs.Refusals.{JoinsAreShort};
ghost use Rattle.radix_trie.specs.Views.{pairs_below};

use crate::trie::Trie;
use radix_keys::{Memory, TrieKey};
use radix_nodes::removal::pop::{End, pop_root};

impl<K: TrieKey + Drop, V: Drop> Trie<K, V> {
    /// Removes the pair with the first encoding, in the order of walks, and returns it; None
    /// where no pair is stored. No key is encoded.
    ///
    /// # Errors
    ///
    /// `Memory`: an allocation fails, for joining two fragments: that of a node which is left with
    /// no pair and one child, and that of this child, where they have more than 32 nibbles
    /// together. On failure the trie is as before.
    pub fn pop_first(&mut self) -> Result<Option<(K, V)>, Memory>
        ensures first { IfOk result (λ first. first ≡ slice_get (pairs_below self.old []) 0) }
        ensures removed { IfOk result (λ first. MatchOption first (self.new ≡ self.old)
            (λ pair. self.new ≡ map.remove self.old (K.encoding pair.0))) }
        ensures unchanged { OnErr result (self.new ≡ self.old) }
        ensures short { ((e : List ℕ) → IsStored self.old e → IsShort e) → IsOk result }
        ensures join { ForSome (slice_get (pairs_below self.old []) 0)
            (λ pair. JoinsAreShort self.old (K.encoding pair.0)) → IsOk result }
    {
        self.pop(End::First)
    }

    /// Removes the pair with the last encoding, in the order of walks, and returns it; None
    /// where no pair is stored. No key is encoded.
    ///
    /// # Errors
    ///
    /// Those of `pop_first`. On failure the trie is as before.
    pub fn pop_last(&mut self) -> Result<Option<(K, V)>, Memory>
        ensures last { IfOk result (λ last. last ≡ slice_get (pairs_below self.old [])
            (length (pairs_below self.old []) - 1)) }
        ensures removed { IfOk result (λ last. MatchOption last (self.new ≡ self.old)
            (λ pair. self.new ≡ map.remove self.old (K.encoding pair.0))) }
        ensures unchanged { OnErr result (self.new ≡ self.old) }
        ensures short { ((e : List ℕ) → IsStored self.old e → IsShort e) → IsOk result }
        ensures join { ForSome (slice_get (pairs_below self.old [])
            (length (pairs_below self.old []) - 1))
            (λ pair. JoinsAreShort self.old (K.encoding pair.0)) → IsOk result }
    {
        self.pop(End::Last)
    }

    // What `pop_first` and `pop_last` do, by the end.
    fn pop(&mut self, end: End) -> Result<Option<(K, V)>, Memory>
        ensures pair { IfOk result (λ pair. pair ≡ at_end end (pairs_below self.old [])) }
        ensures removed { IfOk result (λ pair. MatchOption pair (self.new ≡ self.old)
            (λ pair. self.new ≡ map.remove self.old (K.encoding pair.0))) }
        ensures unchanged { OnErr result (self.new ≡ self.old) }
        ensures short { ((e : List ℕ) → IsStored self.old e → IsShort e) → IsOk result }
        ensures join { ForSome (at_end end (pairs_below self.old []))
            (λ pair. JoinsAreShort self.old (K.encoding pair.0)) → IsOk result }
    {
        match pop_root(&mut self.root, end) {
            Ok(Some(removed)) => {
                self.length -= 1;
                self.nodes -= removed.nodes as u128;
                self.nibbles -= removed.nibbles as u128;
                Ok(Some((removed.pair.key, removed.pair.value)))
            }
            Ok(None) => Ok(None),
            Err(refusal) => Err(refusal),
        }
    }
}

//! Lookups of a list of nibbles in hand. They allocate nothing, and never fail.
ghost use Rattle.std.specs.Prelude.{◌≡◌, ◌↔◌, IsTrue, MatchOption, None, option_copied, option_map};
ghost use Rattle.std.specs.FinMap as map;
ghost use Rattle.nibble_map.specs.Maps.{IsStored, value_at};
ghost use Rattle.radix_nodes.specs.Nodes.{tree_of};
ghost use Rattle.radix_nodes.specs.Pairs.{pair_of};
ghost use Rattle.radix_trie.specs.Views.{IsPairAbove, IsValueAbove};
ghost use Rattle.radix_trie.specs.Walks.{deref_pair};

use crate::iter::key_value_of;
use crate::trie::Trie;
use radix_keys::{Nibblet, TrieKey};
use radix_nodes::search::find::find;
use radix_nodes::search::queries::deepest_pair;
use radix_nodes::trie_node::{KeyValue, TrieNode};

impl<K: TrieKey, V> Trie<K, V> {
    /// The pair at a list.
    pub(crate) fn pair_at(&self, list: &Nibblet) -> Option<&KeyValue<K, V>>
        ensures { option_map (λ p. pair_of p.now) result ≡ map.get self.now list.now }
    {
        match find(self.root(), list, 0) {
            Some(node) => node.pair(),
            None => None,
        }
    }

    /// The value at a list of nibbles, if one is stored there. It allocates nothing.
    pub fn at(&self, list: &Nibblet) -> Option<&V>
        ensures value { option_copied result ≡ value_at self.now list.now }
    {
        match self.pair_at(list) {
            Some(pair) => Some(&pair.value),
            None => None,
        }
    }

    /// Whether a pair is stored at a list of nibbles. It allocates nothing.
    pub fn contains(&self, list: &Nibblet) -> bool
        ensures stored { IsTrue result ↔ IsStored self.now list.now }
    {
        self.pair_at(list).is_some()
    }

    /// The pair at the longest stored list that is a prefix of a list.
    fn pair_above(&self, list: &Nibblet) -> Option<&KeyValue<K, V>>
        ensures { IsPairAbove self.now list.now (option_map (λ p. pair_of p.now) result) }
    {
        pair_in(deepest_pair(self.root(), list, 0))
    }

    /// The key and the value at the longest stored list that is a prefix of a list of nibbles, or
    /// None where there is none. It allocates nothing.
    pub fn nearest(&self, list: &Nibblet) -> Option<(&K, &V)>
        ensures pair { IsPairAbove self.now list.now (option_map deref_pair result) }
    {
        key_value_of(self.pair_above(list))
    }

    /// The value at the longest stored list that is a prefix of a list of nibbles, or None where
    /// there is none. It allocates nothing.
    pub fn nearest_value(&self, list: &Nibblet) -> Option<&V>
        ensures value { IsValueAbove self.now list.now (option_copied result) }
    {
        let (_, value) = self.nearest(list)?;
        Some(value)
    }
}

/// The pair in the node that a lookup has found, if there is one.
pub(super) fn pair_in<'a, K, V>(
    nearest: Option<(&'a TrieNode<K, V>, usize)>,
) -> Option<&'a KeyValue<K, V>>
    ensures { MatchOption nearest.entry (option_map (λ p. pair_of p.now) result ≡ None)
        (λ found. option_map (λ p. pair_of p.now) result
        ≡ option_map pair_of (tree_of found.0.now).pair) }
{
    let (node, _) = nearest?;
    node.pair()
}

//! The lookups that return what they cost.
ghost use Rattle.std.specs.Prelude.{◌≡◌, ◌*◌, ◌≤◌, IfOk, IsOk, MatchOption, None, length, max, option_copied, option_map, suc};
ghost use Rattle.std.specs.FinMap as map;
ghost use Rattle.nibble_map.specs.MapQueries.{IsCompared, IsVisited};
ghost use Rattle.nibble_map.specs.Maps.{value_at};
ghost use Rattle.radix_nodes.specs.Nodes.{tree_of};
ghost use Rattle.radix_trie.specs.Views.{IsPairAbove};
ghost use Rattle.radix_trie.specs.Walks.{deref_pair};

use crate::iter::key_value_of;
use crate::trie::Trie;
use crate::trie::lookups::pair_in;
use radix_keys::{Memory, Nibblet, TrieKey};
use radix_nodes::search::find::{LookUpCost, Searched, find_counted};
use radix_nodes::trie_node::TrieNode;

impl<K: TrieKey, V> Trie<K, V> {
    /// The value that is stored at the key's encoding, as `get` returns it, and what the lookup
    /// costs: how many nodes it visits, and how many nibbles of the encoding it compares.
    ///
    /// The stored encodings alone tell both. The nodes stand at the points that are prefixes of the
    /// encoding, the root among them: at most one for each nibble, and the root; and at most two a
    /// pair, or the root alone. Besides these a lookup reads one node at most, whose fragment the
    /// encoding leaves, or ends in. No nibble is compared twice.
    ///
    /// # Errors
    ///
    /// `Memory`: the encoding's allocation fails; an inline key needs none.
    pub fn get_with_cost<Q: TrieKey>(&self, key: &Q) -> Result<(Option<&V>, LookUpCost), Memory>
        ensures value { IfOk result
            (λ r. option_copied r.0 ≡ value_at self.now (Q.encoding key.now)) }
        ensures nodes { IfOk result (λ r. IsVisited self.now (Q.encoding key.now) r.1.nodes) }
        ensures nibbles { IfOk result
            (λ r. IsCompared self.now (Q.encoding key.now) r.1.nibbles) }
        ensures few { IfOk result (λ r. r.1.nodes ≤ suc (length (Q.encoding key.now))) }
        ensures two_a_pair { IfOk result (λ r. r.1.nodes ≤ max 1 (2 * map.len self.now)) }
        ensures at_most_once { IfOk result (λ r. r.1.nibbles ≤ length (Q.encoding key.now)) }
        ensures inline { Q.is_inline key.now → IsOk result }
    {
        let list = key.encode(self.allocator())?;
        let Searched { found, cost, .. } = find_counted(self.root(), &list);
        Ok((value_in(found), cost))
    }

    /// The value that is stored at the key's encoding, as `get` returns it, and how many nibbles of
    /// the encoding the lookup compared with nibbles of fragments. No nibble is compared twice.
    ///
    /// # Errors
    ///
    /// `Memory`: the encoding's allocation fails; an inline key needs none.
    pub fn get_counted<Q: TrieKey>(&self, key: &Q) -> Result<(Option<&V>, usize), Memory>
        ensures value { IfOk result
            (λ r. option_copied r.0 ≡ value_at self.now (Q.encoding key.now)) }
        ensures count { IfOk result (λ r. IsCompared self.now (Q.encoding key.now) r.1) }
        ensures at_most_once { IfOk result (λ r. r.1 ≤ length (Q.encoding key.now)) }
        ensures inline { Q.is_inline key.now → IsOk result }
    {
        let (found, cost) = self.get_with_cost(key)?;
        Ok((found, cost.nibbles))
    }

    /// What `nearest` returns, and what that lookup costs: as much as that of the list itself, as
    /// `get_with_cost` returns it. It allocates nothing.
    pub fn nearest_with_cost(&self, list: &Nibblet) -> (Option<(&K, &V)>, LookUpCost)
        ensures pair { IsPairAbove self.now list.now (option_map deref_pair result.0) }
        ensures nodes { IsVisited self.now list.now result.1.nodes }
        ensures nibbles { IsCompared self.now list.now result.1.nibbles }
        ensures few { result.1.nodes ≤ suc (length list.now) }
        ensures two_a_pair { result.1.nodes ≤ max 1 (2 * map.len self.now) }
        ensures at_most_once { result.1.nibbles ≤ length list.now }
    {
        let Searched { nearest, cost, .. } = find_counted(self.root(), list);
        (key_value_of(pair_in(nearest)), cost)
    }
}

/// The value in a node, if there is one.
fn value_in<K, V>(found: Option<&TrieNode<K, V>>) -> Option<&V>
    ensures { MatchOption found.entry (option_copied result ≡ None)
        (λ node. option_copied result ≡ option_map (λ p. p.value) (tree_of node.now).pair) }
{
    found?.value()
}

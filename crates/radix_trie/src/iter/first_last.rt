//! The ends of a walk, without an allocation: the first pair at and below a node, and the last.
ghost use Rattle.std.specs.Prelude.{◌≡◌, ◌-◌, length, option_map, slice_get};
ghost use Rattle.masked_tree.specs.Tree.{IsFullBelow};
ghost use Rattle.radix_nodes.specs.Nodes.{tree_of};
ghost use Rattle.radix_nodes.specs.Pairs.{pair_of, pairs_in};

use radix_nodes::trie_node::{KeyValue, TrieNode};

/// The first pair at and below a node.
pub(crate) fn first_pair<K, V>(node: &TrieNode<K, V>) -> Option<&KeyValue<K, V>>
    requires full { IsFullBelow (tree_of node.now) }
    ensures { option_map (λ p. pair_of p.now) result ≡ slice_get (pairs_in (tree_of node.now)) 0 }
{
    let mut at = node;
    loop {
        if let Some(pair) = at.pair() {
            return Some(pair);
        }
        let (child, _) = at.children.split_first()?;
        at = child;
    }
}

/// The last pair at and below a node.
pub(crate) fn last_pair<K, V>(node: &TrieNode<K, V>) -> Option<&KeyValue<K, V>>
    requires full { IsFullBelow (tree_of node.now) }
    ensures { option_map (λ p. pair_of p.now) result
        ≡ slice_get (pairs_in (tree_of node.now)) (length (pairs_in (tree_of node.now)) - 1) }
{
    let mut at = node;
    while let Some((child, _)) = at.children.split_last() {
        at = child;
    }
    at.pair()
}

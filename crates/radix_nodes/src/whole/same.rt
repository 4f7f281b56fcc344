//! Equality of two trees, side by side, without an allocation.
ghost use Rattle.std.specs.Prelude.{◌≡◌};
ghost use Rattle.masked_tree.specs.Same.{same_pair, same_tree};
ghost use Rattle.radix_nodes.specs.Nodes.{tree_of, unboxed};
ghost use Rattle.radix_nodes.specs.SameValues.{same_values};

use crate::trie_node::{KeyValue, TrieNode};

// Whether neither place has a pair, or both have one and the values are equal.
fn pairs_match<K, V: PartialEq>(
    left: &Option<Box<KeyValue<K, V>>>,
    right: &Option<Box<KeyValue<K, V>>>,
) -> bool
    ensures { result ≡ same_pair (same_values V.eq) (unboxed left.now) (unboxed right.now) }
{
    match (left, right) {
        (None, None) => true,
        (Some(a), Some(b)) => a.value == b.value,
        _ => false,
    }
}

/// Whether two trees have the same fragments, pairs at the same places and equal values in them.
/// Keys aren't compared, since a node's path is its key's list.
pub fn same<K, V: PartialEq>(left: &TrieNode<K, V>, right: &TrieNode<K, V>) -> bool
    ensures { result ≡ same_tree (same_values V.eq) (tree_of left.now) (tree_of right.now) }
{
    if left.fragment != right.fragment {
        return false;
    }
    if !pairs_match(&left.pair, &right.pair) {
        return false;
    }
    if left.children.len() != right.children.len() {
        return false;
    }
    for i in 0..left.children.len() {
        if !same(&left.children[i], &right.children[i]) {
            return false;
        }
    }
    true
}

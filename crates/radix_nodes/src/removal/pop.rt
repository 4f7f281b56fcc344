//! Removal of the pair at an end of the order of walks: one way down, by no list. All that may fail
//! comes first, as in `remove`.
ghost use Rattle.std.specs.Prelude.{◌≢◌, ◌<◌, [], MatchOption, vec_len};
ghost use Rattle.masked_tree.specs.Tree.{IsTreePlaced, IsFullBelow};
ghost use Rattle.radix_nodes.specs.Ends.{EndsHere, EndsInChild, PopOutcome, RootPopOutcome};
ghost use Rattle.radix_nodes.specs.Nodes.{tree_of, fragment_of, out_of, returned};

use crate::removal::by_reference::{result_of, write_result};
use crate::removal::remove::{Removed, remove_here, remove_leaf, remove_own, remove_root_leaf};
use crate::trie_node::{TrieNode, has_pair, is_end};
use radix_keys::Memory;

/// An end of the order of walks.
#[derive(Clone, Copy)]
pub enum End {
    First,
    Last,
}

// The child that has the pair at this end. None: it is the node's own, or there is none.
fn end_child<K, V>(node: &TrieNode<K, V>, end: End) -> Option<usize>
    ensures { MatchOption result (EndsHere end (tree_of node.now))
        (λ i. (i < vec_len (out_of node.now).children) × EndsInChild end (tree_of node.now) i) }
{
    if is_end(node) {
        return None;
    }
    match end {
        End::First => { if has_pair(node) { None } else { Some(0) } }
        End::Last => Some(node.children.len() - 1),
    }
}

// Removes the pair at this end at or below a node with children that isn't the root, into
// `removed`.
fn pop_below<K: Drop, V: Drop>(
    node: &mut TrieNode<K, V>,
    end: End,
    removed: &mut Option<Removed<K, V>>,
) -> Result<(), Memory>
    requires placed { IsTreePlaced (tree_of node.old) }
    requires full { IsFullBelow (tree_of node.old) }
    requires some { fragment_of node.old ≢ [] }
    requires inner { 0 < vec_len (out_of node.old).children }
    ensures { PopOutcome end (returned result removed.new) (tree_of node.old) (tree_of node.new) }
{
    match end_child(node, end) {
        Some(i) => {
            if is_end(&node.children[i]) {
                write_result(removed, remove_leaf(node, i))
            } else {
                pop_below(&mut node.children[i], end, removed)
            }
        }
        None => write_result(removed, remove_here(node)),
    }
}

/// Removes the pair at this end at or below the root, which stays whatever it is left with.
pub fn pop_root<K: Drop, V: Drop>(
    node: &mut TrieNode<K, V>,
    end: End,
) -> Result<Option<Removed<K, V>>, Memory>
    requires placed { IsTreePlaced (tree_of node.old) }
    requires full { IsFullBelow (tree_of node.old) }
    ensures { RootPopOutcome end result (tree_of node.old) (tree_of node.new) }
{
    match end_child(node, end) {
        Some(i) => {
            if is_end(&node.children[i]) {
                Ok(remove_root_leaf(node, i))
            } else {
                let mut removed = None;
                let told = pop_below(&mut node.children[i], end, &mut removed);
                result_of(told, removed)
            }
        }
        None => Ok(remove_own(node)),
    }
}

//! Removal. All that may fail comes first, so a failure leaves the tree as it was.
//!
//! What stands at the place of the change is kept out of line: its variables aren't on the stack at
//! each level above then.
ghost use Rattle.std.specs.Prelude.{◌≡◌, ◌≢◌, ◌<◌, ◌≤◌, [], ◌++◌, length, drop, MatchOption, Some, None, vec_len};
ghost use Rattle.masked_tree.specs.Tree.{IsTreePlaced, IsAt, none};
ghost use Rattle.radix_nodes.specs.Nodes.{tree_of, fragment_of, out_of, unboxed, returned, CutOutcome, RootOutcome};

use crate::removal::by_reference::{result_of, write_result};
use crate::removal::cut_child::{Branch, cut_child, cut_root_child, joined_with};
use crate::search::step::step;
use crate::trie_node::links::{absorb, take_pair};
use crate::trie_node::parts::Parts;
use crate::trie_node::{KeyValue, TrieNode, has_pair, is_end};
use radix_keys::{Memory, Nibblet};

/// The pair that a removal took out, and how many nodes and nibbles of fragments went with it.
#[derive(Drop)]
pub struct Removed<K, V> {
    pub pair: KeyValue<K, V>,
    pub nodes: usize,
    pub nibbles: usize,
}

// Removes the pair of a node with children. What may fail comes first.
#[inline(never)]
pub(crate) fn remove_here<K: Drop, V: Drop>(
    node: &mut TrieNode<K, V>,
) -> Result<Option<Removed<K, V>>, Memory>
    requires placed { IsTreePlaced (tree_of node.old) }
    requires some { fragment_of node.old ≢ [] }
    requires inner { 0 < vec_len (out_of node.old).children }
    ensures { CutOutcome result (fragment_of node.old) (tree_of node.old) (tree_of node.new) }
{
    if !has_pair(node) {
        return Ok(None);
    }
    if node.children.len() == 1 {
        let joined = match joined_with(node, 0) {
            Ok(joined) => joined,
            Err(e) => return Err(e),
        };
        match take_pair(&mut node.pair) {
            Some(pair) => {
                absorb(node, joined);
                Ok(Some(Removed {
                    pair,
                    nodes: 1,
                    nibbles: 0,
                }))
            }
            None => Ok(None),
        }
    } else {
        match take_pair(&mut node.pair) {
            Some(pair) => Ok(Some(Removed {
                pair,
                nodes: 0,
                nibbles: 0,
            })),
            None => Ok(None),
        }
    }
}

// The pair of a leaf that was cut off.
#[inline(never)]
fn removed_leaf<K: Drop, V: Drop>(leaf: Branch<K, V>) -> Option<Removed<K, V>>
    ensures { MatchOption result (unboxed (out_of leaf.top.value).pair ≡ None)
        (λ t. (unboxed (out_of leaf.top.value).pair ≡ Some t.pair) × (t.nodes ≡ leaf.nodes)
        × (t.nibbles ≡ length (fragment_of leaf.top.value))) }
{
    let Branch { top, nodes } = leaf;
    let Parts {
        fragment,
        pair,
        mask: _,
        children: _,
    } = Box::into_inner(top).into_parts();
    let nibbles = fragment.len();
    match pair {
        Some(b) => Some(Removed {
            pair: Box::into_inner(b),
            nodes,
            nibbles,
        }),
        None => None,
    }
}

// Removes the pair of the leaf at i, with the leaf.
#[inline(never)]
pub(crate) fn remove_leaf<K: Drop, V: Drop>(
    node: &mut TrieNode<K, V>,
    i: usize,
) -> Result<Option<Removed<K, V>>, Memory>
    requires within { i < vec_len (out_of node.old).children }
    requires placed { IsTreePlaced (tree_of node.old) }
    requires some { fragment_of node.old ≢ [] }
    requires leaf { (u : _) → IsAt i (tree_of node.old).children u → u.children ≡ none }
    ensures { (u : _) → IsAt i (tree_of node.old).children u
        → CutOutcome result (fragment_of node.old ++ u.fragment) (tree_of node.old)
        (tree_of node.new) }
{
    if !has_pair(&node.children[i]) {
        return Ok(None);
    }
    match cut_child(node, i) {
        Ok(leaf) => Ok(removed_leaf(leaf)),
        Err(e) => Err(e),
    }
}

// Removes the pair at the list's place at or below a node that stands at `depth` and isn't the
// root, into `removed`.
fn remove_below<K: Drop, V: Drop>(
    node: &mut TrieNode<K, V>,
    list: &Nibblet,
    depth: usize,
    removed: &mut Option<Removed<K, V>>,
) -> Result<(), Memory>
    requires depth { depth ≤ length list.now }
    requires placed { IsTreePlaced (tree_of node.old) }
    requires some { fragment_of node.old ≢ [] }
    requires inner { depth ≡ length list.now → 0 < vec_len (out_of node.old).children }
    requires none { removed.old ≡ None }
    ensures { CutOutcome (returned result removed.new) (fragment_of node.old ++ drop depth list.now)
        (tree_of node.old) (tree_of node.new) }
{
    if depth == list.len() {
        return write_result(removed, remove_here(node));
    }
    match step(node, list, depth) {
        Some((i, next)) => {
            if next == list.len() && is_end(&node.children[i]) {
                write_result(removed, remove_leaf(node, i))
            } else {
                remove_below(&mut node.children[i], list, next, removed)
            }
        }
        None => Ok(()),
    }
}

// Removes the root's own pair, if it has one.
pub(crate) fn remove_own<K, V>(node: &mut TrieNode<K, V>) -> Option<Removed<K, V>>
    requires { IsTreePlaced (tree_of node.old) }
    ensures { RootOutcome (Ok result) (fragment_of node.old) (tree_of node.old) (tree_of node.new) }
{
    match take_pair(&mut node.pair) {
        Some(pair) => Some(Removed {
            pair,
            nodes: 0,
            nibbles: 0,
        }),
        None => None,
    }
}

// Removes the pair of the root's leaf at i, with the leaf.
pub(crate) fn remove_root_leaf<K: Drop, V: Drop>(
    node: &mut TrieNode<K, V>,
    i: usize,
) -> Option<Removed<K, V>>
    requires within { i < vec_len (out_of node.old).children }
    requires placed { IsTreePlaced (tree_of node.old) }
    requires leaf { (u : _) → IsAt i (tree_of node.old).children u → u.children ≡ none }
    ensures { (u : _) → IsAt i (tree_of node.old).children u
        → RootOutcome (Ok result) (fragment_of node.old ++ u.fragment) (tree_of node.old)
        (tree_of node.new) }
{
    if !has_pair(&node.children[i]) {
        return None;
    }
    removed_leaf(cut_root_child(node, i))
}

/// Removes the pair at the list's place at or below the root, which stays whatever it is left with.
pub fn remove_root<K: Drop, V: Drop>(
    node: &mut TrieNode<K, V>,
    list: &Nibblet,
) -> Result<Option<Removed<K, V>>, Memory>
    requires { IsTreePlaced (tree_of node.old) }
    ensures { RootOutcome result (fragment_of node.old ++ list.now) (tree_of node.old)
        (tree_of node.new) }
{
    if list.len() == 0 {
        return Ok(remove_own(node));
    }
    match step(node, list, 0) {
        Some((i, next)) => {
            if next == list.len() && is_end(&node.children[i]) {
                Ok(remove_root_leaf(node, i))
            } else {
                let mut removed = None;
                let told = remove_below(&mut node.children[i], list, next, &mut removed);
                result_of(told, removed)
            }
        }
        None => Ok(None),
    }
}

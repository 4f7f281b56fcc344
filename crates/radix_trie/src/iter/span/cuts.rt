//! Where bounds cut a node.
ghost use Rattle.std.specs.Prelude.{◌≡◌, [], ◌≤◌, None, cond, length};
ghost use Rattle.std.specs.Range.Bound.{MatchBound};
ghost use Rattle.std.specs.declared.ops.Bound.TheVariants.{Included};
ghost use Rattle.masked_tree.specs.Tree.{IsFullBelow, IsTreePlaced};
ghost use Rattle.radix_nodes.specs.Nodes.{out_of, tree_of};
ghost use Rattle.radix_nodes.specs.Pairs.{own_pair};
ghost use Rattle.radix_trie.specs.Views.{is_above, is_below, is_within};
ghost use Rattle.radix_trie.specs.Walks.{IsCutByList, LeadsOn, ReachesDown, bound_behind, bound_now, first_pair, past};

use crate::iter::side::{Side, side_of};
use radix_keys::Nibblet;
use radix_nodes::trie_node::mask::child_index;
use radix_nodes::trie_node::{KeyValue, TrieNode};
use std::ops::Bound;

/// Whether a node's own pair is within a lower bound, of which so many nibbles lead to the node.
fn counts_above(low: Bound<&Nibblet>, depth: usize) -> bool
    requires { ReachesDown depth (bound_now low) }
    ensures { result ≡ is_above (bound_behind depth (bound_now low.entry)) [] }
{
    match low {
        Bound::Included(list) => depth == list.len(),
        Bound::Excluded(_) => false,
        Bound::Unbounded => true,
    }
}

/// The same of an upper bound.
fn counts_below(high: Bound<&Nibblet>, depth: usize) -> bool
    requires { ReachesDown depth (bound_now high) }
    ensures { result ≡ is_below (bound_behind depth (bound_now high.entry)) [] }
{
    match high {
        Bound::Included(_) => true,
        Bound::Excluded(list) => depth < list.len(),
        Bound::Unbounded => true,
    }
}

/// A node's own pair, where it is within two bounds, of which so many nibbles lead to the node.
pub(super) fn own_within<'a, K, V>(
    node: &'a TrieNode<K, V>,
    low: Bound<&Nibblet>,
    high: Bound<&Nibblet>,
    depth: usize,
) -> Option<&'a KeyValue<K, V>>
    requires low { ReachesDown depth (bound_now low) }
    requires high { ReachesDown depth (bound_now high) }
    ensures { first_pair result ≡ cond (is_within (bound_behind depth (bound_now low.entry))
        (bound_behind depth (bound_now high.entry)) []) (own_pair (tree_of node.now).pair) [] }
{
    if counts_above(low, depth) && counts_below(high, depth) {
        node.pair()
    } else {
        None
    }
}

/// How many children of a node come before a bound, and from which on they come after it. Between
/// these is at most the one that the bound goes on to, with how many nibbles lie behind it. Without
/// a bound the cut is at `most`.
pub(super) fn cut<'a, K, V>(
    node: &'a TrieNode<K, V>,
    bound: Bound<&Nibblet>,
    depth: usize,
    most: usize,
) -> (usize, usize, Option<(&'a TrieNode<K, V>, usize)>)
    requires reaches { ReachesDown depth (bound_now bound) }
    requires placed { IsTreePlaced (tree_of node.now) }
    requires full { IsFullBelow (tree_of node.now) }
    ensures parts { MatchBound (bound_now bound.entry)
        (λ q. IsCutByList q depth (out_of node.now).children.items result.0 result.2)
        (λ q. IsCutByList q depth (out_of node.now).children.items result.0 result.2)
        ((result.0 ≡ most) × (result.2 ≡ None)) }
    ensures past { result.1 ≡ past result.0 result.2 }
    ensures leads { LeadsOn (bound_now bound.entry) (tree_of node.now) result.2 }
{
    match bound {
        Bound::Included(list) | Bound::Excluded(list) => cut_by(node, list, depth),
        Bound::Unbounded => (most, most, None),
    }
}

/// The same of a list.
fn cut_by<'a, K, V>(
    node: &'a TrieNode<K, V>,
    list: &Nibblet,
    depth: usize,
) -> (usize, usize, Option<(&'a TrieNode<K, V>, usize)>)
    requires depth { depth ≤ length list.now }
    requires placed { IsTreePlaced (tree_of node.now) }
    requires full { IsFullBelow (tree_of node.now) }
    ensures parts { IsCutByList list.now depth (out_of node.now).children.items result.0 result.2 }
    ensures past { result.1 ≡ past result.0 result.2 }
    ensures leads { LeadsOn (Included list.now) (tree_of node.now) result.2 }
{
    if depth == list.len() {
        return (0, 0, None);
    }
    match child_index(node.mask, list.get(depth)) {
        Ok(i) => {
            let child = &node.children[i];
            let behind = i + 1;
            match side_of(&child.fragment, list, depth) {
                Side::Before => (behind, behind, None),
                Side::On(next) => (i, behind, Some((child, next))),
                Side::After => (i, i, None),
            }
        }
        Err(i) => (i, i, None),
    }
}

//! Lookups.
ghost use Rattle.nibble_map.specs.Answers.{IsCompared};
ghost use Rattle.nibble_map.specs.Lists.{Counts};
ghost use Rattle.nibble_map.specs.Stored.{IsStored};
ghost use Rattle.std.specs.Prelude.{◌≡◌, ◌≤◌, [], length, drop, MatchOption};
ghost use Rattle.nibble_map.specs.Trees.{walked};
ghost use Rattle.masked_tree.specs.Tree.{IsTreePlaced, IsFullBelow, entries_at, plain};
ghost use Rattle.masked_tree.specs.Paths.{IsNodeAt, IsOnWay};
ghost use Rattle.radix_nodes.specs.Nodes.{tree_of, fragment_of};
ghost use Rattle.radix_nodes.specs.Searches.{FindsDeepestPair, FindsNode, Visits};

use crate::search::step::{meet, step};
use crate::trie_node::{TrieNode, has_pair};
use radix_keys::Nibblet;

/// What a lookup costs: how many nodes it visits, and how many nibbles it compares.
#[derive(Clone, Copy, PartialEq, Eq, Debug)]
pub struct LookUpCost {
    /// The nodes on the way down: the root, and each node below it whose path is a prefix of the
    /// query.
    ///
    /// Besides these a lookup reads one node at most: that whose fragment the query leaves, or ends
    /// in, before the fragment's end.
    pub nodes: u128,
    /// The nibbles of the query that are compared with nibbles of fragments, none of them twice.
    pub nibbles: usize,
}

/// What a lookup of a list returns.
#[derive(Drop)]
pub struct Searched<'a, K, V> {
    /// The node whose path is the list.
    pub found: Option<&'a TrieNode<K, V>>,
    /// The node with the longest path that begins the list and holds a pair, and how many nibbles
    /// of the list that is.
    pub nearest: Option<(&'a TrieNode<K, V>, usize)>,
    /// What the lookup costs.
    pub cost: LookUpCost,
}

/// The node at the list's place, at or below one that stands at `depth`.
pub fn find<'a, K, V>(
    node: &'a TrieNode<K, V>,
    list: &Nibblet,
    depth: usize,
) -> Option<&'a TrieNode<K, V>>
    requires depth { depth ≤ length list.now }
    requires placed { IsTreePlaced (tree_of node.now) }
    ensures { FindsNode result node.now list.now depth }
{
    let mut at = node;
    let mut done = depth;
    while done < list.len() {
        match step(at, list, done) {
            Some((i, next)) => {
                at = &at.children[i];
                done = next;
            }
            None => return None,
        }
    }
    Some(at)
}

// The same, the deepest pair on the way, and what the lookup costs. It is inlined, so a caller pays
// for what it takes alone.
#[inline(always)]
pub(super) fn search<'a, K, V>(
    node: &'a TrieNode<K, V>,
    list: &Nibblet,
    depth: usize,
) -> Searched<'a, K, V>
    requires depth { depth ≤ length list.now }
    requires placed { IsTreePlaced (tree_of node.now) }
    ensures found { FindsNode result.found node.now list.now depth }
    ensures nearest { FindsDeepestPair result.nearest node.now list.now depth }
    ensures nodes { Visits result.cost.nodes node.now list.now depth }
    ensures nibbles { result.cost.nibbles
        ≡ walked (plain (tree_of node.now).children) (drop depth list.now) }
{
    let mut at = node;
    let mut done = depth;
    let mut best = None;
    let mut cost = LookUpCost {
        nodes: 1,
        nibbles: 0,
    };
    loop {
        if has_pair(at) {
            best = Some((at, done));
        }
        if done == list.len() {
            return Searched {
                found: Some(at),
                nearest: best,
                cost,
            };
        }
        let Some((i, agreement)) = meet(at, list, done) else {
            return Searched {
                found: None,
                nearest: best,
                cost,
            };
        };
        let child = &at.children[i];
        cost.nibbles += agreement.compared;
        if agreement.same != child.fragment.len() {
            return Searched {
                found: None,
                nearest: best,
                cost,
            };
        }
        cost.nodes += 1;
        at = child;
        done += agreement.same;
    }
}

/// The lookup of a list from the root on, with its cost.
pub fn find_counted<'a, K, V>(root: &'a TrieNode<K, V>, list: &Nibblet) -> Searched<'a, K, V>
    requires top { fragment_of root.now ≡ [] }
    requires placed { IsTreePlaced (tree_of root.now) }
    requires full { IsFullBelow (tree_of root.now) }
    ensures found { MatchOption result.found
        ((u : _) → IsNodeAt (tree_of root.now) list.now u → ⊥)
        (λ n. IsNodeAt (tree_of root.now) list.now (tree_of n.now)) }
    ensures nearest { FindsDeepestPair result.nearest root.now list.now 0 }
    ensures nodes { Counts (IsOnWay (tree_of root.now) list.now) result.cost.nodes }
    ensures nibbles { IsCompared (IsStored (entries_at [] (tree_of root.now))) list.now
        result.cost.nibbles }
{
    search(root, list, 0)
}

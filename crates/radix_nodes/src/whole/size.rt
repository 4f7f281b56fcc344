//! How much a node holds.
ghost use Rattle.std.specs.Prelude.{◌≡◌, ◌+◌, ◌<◌, ◌≤◌, ◌^◌, [], suc, length, MatchOption};
ghost use Rattle.masked_tree.specs.Tree.{entries_at, nodes_in, nibbles_in};
ghost use Rattle.masked_tree.specs.Sizes.{levels};
ghost use Rattle.radix_nodes.specs.Nodes.{tree_of};
ghost use Rattle.radix_nodes.specs.Prunes.{IsSmall, CanCount};

use crate::trie_node::{TrieNode, has_pair};

/// How many nodes and nibbles of fragments there are.
#[derive(Clone, Copy)]
pub struct Measured {
    pub nodes: u128,
    pub nibbles: u128,
}

/// How many pairs stand at and below the node.
#[tactic(auto, using(crate::proofs::NodeLemmas::Sizes::pairs_out, crate::proofs::NodeLemmas::Sizes::pairs_next, crate::proofs::NodeLemmas::Sizes::own_some, crate::proofs::NodeLemmas::Sizes::own_none))]
pub fn count_pairs<K, V>(node: &TrieNode<K, V>) -> usize
    requires { length (entries_at [] (tree_of node.now)) < 2 ^ 64 }
    ensures { result ≡ length (entries_at [] (tree_of node.now)) }
{
    let mut count: usize = if has_pair(node) { 1 } else { 0 };
    for child in &node.children {
        count += count_pairs(child);
    }
    count
}

// Counts on by the pairs at and below the node, by the nodes below it, and by the nibbles of its
// fragment and of theirs.
#[tactic(auto, using(crate::proofs::NodeLemmas::Sizes::pairs_out, crate::proofs::NodeLemmas::Sizes::pairs_next, crate::proofs::NodeLemmas::Sizes::own_some, crate::proofs::NodeLemmas::Sizes::own_none, crate::proofs::NodeLemmas::Sizes::nodes_out, crate::proofs::NodeLemmas::Sizes::nodes_next, crate::proofs::NodeLemmas::Sizes::nibbles_out, crate::proofs::NodeLemmas::Sizes::nibbles_next))]
fn measure_below<K, V>(node: &TrieNode<K, V>, pairs: &mut usize, held: &mut Measured)
    requires few { pairs.old + length (entries_at [] (tree_of node.now)) < 2 ^ 64 }
    requires small { CanCount held.old (tree_of node.now) }
    ensures pairs { pairs.new ≡ pairs.old + length (entries_at [] (tree_of node.now)) }
    ensures nodes { held.new.nodes ≡ held.old.nodes + nodes_in (tree_of node.now).children }
    ensures nibbles { held.new.nibbles ≡ held.old.nibbles
        + (length (tree_of node.now).fragment + nibbles_in (tree_of node.now).children) }
{
    if has_pair(node) {
        *pairs += 1;
    }
    held.nibbles += node.fragment.len() as u128;
    for child in &node.children {
        measure_below(child, pairs, held);
        held.nodes += 1;
    }
}

/// How many pairs stand at and below the node; how many nodes stand below it, and how many nibbles
/// its fragment and theirs have.
pub fn measure<K, V>(node: &TrieNode<K, V>) -> (usize, Measured)
    requires { IsSmall (tree_of node.now) }
    ensures pairs { result.0 ≡ length (entries_at [] (tree_of node.now)) }
    ensures nodes { result.1.nodes ≡ nodes_in (tree_of node.now).children }
    ensures nibbles { result.1.nibbles
        ≡ length (tree_of node.now).fragment + nibbles_in (tree_of node.now).children }
{
    let mut pairs = 0;
    let mut held = Measured {
        nodes: 0,
        nibbles: 0,
    };
    measure_below(node, &mut pairs, &mut held);
    (pairs, held)
}

/// How many nodes stand on the longest way down from the node, with it; None if that is more than
/// `usize::MAX`.
#[tactic(auto, using(crate::proofs::NodeLemmas::Sizes::levels_out, crate::proofs::NodeLemmas::Sizes::levels_next))]
pub fn height<K, V>(node: &TrieNode<K, V>) -> Option<usize>
    ensures { MatchOption result (2 ^ 64 ≤ suc (levels (tree_of node.now).children))
        (λ h. h ≡ suc (levels (tree_of node.now).children)) }
{
    let mut most: usize = 0;
    for child in &node.children {
        let under = height(child)?;
        if most < under {
            most = under;
        }
    }
    most.checked_add(1)
}

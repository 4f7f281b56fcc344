//! A child is cut off with all below it. What may fail comes first, so a failure leaves the tree as
//! it was.
ghost use Rattle.std.specs.Prelude.{◌≡◌, ◌≢◌, ◌+◌, ◌<◌, ◌≤◌, ◌⊎◌, [], ◌++◌, length, IfOk, OnErr, IsSome, MatchBool, None, vec_len};
ghost use Rattle.masked_tree.specs.Tree.{IsTreePlaced, IsAt};
ghost use Rattle.radix_nodes.specs.Nodes.{tree_of, fragment_of, out_of, unboxed, IsLongWithout};
ghost use Rattle.radix_nodes.specs.Prunes.{branch_of, CutsBranch, CutsRootBranch};

use crate::fragments::joined;
use crate::trie_node::TrieNode;
use crate::trie_node::links::{absorb, unlink};
use radix_keys::{Memory, Nibblet};

/// What was cut off, and how many nodes went besides those below it: its own, and its parent's
/// where the one child that was left took that place.
#[derive(Drop)]
pub struct Branch<K, V> {
    pub top: Box<TrieNode<K, V>>,
    pub nodes: usize,
}

/// The fragment of the node joined with that of its child at place i.
pub fn joined_with<K, V>(node: &TrieNode<K, V>, i: usize) -> Result<Nibblet, Memory>
    requires within { i < vec_len (out_of node.now).children }
    requires placed { IsTreePlaced (tree_of node.now) }
    ensures made { IfOk result (λ f. (u : _) → IsAt i (tree_of node.now).children u →
        f ≡ fragment_of node.now ++ u.fragment) }
    ensures long { OnErr result ((u : _) → IsAt i (tree_of node.now).children u →
        32 < length (fragment_of node.now) + length u.fragment) }
{
    joined(&node.fragment, &node.children[i].fragment)
}

// Whether a node is left without a pair and with one child once one goes.
fn leaves_one<K, V>(node: &TrieNode<K, V>) -> bool
    requires { 0 < vec_len (out_of node.now).children }
    ensures { MatchBool result
        (((out_of node.now).pair ≡ None) × (vec_len (out_of node.now).children ≡ 2))
        (IsSome (unboxed (out_of node.now).pair) ⊎ (vec_len (out_of node.now).children ≢ 2)) }
{
    match &node.pair {
        Some(_) => false,
        None => node.children.len() == 2,
    }
}

/// Cuts the child at place i off a node that isn't the root. A node that is left with no pair and
/// one child is merged with it.
#[inline(never)]
pub fn cut_child<K: Drop, V: Drop>(
    node: &mut TrieNode<K, V>,
    i: usize,
) -> Result<Branch<K, V>, Memory>
    requires within { i < vec_len (out_of node.old).children }
    requires placed { IsTreePlaced (tree_of node.old) }
    requires some { fragment_of node.old ≢ [] }
    ensures child { IfOk result (λ b. IsAt i (tree_of node.old).children (branch_of b)) }
    ensures cut { IfOk result (λ b. CutsBranch b (tree_of node.old) (tree_of node.new)) }
    ensures few { IfOk result (λ b. b.nodes ≤ 2) }
    ensures unchanged { OnErr result (tree_of node.new ≡ tree_of node.old) }
    ensures long { OnErr result (IsLongWithout i (tree_of node.old)) }
{
    if leaves_one(node) {
        let joined = match joined_with(node, 1 - i) {
            Ok(joined) => joined,
            Err(e) => return Err(e),
        };
        let top = unlink(node, i);
        absorb(node, joined);
        Ok(Branch { top, nodes: 2 })
    } else {
        let top = unlink(node, i);
        Ok(Branch { top, nodes: 1 })
    }
}

/// Cuts the child at place i off the root, which stays whatever it is left with.
pub fn cut_root_child<K, V>(root: &mut TrieNode<K, V>, i: usize) -> Branch<K, V>
    requires within { i < vec_len (out_of root.old).children }
    requires placed { IsTreePlaced (tree_of root.old) }
    ensures child { IsAt i (tree_of root.old).children (branch_of result) }
    ensures cut { CutsRootBranch result (tree_of root.old) (tree_of root.new) }
    ensures nodes { result.nodes ≡ 1 }
{
    let top = unlink(root, i);
    Branch { top, nodes: 1 }
}

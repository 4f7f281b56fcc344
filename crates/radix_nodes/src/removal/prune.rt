//! All pairs at and below a path are removed. What may fail comes first, so a failure leaves the
//! tree as it was.
ghost use Rattle.std.specs.Prelude.{◌≡◌, ◌<◌, ◌≤◌, ◌++◌, [], length, IfOk, IsOk, OnErr, vec_capacity};
ghost use Rattle.masked_tree.specs.Alters.{PrunesRoot};
ghost use Rattle.masked_tree.specs.Tree.{IsTreePlaced, entries_at};
ghost use Rattle.radix_nodes.specs.Nodes.{tree_of, fragment_of};
ghost use Rattle.radix_nodes.specs.Pairs.{pairs_in};
ghost use Rattle.radix_nodes.specs.Prunes.{IsSmall, HasBranchWithin, branch_of, nodes_gone, nibbles_gone, PruneRootOutcome};

use crate::removal::cut_branch::cut_branch;
use crate::removal::cut_child::Branch;
use crate::removal::drain::drain;
use crate::trie_node::TrieNode;
use crate::whole::size::count_pairs;
use radix_keys::{Memory, Nibblet};
use std::alloc::Global;
use std::mem;

/// What was removed: the pairs in the order of their lists, and how many nodes and nibbles of
/// fragments went.
#[derive(Drop)]
pub struct Pruned<K, V> {
    pub pairs: Vec<(K, V)>,
    pub nodes: u128,
    pub nibbles: u128,
}

// The pairs of a branch that was cut off, and how much went.
fn emptied<K: Drop, V: Drop>(branch: Branch<K, V>, room: Vec<(K, V)>) -> Pruned<K, V>
    requires empty { room.items ≡ [] }
    requires room { length (entries_at [] (branch_of branch)) ≤ vec_capacity room }
    requires small { IsSmall (branch_of branch) }
    requires few { branch.nodes ≤ 2 }
    ensures pairs { result.pairs.items ≡ pairs_in (branch_of branch) }
    ensures nodes { result.nodes ≡ nodes_gone branch }
    ensures nibbles { result.nibbles ≡ nibbles_gone branch }
{
    let Branch { top, nodes } = branch;
    let mut pairs = room;
    let drained = drain(Box::into_inner(top), &mut pairs);
    Pruned {
        pairs,
        nodes: drained.nodes + nodes as u128,
        nibbles: drained.nibbles,
    }
}

/// Moves all pairs at and below the list's place, which lies below the root, into a list that has
/// room for them.
pub fn prune_root<K: Drop, V: Drop>(
    root: &mut TrieNode<K, V>,
    list: &Nibblet,
    room: Vec<(K, V)>,
) -> Result<Option<Pruned<K, V>>, Memory>
    requires some { 0 < length list.now }
    requires placed { IsTreePlaced (tree_of root.old) }
    requires small { IsSmall (tree_of root.old) }
    requires empty { room.items ≡ [] }
    requires room { HasBranchWithin (vec_capacity room) (tree_of root.old)
        (fragment_of root.old ++ list.now) }
    ensures { PruneRootOutcome result (fragment_of root.old ++ list.now)
        (tree_of root.old) (tree_of root.new) }
{
    match cut_branch(root, list) {
        Ok(Some(branch)) => Ok(Some(emptied(branch, room))),
        Ok(None) => Ok(None),
        Err(e) => Err(e),
    }
}

/// Moves all pairs out of a root, which is left empty.
pub fn prune_all<K: Drop, V: Drop>(
    root: &mut TrieNode<K, V>,
    alloc: Global,
) -> Result<Pruned<K, V>, Memory>
    requires top { fragment_of root.old ≡ [] }
    requires small { IsSmall (tree_of root.old) }
    ensures cut { IfOk result (λ c.
        PrunesRoot [] (tree_of root.old) c.nodes c.nibbles (tree_of root.old) (tree_of root.new)) }
    ensures pairs { IfOk result (λ c. c.pairs.items ≡ pairs_in (tree_of root.old)) }
    ensures unchanged { OnErr result (tree_of root.new ≡ tree_of root.old) }
    ensures none { length (entries_at [] (tree_of root.old)) ≡ 0 → IsOk result }
{
    let mut pairs = Vec::with_capacity(alloc, count_pairs(root))?;
    let branch = mem::replace(root, TrieNode::new(alloc));
    let drained = drain(branch, &mut pairs);
    Ok(Pruned {
        pairs,
        nodes: drained.nodes,
        nibbles: drained.nibbles,
    })
}

//! A branch is grafted into a tree, with all that is below it: no pair is moved. All that may fail
//! comes first, so a failure leaves the tree as it was, and returns the branch as it was.
ghost use Rattle.std.specs.Prelude.{◌≡◌, ◌≢◌, ◌<◌, ◌≤◌, ◌++◌, length, take, drop, slice_index, Err};
ghost use Rattle.masked_tree.specs.Edits.{with_fragment};
ghost use Rattle.masked_tree.specs.Mask.{IsPlaceOf};
ghost use Rattle.masked_tree.specs.Tree.{IsTreePlaced, IsTreeFull, firsts};
ghost use Rattle.radix_nodes.specs.Nodes.{tree_of, fragment_of};
ghost use Rattle.radix_nodes.specs.Grafts.{GraftOutcome, GraftNodeOutcome, GraftChildOutcome, told};

use crate::fragments::joined_tail;
use crate::insertion::attach::make_split;
use crate::search::step::agreed;
use crate::trie_node::TrieNode;
use crate::trie_node::links::{link, lower_beside};
use crate::trie_node::mask::child_index;
use radix_keys::Nibblet;
use std::alloc::Global;

/// How many nodes came besides those below the branch's own, and how many nibbles of fragments
/// besides those of the branch.
#[derive(Drop)]
pub struct Grafted {
    pub nodes: usize,
    pub nibbles: usize,
}

/// Why a branch isn't grafted, with the branch as it was.
#[derive(Drop)]
pub enum Ungrafted<K, V> {
    /// A node stands at or below the list.
    Occupied(Box<TrieNode<K, V>>),
    /// An allocation failed.
    Memory(Box<TrieNode<K, V>>),
}

/// Grafts the branch at the list's place, below a node that stands at `depth`: what the branch
/// holds at a list stands behind this list then. It fails with `Occupied` if a node stands at or
/// below the list, and with `Memory` if an allocation fails.
pub fn graft<K: Drop, V: Drop>(
    node: &mut TrieNode<K, V>,
    alloc: Global,
    list: &Nibblet,
    depth: usize,
    branch: Box<TrieNode<K, V>>,
) -> Result<Grafted, Ungrafted<K, V>>
    requires depth { depth ≤ length list.now }
    requires placed { IsTreePlaced (tree_of node.old) }
    requires below { IsTreePlaced (tree_of branch.value) }
    requires full { IsTreeFull (tree_of branch.value) }
    ensures { GraftOutcome result branch (fragment_of node.old ++ drop depth list.now)
        (tree_of node.old) (tree_of node.new) }
{
    if depth == list.len() {
        return Err(Ungrafted::Occupied(branch));
    }
    match child_index(node.mask, list.get(depth)) {
        Ok(i) => {
            let child = &mut node.children[i];
            let agreement = agreed(&child.fragment, list, depth);
            let next = depth + agreement.same;
            if agreement.same == child.fragment.len() {
                graft(child, alloc, list, next, branch)
            } else if next == list.len() {
                Err(Ungrafted::Occupied(branch))
            } else {
                tell(split_beside(child, agreement.same, alloc, list, next, branch))
            }
        }
        Err(i) => tell(add_branch(node, i, list, depth, branch)),
    }
}

// The branch comes back only if an allocation failed.
fn tell<K, V>(outcome: Result<Grafted, Box<TrieNode<K, V>>>) -> Result<Grafted, Ungrafted<K, V>>
    ensures { result ≡ told outcome }
{
    match outcome {
        Ok(grafted) => Ok(grafted),
        Err(branch) => Err(Ungrafted::Memory(branch)),
    }
}

/// The branch with another fragment.
pub fn refitted<K, V>(branch: Box<TrieNode<K, V>>, fragment: Nibblet) -> Box<TrieNode<K, V>>
    ensures { tree_of result.value ≡ with_fragment fragment (tree_of branch.value) }
{
    let mut top = branch;
    top.fragment = fragment;
    top
}

// The branch comes as a new child at place i.
#[inline(never)]
fn add_branch<K: Drop, V: Drop>(
    node: &mut TrieNode<K, V>,
    i: usize,
    list: &Nibblet,
    depth: usize,
    branch: Box<TrieNode<K, V>>,
) -> Result<Grafted, Box<TrieNode<K, V>>>
    requires depth { depth < length list.now }
    requires placed { IsTreePlaced (tree_of node.old) }
    requires gap { IsPlaceOf (slice_index list.now depth) (firsts (tree_of node.old).children)
        (Err i) }
    requires below { IsTreePlaced (tree_of branch.value) }
    requires full { IsTreeFull (tree_of branch.value) }
    ensures { GraftNodeOutcome result branch (fragment_of node.old ++ drop depth list.now)
        (tree_of node.old) (tree_of node.new) }
{
    let Ok(()) = node.children.reserve(1) else {
        return Err(branch);
    };
    let Ok(fragment) = joined_tail(list, depth, &branch.fragment) else {
        return Err(branch);
    };
    link(node, i, refitted(branch, fragment), list.get(depth));
    Ok(Grafted {
        nodes: 1,
        nibbles: list.len() - depth,
    })
}

// The node in `slot` parts from the list after n nibbles of its fragment: a new node stands in its
// place, with the branch beside it.
#[inline(never)]
fn split_beside<K: Drop, V: Drop>(
    slot: &mut Box<TrieNode<K, V>>,
    n: usize,
    alloc: Global,
    list: &Nibblet,
    depth: usize,
    branch: Box<TrieNode<K, V>>,
) -> Result<Grafted, Box<TrieNode<K, V>>>
    requires some { 0 < n }
    requires within { n < length (fragment_of slot.old.value) }
    requires depth { depth < length list.now }
    requires apart { slice_index (fragment_of slot.old.value) n ≢ slice_index list.now depth }
    requires placed { IsTreePlaced (tree_of slot.old.value) }
    requires below { IsTreePlaced (tree_of branch.value) }
    requires full { IsTreeFull (tree_of branch.value) }
    ensures { GraftChildOutcome result branch
        (take n (fragment_of slot.old.value) ++ drop depth list.now)
        (tree_of slot.old.value) (tree_of slot.new.value) }
{
    let Ok((upper, tail)) = make_split(slot, n, alloc) else {
        return Err(branch);
    };
    let Ok(fragment) = joined_tail(list, depth, &branch.fragment) else {
        return Err(branch);
    };
    lower_beside(
        slot,
        upper,
        tail,
        refitted(branch, fragment),
        list.get(depth),
    );
    Ok(Grafted {
        nodes: 2,
        nibbles: list.len() - depth,
    })
}

//! The nodes of a tree are laid anew, one after another in the order of walks.
ghost use Rattle.std.specs.Prelude.{◌≡◌, [], IfOk, OnOk, IsOk};
ghost use Rattle.masked_tree.specs.Tree.{none};
ghost use Rattle.radix_nodes.specs.Nodes.{tree_of, children_of, out_of};
ghost use Rattle.radix_nodes.specs.Shapes.{HaveSameShape};

use crate::trie_node::TrieNode;
use crate::whole::copied::push_copy;
use radix_keys::{Memory, Nibblet};
use std::alloc::Global;
use std::mem;

// A node that holds nothing, with room for as many children as a node has.
fn blank_alone<K, V>(node: &TrieNode<K, V>, alloc: Global) -> Result<TrieNode<K, V>, Memory>
    ensures none { IfOk result (λ blank. (out_of blank).children.items ≡ []) }
    ensures inline { (tree_of node.now).children ≡ none → IsOk result }
{
    let children = Vec::with_capacity(alloc, node.children.len())?;
    Ok(TrieNode {
        fragment: Nibblet::new(alloc),
        pair: None,
        mask: 0,
        children,
    })
}

// The same in a box, which is allocated before those of the children, since a walk comes to it
// first.
#[inline(never)]
fn boxed_blank<K: Drop, V: Drop>(
    node: &TrieNode<K, V>,
    alloc: Global,
) -> Result<Box<TrieNode<K, V>>, Memory>
    ensures none { IfOk result (λ blank. (out_of blank.value).children.items ≡ []) }
{
    let mut blank = Box::new(alloc, TrieNode::new(alloc))?;
    *blank = blank_alone(node, alloc)?;
    Ok(blank)
}

// Nodes that hold nothing, in the shape of a node's children and all below them. A frame holds
// references alone.
fn blank_children<K: Drop, V: Drop>(
    node: &TrieNode<K, V>,
    alloc: Global,
    blanks: &mut Vec<Box<TrieNode<K, V>>>,
) -> Result<(), Memory>
    requires { blanks.old.items ≡ [] }
    ensures shape { OnOk result
        (HaveSameShape (tree_of node.now).children (children_of blanks.new.items)) }
    ensures inline { (tree_of node.now).children ≡ none → IsOk result }
{
    for i in 0..node.children.len() {
        let child = &node.children[i];
        let mut blank = boxed_blank(child, alloc)?;
        let below = blank_children(child, alloc, &mut blank.children);
        push_copy(blanks, blank, below)?;
    }
    Ok(())
}

// What a node holds, apart from its children, and what another does change places.
#[inline(never)]
fn swap_own<K, V>(from: &mut TrieNode<K, V>, into: &mut TrieNode<K, V>)
    ensures fragment { (out_of into.new).fragment ≡ (out_of from.old).fragment }
    ensures pair { (out_of into.new).pair ≡ (out_of from.old).pair }
    ensures mask { (out_of into.new).mask ≡ (out_of from.old).mask }
    ensures given { (out_of from.new).children ≡ (out_of from.old).children }
    ensures removed { (out_of into.new).children ≡ (out_of into.old).children }
{
    mem::swap(&mut from.fragment, &mut into.fragment);
    mem::swap(&mut from.pair, &mut into.pair);
    mem::swap(&mut from.mask, &mut into.mask);
}

// What a node and all below it hold goes to the nodes of a tree of the same shape. A frame holds
// references alone.
fn move_contents<K, V>(from: &mut TrieNode<K, V>, into: &mut TrieNode<K, V>)
    requires { HaveSameShape (tree_of from.old).children (tree_of into.old).children }
    ensures { tree_of into.new ≡ tree_of from.old }
{
    swap_own(from, into);
    for i in 0..from.children.len() {
        move_contents(&mut from.children[i], &mut into.children[i]);
    }
}

/// Lays the nodes below the root anew, each before those below it and those after it, as a walk
/// comes to them. All memory is allocated before anything is moved, so a failure changes nothing.
/// Boxes of pairs stay where they are, and so do the nibbles of long fragments: what refers to them
/// is moved. For a root without children none is allocated.
pub fn lay_anew<K: Drop, V: Drop>(root: &mut TrieNode<K, V>, alloc: Global) -> Result<(), Memory>
    ensures same { tree_of root.new ≡ tree_of root.old }
    ensures inline { (tree_of root.old).children ≡ none → IsOk result }
{
    let mut blank = blank_alone(root, alloc)?;
    blank_children(root, alloc, &mut blank.children)?;
    move_contents(root, &mut blank);
    *root = blank;
    Ok(())
}

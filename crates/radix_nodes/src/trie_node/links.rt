//! Linking and unlinking of nodes: none of these allocates.
ghost use Rattle.std.specs.Prelude.{◌≡◌, ◌≢◌, ◌+◌, ◌<◌, ◌≤◌, ◌∷◌, [], length, None, vec_len};
ghost use Rattle.nibble_map.specs.Trees.{first};
ghost use Rattle.masked_tree.specs.Mask.{rank};
ghost use Rattle.masked_tree.specs.Tree.{IsTreePlaced, IsAt};
ghost use Rattle.masked_tree.specs.Edits.{with_new_child, without_child, lowered, merged};
ghost use Rattle.radix_nodes.specs.Nodes.{tree_of, fragment_of, out_of, unboxed, IsUpper, HasRoom};

use crate::trie_node::mask::{beside, mark, unmark};
use crate::trie_node::parts::Parts;
use crate::trie_node::{KeyValue, TrieNode};
use radix_keys::Nibblet;
use std::mem;

/// Puts a child at place i, where there is room.
pub fn link<K, V>(node: &mut TrieNode<K, V>, i: usize, child: Box<TrieNode<K, V>>, nibble: u8)
    requires room { HasRoom 1 node.old }
    requires within { i ≤ vec_len (out_of node.old).children }
    requires nibble { nibble < 16 }
    ensures { tree_of node.new
        ≡ with_new_child i nibble (tree_of child.value) (tree_of node.old) }
{
    node.children.insert(i, child).unwrap();
    node.mask = mark(node.mask, nibble);
}

/// Takes the child at place i out.
pub fn unlink<K, V>(node: &mut TrieNode<K, V>, i: usize) -> Box<TrieNode<K, V>>
    requires within { i < vec_len (out_of node.old).children }
    requires placed { IsTreePlaced (tree_of node.old) }
    ensures child { IsAt i (tree_of node.old).children (tree_of result.value) }
    ensures tree { tree_of node.new
        ≡ without_child i (first (tree_of result.value).fragment) (tree_of node.old) }
    ensures nibble { first (tree_of result.value).fragment < 16 }
    ensures same { (out_of node.new).pair ≡ (out_of node.old).pair }
    ensures less { vec_len (out_of node.new).children + 1 ≡ vec_len (out_of node.old).children }
    ensures room { HasRoom 1 node.new }
{
    let child = node.children.remove(i);
    node.mask = unmark(node.mask, child.fragment.get(0));
    child
}

/// Puts `upper` in the place of the node in `slot`, which becomes its child with the fragment
/// `tail`.
pub fn lower<K: Drop, V: Drop>(
    slot: &mut Box<TrieNode<K, V>>,
    upper: Box<TrieNode<K, V>>,
    tail: Nibblet,
)
    requires { IsUpper (fragment_of upper.value) tail upper.value }
    ensures tree { tree_of slot.new.value
        ≡ lowered (fragment_of upper.value) tail (tree_of slot.old.value) }
    ensures room { HasRoom 1 slot.new.value }
    ensures one { vec_len (out_of slot.new.value).children ≡ 1 }
{
    let mut below = mem::replace(slot, upper);
    below.fragment = tail;
    slot.children.push(below).unwrap();
}

/// The same with another child beside the node, which begins with `nibble`.
pub fn lower_beside<K: Drop, V: Drop>(
    slot: &mut Box<TrieNode<K, V>>,
    upper: Box<TrieNode<K, V>>,
    tail: Nibblet,
    child: Box<TrieNode<K, V>>,
    nibble: u8,
)
    requires upper { IsUpper (fragment_of upper.value) tail upper.value }
    requires some { 0 < length tail }
    requires nibble { nibble < 16 }
    requires apart { first tail ≢ nibble }
    ensures { tree_of slot.new.value
        ≡ with_new_child (rank nibble (first tail ∷ [])) nibble (tree_of child.value)
        (lowered (fragment_of upper.value) tail (tree_of slot.old.value)) }
{
    let i = beside(tail.get(0), nibble);
    lower(slot, upper, tail);
    link(slot, i, child, nibble);
}

/// The node's only child takes its place, with the two fragments joined.
pub fn absorb<K: Drop, V: Drop>(node: &mut TrieNode<K, V>, fragment: Nibblet)
    requires one { vec_len (out_of node.old).children ≡ 1 }
    requires joined { fragment ≡ (merged (tree_of node.old)).fragment }
    ensures { tree_of node.new ≡ merged (tree_of node.old) }
{
    let only = node.children.remove(0);
    let Parts {
        fragment: _,
        pair,
        mask,
        children,
    } = Box::into_inner(only).into_parts();
    *node = TrieNode {
        fragment,
        pair,
        mask,
        children,
    };
}

/// Takes a pair out of its box.
pub fn take_pair<K, V>(at: &mut Option<Box<KeyValue<K, V>>>) -> Option<KeyValue<K, V>>
    ensures was { result ≡ unboxed at.old }
    ensures none { at.new ≡ None }
{
    match at.take() {
        Some(b) => Some(Box::into_inner(b)),
        None => None,
    }
}

//! A copy of a tree.
ghost use Rattle.std.specs.Prelude.{◌≡◌, ◌++◌, ◌∷◌, [], IfOk, OnOk, IsOk, None};
ghost use Rattle.masked_tree.specs.Tree.{none};
ghost use Rattle.nibble_map.specs.Nibbles.{IsShort};
ghost use Rattle.masked_tree.specs.Same.{AreChildCopies, IsPairCopy, IsCopy};
ghost use Rattle.radix_nodes.specs.Copies.{IsKeyValueCopy, IsBareCopy};
ghost use Rattle.radix_nodes.specs.Nodes.{tree_of, children_of, fragment_of, out_of, unboxed};
ghost use Rattle.radix_nodes.specs.declared.trie_node.KeyValue.{KeyValue};

use crate::trie_node::{KeyValue, TrieNode};
use radix_keys::{Ascending, KeySigned, Memory};
use std::alloc::Global;

/// A key that can be made from another key, of the same type or of one that it wraps.
pub trait CopyOf<K>: Drop {
    // Whether a key is what is made of another.
    ghost is_copy: { K → Self → Type 0 };

    /// The key that is made of another. It fails only if an allocation fails.
    fn copy_of(key: &K) -> Result<Self, Memory>
        ensures { IfOk result (λ copy. is_copy key.now copy) };
}

impl<K: Clone> CopyOf<K> for K {
    ghost is_copy = { K.is_clone };

    fn copy_of(key: &K) -> Result<K, Memory> {
        Ok(key.clone()?)
    }
}

impl<T: KeySigned> CopyOf<T> for Ascending<T> {
    ghost is_copy = { λ x y. y ≡ x };

    fn copy_of(key: &T) -> Result<Ascending<T>, Memory> {
        Ok(Ascending::from(*key))
    }
}

// A copy of the key and a clone of the value, where there is a pair.
pub(super) fn copied_pair<K, L: CopyOf<K>, V: Clone>(
    pair: &Option<Box<KeyValue<K, V>>>,
    alloc: Global,
) -> Result<Option<Box<KeyValue<L, V>>>, Memory>
    ensures copy { IfOk result (λ copy. IsPairCopy (IsKeyValueCopy L.is_copy V.is_clone)
        (unboxed pair.now) (unboxed copy)) }
    ensures inline { unboxed pair.now ≡ None → IsOk result }
{
    match pair {
        Some(b) => {
            let key = L::copy_of(&b.key)?;
            let value = b.value.clone()?;
            Ok(Some(Box::new(alloc, KeyValue { key, value })?))
        }
        None => Ok(None),
    }
}

// A node's copy without its children, with room for theirs.
fn copied_alone<K, L: CopyOf<K>, V: Clone>(
    node: &TrieNode<K, V>,
    alloc: Global,
) -> Result<TrieNode<L, V>, Memory>
    ensures copy { IfOk result (λ copy. IsBareCopy (IsKeyValueCopy L.is_copy V.is_clone)
        (out_of node.now) (out_of copy)) }
    ensures none { IfOk result (λ copy. (out_of copy).children.items ≡ []) }
    ensures inline { (tree_of node.now).pair ≡ None → (tree_of node.now).children ≡ none
        → IsShort (fragment_of node.now) → IsOk result }
{
    Ok(TrieNode {
        fragment: node.fragment.clone()?,
        pair: copied_pair(&node.pair, alloc)?,
        mask: node.mask,
        children: Vec::with_capacity(alloc, node.children.len())?,
    })
}

// The same in a box.
#[inline(never)]
fn boxed_alone<K, L: CopyOf<K>, V: Clone>(
    node: &TrieNode<K, V>,
    alloc: Global,
) -> Result<Box<TrieNode<L, V>>, Memory>
    ensures copy { IfOk result (λ copy. IsBareCopy (IsKeyValueCopy L.is_copy V.is_clone)
        (out_of node.now) (out_of copy.value)) }
    ensures none { IfOk result (λ copy. (out_of copy.value).children.items ≡ []) }
{
    let copy = copied_alone(node, alloc)?;
    Ok(Box::new(alloc, copy)?)
}

// Adds a copy, or drops it if the copies of those below it failed: out of line, since a drop takes
// a node's place on the stack.
#[inline(never)]
pub(super) fn push_copy<L: Drop, V: Drop>(
    copies: &mut Vec<Box<TrieNode<L, V>>>,
    copy: Box<TrieNode<L, V>>,
    below: Result<(), Memory>,
) -> Result<(), Memory>
    ensures pushed { OnOk result (copies.new.items ≡ copies.old.items ++ copy ∷ []) }
    ensures below { OnOk result (IsOk below) }
{
    below?;
    Ok(copies.push(copy)?)
}

// Copies of a node's children and all below them. A frame holds references alone: what a node is
// made of stands out of line.
fn copy_children<K, L: CopyOf<K>, V: Clone>(
    node: &TrieNode<K, V>,
    alloc: Global,
    copies: &mut Vec<Box<TrieNode<L, V>>>,
) -> Result<(), Memory>
    requires { copies.old.items ≡ [] }
    ensures copy { OnOk result (AreChildCopies (IsKeyValueCopy L.is_copy V.is_clone)
        (tree_of node.now).children (children_of copies.new.items)) }
    ensures inline { (tree_of node.now).children ≡ none → IsOk result }
{
    for i in 0..node.children.len() {
        let child = &node.children[i];
        let mut copy = boxed_alone(child, alloc)?;
        let below = copy_children(child, alloc, &mut copy.children);
        push_copy(copies, copy, below)?;
    }
    Ok(())
}

/// A copy of a node and all below it: the same fragments, masks and children, with a copy of each
/// key and a clone of each value. Where an allocation fails, what was copied is dropped. A node
/// with no pair, no child and at most 32 nibbles is copied without an allocation.
pub fn copied<K, L: CopyOf<K>, V: Clone>(
    node: &TrieNode<K, V>,
    alloc: Global,
) -> Result<TrieNode<L, V>, Memory>
    ensures copy { IfOk result (λ copy. IsCopy (IsKeyValueCopy L.is_copy V.is_clone)
        (tree_of node.now) (tree_of copy)) }
    ensures inline { (tree_of node.now).pair ≡ None → (tree_of node.now).children ≡ none
        → IsShort (fragment_of node.now) → IsOk result }
{
    let mut copy = copied_alone(node, alloc)?;
    copy_children(node, alloc, &mut copy.children)?;
    Ok(copy)
}

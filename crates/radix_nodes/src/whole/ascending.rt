//! A copy of a root for keys that flip the top bit of their encodings.
ghost use Rattle.std.specs.Prelude.{◌≡◌, ◌<◌, length, IfOk, OnOk, IsOk, None};
ghost use Rattle.masked_tree.specs.Tree.{Children, none, IsTreePlaced};
ghost use Rattle.masked_tree.specs.Same.{AreChildCopies, IsCopy};
ghost use Rattle.nibble_map.specs.Nibbles.{IsShort};
ghost use Rattle.masked_tree.specs.Turned.{append, in_half, turned_half, turned_root, turned_tree};
ghost use Rattle.radix_nodes.specs.Copies.{IsKeyValueCopy};
ghost use Rattle.radix_nodes.specs.Nodes.{tree_of, fragment_of, children_of};
ghost use Rattle.radix_nodes.specs.declared.trie_node.KeyValue.{KeyValue};

use crate::trie_node::TrieNode;
use crate::whole::copied::{CopyOf, copied, copied_pair};
use radix_keys::Memory;
use std::alloc::Global;

// Whether a nibble is 8 or more, or else whether it is less.
fn is_in_half(high: bool, nibble: u8) -> bool
    ensures { result ≡ in_half high nibble }
{
    if high { nibble > 7 } else { nibble < 8 }
}

// A copy of a child with the top bit of its first nibble flipped.
fn turned_child<K, L: CopyOf<K>, V: Clone>(
    child: &TrieNode<K, V>,
    alloc: Global,
) -> Result<TrieNode<L, V>, Memory>
    requires { 0 < length (fragment_of child.now) }
    ensures { IfOk result (λ copy. IsCopy (IsKeyValueCopy L.is_copy V.is_clone)
        (turned_tree (tree_of child.now)) (tree_of copy)) }
{
    let mut copy = copied(child, alloc)?;
    copy.fragment.turn_over();
    Ok(copy)
}

// Appends copies of the children whose first nibble is in a half, with the top bit of that nibble
// flipped.
fn push_half<K, L: CopyOf<K>, V: Clone>(
    node: &TrieNode<K, V>,
    alloc: Global,
    high: bool,
    copies: &mut Vec<Box<TrieNode<L, V>>>,
) -> Result<(), Memory>
    requires { IsTreePlaced (tree_of node.now) }
    ensures pushed { OnOk result ((k : Children (KeyValue K V))
        → AreChildCopies (IsKeyValueCopy L.is_copy V.is_clone) k (children_of copies.old.items)
        → AreChildCopies (IsKeyValueCopy L.is_copy V.is_clone)
        (append k (turned_half high (tree_of node.now).children)) (children_of copies.new.items)) }
    ensures inline { (tree_of node.now).children ≡ none → IsOk result }
{
    for i in 0..node.children.len() {
        let child = &node.children[i];
        if is_in_half(high, child.fragment.get(0)) {
            let copy = turned_child(child, alloc)?;
            copies.push(Box::new(alloc, copy)?)?;
        }
    }
    Ok(())
}

/// A copy of a root in which the top bit of the first nibble of each child's fragment is flipped,
/// and the children stand in the order that they have then.
///
/// Keys are copied and values cloned as in every copy. Where an allocation fails, what was copied
/// is dropped. A root with no pair, no child and at most 32 nibbles is copied without an
/// allocation.
pub fn turned_copy<K, L: CopyOf<K>, V: Clone>(
    root: &TrieNode<K, V>,
    alloc: Global,
) -> Result<TrieNode<L, V>, Memory>
    requires { IsTreePlaced (tree_of root.now) }
    ensures copy { IfOk result (λ copy. IsCopy (IsKeyValueCopy L.is_copy V.is_clone)
        (turned_root (tree_of root.now)) (tree_of copy)) }
    ensures inline { (tree_of root.now).pair ≡ None → (tree_of root.now).children ≡ none
        → IsShort (fragment_of root.now) → IsOk result }
{
    let mut children = Vec::with_capacity(alloc, root.children.len())?;
    push_half(root, alloc, true, &mut children)?;
    push_half(root, alloc, false, &mut children)?;
    Ok(TrieNode {
        fragment: root.fragment.clone()?,
        pair: copied_pair(&root.pair, alloc)?,
        mask: root.mask.rotate_left(8),
        children,
    })
}

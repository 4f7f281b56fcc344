//! What an insertion attaches at its place: a pair, a leaf, or a node above. All that may fail
//! comes first. The pair comes in `change.was`, where the replaced pair is left, or on failure the
//! pair again.
ghost use Rattle.std.specs.Prelude.{◌≡◌, ◌≢◌, ◌<◌, ◌≤◌, ◌++◌, length, take, drop, slice_index, IfOk, OnOk, OnErr, IsSome, MatchOption, Err};
ghost use Rattle.masked_tree.specs.Mask.{IsPlaceOf};
ghost use Rattle.masked_tree.specs.Tree.{IsTreePlaced, firsts};
ghost use Rattle.masked_tree.specs.Edits.{leaf};
ghost use Rattle.radix_nodes.specs.Nodes.{tree_of, fragment_of, IsUpper, EditOutcome, ReplaceOutcome, SetOutcome, Settles};

use crate::insertion::change::Change;
use crate::trie_node::links::{link, lower, lower_beside};
use crate::trie_node::mask::mark;
use crate::trie_node::{KeyValue, TrieNode};
use radix_keys::{Memory, Nibblet};
use std::alloc::Global;
use std::mem;

// The pair in a box of its own. It stays where it is if that fails.
fn box_pair<K: Drop, V: Drop>(
    pair: &mut Option<KeyValue<K, V>>,
    alloc: Global,
) -> Result<Box<KeyValue<K, V>>, Memory>
    requires { IsSome pair.old }
    ensures made { IfOk result (λ b. pair.old ≡ Some b.value) }
    ensures taken { OnOk result (pair.new ≡ None) }
    ensures back { OnErr result (pair.new ≡ pair.old) }
{
    match Box::new(alloc, pair.take().unwrap()) {
        Ok(b) => Ok(b),
        Err(failed) => {
            *pair = Some(failed.value);
            Err(Memory)
        }
    }
}

// Writes the pair in its box, or in a new one.
#[inline(never)]
pub(super) fn set_pair<K: Drop, V: Drop>(
    at: &mut Option<Box<KeyValue<K, V>>>,
    alloc: Global,
    change: &mut Change<K, V>,
) -> Result<(), Memory>
    requires { IsSome change.old.was }
    ensures { Settles result change.old change.new
        (λ x outcome. SetOutcome outcome x at.old at.new) }
{
    match at {
        Some(b) => {
            let pair = change.was.take().unwrap();
            change.was = Some(mem::replace(&mut **b, pair));
        }
        None => *at = Some(box_pair(&mut change.was, alloc)?),
    }
    change.nodes = 0;
    change.nibbles = 0;
    Ok(())
}

// A leaf with the pair, which stays where it is if that fails.
#[inline(never)]
fn make_leaf<K: Drop, V: Drop>(
    alloc: Global,
    list: &Nibblet,
    depth: usize,
    pair: &mut Option<KeyValue<K, V>>,
) -> Result<Box<TrieNode<K, V>>, Memory>
    requires depth { depth ≤ length list.now }
    requires given { IsSome pair.old }
    ensures made { IfOk result (λ b. MatchOption pair.old ⊥
        (λ x. tree_of b.value ≡ leaf (drop depth list.now) x)) }
    ensures taken { OnOk result (pair.new ≡ None) }
    ensures back { OnErr result (pair.new ≡ pair.old) }
{
    let mut leaf = Box::new(
        alloc,
        TrieNode {
            fragment: list.tail(depth)?,
            pair: None,
            mask: 0,
            children: Vec::new(alloc),
        },
    )?;
    leaf.pair = Some(box_pair(pair, alloc)?);
    Ok(leaf)
}

// Adds a leaf with the pair at place i.
#[inline(never)]
pub(super) fn add_leaf<K: Drop, V: Drop>(
    node: &mut TrieNode<K, V>,
    i: usize,
    alloc: Global,
    list: &Nibblet,
    depth: usize,
    change: &mut Change<K, V>,
) -> Result<(), Memory>
    requires depth { depth < length list.now }
    requires placed { IsTreePlaced (tree_of node.old) }
    requires gap { IsPlaceOf (slice_index list.now depth) (firsts (tree_of node.old).children)
        (Err i) }
    requires given { IsSome change.old.was }
    ensures { Settles result change.old change.new (λ x outcome. EditOutcome outcome x
        (fragment_of node.old ++ drop depth list.now) (tree_of node.old) (tree_of node.new)) }
{
    node.children.reserve(1)?;
    let leaf = make_leaf(alloc, list, depth, &mut change.was)?;
    link(node, i, leaf, list.get(depth));
    change.nodes = 1;
    change.nibbles = list.len() - depth;
    Ok(())
}

/// A node that is to stand above one whose fragment is `tail`.
pub fn make_upper<K: Drop, V: Drop>(
    alloc: Global,
    fragment: Nibblet,
    tail: &Nibblet,
) -> Result<Box<TrieNode<K, V>>, Memory>
    requires { 0 < length tail.now }
    ensures { IfOk result (λ b. IsUpper fragment tail.now b.value) }
{
    let mask = mark(0, tail.get(0));
    // Most nodes that stand above another have no third child.
    let children = Vec::with_capacity(alloc, 2)?;
    Ok(Box::new(
        alloc,
        TrieNode {
            fragment,
            pair: None,
            mask,
            children,
        },
    )?)
}

// The node that is to stand above another, and the fragment that is left to that one.
#[inline(never)]
pub(super) fn make_split<K: Drop, V: Drop>(
    node: &TrieNode<K, V>,
    n: usize,
    alloc: Global,
) -> Result<(Box<TrieNode<K, V>>, Nibblet), Memory>
    requires { n < length (fragment_of node.now) }
    ensures { IfOk result
        (λ made. IsUpper (take n (fragment_of node.now)) (drop n (fragment_of node.now))
        made.0.value × (made.1 ≡ drop n (fragment_of node.now))) }
{
    let rest = node.fragment.tail(n)?;
    let upper = make_upper(alloc, node.fragment.head(n)?, &rest)?;
    Ok((upper, rest))
}

// The node in `slot` parts from the list after n nibbles of its fragment: a new node stands in its
// place, with the pair, or with a leaf beside it.
#[inline(never)]
pub(super) fn split_and_insert<K: Drop, V: Drop>(
    slot: &mut Box<TrieNode<K, V>>,
    n: usize,
    alloc: Global,
    list: &Nibblet,
    depth: usize,
    change: &mut Change<K, V>,
) -> Result<(), Memory>
    requires some { 0 < n }
    requires within { n < length (fragment_of slot.old.value) }
    requires depth { depth ≤ length list.now }
    requires apart { depth < length list.now → slice_index (fragment_of slot.old.value) n
        ≢ slice_index list.now depth }
    requires placed { IsTreePlaced (tree_of slot.old.value) }
    requires given { IsSome change.old.was }
    ensures { Settles result change.old change.new (λ x outcome. ReplaceOutcome outcome x
        (take n (fragment_of slot.old.value) ++ drop depth list.now)
        (tree_of slot.old.value) (tree_of slot.new.value)) }
{
    let (upper, tail) = make_split(slot, n, alloc)?;
    change.nibbles = list.len() - depth;
    if depth == list.len() {
        let b = box_pair(&mut change.was, alloc)?;
        lower(slot, upper, tail);
        slot.pair = Some(b);
        change.nodes = 1;
    } else {
        let leaf = make_leaf(alloc, list, depth, &mut change.was)?;
        lower_beside(slot, upper, tail, leaf, list.get(depth));
        change.nodes = 2;
    }
    Ok(())
}

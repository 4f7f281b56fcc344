//! The rows of a walk between two bounds.
ghost use Rattle.std.specs.Prelude.{◌≡◌, [], ◌++◌, IfOk, IsOk, OnOk};
ghost use Rattle.std.specs.declared.ops.Bound.TheVariants.{Unbounded};
ghost use Rattle.masked_tree.specs.Tree.{IsFullBelow, IsTreePlaced, plain};
ghost use Rattle.nibble_map.specs.Trees.{IsFull};
ghost use Rattle.radix_nodes.specs.Nodes.{children_of, tree_of};
ghost use Rattle.radix_trie.specs.Walks.{HasFullRows, ReachesDown, bound_behind, bound_now, left_in, left_of, left_rows, pairs_of_span, stacked};

use crate::iter::rows::Frame;
use crate::iter::span::parting::part;
use radix_keys::{Memory, Nibblet};
use radix_nodes::trie_node::TrieNode;
use std::alloc::Global;
use std::ops::Bound;

mod cuts;
mod parting;

/// The rows of the walk over the pairs at and below a node whose lists stand within two bounds, as
/// a stack: its last row comes first. So many nibbles of each bound lie behind the node. Memory is
/// allocated for rows on the way down to the bounds, where a pair is left there.
pub(crate) fn frames_within<'a, K, V>(
    alloc: Global,
    node: &'a TrieNode<K, V>,
    low: Bound<&Nibblet>,
    high: Bound<&Nibblet>,
    depth: usize,
) -> Result<Vec<Frame<'a, K, V>>, Memory>
    requires low { ReachesDown depth (bound_now low) }
    requires high { ReachesDown depth (bound_now high) }
    requires placed { IsTreePlaced (tree_of node.now) }
    requires full { IsFullBelow (tree_of node.now) }
    ensures pairs { IfOk result (λ frames. stacked frames.items
        ≡ pairs_of_span (bound_behind depth (bound_now low.entry))
        (bound_behind depth (bound_now high.entry))
        (tree_of node.now)) }
    ensures none { pairs_of_span (bound_behind depth (bound_now low.entry))
        (bound_behind depth (bound_now high.entry)) (tree_of node.now) ≡ [] → IsOk result }
    ensures rows { IfOk result (λ frames. HasFullRows (left_rows frames.items)) }
{
    let mut stack = Vec::new(alloc);
    let parting = part(node, low, high, depth);
    if let Some((child, next)) = parting.high {
        push_earlier(&mut stack, child, high, next)?;
        stack.reverse();
    }
    push_frame(&mut stack, parting.rest)?;
    if let Some((child, next)) = parting.low {
        push_later(&mut stack, child, low, next)?;
    }
    Ok(stack)
}

/// Puts the rows that stand above a lower bound on a stack, from the node down: the last one comes
/// first.
fn push_later<'a, K, V>(
    stack: &mut Vec<Frame<'a, K, V>>,
    node: &'a TrieNode<K, V>,
    low: Bound<&Nibblet>,
    depth: usize,
) -> Result<(), Memory>
    requires reaches { ReachesDown depth (bound_now low) }
    requires placed { IsTreePlaced (tree_of node.now) }
    requires full { IsFullBelow (tree_of node.now) }
    requires rows { HasFullRows (left_rows stack.old.items) }
    ensures pairs { OnOk result (stacked stack.new.items
        ≡ pairs_of_span (bound_behind depth (bound_now low.entry)) Unbounded (tree_of node.now)
        ++ stacked stack.old.items) }
    ensures none { pairs_of_span (bound_behind depth (bound_now low.entry)) Unbounded
        (tree_of node.now) ≡ [] → IsOk result }
    ensures rows { OnOk result (HasFullRows (left_rows stack.new.items)) }
{
    let mut at = node;
    let mut done = depth;
    loop {
        let parting = part(at, low, Bound::Unbounded, done);
        push_frame(stack, parting.rest)?;
        let Some((child, next)) = parting.low else {
            return Ok(());
        };
        at = child;
        done = next;
    }
}

/// Puts the rows that stand below an upper bound into a list, from the node down: the first one
/// comes first.
fn push_earlier<'a, K, V>(
    list: &mut Vec<Frame<'a, K, V>>,
    node: &'a TrieNode<K, V>,
    high: Bound<&Nibblet>,
    depth: usize,
) -> Result<(), Memory>
    requires reaches { ReachesDown depth (bound_now high) }
    requires placed { IsTreePlaced (tree_of node.now) }
    requires full { IsFullBelow (tree_of node.now) }
    requires rows { HasFullRows (left_rows list.old.items) }
    ensures pairs { OnOk result (left_in list.new.items ≡ left_in list.old.items
        ++ pairs_of_span Unbounded (bound_behind depth (bound_now high.entry)) (tree_of node.now)) }
    ensures none { pairs_of_span Unbounded (bound_behind depth (bound_now high.entry))
        (tree_of node.now) ≡ [] → IsOk result }
    ensures rows { OnOk result (HasFullRows (left_rows list.new.items)) }
{
    let mut at = node;
    let mut done = depth;
    loop {
        let parting = part(at, Bound::Unbounded, high, done);
        push_frame(list, parting.rest)?;
        let Some((child, next)) = parting.high else {
            return Ok(());
        };
        at = child;
        done = next;
    }
}

/// Puts what is left of a node on a stack, if a pair is left there.
fn push_frame<'a, K, V>(
    stack: &mut Vec<Frame<'a, K, V>>,
    rest: Frame<'a, K, V>,
) -> Result<(), Memory>
    requires row { IsFull (plain (children_of rest.row.now)) }
    requires rows { HasFullRows (left_rows stack.old.items) }
    ensures last { OnOk result (stacked stack.new.items
        ≡ left_of rest.entry ++ stacked stack.old.items) }
    ensures below { OnOk result (left_in stack.new.items ≡ left_in stack.old.items
        ++ left_of rest.entry) }
    ensures rows { OnOk result (HasFullRows (left_rows stack.new.items)) }
    ensures none { left_of rest.entry ≡ [] → IsOk result }
{
    if rest.own.is_some() || !rest.row.is_empty() {
        stack.push(rest)?;
    }
    Ok(())
}

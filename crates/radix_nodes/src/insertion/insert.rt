//! Insertion. All that may fail comes first, so a failure leaves the tree as it was.
//!
//! What stands at the place of the change is kept out of line: its variables aren't on the stack at
//! each level above then.
ghost use Rattle.std.specs.Prelude.{◌≤◌, ◌++◌, length, drop, IsSome};
ghost use Rattle.masked_tree.specs.Tree.{IsTreePlaced};
ghost use Rattle.radix_nodes.specs.Nodes.{tree_of, fragment_of, EditOutcome, Settles};

use crate::insertion::attach::{add_leaf, set_pair, split_and_insert};
use crate::insertion::change::Change;
use crate::search::step::agreed;
use crate::trie_node::mask::child_index;
use crate::trie_node::{KeyValue, TrieNode};
use radix_keys::{Memory, Nibblet};
use std::alloc::Global;

/// Inserts the pair at the list's place at or below a node that stands at `depth`. Where an
/// allocation fails, the pair is returned and nothing has changed; none is made where the list is
/// stored.
pub fn insert<K: Drop, V: Drop>(
    node: &mut TrieNode<K, V>,
    alloc: Global,
    list: &Nibblet,
    depth: usize,
    pair: KeyValue<K, V>,
) -> Result<Change<K, V>, KeyValue<K, V>>
    requires depth { depth ≤ length list.now }
    requires placed { IsTreePlaced (tree_of node.old) }
    ensures { EditOutcome result pair (fragment_of node.old ++ drop depth list.now)
        (tree_of node.old) (tree_of node.new) }
{
    let mut change = Change {
        was: Some(pair),
        nodes: 0,
        nibbles: 0,
    };
    match insert_below(node, alloc, list, depth, &mut change) {
        Ok(()) => Ok(change),
        Err(Memory) => Err(change.was.take().unwrap()),
    }
}

// The same with the pair in `change.was`, where the replaced pair is left, or on failure the pair
// again. So a frame holds neither a pair nor a result.
fn insert_below<K: Drop, V: Drop>(
    node: &mut TrieNode<K, V>,
    alloc: Global,
    list: &Nibblet,
    depth: usize,
    change: &mut Change<K, V>,
) -> Result<(), Memory>
    requires depth { depth ≤ length list.now }
    requires placed { IsTreePlaced (tree_of node.old) }
    requires given { IsSome change.old.was }
    ensures { Settles result change.old change.new (λ x outcome. EditOutcome outcome x
        (fragment_of node.old ++ drop depth list.now) (tree_of node.old) (tree_of node.new)) }
{
    if depth == list.len() {
        return set_pair(&mut node.pair, alloc, change);
    }
    match child_index(node.mask, list.get(depth)) {
        Ok(i) => {
            let child = &mut node.children[i];
            let n = agreed(&child.fragment, list, depth).same;
            if n == child.fragment.len() {
                insert_below(child, alloc, list, depth + n, change)
            } else {
                split_and_insert(child, n, alloc, list, depth + n, change)
            }
        }
        Err(i) => add_leaf(node, i, alloc, list, depth, change),
    }
}

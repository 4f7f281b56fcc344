//! The pairs of a branch that was cut off, moved out of its nodes.
ghost use Rattle.std.specs.Prelude.{◌≡◌, ◌+◌, ◌≤◌, ◌++◌, [], length, vec_len, vec_capacity};
ghost use Rattle.masked_tree.specs.Tree.{entries_at, nodes_in, nibbles_in};
ghost use Rattle.radix_nodes.specs.Nodes.{tree_of, unboxed};
ghost use Rattle.radix_nodes.specs.Pairs.{own_pair, pairs_in};
ghost use Rattle.radix_nodes.specs.Prunes.{IsSmall, CanCount};

use crate::trie_node::{KeyValue, TrieNode};
use crate::whole::size::Measured;

// Pushes the pair onto a list that has room for it.
#[inline(never)]
fn push_pair<K: Drop, V: Drop>(pair: Option<Box<KeyValue<K, V>>>, list: &mut Vec<(K, V)>)
    requires room { length (own_pair (unboxed pair)) + vec_len list.old ≤ vec_capacity list.old }
    ensures pairs { list.new.items ≡ list.old.items ++ own_pair (unboxed pair) }
    ensures capacity { vec_capacity list.new ≡ vec_capacity list.old }
{
    if let Some(pair) = pair {
        let KeyValue { key, value } = Box::into_inner(pair);
        list.push_reserved((key, value));
    }
}

// Moves the pairs at and below a node to the end of a list that has room for them, and counts what
// goes with them. What is left of the nodes is dropped by a loop.
fn drain_below<K: Drop, V: Drop>(
    node: &mut TrieNode<K, V>,
    list: &mut Vec<(K, V)>,
    gone: &mut Measured,
)
    requires room { vec_len list.old + length (entries_at [] (tree_of node.old))
        ≤ vec_capacity list.old }
    requires small { CanCount gone.old (tree_of node.old) }
    ensures pairs { list.new.items ≡ list.old.items ++ pairs_in (tree_of node.old) }
    ensures capacity { vec_capacity list.new ≡ vec_capacity list.old }
    ensures nodes { gone.new.nodes ≡ gone.old.nodes + nodes_in (tree_of node.old).children }
    ensures nibbles { gone.new.nibbles ≡ gone.old.nibbles
        + (length (tree_of node.old).fragment + nibbles_in (tree_of node.old).children) }
{
    gone.nibbles += node.fragment.len() as u128;
    push_pair(node.pair.take(), list);
    for i in 0..node.children.len() {
        drain_below(&mut node.children[i], list, gone);
        gone.nodes += 1;
    }
}

/// Moves the pairs at and below a node to the end of a list that has room for them: the node's own
/// first, then those of one child after another.
pub fn drain<K: Drop, V: Drop>(node: TrieNode<K, V>, list: &mut Vec<(K, V)>) -> Measured
    requires room { vec_len list.old + length (entries_at [] (tree_of node))
        ≤ vec_capacity list.old }
    requires small { IsSmall (tree_of node) }
    ensures pairs { list.new.items ≡ list.old.items ++ pairs_in (tree_of node) }
    ensures capacity { vec_capacity list.new ≡ vec_capacity list.old }
    ensures nodes { result.nodes ≡ nodes_in (tree_of node).children }
    ensures nibbles { result.nibbles
        ≡ length (tree_of node).fragment + nibbles_in (tree_of node).children }
{
    let mut node = node;
    let mut gone = Measured {
        nodes: 0,
        nibbles: 0,
    };
    drain_below(&mut node, list, &mut gone);
    gone
}

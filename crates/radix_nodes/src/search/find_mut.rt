//! References to the node at a list, and to its value, for writing.
ghost use Rattle.std.specs.Prelude.{◌≡◌, ◌<◌, ◌≤◌, ◌++◌, length, drop, slice_index_or, vec_len};
ghost use Rattle.std.specs.Borrow.{sem};
ghost use Rattle.masked_tree.specs.Tree.{IsTreePlaced};
ghost use Rattle.masked_tree.specs.Paths.{IsStuck};
ghost use Rattle.radix_nodes.specs.Nodes.{tree_of, fragment_of, out_of, IsStep};
ghost use Rattle.radix_nodes.specs.Loans.{LendsChildBox, LendsUnboxed, LendsPair, LendsNode, LendsValue, IsLentPair};

use crate::search::step::step;
use crate::trie_node::{KeyValue, TrieNode};
use radix_keys::Nibblet;

fn child_box<K, V>(node: &mut TrieNode<K, V>, i: usize) -> &mut Box<TrieNode<K, V>>
    requires { i < vec_len (out_of node.old).children }
    ensures* writes_back { sem 𝓛 (LendsChildBox K.row V.row node.entry i result) }
    ensures value { result.now ≡ slice_index_or (out_of node.old).children.items i result.now }
{
    &mut node.children[i]
}

fn unbox<K, V>(b: &mut Box<TrieNode<K, V>>) -> &mut TrieNode<K, V>
    ensures* writes_back { sem 𝓛 (LendsUnboxed K.row V.row b.entry result) }
    ensures value { result.now ≡ b.old.value }
{
    &mut **b
}

// The child that the list goes on to, and how many nibbles lie behind it then: `depth` where there
// is none. The box is returned, since a borrow of the node would end the one that goes on.
fn look<'a, K, V>(
    top: &'a mut Box<TrieNode<K, V>>,
    list: &Nibblet,
    depth: usize,
) -> (&'a mut Box<TrieNode<K, V>>, usize, usize)
    requires depth { depth ≤ length list.now }
    requires placed { IsTreePlaced (tree_of top.old.value) }
    ensures same_reference { result.0.ghost_name ≡ top.entry.ghost_name }
    ensures same { result.0.now ≡ top.old }
    ensures within { (depth ≤ result.2) × (result.2 ≤ length list.now) }
    ensures step { depth < result.2 → IsStep top.old.value list.now depth result.1 result.2 }
    ensures stuck { result.2 ≡ depth → IsStuck (tree_of top.old.value) (drop depth list.now) }
{
    match step(&**top, list, depth) {
        Some((i, next)) => (top, i, next),
        None => (top, 0, depth),
    }
}

// The node in the box, where the list ends there.
fn here<'a, K, V>(
    top: &'a mut Box<TrieNode<K, V>>,
    list: &Nibblet,
    depth: usize,
) -> Option<&'a mut TrieNode<K, V>>
    requires depth { depth ≤ length list.now }
    requires placed { IsTreePlaced (tree_of top.old.value) }
    requires stuck { IsStuck (tree_of top.old.value) (drop depth list.now) }
    ensures* writes_back { sem 𝓛
        (LendsNode K.row V.row top.entry
        (fragment_of top.old.value ++ drop depth list.now) result) }
{
    if depth == list.len() {
        Some(unbox(top))
    } else {
        None
    }
}

/// The node at the list's place, for writing.
pub fn node_below_mut<'a, K, V>(
    top: &'a mut Box<TrieNode<K, V>>,
    list: &Nibblet,
    depth: usize,
) -> Option<&'a mut TrieNode<K, V>>
    requires depth { depth ≤ length list.now }
    requires placed { IsTreePlaced (tree_of top.old.value) }
    ensures* writes_back { sem 𝓛
        (LendsNode K.row V.row top.entry
        (fragment_of top.old.value ++ drop depth list.now) result) }
{
    let (top, i, next) = look(top, list, depth);
    if next == depth {
        return here(top, list, depth);
    }
    node_below_mut(child_box(unbox(top), i), list, next)
}

/// The value of a pair, for writing.
pub fn pair_value<K, V>(pair: &mut Option<Box<KeyValue<K, V>>>) -> Option<&mut V>
    ensures* writes_back { sem 𝓛 (LendsPair K.row V.row pair.entry result) }
    ensures value { IsLentPair result pair.old }
{
    match pair {
        Some(b) => Some(&mut b.value),
        None => None,
    }
}

/// The value at the list's place, for writing: None exactly where no pair stands there.
pub fn value_at_mut<'a, K, V>(root: &'a mut TrieNode<K, V>, list: &Nibblet) -> Option<&'a mut V>
    requires { IsTreePlaced (tree_of root.old) }
    ensures* writes_back { sem 𝓛
        (LendsValue K.row V.row root.entry (fragment_of root.old ++ list.now) result) }
{
    if list.len() == 0 {
        return pair_value(&mut root.pair);
    }
    match step(root, list, 0) {
        Some((i, next)) => match node_below_mut(child_box(root, i), list, next) {
            Some(node) => pair_value(&mut node.pair),
            None => None,
        },
        None => None,
    }
}

//! Changes of all values, each by one call of a closure.
ghost use Rattle.std.specs.Prelude.{◌<◌, ◌++◌, All, drop, length};
ghost use Rattle.masked_tree.specs.Same.{IsPairCopy, IsCopy};
ghost use Rattle.masked_tree.specs.Tree.{IsTreePlaced};
ghost use Rattle.radix_nodes.specs.Nodes.{fragment_of, tree_of, unboxed};
ghost use Rattle.radix_nodes.specs.Pairs.{own_pair, pairs_in};
ghost use Rattle.radix_nodes.specs.Values.{ChangesBranch, IsChangedBy, TakesBranch, TakesPair};

use crate::search::step::meet;
use crate::trie_node::{KeyValue, TrieNode};
use radix_keys::Nibblet;

// Calls the closure once on a pair's key and value.
fn change<K, V, F: Fn(&K, &mut V)>(pair: &mut KeyValue<K, V>, f: &F)
    requires callable { TakesPair F.Fn f.now (pair.old.key, pair.old.value) }
    ensures { IsChangedBy F.Fn f.now pair.old pair.new }
{
    f(&pair.key, &mut pair.value);
}

// The same on a pair, where there is one.
fn change_own<K, V, F: Fn(&K, &mut V)>(pair: &mut Option<Box<KeyValue<K, V>>>, f: &F)
    requires callable { All (TakesPair F.Fn f.now) (own_pair (unboxed pair.old)) }
    ensures { IsPairCopy (IsChangedBy F.Fn f.now) (unboxed pair.old) (unboxed pair.new) }
{
    if let Some(pair) = pair {
        change(pair, f);
    }
}

/// Changes the value of each pair at and below a node by one call of the closure for each, in the
/// order of the walk. The keys and the nodes stay as they are.
pub fn change_values<K, V, F: Fn(&K, &mut V)>(node: &mut TrieNode<K, V>, f: &F)
    requires callable { All (TakesPair F.Fn f.now) (pairs_in (tree_of node.old)) }
    ensures { IsCopy (IsChangedBy F.Fn f.now) (tree_of node.old) (tree_of node.new) }
{
    change_own(&mut node.pair, f);
    for i in 0..node.children.len() {
        change_values(&mut node.children[i], f);
    }
}

/// Changes the value of each pair at and below the list's place, which lies below a node that
/// stands at `depth`, in the same way.
pub fn change_branch<K, V, F: Fn(&K, &mut V)>(
    node: &mut TrieNode<K, V>,
    list: &Nibblet,
    depth: usize,
    f: &F,
)
    requires depth { depth < length list.now }
    requires placed { IsTreePlaced (tree_of node.old) }
    requires callable { TakesBranch F.Fn f.now (fragment_of node.old ++ drop depth list.now)
        (tree_of node.old) }
    ensures { ChangesBranch F.Fn f.now (fragment_of node.old ++ drop depth list.now)
        (tree_of node.old) (tree_of node.new) }
{
    if let Some((i, agreement)) = meet(node, list, depth) {
        let next = depth + agreement.same;
        if next == list.len() {
            change_values(&mut node.children[i], f);
        } else if agreement.same == node.children[i].fragment.len() {
            change_branch(&mut node.children[i], list, next, f);
        }
    }
}

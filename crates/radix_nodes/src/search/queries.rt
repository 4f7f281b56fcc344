//! The nodes that are nearest to a list. `on_way f list depth end` is the path that ends with the
//! list's nibble before `end`, where a node with the fragment f stands at `depth`.
ghost use Rattle.std.specs.Prelude.{◌≤◌, length};
ghost use Rattle.masked_tree.specs.Tree.{IsTreePlaced};
ghost use Rattle.radix_nodes.specs.Nodes.{tree_of};
ghost use Rattle.radix_nodes.specs.Searches.{FindsDeepest, FindsDeepestPair, FindsShortest};

use crate::search::find::search;
use crate::search::step::meet;
use crate::trie_node::TrieNode;
use radix_keys::Nibblet;

// The nodes around a list's end.
#[derive(Drop)]
struct Descent<'a, K, V> {
    // The node with the longest path that begins the list, and how many nibbles of the list that
    // is.
    deepest: (&'a TrieNode<K, V>, usize),
    // The node with the shortest path that the list begins, and how many nibbles of its fragment
    // lie within the list.
    shortest: Option<(&'a TrieNode<K, V>, usize)>,
}

// Goes down along the list from a node that stands at `depth`. It is inlined, so a caller pays for
// what it takes alone.
#[inline(always)]
fn descend<'a, K, V>(node: &'a TrieNode<K, V>, list: &Nibblet, depth: usize) -> Descent<'a, K, V>
    requires depth { depth ≤ length list.now }
    requires placed { IsTreePlaced (tree_of node.now) }
    ensures deepest { FindsDeepest result.deepest node.now list.now depth }
    ensures shortest { FindsShortest result.shortest node.now list.now depth }
{
    let mut at = node;
    let mut done = depth;
    while done < list.len() {
        let Some((i, agreement)) = meet(at, list, done) else {
            return Descent {
                deepest: (at, done),
                shortest: None,
            };
        };
        let child = &at.children[i];
        if agreement.same != child.fragment.len() {
            return Descent {
                deepest: (at, done),
                shortest: if done + agreement.same == list.len() {
                    Some((child, agreement.same))
                } else {
                    None
                },
            };
        }
        at = child;
        done += agreement.same;
    }
    Descent {
        deepest: (at, done),
        shortest: Some((at, at.fragment.len())),
    }
}

/// The node with the longest path that begins the list, and how many nibbles of the list that is.
pub fn deepest<'a, K, V>(
    node: &'a TrieNode<K, V>,
    list: &Nibblet,
    depth: usize,
) -> (&'a TrieNode<K, V>, usize)
    requires depth { depth ≤ length list.now }
    requires placed { IsTreePlaced (tree_of node.now) }
    ensures { FindsDeepest result node.now list.now depth }
{
    descend(node, list, depth).deepest
}

/// The node with the longest path that begins the list and holds a pair, and how many nibbles of
/// the list that is.
pub fn deepest_pair<'a, K, V>(
    node: &'a TrieNode<K, V>,
    list: &Nibblet,
    depth: usize,
) -> Option<(&'a TrieNode<K, V>, usize)>
    requires depth { depth ≤ length list.now }
    requires placed { IsTreePlaced (tree_of node.now) }
    ensures { FindsDeepestPair result node.now list.now depth }
{
    search(node, list, depth).nearest
}

/// The node with the shortest path that the list begins, and how many nibbles of its fragment lie
/// within the list: its path is the list, and then the rest of the fragment.
pub fn shortest<'a, K, V>(
    node: &'a TrieNode<K, V>,
    list: &Nibblet,
    depth: usize,
) -> Option<(&'a TrieNode<K, V>, usize)>
    requires depth { depth ≤ length list.now }
    requires placed { IsTreePlaced (tree_of node.now) }
    ensures { FindsShortest result node.now list.now depth }
{
    descend(node, list, depth).shortest
}

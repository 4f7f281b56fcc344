//! The walk over the pairs whose lists are prefixes of a list.
ghost use Rattle.std.specs.Prelude.{◌≡◌, ◌++◌, ◌<◌, ◌≤◌, [], IfSome, drop, length};
ghost use Rattle.std.specs.Iterator.{YieldsFirstBy, item_count};
ghost use Rattle.masked_tree.specs.Tree.{IsTreePlaced, entries_in};
ghost use Rattle.radix_nodes.specs.Nodes.{tree_of};
ghost use Rattle.radix_nodes.specs.Pairs.{own_pair};
ghost use Rattle.radix_trie.specs.Walks.{LeadsTo, deref_pair, pairs_on_way, prefix_pairs};

use crate::iter::rows::parts;
use radix_keys::Nibblet;
use radix_nodes::search::step::step;
use radix_nodes::trie_node::TrieNode;
use std::iter::FusedIterator;
use std::marker::Model;

/// A walk over the pairs whose encodings are prefixes of a query's encoding: each once, from the
/// shortest to the longest.
///
/// `next` allocates nothing, and goes on returning `None` after the end. A contract sees a walk as
/// the list of the pairs that are left.
#[derive(Drop)]
pub struct CommonPrefixes<'a, K, V> {
    /// The query's encoding.
    list: Nibblet,
    /// The next node on the way down, and how many nibbles of the list lie behind it.
    at: Option<(&'a TrieNode<K, V>, usize)>,
}

impl<'a, K, V> Model for CommonPrefixes<'a, K, V> {
    ghost use Rattle.std.specs.Prelude.{List};

    ghost Value = { List (K × V) };

    ghost use Rattle.radix_trie.specs.Walks.{LeadsTo, pairs_on_way};

    ghost view = { λ a. pairs_on_way a.list a.at };

    ghost invariant = { λ a. LeadsTo a.list a.at };
}

impl<'a, K, V> CommonPrefixes<'a, K, V> {
    /// The walk from a root down to a list.
    pub(crate) fn new(root: &'a TrieNode<K, V>, list: Nibblet) -> CommonPrefixes<'a, K, V>
        requires placed { IsTreePlaced (tree_of root.now) }
        ensures { result ≡ own_pair (tree_of root.now).pair
            ++ prefix_pairs list (entries_in [] (tree_of root.now).children) }
    {
        CommonPrefixes {
            list,
            at: Some((root, 0)),
        }
    }
}

impl<'a, K, V> Iterator for CommonPrefixes<'a, K, V> {
    type Item = (&'a K, &'a V);

    ghost next_gives = { YieldsFirstBy deref_pair (λ s. s) };

    ghost remaining = { item_count (λ s. s) };

    fn next(&mut self) -> Option<(&'a K, &'a V)> {
        while let Some((node, depth)) = self.at.take() {
            self.at = child_on_way(node, &self.list, depth);
            if let Some(pair) = node.pair() {
                return Some(parts(pair));
            }
        }
        None
    }
}

impl<'a, K, V> FusedIterator for CommonPrefixes<'a, K, V> {}

/// The child that the list goes on to, and how many nibbles lie behind it then.
fn child_on_way<'a, K, V>(
    node: &'a TrieNode<K, V>,
    list: &Nibblet,
    depth: usize,
) -> Option<(&'a TrieNode<K, V>, usize)>
    requires depth { depth ≤ length list.now }
    requires placed { IsTreePlaced (tree_of node.now) }
    ensures pairs { pairs_on_way list.now result
        ≡ prefix_pairs (drop depth list.now) (entries_in [] (tree_of node.now).children) }
    ensures on_way { LeadsTo list.now result }
    ensures further { IfSome result (λ r. depth < r.1) }
{
    match step(node, list, depth) {
        Some((i, next)) => Some((&node.children[i], next)),
        None => None,
    }
}

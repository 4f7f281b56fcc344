//! The children of a path, one after another.
ghost use Rattle.std.specs.Prelude.{◌≡◌, ◌<◌, [], ◌∷◌, ◌++◌, ℕ, List, IsOk, IfOk, length};
ghost use Rattle.std.specs.Iterator.{YieldsFirst, item_count};
ghost use Rattle.nibble_map.specs.Lists.{Each};
ghost use Rattle.nibble_map.specs.MapQueries.{AreChildren, IsChild};
ghost use Rattle.nibble_map.specs.Nibbles.{IsShort};
ghost use Rattle.radix_nodes.specs.Nodes.{tree_of};
ghost use Rattle.radix_trie.specs.Loci.{IsNodeOf, IsLocusIn, child_views};
ghost use Rattle.radix_trie.specs.Views.{paths_of};

use crate::locus::{Locus, extended};
use crate::trie::Trie;
use crate::view::subtrie::SubTrie;
use arrayvec::ArrayVec;
use radix_keys::{Memory, Nibblet, TrieKey};
use radix_nodes::trie_node::TrieNode;
use std::iter::FusedIterator;
use std::marker::Model;

/// At most sixteen views, one for each child of a path, by rising nibble.
///
/// `next` allocates nothing, and goes on returning `None` after the end. A contract sees the list
/// of the views that are left.
#[derive(Drop)]
pub struct Children<'a, K: TrieKey, V> {
    /// Options, since an `ArrayVec` begins with defaults. Each of them is a `Some`.
    items: ArrayVec<Option<SubTrie<'a, K, V>>, 16>,
}

impl<'a, K: TrieKey, V> Model for Children<'a, K, V> {
    ghost use Rattle.std.specs.Prelude.{◌≡◌, List, length};
    ghost use Rattle.radix_trie.specs.Present.{present};
    ghost use Rattle.radix_trie.specs.Views.{ReadView, read_view_code};
    ghost use Rattle.std.specs.Coded.{coded_list};

    ghost Value = { List (ReadView K V) };

    ghost coded = { coded_list (read_view_code K.code V.code) };

    ghost view = { λ a. present a.items.items };

    ghost invariant = { λ a. length (present a.items.items) ≡ length a.items.items };
}

impl<'a, K: TrieKey, V> Children<'a, K, V> {
    /// No view.
    pub(crate) fn new() -> Children<'a, K, V>
        ensures { result ≡ [] }
    {
        Children {
            items: ArrayVec::new(),
        }
    }

    /// One view more, after the others.
    pub(crate) fn push(&mut self, child: SubTrie<'a, K, V>)
        requires { length self.old < 16 }
        ensures { self.new ≡ self.old ++ child.entry ∷ [] }
    {
        self.items.push(Some(child));
    }
}

impl<'a, K: TrieKey, V> Locus<'a, K, V> {
    /// For each nibble in rising order, the view at the shortest point that goes on from the path
    /// by it.
    pub(crate) fn children(
        &self,
        trie: &'a Trie<K, V>,
        path: &Nibblet,
    ) -> Result<Children<'a, K, V>, Memory>
        requires { IsLocusIn K.encoding trie.now path.now self.now }
        ensures children { IfOk result
            (λ children. AreChildren trie.now path.now (paths_of children)) }
        ensures same_map { IfOk result
            (λ children. Each (λ c. c.map ≡ trie.now) children) }
        ensures short { ((q : List ℕ) → IsChild trie.now path.now q → IsShort q)
            → IsOk result }
    {
        match self.found {
            Some((node, covered)) => {
                if covered == node.fragment.len() {
                    return children_of(trie, node, path);
                }
                let mut children = Children::new();
                let whole = extended(path, &node.fragment, covered)?;
                children.push(SubTrie::new(trie, node, whole));
                Ok(children)
            }
            None => Ok(Children::new()),
        }
    }
}

/// The views at the children of the node at a path.
fn children_of<'a, K: TrieKey, V>(
    trie: &'a Trie<K, V>,
    node: &'a TrieNode<K, V>,
    path: &Nibblet,
) -> Result<Children<'a, K, V>, Memory>
    requires { IsNodeOf K.encoding trie.now path.now (tree_of node.now) }
    ensures views { IfOk result
        (λ children. children ≡ child_views trie.now path.now (tree_of node.now).children) }
    ensures short { Each IsShort
        (paths_of (child_views trie.now path.now (tree_of node.now).children))
        → IsOk result }
{
    let mut children = Children::new();
    for child in &node.children {
        let whole = extended(path, &child.fragment, 0)?;
        children.push(SubTrie::new(trie, child, whole));
    }
    Ok(children)
}

impl<'a, K: TrieKey, V> Iterator for Children<'a, K, V> {
    type Item = SubTrie<'a, K, V>;

    ghost next_gives = { YieldsFirst (λ s. s) };

    ghost remaining = { item_count (λ s. s) };

    fn next(&mut self) -> Option<SubTrie<'a, K, V>> {
        self.items.pop_at(0)?
    }
}

impl<'a, K: TrieKey, V> FusedIterator for Children<'a, K, V> {}

//! Where a path stands in a trie: what is stored at it and below it.
ghost use Rattle.std.specs.Prelude.{◌≡◌, ◌<◌, ◌≤◌, ◌-◌, ◌^◌, ◌++◌, ◌↔◌, ℕ, List, Some, IsTrue, IsOk, IfOk, IfSome, drop, length, option_map, reverse, slice_get};
ghost use Rattle.std.specs.FinMap as finite;
ghost use Rattle.nibble_map.specs.Lists.{Each};
ghost use Rattle.nibble_map.specs.Maps.{PairMap, below, walk};
ghost use Rattle.nibble_map.specs.MapQueries.{IsLeaf, IsRawDescendant};
ghost use Rattle.nibble_map.specs.Nibbles.{IsShort};
ghost use Rattle.radix_nodes.specs.Nodes.{tree_of};
ghost use Rattle.radix_nodes.specs.Pairs.{pair_of};
ghost use Rattle.radix_trie.specs.Loci.{IsNodeOf, IsLocusIn, IsSomeLocus};
ghost use Rattle.radix_trie.specs.Views.{pairs_below};

use crate::iter::{Cursor, CursorBack, first_pair, last_pair};
use radix_keys::{Memory, Nibblet, TrieKey};
use radix_nodes::fragments::joined;
use radix_nodes::trie_node::{KeyValue, TrieNode, is_end};
use radix_nodes::whole::size::count_pairs;
use std::alloc::Global;

mod further;
mod path_list;
mod shown;
mod within;

pub use path_list::PathList;
pub(crate) use within::{Limits, encoded};

/// What stands at and below a path of a trie, a point or not. Neither of the two is kept: each
/// contract speaks of every map and every path that the locus is that of.
#[derive(Drop)]
pub(crate) struct Locus<'a, K, V> {
    pub(crate) alloc: Global,
    /// The node with the shortest path that the path begins, and how many nibbles of its fragment
    /// lie within the path.
    pub(crate) found: Option<(&'a TrieNode<K, V>, usize)>,
}

impl<'a, K: TrieKey, V> Locus<'a, K, V> {
    /// The pair that is stored at the path.
    pub(crate) fn pair(&self) -> Option<&'a KeyValue<K, V>>
        ensures { (m : PairMap K V) (p : List ℕ) → IsLocusIn K.encoding m p self.now
            → option_map (λ x. pair_of x.now) result ≡ finite.get m p }
    {
        match self.found {
            Some((node, covered)) => {
                if covered == node.fragment.len() {
                    node.pair()
                } else {
                    None
                }
            }
            None => None,
        }
    }

    /// The count of pairs at and below the path.
    pub(crate) fn len(&self) -> usize
        requires { IsSomeLocus K.encoding self.now }
        ensures { (m : PairMap K V) (p : List ℕ) → IsLocusIn K.encoding m p self.now
            → result ≡ finite.len (below m p) }
    {
        match self.found {
            Some((node, _)) => count_pairs(node),
            None => 0,
        }
    }

    /// Whether no pair is at or below the path. No pair is counted.
    pub(crate) fn is_empty(&self) -> bool
        ensures { (m : PairMap K V) (p : List ℕ) → IsLocusIn K.encoding m p self.now
            → IsTrue result ↔ (finite.len (below m p) ≡ 0) }
    {
        match self.pair() {
            Some(_) => false,
            None => self.is_leaf(),
        }
    }

    /// Whether no pair is strictly below the path.
    pub(crate) fn is_leaf(&self) -> bool
        ensures { (m : PairMap K V) (p : List ℕ) → IsLocusIn K.encoding m p self.now
            → IsTrue result ↔ IsLeaf m p }
    {
        match self.found {
            Some((node, covered)) => {
                if covered == node.fragment.len() {
                    is_end(node)
                } else {
                    false
                }
            }
            None => true,
        }
    }

    /// The first pair at and below the path.
    pub(crate) fn first(&self) -> Option<&'a KeyValue<K, V>>
        requires { IsSomeLocus K.encoding self.now }
        ensures { (m : PairMap K V) (p : List ℕ) → IsLocusIn K.encoding m p self.now
            → option_map (λ x. pair_of x.now) result
            ≡ slice_get (pairs_below m p) 0 }
    {
        match self.found {
            Some((node, _)) => first_pair(node),
            None => None,
        }
    }

    /// The last pair at and below the path.
    pub(crate) fn last(&self) -> Option<&'a KeyValue<K, V>>
        requires { IsSomeLocus K.encoding self.now }
        ensures { (m : PairMap K V) (p : List ℕ) → IsLocusIn K.encoding m p self.now
            → option_map (λ x. pair_of x.now) result
            ≡ slice_get (pairs_below m p)
            (length (pairs_below m p) - 1) }
    {
        match self.found {
            Some((node, _)) => last_pair(node),
            None => None,
        }
    }

    /// The walk over the pairs at and below the path.
    pub(crate) fn cursor(&self) -> Cursor<'a, K, V>
        requires { IsSomeLocus K.encoding self.now }
        ensures walk { (m : PairMap K V) (p : List ℕ) → IsLocusIn K.encoding m p self.now
            → result ≡ pairs_below m p }
        ensures keyed { (m : PairMap K V) (p : List ℕ) → IsLocusIn K.encoding m p self.now
            → Each (λ e. e.0 ≡ K.encoding e.1.0) (walk m p) }
        ensures countable { length result < 2 ^ 64 }
    {
        match self.found {
            Some((node, _)) => Cursor::over(self.alloc, node),
            None => Cursor::empty(self.alloc),
        }
    }

    /// The walk over the pairs at and below the path, from the last one to the first.
    pub(crate) fn cursor_back(&self) -> CursorBack<'a, K, V>
        requires { IsSomeLocus K.encoding self.now }
        ensures walk { (m : PairMap K V) (p : List ℕ) → IsLocusIn K.encoding m p self.now
            → result ≡ reverse (pairs_below m p) }
        ensures keyed { (m : PairMap K V) (p : List ℕ) → IsLocusIn K.encoding m p self.now
            → Each (λ e. e.0 ≡ K.encoding e.1.0) (walk m p) }
        ensures countable { length result < 2 ^ 64 }
    {
        match self.found {
            Some((node, _)) => CursorBack::over(self.alloc, node),
            None => CursorBack::empty(self.alloc),
        }
    }

    /// The node with the shortest path that the path begins, and that whole path; None where there
    /// is none.
    pub(crate) fn nearest(
        &self,
        path: &Nibblet,
    ) -> Result<Option<(&'a TrieNode<K, V>, Nibblet)>, Memory>
        requires { (m : PairMap K V) × IsLocusIn K.encoding m path.now self.now }
        ensures nearest { (m : PairMap K V) → IsLocusIn K.encoding m path.now self.now
            → IfOk result (λ o. IsRawDescendant m path.now (option_map (λ found. found.1) o)) }
        ensures node { (m : PairMap K V) → IsLocusIn K.encoding m path.now self.now
            → IfOk result (λ o. IfSome o (λ found.
            IsNodeOf K.encoding m found.1 (tree_of found.0.now))) }
        ensures short { (m : PairMap K V) → IsLocusIn K.encoding m path.now self.now
            → ((p : List ℕ) → IsRawDescendant m path.now (Some p) → IsShort p)
            → IsOk result }
    {
        let Some((node, covered)) = self.found else {
            return Ok(None);
        };
        let whole = extended(path, &node.fragment, covered)?;
        Ok(Some((node, whole)))
    }
}

/// A path, and then what a fragment has from a place on.
pub(crate) fn extended(path: &Nibblet, fragment: &Nibblet, from: usize) -> Result<Nibblet, Memory>
    requires { from ≤ length fragment.now }
    ensures made { IfOk result (λ r. r ≡ path.now ++ drop from fragment.now) }
    ensures short { IsShort (path.now ++ drop from fragment.now) → IsOk result }
{
    joined(path, &fragment.tail(from)?)
}

//! The walk over keys and values from the last pair to the first.
ghost use Rattle.std.specs.Prelude.{◌≡◌, [], IsOk, OnOk, OnErr, IfOk, drop, option_map, reverse, slice_get};
ghost use Rattle.masked_tree.specs.Tree.{IsFullBelow};
ghost use Rattle.radix_nodes.specs.Nodes.{tree_of};
ghost use Rattle.radix_nodes.specs.Pairs.{pairs_in};
ghost use Rattle.radix_trie.specs.Walks.{HasFullRows, deref_pair, left_rows, stacked};

use crate::iter::rows::{Frame, parts};
use radix_keys::Memory;
use radix_nodes::trie_node::TrieNode;
use std::alloc::Global;
use std::marker::Model;

/// A walk over keys and values that begins in the time of a lookup: each pair once, in the falling
/// order of the encodings, the extensions of an encoding before it.
///
/// A step may fail, since it may allocate: at most a row of nodes for each level. The same pairs
/// are left then. A contract sees such a cursor as the list of the pairs that are left, in this
/// order.
#[derive(Drop)]
pub struct CursorBack<'a, K, V> {
    /// What comes next.
    at: Frame<'a, K, V>,
    /// What comes after it, the last one first.
    stack: Vec<Frame<'a, K, V>>,
}

impl<'a, K, V> Model for CursorBack<'a, K, V> {
    ghost use Rattle.std.specs.Prelude.{List, [], ◌∷◌, ◌++◌, reverse};

    ghost Value = { List (K × V) };

    ghost use Rattle.radix_trie.specs.Walks.{HasFullRows, left_in, left_rows};

    ghost view = { λ a. reverse (left_in (a.stack.items ++ a.at ∷ [])) };

    ghost invariant = { λ a. HasFullRows (left_rows (a.stack.items ++ a.at ∷ [])) };
}

impl<'a, K, V> CursorBack<'a, K, V> {
    /// The walk over no pair.
    pub(crate) fn empty(alloc: Global) -> CursorBack<'a, K, V>
        ensures { result ≡ [] }
    {
        CursorBack {
            at: Frame {
                own: None,
                row: &[],
            },
            stack: Vec::new(alloc),
        }
    }

    /// The walk over the pairs at and below a node.
    pub(crate) fn over(alloc: Global, node: &'a TrieNode<K, V>) -> CursorBack<'a, K, V>
        requires full { IsFullBelow (tree_of node.now) }
        ensures { result ≡ reverse (pairs_in (tree_of node.now)) }
    {
        CursorBack {
            at: Frame {
                own: node.pair(),
                row: &node.children,
            },
            stack: Vec::new(alloc),
        }
    }

    /// The walk over what is left in rests, of which the last one comes first in the order of the
    /// encodings.
    pub(crate) fn of(alloc: Global, frames: Vec<Frame<'a, K, V>>) -> CursorBack<'a, K, V>
        requires full { HasFullRows (left_rows frames.items) }
        ensures { result ≡ reverse (stacked frames.entry.items) }
    {
        let mut stack = frames;
        stack.reverse();
        match stack.pop() {
            Some(at) => CursorBack { at, stack },
            None => CursorBack::empty(alloc),
        }
    }

    /// The next pair, in the falling order of the encodings, or None where none is left, and then
    /// at each further call. It takes time up to the depth of the trie, and a whole walk the time
    /// of the nodes that it goes over.
    ///
    /// # Errors
    ///
    /// `Memory`: an allocation fails, for what is left of a node above. The same pairs are left
    /// then, and the next call tries again. At the end nothing is allocated.
    pub fn next(&mut self) -> Result<Option<(&'a K, &'a V)>, Memory>
        ensures pair { IfOk result (λ pair. option_map deref_pair pair ≡ slice_get self.old 0) }
        ensures rest { OnOk result (self.new ≡ drop 1 self.old) }
        ensures unchanged { OnErr result (self.new ≡ self.old) }
        ensures end { self.old ≡ [] → IsOk result }
    {
        loop {
            let row = self.at.row;
            if let Some((node, others)) = row.split_last() {
                self.stack.reserve(1)?;
                let above = Frame {
                    own: self.at.own,
                    row: others,
                };
                self.stack.push_reserved(above);
                self.at = Frame {
                    own: node.pair(),
                    row: &node.children,
                };
            } else if let Some(pair) = self.at.own.take() {
                return Ok(Some(parts(pair)));
            } else {
                let Some(above) = self.stack.pop() else {
                    return Ok(None);
                };
                self.at = above;
            }
        }
    }
}

//! The ordered walk over keys and values that begins at once, and allocates as it goes.
ghost use Rattle.std.specs.Prelude.{◌≡◌, ◌<◌, ◌≤◌, [], IsOk, IfOk, OnOk, OnErr, drop, length, option_map, slice_get, vec_capacity, vec_len};
ghost use Rattle.masked_tree.specs.Tree.{IsFullBelow};
ghost use Rattle.radix_nodes.specs.Nodes.{out_of, tree_of};
ghost use Rattle.radix_nodes.specs.Pairs.{pairs_in};
ghost use Rattle.radix_trie.specs.Walks.{HasFullRows, deref_pair, left_rows, stacked};

use crate::iter::rows::{Frame, enter, parts, row_height};
use crate::iter::walk::Iter;
use radix_keys::Memory;
use radix_nodes::trie_node::TrieNode;
use std::alloc::Global;
use std::marker::Model;

/// A walk over keys and values that begins in the time of a lookup: each pair once, in the order of
/// the encodings, an encoding before its extensions.
///
/// A step may fail, since it may allocate: at most a row of nodes for each level. The same pairs
/// are left then. A contract sees a cursor as the list of the pairs that are left.
#[derive(Drop)]
pub struct Cursor<'a, K, V> {
    /// What comes next.
    at: Frame<'a, K, V>,
    /// What comes after it, the last one first.
    stack: Vec<Frame<'a, K, V>>,
}

impl<'a, K, V> Model for Cursor<'a, K, V> {
    ghost use Rattle.std.specs.Prelude.{List, [], ◌∷◌, ◌++◌};

    ghost Value = { List (K × V) };

    ghost use Rattle.radix_trie.specs.Walks.{HasFullRows, left_rows, stacked};

    ghost view = { λ a. stacked (a.stack.items ++ a.at ∷ []) };

    ghost invariant = { λ a. HasFullRows (left_rows (a.stack.items ++ a.at ∷ [])) };
}

impl<'a, K, V> Cursor<'a, K, V> {
    /// The walk over no pair.
    pub(crate) fn empty(alloc: Global) -> Cursor<'a, K, V>
        ensures { result ≡ [] }
    {
        Cursor {
            at: Frame {
                own: None,
                row: &[],
            },
            stack: Vec::new(alloc),
        }
    }

    /// The walk over the pairs at and below a node.
    pub(crate) fn over(alloc: Global, node: &'a TrieNode<K, V>) -> Cursor<'a, K, V>
        requires full { IsFullBelow (tree_of node.now) }
        ensures { result ≡ pairs_in (tree_of node.now) }
    {
        Cursor {
            at: Frame {
                own: node.pair(),
                row: &node.children,
            },
            stack: Vec::new(alloc),
        }
    }

    /// The walk over what is left in rests, of which the last one comes first.
    pub(crate) fn of(alloc: Global, frames: Vec<Frame<'a, K, V>>) -> Cursor<'a, K, V>
        requires full { HasFullRows (left_rows frames.items) }
        ensures { result ≡ stacked frames.entry.items }
    {
        let mut stack = frames;
        match stack.pop() {
            Some(at) => Cursor { at, stack },
            None => Cursor::empty(alloc),
        }
    }

    /// The next pair, in the order of the encodings, or None where none is left, and then at each
    /// further call. It takes time up to the depth of the trie, and a whole walk the time of the
    /// nodes that it goes over.
    ///
    /// # Errors
    ///
    /// `Memory`: an allocation fails, for the rows above a node's children. The same pairs are left
    /// then, and the next call tries again. No step to the last pair fails, and none at the end.
    ///
    /// # Examples
    ///
    /// ```
    /// # use nifazombi::{radix_trie::prelude::*, rattle_std::alloc::Global};
    /// let lines = [(1_300, "asked"), (1_200, "opened"), (1_250, "read")];
    /// let log: Trie<u64, &str> = Trie::from_iter(Global, lines.into_iter())?;
    /// let mut walk = log.range(1_201..1_300u64)?;
    /// assert_eq!(walk.next()?, Some((&1_250, &"read")));
    /// assert_eq!(walk.next()?, None);
    /// # Ok::<(), Box<dyn std::error::Error>>(())
    /// ```
    pub fn next(&mut self) -> Result<Option<(&'a K, &'a V)>, Memory>
        ensures pair { IfOk result (λ pair. option_map deref_pair pair ≡ slice_get self.old 0) }
        ensures rest { OnOk result (self.new ≡ drop 1 self.old) }
        ensures unchanged { OnErr result (self.new ≡ self.old) }
        ensures end { length self.old ≤ 1 → IsOk result }
    {
        loop {
            if let Some(pair) = self.at.own.take() {
                return Ok(Some(parts(pair)));
            }
            let row = self.at.row;
            if let Some((node, others)) = row.split_first() {
                make_room(&mut self.stack, node, others)?;
                self.at = enter(&mut self.stack, node, others);
            } else {
                let Some(above) = self.stack.pop() else {
                    return Ok(None);
                };
                self.at = above;
            }
        }
    }

    /// The walk over the pairs that are left, with all memory that it needs allocated here: its
    /// `next` allocates none. The time grows with the nodes that are left.
    ///
    /// # Errors
    ///
    /// `Memory`: an allocation fails, for a row for each level. At most one pair needs none.
    pub fn reserved(self) -> Result<Iter<'a, K, V>, Memory>
        ensures walk { IfOk result (λ walk. walk ≡ self.entry) }
        ensures none { length self.entry ≤ 1 → IsOk result }
    {
        let Cursor { at, mut stack } = self;
        let mut most = row_height(at.row)?;
        for rest in &stack {
            let tall = row_height(rest.row)?;
            if most < tall {
                most = tall;
            }
        }
        // The lowest nodes stand in the row that the walk is at.
        stack.reserve(most.saturating_sub(1))?;
        Ok(Iter { at, stack })
    }
}

/// Makes room for what stands beside a node, where it is to be put aside.
fn make_room<K, V>(
    stack: &mut Vec<Frame<K, V>>,
    node: &TrieNode<K, V>,
    others: &[Box<TrieNode<K, V>>],
) -> Result<(), Memory>
    ensures same { stack.new.items ≡ stack.old.items }
    ensures room { OnOk result (0 < vec_len (out_of node.now).children → 0 < length others.now
        → vec_len stack.new < vec_capacity stack.new) }
    ensures parent { OnErr result (0 < vec_len (out_of node.now).children) }
{
    if node.children.is_empty() || others.is_empty() {
        return Ok(());
    }
    stack.reserve(1)?;
    Ok(())
}

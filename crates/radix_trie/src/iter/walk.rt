//! The ordered walk over keys and values that allocates all it needs before it begins.
ghost use Rattle.std.specs.Iterator.{YieldsFirstBy, item_count};
ghost use Rattle.radix_trie.specs.Walks.{deref_pair};

use crate::iter::rows::{Frame, enter, parts};
use std::iter::FusedIterator;
use std::marker::Model;

/// A walk over keys and values: each pair once, in the order of the encodings, an encoding before
/// its extensions.
///
/// `next` allocates nothing, and goes on returning `None` after the end. A contract sees a walk as
/// the list of the pairs that are left.
#[derive(Drop)]
pub struct Iter<'a, K, V> {
    /// What comes next.
    pub(super) at: Frame<'a, K, V>,
    /// What comes after it, the last one first, with room for all rows that come of it.
    pub(super) stack: Vec<Frame<'a, K, V>>,
}

impl<'a, K, V> Model for Iter<'a, K, V> {
    ghost use Rattle.std.specs.Prelude.{List, [], ◌∷◌, ◌++◌, suc, vec_capacity};

    ghost Value = { List (K × V) };

    ghost use Rattle.radix_trie.specs.Walks.{HasRowRoom, left_rows, stacked};

    ghost view = { λ a. stacked (a.stack.items ++ a.at ∷ []) };

    ghost invariant = { λ a. HasRowRoom (suc (vec_capacity a.stack)) 0
        (left_rows (a.stack.items ++ a.at ∷ [])) };
}

impl<'a, K, V> Iterator for Iter<'a, K, V> {
    type Item = (&'a K, &'a V);

    ghost next_gives = { YieldsFirstBy deref_pair (λ s. s) };

    ghost remaining = { item_count (λ s. s) };

    fn next(&mut self) -> Option<(&'a K, &'a V)> {
        loop {
            if let Some(pair) = self.at.own.take() {
                return Some(parts(pair));
            }
            let row = self.at.row;
            if let Some((node, others)) = row.split_first() {
                self.at = enter(&mut self.stack, node, others);
            } else {
                self.at = self.stack.pop()?;
            }
        }
    }
}

impl<'a, K, V> FusedIterator for Iter<'a, K, V> {}

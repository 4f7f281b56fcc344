//! A walk over pairs of a map from byte strings.
ghost use Rattle.std.specs.Prelude.{◌≡◌, ◌-◌, ◌≤◌, [], IfSome, Some, drop, length, take, ⊤};
ghost use Rattle.std.specs.FinMap as map;
ghost use Rattle.std.specs.Iterator.{UpTo, YieldsFirstBy, YieldsLastBy, at_most, item_count};
ghost use Rattle.std.specs.Iterator.SizeHint.{IsWithinCount};
ghost use Rattle.radix_trie.specs.Views.{pairs_below};
ghost use Rattle.radix_trie.specs.Walks.{deref_pair};

use crate::texts::FrozenTexts;
use std::alloc::AllocError;
use std::iter::FusedIterator;
use std::marker::Model;

/// A walk over neighbouring pairs in the order of their keys, from either end.
///
/// `next` and `next_back` allocate nothing and take constant time, and go on returning None after
/// the end; `len` is how many pairs are left. A contract sees a walk as the list of the pairs that
/// are left.
#[derive(Drop)]
pub struct Texts<'a, V> {
    texts: &'a FrozenTexts<V>,
    /// The index of the next pair.
    from: usize,
    /// The index and one more of the last pair.
    to: usize,
}

impl<'a, V> Model for Texts<'a, V> {
    ghost use Rattle.std.specs.Prelude.{ℕ, List, [], ◌-◌, ◌≤◌, drop, take};
    ghost use Rattle.std.specs.FinMap as map;

    ghost Value = { List (List ℕ × V) };

    ghost use Rattle.radix_trie.specs.Views.{pairs_below};

    ghost view = { λ walk.
        take (walk.to - walk.from) (drop walk.from (pairs_below walk.texts.now [])) };

    ghost invariant = { λ walk. (walk.from ≤ walk.to) × (walk.to ≤ map.len walk.texts.now) };
}

impl<'a, V> Texts<'a, V> {
    /// The walk from one index up to another.
    pub(super) fn new(texts: &'a FrozenTexts<V>, from: usize, to: usize) -> Texts<'a, V>
        requires order { from ≤ to }
        requires within { to ≤ map.len texts.now }
        ensures { result ≡ take (to - from) (drop from (pairs_below texts.now [])) }
    {
        Texts { texts, from, to }
    }
}

impl<'a, V> Clone for Texts<'a, V> {
    ghost is_clone = { λ walk copy. copy ≡ walk };

    ghost is_infallible = { λ _. ⊤ };

    fn clone(&self) -> Result<Texts<'a, V>, AllocError> {
        Ok(Texts {
            texts: self.texts,
            from: self.from,
            to: self.to,
        })
    }
}

impl<'a, V> Iterator for Texts<'a, V> {
    type Item = (&'a [u8], &'a V);

    ghost next_gives = { YieldsFirstBy deref_pair (λ walk. walk) };

    ghost remaining = { item_count (λ walk. walk) };

    fn next(&mut self) -> Option<(&'a [u8], &'a V)> {
        if self.from == self.to {
            return None;
        }
        let pair = self.texts.pair_at(self.from);
        self.from += 1;
        Some(pair)
    }

    fn size_hint(&self) -> (usize, Option<usize>)
        ensures lower { IsWithinCount result.0 (at_most (length self.now)) }
        ensures upper { IfSome result.1 (UpTo (at_most (length self.now))) }
        ensures exact { result ≡ (length self.now, Some (length self.now)) }
    {
        let len = self.len();
        (len, Some(len))
    }
}

impl<'a, V> DoubleEndedIterator for Texts<'a, V> {
    ghost next_back_gives = { YieldsLastBy deref_pair (λ walk. walk) };

    fn next_back(&mut self) -> Option<(&'a [u8], &'a V)> {
        if self.from == self.to {
            return None;
        }
        let last = self.to - 1;
        self.to = last;
        Some(self.texts.pair_at(last))
    }
}

impl<'a, V> ExactSizeIterator for Texts<'a, V> {
    fn len(&self) -> usize {
        self.to - self.from
    }
}

impl<'a, V> FusedIterator for Texts<'a, V> {}

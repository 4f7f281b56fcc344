//! The pairs whose keys are prefixes of some bytes, from the shortest to the longest.
ghost use Rattle.std.specs.Prelude.{◌≡◌, ◌-◌, ◌≤◌, IfSome, Some, length, reverse};
ghost use Rattle.std.specs.FinMap as map;
ghost use Rattle.std.specs.Iterator.{UpTo, YieldsFirstBy, YieldsLastBy, at_most, item_count};
ghost use Rattle.std.specs.Iterator.SizeHint.{IsWithinCount};
ghost use Rattle.nibble_map.specs.Nibbles.{nibbles};
ghost use Rattle.radix_trie.specs.Walks.{deref_pair};
ghost use Rattle.frozen_trie.specs.Frozen.{prefixes_up};

use crate::texts::FrozenTexts;
use std::iter::FusedIterator;
use std::marker::Model;

/// A walk over pairs of which each key is a prefix of the next one, from the shortest to the
/// longest; from its other end, by `next_back` and `rev`, from the longest on.
///
/// Neither end allocates, and both go on returning None after the end; `next` takes the time of as
/// many links as pairs are left, `next_back` constant time. `len` is how many these are. A contract
/// sees a walk as the list of the pairs that are left.
#[derive(Drop)]
pub struct TextPrefixes<'a, V> {
    texts: &'a FrozenTexts<V>,
    /// The index of the last pair that is left and one more, or 0 where there is none.
    last: usize,
    /// How many pairs are left.
    left: usize,
}

impl<'a, V> Model for TextPrefixes<'a, V> {
    ghost use Rattle.std.specs.Prelude.{ℕ, List, ◌≤◌, length, reverse, take};
    ghost use Rattle.std.specs.FinMap as map;

    ghost Value = { List (List ℕ × V) };

    ghost use Rattle.nibble_map.specs.Nibbles.{nibbles};
    ghost use Rattle.frozen_trie.specs.Frozen.{prefixes_up};

    ghost view = { λ walk.
        reverse (take walk.left (prefixes_up nibbles walk.texts.now walk.last)) };

    ghost invariant = { λ walk. (walk.last ≤ map.len walk.texts.now)
        × (walk.left ≤ length (prefixes_up nibbles walk.texts.now walk.last)) };
}

impl<'a, V> TextPrefixes<'a, V> {
    /// The walk up to the pair whose index and one more is `last`; over no pair at 0.
    pub(super) fn new(texts: &'a FrozenTexts<V>, last: usize) -> TextPrefixes<'a, V>
        requires { last ≤ map.len texts.now }
        ensures { result ≡ reverse (prefixes_up nibbles texts.now last) }
    {
        let (mut at, mut left) = (last, 0);
        while at > 0 {
            let (_, link) = texts.step_up(at - 1);
            at = link;
            left += 1;
        }
        TextPrefixes { texts, last, left }
    }
}

impl<'a, V> Iterator for TextPrefixes<'a, V> {
    type Item = (&'a [u8], &'a V);

    ghost next_gives = { YieldsFirstBy deref_pair (λ walk. walk) };

    ghost remaining = { item_count (λ walk. walk) };

    fn next(&mut self) -> Option<(&'a [u8], &'a V)> {
        if self.left == 0 {
            return None;
        }
        let others = self.left - 1;
        let mut at = self.last;
        for _up in 0..others {
            (_, at) = self.texts.step_up(at - 1);
        }
        self.left = others;
        let (pair, _) = self.texts.step_up(at - 1);
        Some(pair)
    }

    fn size_hint(&self) -> (usize, Option<usize>)
        ensures lower { IsWithinCount result.0 (at_most (length self.now)) }
        ensures upper { IfSome result.1 (UpTo (at_most (length self.now))) }
        ensures exact { result ≡ (length self.now, Some (length self.now)) }
    {
        let len = self.len();
        (len, Some(len))
    }
}

impl<'a, V> DoubleEndedIterator for TextPrefixes<'a, V> {
    ghost next_back_gives = { YieldsLastBy deref_pair (λ walk. walk) };

    fn next_back(&mut self) -> Option<(&'a [u8], &'a V)> {
        if self.left == 0 {
            return None;
        }
        let (pair, link) = self.texts.step_up(self.last - 1);
        self.last = link;
        self.left -= 1;
        Some(pair)
    }
}

impl<'a, V> ExactSizeIterator for TextPrefixes<'a, V> {
    fn len(&self) -> usize {
        self.left
    }
}

impl<'a, V> FusedIterator for TextPrefixes<'a, V> {}

//! The pairs whose encodings are prefixes of a list, from the shortest to the longest.
ghost use Rattle.std.specs.Prelude.{◌≡◌, ◌-◌, ◌≤◌, IfSome, Some, length, reverse};
ghost use Rattle.std.specs.FinMap as map;
ghost use Rattle.std.specs.Iterator.{UpTo, YieldsFirstBy, YieldsLastBy, at_most, item_count};
ghost use Rattle.std.specs.Iterator.SizeHint.{IsWithinCount};
ghost use Rattle.radix_trie.specs.Walks.{deref_pair};
ghost use Rattle.frozen_trie.specs.Frozen.{prefixes_up};

use crate::frozen::FrozenTrie;
use radix_keys::TrieKey;
use std::iter::FusedIterator;
use std::marker::Model;

/// A walk over pairs of which the encoding of each is a prefix of that of the next one, from the
/// shortest to the longest; from its other end, by `next_back` and `rev`, from the longest on.
///
/// Neither end allocates, and both go on returning None after the end; `next` takes the time of as
/// many links as pairs are left, `next_back` constant time. `len` is how many these are. A contract
/// sees a walk as the list of the pairs that are left.
#[derive(Drop)]
pub struct CommonPrefixes<'a, K: TrieKey, V> {
    frozen: &'a FrozenTrie<K, V>,
    /// The index of the last pair that is left and one more, or 0 where there is none.
    last: usize,
    /// How many pairs are left.
    left: usize,
}

impl<'a, K: TrieKey, V> Model for CommonPrefixes<'a, K, V> {
    ghost use Rattle.std.specs.Prelude.{List, ◌≤◌, length, reverse, take};
    ghost use Rattle.std.specs.FinMap as map;

    ghost Value = { List (K × V) };

    ghost use Rattle.frozen_trie.specs.Frozen.{prefixes_up};

    ghost view = { λ walk.
        reverse (take walk.left (prefixes_up K.encoding walk.frozen.now walk.last)) };

    ghost invariant = { λ walk. (walk.last ≤ map.len walk.frozen.now)
        × (walk.left ≤ length (prefixes_up K.encoding walk.frozen.now walk.last)) };
}

impl<'a, K: TrieKey, V> CommonPrefixes<'a, K, V> {
    /// The walk up to the pair whose index and one more is `last`; over no pair at 0.
    pub(crate) fn new(frozen: &'a FrozenTrie<K, V>, last: usize) -> CommonPrefixes<'a, K, V>
        requires { last ≤ map.len frozen.now }
        ensures { result ≡ reverse (prefixes_up K.encoding frozen.now last) }
    {
        let (mut at, mut left) = (last, 0);
        while at > 0 {
            let (_, link) = frozen.step_up(at - 1);
            at = link;
            left += 1;
        }
        CommonPrefixes { frozen, last, left }
    }
}

impl<'a, K: TrieKey, V> Iterator for CommonPrefixes<'a, K, V> {
    type Item = (&'a K, &'a V);

    ghost next_gives = { YieldsFirstBy deref_pair (λ walk. walk) };

    ghost remaining = { item_count (λ walk. walk) };

    fn next(&mut self) -> Option<(&'a K, &'a V)> {
        if self.left == 0 {
            return None;
        }
        let others = self.left - 1;
        let mut at = self.last;
        for _up in 0..others {
            (_, at) = self.frozen.step_up(at - 1);
        }
        self.left = others;
        let (pair, _) = self.frozen.step_up(at - 1);
        Some(pair)
    }

    fn size_hint(&self) -> (usize, Option<usize>)
        ensures lower { IsWithinCount result.0 (at_most (length self.now)) }
        ensures upper { IfSome result.1 (UpTo (at_most (length self.now))) }
        ensures exact { result ≡ (length self.now, Some (length self.now)) }
    {
        let len = self.len();
        (len, Some(len))
    }
}

impl<'a, K: TrieKey, V> DoubleEndedIterator for CommonPrefixes<'a, K, V> {
    ghost next_back_gives = { YieldsLastBy deref_pair (λ walk. walk) };

    fn next_back(&mut self) -> Option<(&'a K, &'a V)> {
        if self.left == 0 {
            return None;
        }
        let (pair, link) = self.frozen.step_up(self.last - 1);
        self.last = link;
        self.left -= 1;
        Some(pair)
    }
}

impl<'a, K: TrieKey, V> ExactSizeIterator for CommonPrefixes<'a, K, V> {
    fn len(&self) -> usize {
        self.left
    }
}

impl<'a, K: TrieKey, V> FusedIterator for CommonPrefixes<'a, K, V> {}

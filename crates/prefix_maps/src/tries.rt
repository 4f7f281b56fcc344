//! The calls of a trie.
ghost use Rattle.std.specs.Prelude.{List};
ghost use Rattle.prefix_maps.specs.Calls.{trie_walk_left};

use crate::calls::PrefixMap;
use crate::ranges::RangeMap;
use radix_keys::{Memory, TrieKey};
use radix_trie::iter::{CommonPrefixes, Cursor, CursorBack};
use radix_trie::{Trie, TrieCommon, keys_stand_at_their_encodings};
use std::ops::RangeBounds;

/// A walk over pairs of a trie.
#[derive(Drop)]
pub enum TrieWalk<'a, K, V> {
    /// In the order of the encodings.
    Forward(Cursor<'a, K, V>),
    /// In their falling order.
    Back(CursorBack<'a, K, V>),
    /// Over the prefixes of a key, from the shortest to the longest.
    Prefixes(CommonPrefixes<'a, K, V>),
}

impl<'a, K: TrieKey + 'a, V: 'a, Q: TrieKey> PrefixMap<'a, Q> for &'a Trie<K, V> {
    type Key = &'a K;

    type Value = V;

    type Walk = TrieWalk<'a, K, V>;

    ghost Stored = { K };

    ghost stored_key = { λ k. k.now };

    ghost encoding = { K.encoding };

    ghost map = { λ trie. trie.now };

    ghost list = { Q.encoding };

    ghost left = { trie_walk_left };

    ghost is_free = { Q.is_inline };

    ghost has_free_walks = { ⊥ };

    fn keys_stand_at_their_encodings(self) {
        keys_stand_at_their_encodings(self);
    }

    fn len(self) -> usize {
        Trie::len(self)
    }

    fn is_empty(self) -> bool {
        Trie::is_empty(self)
    }

    fn get(self, key: &Q) -> Result<Option<&'a V>, Memory> {
        Trie::get(self, key)
    }

    fn get_key_value(self, key: &Q) -> Result<Option<(&'a K, &'a V)>, Memory> {
        Trie::get_key_value(self, key)
    }

    fn contains_key(self, key: &Q) -> Result<bool, Memory> {
        Trie::contains_key(self, key)
    }

    fn longest_match(self, key: &Q) -> Result<Option<(&'a K, &'a V)>, Memory> {
        Trie::longest_match(self, key)
    }

    fn first_key_value(self) -> Option<(&'a K, &'a V)> {
        TrieCommon::first_key_value(self)
    }

    fn last_key_value(self) -> Option<(&'a K, &'a V)> {
        TrieCommon::last_key_value(self)
    }

    fn count_below(self, key: &Q) -> Result<usize, Memory> {
        Trie::count_below(self, key)
    }

    fn iter(self) -> TrieWalk<'a, K, V> {
        TrieWalk::Forward(TrieCommon::cursor(self))
    }

    fn below(self, key: &Q) -> Result<TrieWalk<'a, K, V>, Memory> {
        Ok(TrieWalk::Forward(Trie::below(self, key)?))
    }

    fn common_prefixes(self, key: &Q) -> Result<TrieWalk<'a, K, V>, Memory> {
        Ok(TrieWalk::Prefixes(Trie::common_prefixes(self, key)?))
    }

    fn next(walk: &mut TrieWalk<'a, K, V>) -> Result<Option<(&'a K, &'a V)>, Memory> {
        match walk {
            TrieWalk::Forward(left) => left.next(),
            TrieWalk::Back(left) => left.next(),
            TrieWalk::Prefixes(left) => Ok(left.next()),
        }
    }
}

impl<'a, K: TrieKey + 'a, V: 'a, Q: TrieKey> RangeMap<'a, Q> for &'a Trie<K, V> {
    fn range<R: RangeBounds<Q>>(self, range: R) -> Result<TrieWalk<'a, K, V>, Memory> {
        Ok(TrieWalk::Forward(TrieCommon::range(self, range)?))
    }

    fn range_back<R: RangeBounds<Q>>(self, range: R) -> Result<TrieWalk<'a, K, V>, Memory> {
        Ok(TrieWalk::Back(TrieCommon::range_back(self, range)?))
    }
}

//! The calls of a frozen trie.
ghost use Rattle.std.specs.Prelude.{◌⊎◌, ⊤};
ghost use Rattle.prefix_maps.specs.Calls.{frozen_walk_left};

use crate::calls::PrefixMap;
use crate::ranges::RangeMap;
use frozen_trie::{CommonPrefixes, FrozenTrie, frozen_stands_at_its_encodings};
use radix_keys::{AsNibbles, Memory, TrieKey};
use std::ops::RangeBounds;

/// A walk over pairs of a frozen trie, no step of which fails.
#[derive(Drop)]
pub enum FrozenWalk<'a, K: TrieKey, V> {
    /// In the order of the encodings.
    Pairs(&'a [(K, V)]),
    /// In their falling order.
    Back(&'a [(K, V)]),
    /// Over the prefixes of a key, from the shortest to the longest.
    Prefixes(CommonPrefixes<'a, K, V>),
}

impl<'a, K: AsNibbles + 'a, V: 'a, Q: AsNibbles> PrefixMap<'a, Q> for &'a FrozenTrie<K, V> {
    type Key = &'a K;

    type Value = V;

    type Walk = FrozenWalk<'a, K, V>;

    ghost Stored = { K };

    ghost stored_key = { λ k. k.now };

    ghost encoding = { K.encoding };

    ghost map = { λ trie. trie.now };

    ghost list = { Q.encoding };

    ghost left = { frozen_walk_left };

    ghost is_free = { λ key. Q.is_inline key ⊎ Q.is_lent key };

    ghost has_free_walks = { ⊤ };

    fn keys_stand_at_their_encodings(self) {
        frozen_stands_at_its_encodings(self);
    }

    fn len(self) -> usize {
        FrozenTrie::len(self)
    }

    fn is_empty(self) -> bool {
        FrozenTrie::is_empty(self)
    }

    fn get(self, key: &Q) -> Result<Option<&'a V>, Memory> {
        FrozenTrie::get(self, key)
    }

    fn get_key_value(self, key: &Q) -> Result<Option<(&'a K, &'a V)>, Memory> {
        FrozenTrie::get_key_value(self, key)
    }

    fn contains_key(self, key: &Q) -> Result<bool, Memory> {
        FrozenTrie::contains_key(self, key)
    }

    fn longest_match(self, key: &Q) -> Result<Option<(&'a K, &'a V)>, Memory> {
        FrozenTrie::longest_match(self, key)
    }

    fn first_key_value(self) -> Option<(&'a K, &'a V)> {
        FrozenTrie::first_key_value(self)
    }

    fn last_key_value(self) -> Option<(&'a K, &'a V)> {
        FrozenTrie::last_key_value(self)
    }

    fn count_below(self, key: &Q) -> Result<usize, Memory> {
        FrozenTrie::count_below(self, key)
    }

    fn iter(self) -> FrozenWalk<'a, K, V> {
        FrozenWalk::Pairs(self.pairs())
    }

    fn below(self, key: &Q) -> Result<FrozenWalk<'a, K, V>, Memory> {
        Ok(FrozenWalk::Pairs(FrozenTrie::below(self, key)?))
    }

    fn common_prefixes(self, key: &Q) -> Result<FrozenWalk<'a, K, V>, Memory> {
        Ok(FrozenWalk::Prefixes(FrozenTrie::common_prefixes(self, key)?))
    }

    fn next(walk: &mut FrozenWalk<'a, K, V>) -> Result<Option<(&'a K, &'a V)>, Memory> {
        match walk {
            FrozenWalk::Pairs(left) => {
                let Some((first, others)) = left.split_first() else {
                    return Ok(None);
                };
                *left = others;
                Ok(Some((&first.0, &first.1)))
            }
            FrozenWalk::Back(left) => {
                let Some((last, others)) = left.split_last() else {
                    return Ok(None);
                };
                *left = others;
                Ok(Some((&last.0, &last.1)))
            }
            FrozenWalk::Prefixes(left) => Ok(left.next()),
        }
    }
}

impl<'a, K: AsNibbles + 'a, V: 'a, Q: AsNibbles> RangeMap<'a, Q> for &'a FrozenTrie<K, V> {
    fn range<R: RangeBounds<Q>>(self, range: R) -> Result<FrozenWalk<'a, K, V>, Memory> {
        Ok(FrozenWalk::Pairs(FrozenTrie::range(self, range)?))
    }

    fn range_back<R: RangeBounds<Q>>(self, range: R) -> Result<FrozenWalk<'a, K, V>, Memory> {
        Ok(FrozenWalk::Back(FrozenTrie::range(self, range)?))
    }
}

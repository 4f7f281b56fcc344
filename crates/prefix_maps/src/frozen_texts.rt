//! The calls of frozen texts, by any text or byte string.
ghost use Rattle.std.specs.Prelude.{List, ⊤, ℕ};
ghost use Rattle.nibble_map.specs.Nibbles.{nibbles};
ghost use Rattle.prefix_maps.specs.Calls.{text_walk_left};

use crate::calls::PrefixMap;
use crate::ranges::RangeMap;
use frozen_trie::{FrozenTexts, TextKey, TextPrefixes, Texts, texts_stand_at_their_bytes};
use radix_keys::Memory;
use std::ops::RangeBounds;

/// A walk over pairs of frozen texts, no step of which fails.
#[derive(Drop)]
pub enum TextWalk<'a, V> {
    /// In the order of the keys.
    Pairs(Texts<'a, V>),
    /// In their falling order.
    Back(Texts<'a, V>),
    /// Over the prefixes of a key, from the shortest to the longest.
    Prefixes(TextPrefixes<'a, V>),
}

impl<'a, V: 'a, Q: TextKey> PrefixMap<'a, Q> for &'a FrozenTexts<V> {
    type Key = &'a [u8];

    type Value = V;

    type Walk = TextWalk<'a, V>;

    ghost Stored = { List ℕ };

    ghost stored_key = { λ text. text.now };

    ghost encoding = { nibbles };

    ghost map = { λ texts. texts.now };

    ghost list = { λ query. nibbles (Q.bytes query) };

    ghost left = { text_walk_left };

    ghost is_free = { λ _. ⊤ };

    ghost has_free_walks = { ⊤ };

    fn keys_stand_at_their_encodings(self) {
        texts_stand_at_their_bytes(self);
    }

    fn len(self) -> usize {
        FrozenTexts::len(self)
    }

    fn is_empty(self) -> bool {
        FrozenTexts::is_empty(self)
    }

    fn get(self, key: &Q) -> Result<Option<&'a V>, Memory> {
        Ok(FrozenTexts::get(self, key.bytes()))
    }

    fn get_key_value(self, key: &Q) -> Result<Option<(&'a [u8], &'a V)>, Memory> {
        Ok(FrozenTexts::get_key_value(self, key.bytes()))
    }

    fn contains_key(self, key: &Q) -> Result<bool, Memory> {
        Ok(FrozenTexts::contains_key(self, key.bytes()))
    }

    fn longest_match(self, key: &Q) -> Result<Option<(&'a [u8], &'a V)>, Memory> {
        Ok(FrozenTexts::longest_match(self, key.bytes()))
    }

    fn first_key_value(self) -> Option<(&'a [u8], &'a V)> {
        FrozenTexts::first_key_value(self)
    }

    fn last_key_value(self) -> Option<(&'a [u8], &'a V)> {
        FrozenTexts::last_key_value(self)
    }

    fn count_below(self, key: &Q) -> Result<usize, Memory> {
        Ok(FrozenTexts::count_below(self, key.bytes()))
    }

    fn iter(self) -> TextWalk<'a, V> {
        TextWalk::Pairs(FrozenTexts::iter(self))
    }

    fn below(self, key: &Q) -> Result<TextWalk<'a, V>, Memory> {
        Ok(TextWalk::Pairs(FrozenTexts::below(self, key.bytes())))
    }

    fn common_prefixes(self, key: &Q) -> Result<TextWalk<'a, V>, Memory> {
        Ok(TextWalk::Prefixes(FrozenTexts::common_prefixes(self, key.bytes())))
    }

    fn next(walk: &mut TextWalk<'a, V>) -> Result<Option<(&'a [u8], &'a V)>, Memory> {
        Ok(match walk {
            TextWalk::Pairs(left) => left.next(),
            TextWalk::Back(left) => left.next_back(),
            TextWalk::Prefixes(left) => left.next(),
        })
    }
}

impl<'a, V: 'a, Q: TextKey> RangeMap<'a, Q> for &'a FrozenTexts<V> {
    fn range<R: RangeBounds<Q>>(self, range: R) -> Result<TextWalk<'a, V>, Memory> {
        Ok(TextWalk::Pairs(FrozenTexts::range(self, range)))
    }

    fn range_back<R: RangeBounds<Q>>(self, range: R) -> Result<TextWalk<'a, V>, Memory> {
        Ok(TextWalk::Back(FrozenTexts::range(self, range)))
    }
}

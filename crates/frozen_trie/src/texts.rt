//! A map from byte strings for reading: its keys are packed, and no key is an object of its own.
ghost use Rattle.std.specs.Prelude.{◌≡◌, ◌↔◌, ◌+◌, ◌-◌, ◌<◌, ◌≤◌, ◌^◌, [], ◌∷◌, Some, length, IsTrue, option_copied, option_map, slice_get};
ghost use Rattle.std.specs.FinMap as map;
ghost use Rattle.nibble_map.specs.Lists.{IsRising};
ghost use Rattle.nibble_map.specs.Maps.{IsStored, below, value_at};
ghost use Rattle.nibble_map.specs.Nibbles.{nibbles};
ghost use Rattle.radix_trie.specs.Views.{IsPairAbove, encoded_bound, pairs_above, pairs_before, pairs_below, pairs_within};
ghost use Rattle.radix_trie.specs.Walks.{bound_now, deref_pair};
ghost use Rattle.frozen_trie.specs.Frozen.{codes_of, map_of_pairs, prefixes_up};

use crate::search::within;
use encoded_keys::keys::EncodedKeys;
use encoded_keys::search::{index_of, last_prefix, lower, upper};
use radix_keys::NibbleSlice;
use std::alloc::Global;
use std::marker::Model;
use std::ops::{Bound, RangeBounds};

mod appended;
mod key;
mod prefixes;
mod sorted;
mod walk;
mod written;

pub use key::TextKey;
pub use prefixes::TextPrefixes;
pub use walk::Texts;

/// A map from byte strings to values, which is made in the order of the keys and then read. The
/// keys' bytes lie one behind the other, so a pair takes those of its key, its value and 16 bytes
/// more, once `finish` has dropped spare room; from 65,536 pairs on its tables take 2^18 bytes and
/// half a byte a pair besides, or 1.4 bytes a pair where keys are alike, and 5 bytes a pair where
/// keys take more than 4 bytes on average: 26 bytes more a pair at most. A key comes out as the
/// bytes that went in.
///
/// A contract sees it as it sees a `FrozenTrie`: as the finite map from the nibbles of each key to
/// the pair of the key's bytes and its value. The order of the nibbles is that of the bytes. A call
/// that reads allocates nothing, and none fails; a search takes the time of as many
/// comparisons of keys as the count of pairs has binary digits, but for the climb of
/// `longest_match`.
///
/// # Examples
///
/// ```
/// # use nifazombi::rattle_std::alloc::Global;
/// use nifazombi::frozen_trie::FrozenTexts;
///
/// let mut texts: FrozenTexts<u64> = FrozenTexts::new(Global);
/// texts.push(b"tea", 1)?;
/// texts.push(b"team", 2)?;
/// texts.finish()?;
/// assert_eq!(texts.longest_match(b"teapot"), Some((b"tea".as_slice(), &1)));
/// # Ok::<(), Box<dyn std::error::Error>>(())
/// ```
#[derive(Drop)]
pub struct FrozenTexts<V> {
    /// The nibbles of the keys.
    codes: EncodedKeys,
    values: Vec<V>,
    /// For each pair, the index and one more of the last earlier pair whose key is a prefix of its
    /// own, or 0.
    parents: Vec<u32>,
    alloc: Global,
}

impl<V> Model for FrozenTexts<V> {
    ghost use Rattle.std.specs.Prelude.{ℕ, List};
    ghost use Rattle.std.specs.Coded.{coded_list, coded_ℕ};
    ghost use Rattle.nibble_map.specs.Maps.{PairMap, pair_map_code};

    ghost Value = { PairMap (List ℕ) V };

    ghost coded = { pair_map_code (coded_list coded_ℕ) V.code };

    ghost use Rattle.frozen_trie.specs.Texts.{text_map, AreTexts};

    ghost view = { λ t. text_map t.codes t.values.items };

    ghost invariant = { λ t. AreTexts t.codes t.values.items t.parents.items };
}

impl<V> FrozenTexts<V> {
    /// The count of pairs.
    pub fn len(&self) -> usize
        ensures { result ≡ map.len self.now }
    {
        self.values.len()
    }

    /// Whether there is no pair.
    pub fn is_empty(&self) -> bool
        ensures { IsTrue result ↔ (map.len self.now ≡ 0) }
    {
        self.len() == 0
    }

    /// The value of a key, if it is stored.
    pub fn get(&self, key: &[u8]) -> Option<&V>
        ensures value { option_copied result ≡ value_at self.now (nibbles key.now) }
    {
        match index_of::<u8, ()>(&self.codes, &[], &NibbleSlice::from_bytes(key)) {
            Some(at) => Some(&self.values[at]),
            None => None,
        }
    }

    /// A key and its value, as they are stored, if the key is.
    pub fn get_key_value(&self, key: &[u8]) -> Option<(&[u8], &V)>
        ensures pair { option_map deref_pair result ≡ map.get self.now (nibbles key.now) }
    {
        match index_of::<u8, ()>(&self.codes, &[], &NibbleSlice::from_bytes(key)) {
            Some(at) => Some(self.pair_at(at)),
            None => None,
        }
    }

    /// Whether a key is stored.
    pub fn contains_key(&self, key: &[u8]) -> bool
        ensures stored { IsTrue result ↔ IsStored self.now (nibbles key.now) }
    {
        self.get(key).is_some()
    }

    /// The first key and its value, or None where no pair is stored. It takes constant time.
    pub fn first_key_value(&self) -> Option<(&[u8], &V)>
        ensures pair { option_map deref_pair result ≡ slice_get (pairs_below self.now []) 0 }
    {
        self.nth(0)
    }

    /// The last key and its value, or None where no pair is stored. It takes constant time.
    pub fn last_key_value(&self) -> Option<(&[u8], &V)>
        ensures pair { option_map deref_pair result ≡ slice_get (pairs_below self.now [])
            (length (pairs_below self.now []) - 1) }
    {
        self.nth(self.len().saturating_sub(1))
    }

    /// The longest stored key that is a prefix of some bytes, and its value, or None where there is
    /// none.
    ///
    /// Where the bytes aren't stored, the stored prefixes of the key before them are gone through,
    /// from the longest on, until one of them is a prefix of the bytes too.
    pub fn longest_match(&self, key: &[u8]) -> Option<(&[u8], &V)>
        ensures pair { IsPairAbove self.now (nibbles key.now) (option_map deref_pair result) }
    {
        let found = last_prefix(&self.codes, &self.parents, &NibbleSlice::from_bytes(key));
        if found == 0 {
            return None;
        }
        Some(self.pair_at(found - 1))
    }

    /// The walk over the pairs whose keys are prefixes of some bytes, from the shortest to the
    /// longest.
    pub fn common_prefixes(&self, key: &[u8]) -> TextPrefixes<'_, V>
        ensures walk { result ≡ pairs_above self.now (nibbles key.now) }
    {
        TextPrefixes::new(
            self,
            last_prefix(&self.codes, &self.parents, &NibbleSlice::from_bytes(key)),
        )
    }

    /// The walk over the pairs whose keys lie within a range, in order. Where the first key comes
    /// after the last, there is none.
    pub fn range<Q: TextKey, R: RangeBounds<Q>>(&self, range: R) -> Texts<'_, V>
        ensures walk { R.has_bounds range → result ≡ pairs_within self.now []
            (encoded_bound (λ key. nibbles (Q.bytes key)) (R.start_bound range))
            (encoded_bound (λ key. nibbles (Q.bytes key)) (R.end_bound range)) }
    {
        let low = list_of(range.start_bound());
        let high = list_of(range.end_bound());
        let (first, end) = within(&self.codes, low, high);
        Texts::new(self, first, end)
    }

    /// The pairs whose keys begin with some bytes, in order.
    pub fn below(&self, prefix: &[u8]) -> Texts<'_, V>
        ensures walk { result ≡ pairs_below self.now (nibbles prefix.now) }
    {
        let from = lower(&self.codes, &NibbleSlice::from_bytes(prefix));
        let to = upper(&self.codes, &NibbleSlice::from_bytes(prefix));
        Texts::new(self, from, to)
    }

    /// How many of the keys begin with some bytes.
    pub fn count_below(&self, prefix: &[u8]) -> usize
        ensures count { result ≡ map.len (below self.now (nibbles prefix.now)) }
    {
        self.below(prefix).len()
    }

    /// All pairs, in the order of their keys.
    pub fn iter(&self) -> Texts<'_, V>
        ensures walk { result ≡ pairs_below self.now [] }
    {
        Texts::new(self, 0, self.len())
    }

    /// How many of the keys come before some bytes: the index at which these are stored, or would
    /// be.
    pub fn rank(&self, key: &[u8]) -> usize
        ensures count { result ≡ length (pairs_before self.now [] (nibbles key.now)) }
    {
        lower(&self.codes, &NibbleSlice::from_bytes(key))
    }

    /// The key at an index, in order, and its value, or None past the end. It takes constant time.
    pub fn nth(&self, index: usize) -> Option<(&[u8], &V)>
        ensures pair { option_map deref_pair result ≡ slice_get (pairs_below self.now []) index }
    {
        if index < self.len() {
            Some(self.pair_at(index))
        } else {
            None
        }
    }

    /// The allocator that the memory comes from.
    pub fn allocator(&self) -> Global {
        self.alloc
    }

    /// The pair at an index, by its parts.
    pub(crate) fn pair_at(&self, at: usize) -> (&[u8], &V)
        requires { at < map.len self.now }
        ensures pair { slice_get (pairs_below self.now []) at ≡ Some (deref_pair result) }
        ensures short { length result.0.now < 2 ^ 32 }
    {
        (self.codes.bytes_at(at), &self.values[at])
    }

    /// The map is that of its pairs.
    pub(crate) fn is_of_its_pairs(&self)
        ensures mapped { self.now ≡ map_of_pairs nibbles (pairs_below self.now []) }
        ensures rising { IsRising (codes_of nibbles (pairs_below self.now [])) }
    {
        let _values = &self.values;
    }

    /// The pair at an index, by its parts, and the link there: the index and one more of the next
    /// pair whose key is a prefix of its own, or 0.
    fn step_up(&self, at: usize) -> ((&[u8], &V), usize)
        requires { at < map.len self.now }
        ensures walk { prefixes_up nibbles self.now (at + 1)
            ≡ deref_pair result.0 ∷ prefixes_up nibbles self.now result.1 }
        ensures within { result.1 ≤ at }
    {
        (self.pair_at(at), self.parents[at] as usize)
    }
}

/// The bound of the nibbles of a key.
fn list_of<'a, Q: TextKey>(bound: Bound<&'a Q>) -> Bound<NibbleSlice<'a>>
    ensures { result ≡ encoded_bound (λ key. nibbles (Q.bytes key)) (bound_now bound.entry) }
{
    match bound {
        Bound::Included(key) => Bound::Included(NibbleSlice::from_bytes(key.bytes())),
        Bound::Excluded(key) => Bound::Excluded(NibbleSlice::from_bytes(key.bytes())),
        Bound::Unbounded => Bound::Unbounded,
    }
}

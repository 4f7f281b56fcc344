//! Calls by a key: by the list that it is encoded as.
ghost use Rattle.std.specs.Prelude.{◌≡◌, ◌↔◌, ◌⊎◌, [], length, IsTrue, IsOk, IfOk, OnOk, option_copied, option_map};
ghost use Rattle.std.specs.FinMap as map;
ghost use Rattle.nibble_map.specs.Maps.{IsStored, below, value_at};
ghost use Rattle.radix_trie.specs.Views.{IsInlineBound, IsPairAbove, encoded_bound, pairs_above, pairs_before, pairs_below, pairs_within};
ghost use Rattle.radix_trie.specs.Walks.{bound_now, deref_pair};

use crate::frozen::FrozenTrie;
use crate::prefixes::CommonPrefixes;
use crate::search::within;
use crate::slices::entry_at;
use encoded_keys::search::{index_of, last_prefix, lower, upper};
use encoded_keys::slices::part;
use radix_keys::{AsNibbles, Encoding, Memory, NibbleSlice};
use std::alloc::Global;
use std::ops::{Bound, RangeBounds};

impl<K: AsNibbles, V> FrozenTrie<K, V> {
    /// The value that is stored at the key's encoding, if there is one.
    ///
    /// The key may be of another type than the stored keys: its encoding alone decides.
    ///
    /// # Errors
    ///
    /// `Memory`: the encoding's allocation fails; a key that is inline, or lends its encoding,
    /// needs none.
    pub fn get<Q: AsNibbles>(&self, key: &Q) -> Result<Option<&V>, Memory>
        ensures value { IfOk result
            (λ found. option_copied found ≡ value_at self.now (Q.encoding key.now)) }
        ensures is_value { OnOk result (Q.is_value key.now) }
        ensures inline { Q.is_inline key.now → IsOk result }
        ensures lent { Q.is_lent key.now → IsOk result }
    {
        match self.get_key_value(key)? {
            Some((_, value)) => Ok(Some(value)),
            None => Ok(None),
        }
    }

    /// The key and the value that are stored at the key's encoding, if a pair is.
    ///
    /// The key may be of another type than the stored keys: its encoding alone decides.
    ///
    /// # Errors
    ///
    /// `Memory`: the encoding's allocation fails; a key that is inline, or lends its encoding,
    /// needs none.
    pub fn get_key_value<Q: AsNibbles>(&self, key: &Q) -> Result<Option<(&K, &V)>, Memory>
        ensures pair { IfOk result (λ found. option_map deref_pair found
            ≡ map.get self.now (Q.encoding key.now)) }
        ensures is_value { OnOk result (Q.is_value key.now) }
        ensures inline { Q.is_inline key.now → IsOk result }
        ensures lent { Q.is_lent key.now → IsOk result }
    {
        let list = Encoding::of(self.alloc, key)?;
        match index_of(&self.codes, &self.pairs, &list.as_slice()) {
            Some(at) => Ok(Some(entry_at(&self.pairs, at))),
            None => Ok(None),
        }
    }

    /// Whether a pair is stored at the key's encoding.
    ///
    /// # Errors
    ///
    /// `Memory`: the encoding's allocation fails; a key that is inline, or lends its encoding,
    /// needs none.
    pub fn contains_key<Q: AsNibbles>(&self, key: &Q) -> Result<bool, Memory>
        ensures stored { IfOk result
            (λ found. IsTrue found ↔ IsStored self.now (Q.encoding key.now)) }
        ensures is_value { OnOk result (Q.is_value key.now) }
        ensures inline { Q.is_inline key.now → IsOk result }
        ensures lent { Q.is_lent key.now → IsOk result }
    {
        Ok(self.get_key_value(key)?.is_some())
    }

    /// The key and the value at the longest stored encoding that is a prefix of the key's, or None
    /// where there is none.
    ///
    /// Where the key isn't stored, the stored prefixes of the pair before it are gone through, from
    /// the longest on, until one of them is a prefix of the key too.
    ///
    /// # Errors
    ///
    /// `Memory`: the encoding's allocation fails; a key that is inline, or lends its encoding,
    /// needs none.
    pub fn longest_match<Q: AsNibbles>(&self, key: &Q) -> Result<Option<(&K, &V)>, Memory>
        ensures pair { IfOk result (λ found. IsPairAbove self.now (Q.encoding key.now)
            (option_map deref_pair found)) }
        ensures inline { Q.is_inline key.now → IsOk result }
        ensures lent { Q.is_lent key.now → IsOk result }
    {
        let list = Encoding::of(self.alloc, key)?;
        let found = last_prefix(&self.codes, &self.parents, &list.as_slice());
        if found == 0 {
            return Ok(None);
        }
        Ok(Some(entry_at(&self.pairs, found - 1)))
    }

    /// The walk over the pairs whose encodings are prefixes of the key's, from the shortest to the
    /// longest.
    ///
    /// # Errors
    ///
    /// `Memory`: the encoding's allocation fails; a key that is inline, or lends its encoding,
    /// needs none.
    pub fn common_prefixes<Q: AsNibbles>(&self, key: &Q) -> Result<CommonPrefixes<'_, K, V>, Memory>
        ensures walk { IfOk result
            (λ walk. walk ≡ pairs_above self.now (Q.encoding key.now)) }
        ensures inline { Q.is_inline key.now → IsOk result }
        ensures lent { Q.is_lent key.now → IsOk result }
    {
        let list = Encoding::of(self.alloc, key)?;
        let last = last_prefix(&self.codes, &self.parents, &list.as_slice());
        Ok(CommonPrefixes::new(self, last))
    }

    /// The pairs whose encodings lie within a range of keys, in order. Where the first key comes
    /// after the last, there is none.
    ///
    /// # Errors
    ///
    /// `Memory`: an encoding's allocation fails; a key that is inline, or lends its encoding, needs
    /// none.
    pub fn range<Q: AsNibbles, R: RangeBounds<Q>>(&self, range: R) -> Result<&[(K, V)], Memory>
        ensures pairs { R.has_bounds range → IfOk result (λ left. left.now
            ≡ pairs_within self.now [] (encoded_bound Q.encoding (R.start_bound range))
            (encoded_bound Q.encoding (R.end_bound range))) }
        ensures free { R.has_bounds range
            → IsInlineBound (λ key. Q.is_inline key ⊎ Q.is_lent key) (R.start_bound range)
            → IsInlineBound (λ key. Q.is_inline key ⊎ Q.is_lent key) (R.end_bound range)
            → IsOk result }
    {
        let low = encoded(self.alloc, range.start_bound())?;
        let high = encoded(self.alloc, range.end_bound())?;
        let (first, end) = within(&self.codes, list_of(&low), list_of(&high));
        Ok(part(&self.pairs, first, end))
    }

    /// The pairs at and below the key's place, in order. The key needn't be stored.
    ///
    /// # Errors
    ///
    /// `Memory`: the encoding's allocation fails; a key that is inline, or lends its encoding,
    /// needs none.
    ///
    /// # Examples
    ///
    /// ```
    /// # use nifazombi::{frozen_trie::FrozenTrie, rattle_std::alloc::Global};
    /// let mut words: FrozenTrie<&str, u64> = FrozenTrie::new(Global);
    /// for (word, line) in [("inn", 1), ("tea", 2), ("team", 3)] {
    ///     words.push(word, line)?;
    /// }
    /// assert_eq!(words.below(&"te")?, [("tea", 2), ("team", 3)]);
    /// # Ok::<(), Box<dyn std::error::Error>>(())
    /// ```
    ///
    /// `completions` in `crates/trie_examples/src/dictionary.rt` proves that each word begins so.
    pub fn below<Q: AsNibbles>(&self, key: &Q) -> Result<&[(K, V)], Memory>
        ensures pairs { IfOk result
            (λ left. left.now ≡ pairs_below self.now (Q.encoding key.now)) }
        ensures inline { Q.is_inline key.now → IsOk result }
        ensures lent { Q.is_lent key.now → IsOk result }
    {
        let list = Encoding::of(self.alloc, key)?;
        let from = lower(&self.codes, &list.as_slice());
        let to = upper(&self.codes, &list.as_slice());
        Ok(part(&self.pairs, from, to))
    }

    /// The count of pairs at and below the key's place. The key needn't be stored.
    ///
    /// # Errors
    ///
    /// `Memory`: the encoding's allocation fails; a key that is inline, or lends its encoding,
    /// needs none.
    pub fn count_below<Q: AsNibbles>(&self, key: &Q) -> Result<usize, Memory>
        ensures count { IfOk result
            (λ count. count ≡ map.len (below self.now (Q.encoding key.now))) }
        ensures inline { Q.is_inline key.now → IsOk result }
        ensures lent { Q.is_lent key.now → IsOk result }
    {
        Ok(self.below(key)?.len())
    }

    /// How many of the stored encodings come before the key's: the index at which it is stored, or
    /// would be.
    ///
    /// # Errors
    ///
    /// `Memory`: the encoding's allocation fails; a key that is inline, or lends its encoding,
    /// needs none.
    pub fn rank<Q: AsNibbles>(&self, key: &Q) -> Result<usize, Memory>
        ensures count { IfOk result
            (λ count. count ≡ length (pairs_before self.now [] (Q.encoding key.now))) }
        ensures inline { Q.is_inline key.now → IsOk result }
        ensures lent { Q.is_lent key.now → IsOk result }
    {
        let list = Encoding::of(self.alloc, key)?;
        Ok(lower(&self.codes, &list.as_slice()))
    }
}

/// The bound of a key's encoding.
fn encoded<'a, Q: AsNibbles>(
    alloc: Global,
    bound: Bound<&'a Q>,
) -> Result<Bound<Encoding<'a>>, Memory>
    ensures list { IfOk result (λ b. b ≡ encoded_bound Q.encoding (bound_now bound.entry)) }
    ensures free { IsInlineBound (λ key. Q.is_inline key ⊎ Q.is_lent key) (bound_now bound.entry)
        → IsOk result }
{
    match bound {
        Bound::Included(key) => Ok(Bound::Included(Encoding::of(alloc, key)?)),
        Bound::Excluded(key) => Ok(Bound::Excluded(Encoding::of(alloc, key)?)),
        Bound::Unbounded => Ok(Bound::Unbounded),
    }
}

/// The bound of the list of an encoding.
fn list_of<'a>(bound: &'a Bound<Encoding<'_>>) -> Bound<NibbleSlice<'a>>
    ensures { result ≡ bound.now }
{
    match bound {
        Bound::Included(list) => Bound::Included(list.as_slice()),
        Bound::Excluded(list) => Bound::Excluded(list.as_slice()),
        Bound::Unbounded => Bound::Unbounded,
    }
}

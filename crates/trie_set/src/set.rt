//! The set.
ghost use Rattle.std.specs.FinMap as map;
ghost use Rattle.std.specs.Prelude.{◌≡◌, ◌-◌, ◌<◌, ◌^◌, ◌↔◌, IsTrue, IsOk, IfOk, OnOk, length, option_copied, option_map, slice_get};
ghost use Rattle.nibble_map.specs.Maps.{IsStored};
ghost use Rattle.radix_trie.specs.Walks.{deref_pair};
ghost use Rattle.trie_set.specs.Sets.{IsKeyAbove, key_at, keys_in};

use radix_trie::iter::Keys;
use radix_trie::{Memory, Trie, TrieCommon, TrieKey};
use std::alloc::Global;
use std::marker::Model;

mod edits;
mod sides;

/// A set of keys, told apart by their encodings.
///
/// A contract sees it as the map of its trie: from each stored encoding, a list of nibbles, to the
/// key that is stored there.
///
/// # Examples
///
/// ```
/// # use nifazombi::rattle_std::alloc::Global;
/// use nifazombi::trie_set::TrieSet;
///
/// let mut words = TrieSet::new(Global);
/// assert!(words.insert("tea")? && !words.insert("tea")?);
/// assert!(words.contains(&"tea")? && !words.contains(&"te")?);
/// assert_eq!(words.longest_match(&"teapot")?, Some(&"tea"));
/// # Ok::<(), Box<dyn std::error::Error>>(())
/// ```
#[derive(Drop)]
pub struct TrieSet<K: TrieKey> {
    trie: Trie<K, ()>,
    alloc: Global,
}

impl<K: TrieKey> Model for TrieSet<K> {
    ghost use base.Stored.{coded_unit};
    ghost use Rattle.nibble_map.specs.Maps.{PairMap, pair_map_code};

    ghost Value = { PairMap K (Unit {0}) };

    ghost coded = { pair_map_code K.code coded_unit };

    ghost view = { λ s. s.trie };
}

impl<K: TrieKey> TrieSet<K> {
    /// The empty set. No memory is allocated.
    pub fn new(alloc: Global) -> Self
        ensures { result ≡ map.empty }
    {
        TrieSet {
            trie: Trie::new(alloc),
            alloc,
        }
    }

    /// The set of a trie's keys.
    pub fn from_trie(alloc: Global, trie: Trie<K, ()>) -> Self
        ensures { result ≡ trie }
    {
        TrieSet { trie, alloc }
    }

    /// The set as a trie.
    pub fn into_trie(self) -> Trie<K, ()>
        ensures { result ≡ self }
    {
        self.trie
    }

    /// The set as a trie, borrowed.
    pub fn as_trie(&self) -> &Trie<K, ()>
        ensures { result.now ≡ self.now }
    {
        &self.trie
    }

    /// The count of keys.
    pub fn len(&self) -> usize
        ensures { result ≡ map.len self.now }
    {
        self.trie.len()
    }

    /// Whether there is no key.
    pub fn is_empty(&self) -> bool
        ensures { IsTrue result ↔ (map.len self.now ≡ 0) }
    {
        self.trie.is_empty()
    }

    /// Whether a key is stored at the key's encoding, in the time of the way down to it.
    ///
    /// The key may be of another type than the stored keys: its encoding alone decides.
    ///
    /// # Errors
    ///
    /// An allocation for the encoding fails, which an inline key never meets.
    pub fn contains<Q: TrieKey>(&self, key: &Q) -> Result<bool, Memory>
        ensures stored { IfOk result
            (λ found. IsTrue found ↔ IsStored self.now (Q.encoding key.now)) }
        ensures is_value { OnOk result (Q.is_value key.now) }
        ensures inline { Q.is_inline key.now → IsOk result }
    {
        self.trie.contains_key(key)
    }

    /// The key that is stored at the key's encoding, if there is one, in the time of the way down
    /// to it.
    ///
    /// # Errors
    ///
    /// An allocation for the encoding fails, which an inline key never meets.
    pub fn get<Q: TrieKey>(&self, key: &Q) -> Result<Option<&K>, Memory>
        ensures key { IfOk result
            (λ found. option_copied found ≡ key_at self.now (Q.encoding key.now)) }
        ensures is_value { OnOk result (Q.is_value key.now) }
        ensures inline { Q.is_inline key.now → IsOk result }
    {
        Ok(key_behind(self.trie.get_key_value(key)?))
    }

    /// The key at the longest stored encoding that is a prefix of the key's, or None where there is
    /// none, in the time of the way down to it.
    ///
    /// # Errors
    ///
    /// An allocation for the encoding fails, which an inline key never meets.
    pub fn longest_match<Q: TrieKey>(&self, key: &Q) -> Result<Option<&K>, Memory>
        ensures nearest { IfOk result
            (λ found. IsKeyAbove self.now (Q.encoding key.now) (option_copied found)) }
        ensures inline { Q.is_inline key.now → IsOk result }
    {
        let list = key.encode(self.alloc)?;
        Ok(key_behind(self.trie.nearest(&list)))
    }

    /// The first key, in the order of the encodings, if there is one. No memory is allocated.
    pub fn first(&self) -> Option<&K>
        ensures { option_copied result ≡ slice_get (keys_in self.now) 0 }
    {
        key_behind(TrieCommon::first_key_value(&self.trie))
    }

    /// The last key, in the order of the encodings, if there is one. No memory is allocated.
    pub fn last(&self) -> Option<&K>
        ensures { option_copied result
            ≡ slice_get (keys_in self.now) (length (keys_in self.now) - 1) }
    {
        key_behind(TrieCommon::last_key_value(&self.trie))
    }

    /// The walk over all keys, in the order of their encodings, a prefix before its extensions. All
    /// memory that it needs is allocated here.
    ///
    /// # Errors
    ///
    /// An allocation for the walk fails: it grows with the height of the trie, and none is
    /// allocated for the empty set.
    pub fn iter(&self) -> Result<Keys<'_, K, ()>, Memory>
        ensures walk { IfOk result (λ keys. keys ≡ keys_in self.now) }
        ensures countable { IfOk result (λ keys. length keys < 2 ^ 64) }
        ensures none { map.len self.now ≡ 0 → IsOk result }
    {
        TrieCommon::keys(&self.trie)
    }
}

/// The key of a borrowed pair, if there is one.
pub(crate) fn key_behind<'a, K>(pair: Option<(&'a K, &'a ())>) -> Option<&'a K>
    ensures { option_copied result ≡ option_map (λ p. p.0) (option_map deref_pair pair.entry) }
{
    let (key, _) = pair?;
    Some(key)
}

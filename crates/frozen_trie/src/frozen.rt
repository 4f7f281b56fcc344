//! A map for reading alone: its pairs in the order of their encodings.
ghost use Rattle.std.specs.Prelude.{◌≡◌, ◌↔◌, ◌+◌, ◌-◌, ◌<◌, ◌≤◌, [], ◌∷◌, length, IsTrue, option_map, slice_get};
ghost use Rattle.std.specs.FinMap as map;
ghost use Rattle.nibble_map.specs.Lists.{IsRising};
ghost use Rattle.radix_trie.specs.Views.{pairs_below};
ghost use Rattle.radix_trie.specs.Walks.{deref_pair};
ghost use Rattle.frozen_trie.specs.Frozen.{IsFrozen, codes_of, map_of_pairs, prefixes_up};

use crate::slices::{entry_at, entry_in};
use encoded_keys::keys::EncodedKeys;
use radix_keys::TrieKey;
use std::alloc::Global;
use std::marker::Model;

mod appended;
mod keys;
mod values;
mod written;

/// A map from keys to values, told apart by the keys' encodings, which is made once and then read:
/// all pairs in the order of their encodings, one behind the other.
///
/// A contract sees it as it sees a `Trie`: as the finite map from each stored encoding, a list of
/// nibbles, to the pair of the key and the value that are stored there. A call by a key allocates
/// for the key's encoding alone: none fails by a key that is inline, or that lends its
/// encoding, as a text does, or a `Nibblet`, a list of nibbles in hand. A search takes the time of
/// as many comparisons of lists as the count of pairs has binary digits, but for the climb of
/// `longest_match`.
///
/// # Examples
///
/// ```
/// # use nifazombi::rattle_std::alloc::Global;
/// use nifazombi::frozen_trie::FrozenTrie;
///
/// let mut words: FrozenTrie<&str, u64> = FrozenTrie::new(Global);
/// words.push("tea", 1)?;
/// words.push("team", 2)?;
/// words.finish()?;
/// assert!(words.count_below(&"te")? == 2 && words.rank(&"team")? == 1);
/// # Ok::<(), Box<dyn std::error::Error>>(())
/// ```
#[derive(Drop)]
pub struct FrozenTrie<K: TrieKey, V> {
    /// The encodings of the pairs.
    codes: EncodedKeys,
    pairs: Vec<(K, V)>,
    /// For each pair, the index and one more of the last earlier pair whose encoding is a prefix of
    /// its own, or 0.
    parents: Vec<u32>,
    alloc: Global,
}

impl<K: TrieKey, V> Model for FrozenTrie<K, V> {
    ghost use Rattle.nibble_map.specs.Maps.{PairMap, pair_map_code};

    ghost Value = { PairMap K V };

    ghost coded = { pair_map_code K.code V.code };

    ghost use Rattle.frozen_trie.specs.Frozen.{map_of_pairs, IsFrozen};

    ghost view = { λ f. map_of_pairs K.encoding f.pairs.items };

    ghost invariant = { λ f. IsFrozen K.encoding f.codes f.pairs.items f.parents.items };
}

impl<K: TrieKey, V> FrozenTrie<K, V> {
    /// The map of pairs, of their encodings and of the links.
    pub(crate) fn from_parts(
        codes: EncodedKeys,
        pairs: Vec<(K, V)>,
        parents: Vec<u32>,
        alloc: Global,
    ) -> Self
        requires { IsFrozen K.encoding codes pairs.items parents.items }
        ensures { result ≡ map_of_pairs K.encoding pairs.items }
    {
        FrozenTrie {
            codes,
            pairs,
            parents,
            alloc,
        }
    }

    /// The count of pairs.
    pub fn len(&self) -> usize
        ensures { result ≡ map.len self.now }
    {
        self.pairs.len()
    }

    /// Whether there is no pair.
    pub fn is_empty(&self) -> bool
        ensures { IsTrue result ↔ (map.len self.now ≡ 0) }
    {
        self.len() == 0
    }

    /// The key and the value with the first encoding, or None where no pair is stored. It takes
    /// constant time.
    pub fn first_key_value(&self) -> Option<(&K, &V)>
        ensures pair { option_map deref_pair result ≡ slice_get (pairs_below self.now []) 0 }
    {
        self.nth(0)
    }

    /// The key and the value with the last encoding, or None where no pair is stored. It takes
    /// constant time.
    pub fn last_key_value(&self) -> Option<(&K, &V)>
        ensures pair { option_map deref_pair result ≡ slice_get (pairs_below self.now [])
            (length (pairs_below self.now []) - 1) }
    {
        entry_in(&self.pairs, self.pairs.len().saturating_sub(1))
    }

    /// All pairs, in the order of their encodings, an encoding before its extensions. Their slice
    /// has walks from both ends, whose length is known.
    pub fn pairs(&self) -> &[(K, V)]
        ensures pairs { result.now ≡ pairs_below self.now [] }
    {
        self.pairs.as_slice()
    }

    /// The key and the value of the pair at an index, in the order of the encodings, or None past
    /// the end. It takes constant time.
    pub fn nth(&self, index: usize) -> Option<(&K, &V)>
        ensures pair { option_map deref_pair result ≡ slice_get (pairs_below self.now []) index }
    {
        entry_in(&self.pairs, index)
    }

    /// All pairs, in the order of their encodings. It allocates nothing.
    pub fn into_pairs(self) -> Vec<(K, V)>
        ensures pairs { result.items ≡ pairs_below self [] }
    {
        self.into_parts().0
    }

    /// All pairs, and the allocator.
    pub(crate) fn into_parts(self) -> (Vec<(K, V)>, Global)
        ensures map { map_of_pairs K.encoding result.0.items ≡ self }
        ensures rising { IsRising (codes_of K.encoding result.0.items) }
    {
        (self.pairs, self.alloc)
    }

    /// The map is that of its pairs.
    pub(crate) fn is_of_its_pairs(&self)
        ensures mapped { self.now ≡ map_of_pairs K.encoding (pairs_below self.now []) }
        ensures rising { IsRising (codes_of K.encoding (pairs_below self.now [])) }
    {
        let _pairs = &self.pairs;
    }

    /// The pair at an index, by its parts, and the link there: the index and one more of the next
    /// pair whose encoding is a prefix of its own, or 0.
    pub(crate) fn step_up(&self, at: usize) -> ((&K, &V), usize)
        requires { at < map.len self.now }
        ensures walk { prefixes_up K.encoding self.now (at + 1)
            ≡ deref_pair result.0 ∷ prefixes_up K.encoding self.now result.1 }
        ensures within { result.1 ≤ at }
    {
        (entry_at(&self.pairs, at), self.parents[at] as usize)
    }

    /// The allocator that the memory comes from.
    pub fn allocator(&self) -> Global {
        self.alloc
    }
}

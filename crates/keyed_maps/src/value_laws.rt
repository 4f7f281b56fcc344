//! What the map by keys answers after a value is written.
ghost use Rattle.std.specs.Prelude.{◌≡◌, None, Some, false};
ghost use Rattle.nibble_map.specs.Maps.{PairMap, with_value};
ghost use Rattle.radix_trie.specs.Views.{with_value_or};
ghost use Rattle.keyed_maps.specs.KeyedMaps.{keyed_map};

use radix_trie::TrieKey;

/// The map by keys after a value is written at a key where one is stored, as a borrowed value is
/// and `Trie::map_with_default` writes it, and after one is written in any case, as
/// `Trie::get_or_insert` and `Entry::or_insert` have it.
///
/// # Examples
///
/// ```
/// # use nifazombi::{keyed_maps::keyed_maps_follow_values, radix_trie::{Trie, TrieError, TrieKey}};
/// # fn count<K: TrieKey>(counts: &mut Trie<K, u64>, word: K) -> Result<(), TrieError> {
/// keyed_maps_follow_values::<K, u64>();
/// *counts.entry(word)?.or_insert(0)? += 1;
/// Ok(())
/// # }
/// ```
///
/// `count` in `crates/trie_examples/src/tallies.rt` proves that it counts that word alone.
pub fn keyed_maps_follow_values<K: TrieKey, V>()
    ensures get_written_same { (m : PairMap K V) (k : K) (v w : V)
        → keyed_map K.encoding m k ≡ Some v
        → keyed_map K.encoding (with_value m (K.encoding k) w) k ≡ Some w }
    ensures get_written_other { (m : PairMap K V) (k j : K) (w : V) → K.is_value k → K.is_value j
        → K.eq k j ≡ false
        → keyed_map K.encoding (with_value m (K.encoding k) w) j ≡ keyed_map K.encoding m j }
    ensures written_none { (m : PairMap K V) (k : K) (w : V) → keyed_map K.encoding m k ≡ None
        → with_value m (K.encoding k) w ≡ m }
    ensures get_filled_same { (m : PairMap K V) (k : K) (w : V)
        → keyed_map K.encoding (with_value_or m (K.encoding k) k w) k ≡ Some w }
    ensures get_filled_other { (m : PairMap K V) (k j : K) (w : V) → K.is_value k → K.is_value j
        → K.eq k j ≡ false
        → keyed_map K.encoding (with_value_or m (K.encoding k) k w) j ≡ keyed_map K.encoding m j }
{}

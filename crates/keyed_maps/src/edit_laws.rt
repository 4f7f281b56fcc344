//! What the map by keys answers after a pair is stored or removed.
ghost use Rattle.std.specs.FinMap as map;
ghost use Rattle.std.specs.Prelude.{◌≡◌, None, Some, false, true};
ghost use Rattle.nibble_map.specs.Maps.{PairMap};
ghost use Rattle.keyed_maps.specs.KeyedMaps.{EncodesAlike, keyed_insert, keyed_map, keyed_remove};

use radix_trie::TrieKey;

/// The map by keys after an insertion or a removal: at the key what was stored, or none, and at
/// each key that doesn't equal it (`==`) what it was before.
///
/// # Examples
///
/// ```
/// # use nifazombi::{keyed_maps::keyed_maps_follow_edits, radix_trie::{Trie, TrieError, TrieKey}};
/// # fn f<K: TrieKey, V: Copy>(trie: &mut Trie<K, V>, from: &K, to: K) -> Result<bool, TrieError> {
/// keyed_maps_follow_edits::<K, V>();
/// let Some(value) = trie.get(from)?.copied() else {
///     return Ok(false);
/// };
/// let _ = trie.insert(to, value)?;
/// let _ = trie.remove(from)?;
/// Ok(true)
/// # }
/// ```
///
/// `move_value` in `crates/trie_examples/src/by_keys/edits.rt` proves that no other value changes.
pub fn keyed_maps_follow_edits<K: TrieKey, V>()
    ensures get_empty { (k : K) → keyed_map {V = V} K.encoding map.empty k ≡ None }
    ensures get_insert_same { (m : PairMap K V) (k : K) (v : V)
        → keyed_map K.encoding (map.insert m (K.encoding k) (k, v)) k ≡ Some v }
    ensures get_insert_other { (m : PairMap K V) (k j : K) (v : V) → K.is_value k → K.is_value j
        → K.eq k j ≡ false
        → keyed_map K.encoding (map.insert m (K.encoding k) (k, v)) j ≡ keyed_map K.encoding m j }
    ensures get_remove_same { (m : PairMap K V) (k : K)
        → keyed_map K.encoding (map.remove m (K.encoding k)) k ≡ None }
    ensures get_remove_other { (m : PairMap K V) (k j : K) → K.is_value k → K.is_value j
        → K.eq k j ≡ false
        → keyed_map K.encoding (map.remove m (K.encoding k)) j ≡ keyed_map K.encoding m j }
{}

/// The same in one equation each, for a type whose equal keys are encoded alike: the map by keys is
/// a function of keys up to `==`, and an insertion or a removal is that of functions.
pub fn equal_keys_have_one_value<K: TrieKey, V>()
    ensures equal { EncodesAlike K.encoding K.is_value K.eq
        → (m : PairMap K V) (k j : K) → K.is_value k → K.is_value j → K.eq k j ≡ true
        → keyed_map K.encoding m k ≡ keyed_map K.encoding m j }
    ensures inserted { EncodesAlike K.encoding K.is_value K.eq
        → (m : PairMap K V) (k j : K) (v : V) → K.is_value k → K.is_value j
        → keyed_map K.encoding (map.insert m (K.encoding k) (k, v)) j
        ≡ keyed_insert K.eq (keyed_map K.encoding m) k v j }
    ensures removed { EncodesAlike K.encoding K.is_value K.eq
        → (m : PairMap K V) (k j : K) → K.is_value k → K.is_value j
        → keyed_map K.encoding (map.remove m (K.encoding k)) j
        ≡ keyed_remove K.eq (keyed_map K.encoding m) k j }
{}

/// Two insertions or removals, one after the other: of one key the second alone counts, and of keys
/// that aren't equal the order makes no difference.
///
/// # Examples
///
/// ```
/// # use nifazombi::{keyed_maps::edits_by_key_compose, radix_trie::{Trie, TrieError, TrieKey}};
/// # fn f<K: TrieKey + Copy, V: Copy>(first: &mut Trie<K, V>, second: &mut Trie<K, V>, one: (K, V),
/// #     other: (K, V)) -> Result<(), TrieError> {
/// edits_by_key_compose::<K, V>();
/// let _ = first.insert(one.0, one.1)?;
/// let _ = first.insert(other.0, other.1)?;
/// let _ = second.insert(other.0, other.1)?;
/// let _ = second.insert(one.0, one.1)?;
/// Ok(())
/// # }
/// ```
///
/// `insert_in_either_order` in `crates/trie_examples/src/by_keys/edits.rt` proves that
/// equal tries stay equal where the keys differ.
pub fn edits_by_key_compose<K: TrieKey, V>()
    ensures insert_insert { (m : PairMap K V) (k : K) (v w : V)
        → map.insert (map.insert m (K.encoding k) (k, v)) (K.encoding k) (k, w)
        ≡ map.insert m (K.encoding k) (k, w) }
    ensures insert_remove { (m : PairMap K V) (k : K) (v : V)
        → map.insert (map.remove m (K.encoding k)) (K.encoding k) (k, v)
        ≡ map.insert m (K.encoding k) (k, v) }
    ensures remove_insert { (m : PairMap K V) (k : K) (v : V)
        → map.remove (map.insert m (K.encoding k) (k, v)) (K.encoding k)
        ≡ map.remove m (K.encoding k) }
    ensures inserts_commute { (m : PairMap K V) (k j : K) (v w : V) → K.is_value k → K.is_value j
        → K.eq k j ≡ false
        → map.insert (map.insert m (K.encoding k) (k, v)) (K.encoding j) (j, w)
        ≡ map.insert (map.insert m (K.encoding j) (j, w)) (K.encoding k) (k, v) }
    ensures removes_commute { (m : PairMap K V) (k j : K) → K.is_value k → K.is_value j
        → K.eq k j ≡ false
        → map.remove (map.remove m (K.encoding k)) (K.encoding j)
        ≡ map.remove (map.remove m (K.encoding j)) (K.encoding k) }
    ensures insert_remove_commute { (m : PairMap K V) (k j : K) (v : V) → K.is_value k
        → K.is_value j → K.eq k j ≡ false
        → map.remove (map.insert m (K.encoding k) (k, v)) (K.encoding j)
        ≡ map.insert (map.remove m (K.encoding j)) (K.encoding k) (k, v) }
{}

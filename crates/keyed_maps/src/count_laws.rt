//! How many keys there are, and which a walk gives.
ghost use Rattle.std.specs.FinMap as map;
ghost use Rattle.std.specs.Prelude.{[], ◌≡◌, ◌≢◌, ◌+◌, AllPairs, Contains, None, Some, false, map as each, true};
ghost use Rattle.nibble_map.specs.Maps.{PairMap};
ghost use Rattle.radix_trie.specs.Keys.{IsKeyed};
ghost use Rattle.radix_trie.specs.Views.{pairs_below};
ghost use Rattle.keyed_maps.specs.KeyedMaps.{EncodesAlike, keyed_map};

use radix_trie::TrieKey;

/// The count of pairs goes up by one where a key without a value is stored, down by one where a key
/// with one is removed, and else stays.
pub fn counts_follow_keys<K: TrieKey, V>()
    ensures len_insert_new { (m : PairMap K V) (k : K) (v : V) → keyed_map K.encoding m k ≡ None
        → map.len (map.insert m (K.encoding k) (k, v)) ≡ map.len m + 1 }
    ensures len_insert_stored { (m : PairMap K V) (k : K) (v w : V)
        → keyed_map K.encoding m k ≡ Some w
        → map.len (map.insert m (K.encoding k) (k, v)) ≡ map.len m }
    ensures len_remove_stored { (m : PairMap K V) (k : K) (w : V)
        → keyed_map K.encoding m k ≡ Some w
        → map.len (map.remove m (K.encoding k)) + 1 ≡ map.len m }
    ensures remove_none { (m : PairMap K V) (k : K) → keyed_map K.encoding m k ≡ None
        → map.remove m (K.encoding k) ≡ m }
{}

/// A walk gives the keys that have a value, each once: a key with one is equal to a key of the
/// walk, with that value; each key of the walk has the value that stands beside it; and no two have
/// one encoding, so none equals another where equal keys are encoded alike.
pub fn walks_give_each_key<K: TrieKey, V>()
    ensures given { (m : PairMap K V) → IsKeyed K.encoding K.is_value m
        → (k : K) (v : V) → K.is_value k → keyed_map K.encoding m k ≡ Some v
        → (j : K) × (K.eq j k ≡ true) × Contains (pairs_below m []) (j, v) }
    ensures has_value { (m : PairMap K V) → IsKeyed K.encoding K.is_value m
        → (p : K × V) → Contains (pairs_below m []) p
        → keyed_map K.encoding m p.0 ≡ Some p.1 }
    ensures apart { (m : PairMap K V) → IsKeyed K.encoding K.is_value m
        → AllPairs (λ x y. K.encoding x ≢ K.encoding y) (each (λ p. p.0) (pairs_below m [])) }
    ensures no_duplicates { EncodesAlike K.encoding K.is_value K.eq
        → (m : PairMap K V) → IsKeyed K.encoding K.is_value m
        → AllPairs (λ x y. K.eq x y ≡ false) (each (λ p. p.0) (pairs_below m [])) }
{}

//! Which keys the walks over a part of a map give: below a key, at prefixes, within a range, and
//! page by page.
ghost use Rattle.std.specs.FinMap as map;
ghost use Rattle.std.specs.Prelude.{[], ◌≡◌, ◌≤◌, ℕ, Contains, List, Some, length, take, true};
ghost use Rattle.std.specs.declared.ops.Bound.{Bound};
ghost use Rattle.nibble_map.specs.Lists.{IsBefore, IsPrefix};
ghost use Rattle.nibble_map.specs.Maps.{PairMap, below};
ghost use Rattle.radix_trie.specs.Keys.{IsKeyed};
ghost use Rattle.radix_trie.specs.Views.{is_within, pairs_above, pairs_after, pairs_below, pairs_within};
ghost use Rattle.keyed_maps.specs.KeyedMaps.{keyed_map};

use radix_trie::TrieKey;

/// The walk over what is at and below a list, as `Trie::first_below` and a view have it, gives each
/// key with a value whose encoding begins with the list, and no other key; there are as many as
/// `Trie::count_below` counts.
pub fn keys_below_are_given<K: TrieKey, V>()
    ensures given { (m : PairMap K V) → IsKeyed K.encoding K.is_value m → (e : List ℕ)
        → (k : K) (v : V) → K.is_value k → keyed_map K.encoding m k ≡ Some v
        → IsPrefix e (K.encoding k)
        → (j : K) × (K.eq j k ≡ true) × Contains (pairs_below m e) (j, v) }
    ensures begins { (m : PairMap K V) → IsKeyed K.encoding K.is_value m → (e : List ℕ)
        → (p : K × V) → Contains (pairs_below m e) p → IsPrefix e (K.encoding p.0) }
    ensures has_value { (m : PairMap K V) → IsKeyed K.encoding K.is_value m → (e : List ℕ)
        → (p : K × V) → Contains (pairs_below m e) p → keyed_map K.encoding m p.0 ≡ Some p.1 }
    ensures count { (m : PairMap K V) (e : List ℕ)
        → map.len (below m e) ≡ length (pairs_below m e) }
{}

/// The walk of `Trie::common_prefixes` gives each key with a value whose encoding is a prefix of
/// the list, and no other key.
pub fn prefixes_are_given<K: TrieKey, V>()
    ensures given { (m : PairMap K V) → IsKeyed K.encoding K.is_value m → (e : List ℕ)
        → (k : K) (v : V) → K.is_value k → keyed_map K.encoding m k ≡ Some v
        → IsPrefix (K.encoding k) e
        → (j : K) × (K.eq j k ≡ true) × Contains (pairs_above m e) (j, v) }
    ensures begins { (m : PairMap K V) → IsKeyed K.encoding K.is_value m → (e : List ℕ)
        → (p : K × V) → Contains (pairs_above m e) p → IsPrefix (K.encoding p.0) e }
    ensures has_value { (m : PairMap K V) → IsKeyed K.encoding K.is_value m → (e : List ℕ)
        → (p : K × V) → Contains (pairs_above m e) p → keyed_map K.encoding m p.0 ≡ Some p.1 }
{}

/// A range gives each key with a value whose encoding is within its bounds, and no other key.
/// `keys_of_ranges_rise` says it by an order of the keys.
pub fn keys_within_are_given<K: TrieKey, V>()
    ensures given { (m : PairMap K V) → IsKeyed K.encoding K.is_value m
        → (low high : Bound (List ℕ)) (k : K) (v : V) → K.is_value k
        → keyed_map K.encoding m k ≡ Some v → is_within low high (K.encoding k) ≡ true
        → (j : K) × (K.eq j k ≡ true) × Contains (pairs_within m [] low high) (j, v) }
    ensures within { (m : PairMap K V) → IsKeyed K.encoding K.is_value m
        → (low high : Bound (List ℕ)) (p : K × V) → Contains (pairs_within m [] low high) p
        → is_within low high (K.encoding p.0) ≡ true }
    ensures has_value { (m : PairMap K V) → IsKeyed K.encoding K.is_value m
        → (low high : Bound (List ℕ)) (p : K × V) → Contains (pairs_within m [] low high) p
        → keyed_map K.encoding m p.0 ≡ Some p.1 }
{}

/// A page of `Trie::first_after` gives keys with a value alone, whose encodings begin with the list
/// and come after the last one; where there are no more of these than it may have, it gives each of
/// them.
pub fn keys_of_pages_are_given<K: TrieKey, V>()
    ensures given { (m : PairMap K V) → IsKeyed K.encoding K.is_value m → (e last : List ℕ)
        → (most : ℕ) → length (pairs_after m e last) ≤ most
        → (k : K) (v : V) → K.is_value k → keyed_map K.encoding m k ≡ Some v
        → IsPrefix e (K.encoding k) → IsBefore last (K.encoding k)
        → (j : K) × (K.eq j k ≡ true) × Contains (take most (pairs_after m e last)) (j, v) }
    ensures begins { (m : PairMap K V) → IsKeyed K.encoding K.is_value m → (e last : List ℕ)
        → (most : ℕ) (p : K × V) → Contains (take most (pairs_after m e last)) p
        → IsPrefix e (K.encoding p.0) }
    ensures after { (m : PairMap K V) → IsKeyed K.encoding K.is_value m → (e last : List ℕ)
        → (most : ℕ) (p : K × V) → Contains (take most (pairs_after m e last)) p
        → IsBefore last (K.encoding p.0) }
    ensures has_value { (m : PairMap K V) → IsKeyed K.encoding K.is_value m → (e last : List ℕ)
        → (most : ℕ) (p : K × V) → Contains (take most (pairs_after m e last)) p
        → keyed_map K.encoding m p.0 ≡ Some p.1 }
{}

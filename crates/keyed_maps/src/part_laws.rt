//! What the map by keys answers after many pairs are stored or removed at once.
ghost use Rattle.std.specs.Option.{option_or};
ghost use Rattle.std.specs.Prelude.{[], ◌≡◌, ◌++◌, ◌∷◌, ℕ, All, List, None, Some, false};
ghost use Rattle.nibble_map.specs.Lists.{IsPrefix};
ghost use Rattle.nibble_map.specs.Maps.{PairMap, below, without_below};
ghost use Rattle.radix_trie.specs.Building.{with_pairs};
ghost use Rattle.radix_trie.specs.Views.{pairs_below};
ghost use Rattle.keyed_maps.specs.KeyedMaps.{keyed_map};

use radix_trie::{Trie, TrieKey, keys_stand_at_their_encodings};

/// The map by keys of the part that `Trie::split_off_prefix` splits off, and of the rest: each key
/// is in one of them, with its value.
pub fn keyed_maps_follow_parts<K: TrieKey, V>()
    ensures get_below_inside { (m : PairMap K V) (e : List ℕ) (k : K) → IsPrefix e (K.encoding k)
        → keyed_map K.encoding (below m e) k ≡ keyed_map K.encoding m k }
    ensures get_below_outside { (m : PairMap K V) (e : List ℕ) (k : K)
        → (IsPrefix e (K.encoding k) → ⊥)
        → keyed_map K.encoding (below m e) k ≡ None }
    ensures get_rest_inside { (m : PairMap K V) (e : List ℕ) (k : K) → IsPrefix e (K.encoding k)
        → keyed_map K.encoding (without_below m e) k ≡ None }
    ensures get_rest_outside { (m : PairMap K V) (e : List ℕ) (k : K)
        → (IsPrefix e (K.encoding k) → ⊥)
        → keyed_map K.encoding (without_below m e) k ≡ keyed_map K.encoding m k }
{}

/// The map by keys after the pairs of a trie are stored, as `Trie::graft` and `Trie::merge` do: its
/// value where it has one. And after pairs are stored one by one, as `Trie::extend` does: at a key
/// the value of the last pair with it, and at a key that equals none of theirs what it was before.
pub fn keyed_maps_follow_tries<K: TrieKey, V>(part: &Trie<K, V>)
    ensures get_merged { (m : PairMap K V) (k : K)
        → keyed_map K.encoding (with_pairs K.encoding m (pairs_below part.now [])) k
        ≡ option_or (keyed_map K.encoding part.now k) (keyed_map K.encoding m k) }
    ensures get_extended_last { (m : PairMap K V) (before after : List (K × V)) (k : K) (v : V)
        → K.is_value k → All (λ p. K.is_value p.0 × (K.eq p.0 k ≡ false)) after
        → keyed_map K.encoding (with_pairs K.encoding m (before ++ (k, v) ∷ after)) k ≡ Some v }
    ensures get_extended_other { (m : PairMap K V) (ps : List (K × V)) (k : K) → K.is_value k
        → All (λ p. K.is_value p.0 × (K.eq p.0 k ≡ false)) ps
        → keyed_map K.encoding (with_pairs K.encoding m ps) k ≡ keyed_map K.encoding m k }
{
    keys_stand_at_their_encodings(part);
}

/// The pairs of two tries stored into a map, one trie after the other: it is as if those of the
/// second were stored into the first before. If no key has a value in both tries, either may be
/// stored into the other. What is stored twice is stored once.
pub fn merges_by_key_compose<K: TrieKey, V>(one: &Trie<K, V>, other: &Trie<K, V>)
    ensures commute { ((k : K) (v w : V) → keyed_map K.encoding one.now k ≡ Some v
        → keyed_map K.encoding other.now k ≡ Some w → ⊥)
        → with_pairs K.encoding one.now (pairs_below other.now [])
        ≡ with_pairs K.encoding other.now (pairs_below one.now []) }
    ensures associate { (m : PairMap K V)
        → with_pairs K.encoding (with_pairs K.encoding m (pairs_below one.now []))
        (pairs_below other.now [])
        ≡ with_pairs K.encoding m
        (pairs_below (with_pairs K.encoding one.now (pairs_below other.now [])) []) }
    ensures merge_merge { (m : PairMap K V)
        → with_pairs K.encoding (with_pairs K.encoding m (pairs_below one.now []))
        (pairs_below one.now [])
        ≡ with_pairs K.encoding m (pairs_below one.now []) }
{
    keys_stand_at_their_encodings(one);
    keys_stand_at_their_encodings(other);
}

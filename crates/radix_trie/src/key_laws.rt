//! What makes a map by encodings a map by keys.
ghost use Rattle.std.specs.FinMap as map;
ghost use Rattle.std.specs.Cmp.Lexicographic.{slice_cmp};
ghost use Rattle.std.specs.Int.{Width, byte_len};
ghost use Rattle.std.specs.Ordering.{int_cmp, nat_cmp};
ghost use Rattle.std.specs.declared.cmp.Ordering.{Ordering};
ghost use Rattle.std.specs.declared.cmp.Ordering.TheVariants.{Less};
ghost use Rattle.std.specs.declared.ops.Bound.{Bound};
ghost use Rattle.std.specs.Prelude.{◌≡◌, ◌↔◌, ◌⊎◌, ◌<◌, ◌+◌, ◌^◌, ◌++◌, ℕ, All, AllPairs, Contains, List, [], Some, map as each, slice_get, take, true};
ghost use Rattle.nibble_map.specs.Lists.{Each, IsBefore, IsPrefix, IsRising};
ghost use Rattle.nibble_map.specs.Maps.{PairMap, below, with_value, without_below};
ghost use Rattle.nibble_map.specs.Nibbles.{nibbles};
ghost use Rattle.radix_keys.specs.AscendingKeys.{turned_bytes};
ghost use Rattle.radix_keys.specs.Integers.{unsigned_key};
ghost use Rattle.radix_keys.specs.Parts.{AreParts, part_bytes};
ghost use Rattle.radix_trie.specs.Building.{with_pairs};
ghost use Rattle.radix_trie.specs.Keys.{IsAboveBound, IsBelowBound, IsBoundValue, IsKeptOrder, IsKeyed};
ghost use Rattle.radix_trie.specs.Refusals.{RefusesGraft};
ghost use Rattle.radix_trie.specs.Views.{encoded_bound, pairs_above, pairs_after, pairs_below, pairs_from, pairs_within, with_value_or};

use crate::error::GraftWhy;
use crate::trie::Trie;
use radix_keys::{KeySigned, TrieKey};

/// The key that is stored at a key's encoding equals it (`==`), in each map in which every stored
/// key is a value of its type and stands at its encoding. The empty map is one, and pairs that are
/// inserted, one removed, a value written, and all below a path removed keep it so; what is below a
/// path is one too, and so is the map that a value written at a key's encoding leaves, with the key
/// where none was stored there, as `Trie::get_or_insert` and `Entry::or_insert` have it.
///
/// `Trie::insert` and `Trie::get` tell that a key is a value of its type, so a caller of theirs
/// knows it of its trie.
pub fn stored_keys_are_equal<K: TrieKey, V>()
    ensures equal { (m : PairMap K V) (k : K) (p : K × V) → IsKeyed K.encoding K.is_value m
        → K.is_value k → map.get m (K.encoding k) ≡ Some p → K.eq p.0 k ≡ true }
    ensures empty { (m : PairMap K V) → m ≡ map.empty → IsKeyed K.encoding K.is_value m }
    ensures inserted { (m : PairMap K V) (k : K) (v : V) → IsKeyed K.encoding K.is_value m
        → K.is_value k → IsKeyed K.encoding K.is_value (map.insert m (K.encoding k) (k, v)) }
    ensures removed { (m : PairMap K V) (e : List ℕ) → IsKeyed K.encoding K.is_value m
        → IsKeyed K.encoding K.is_value (map.remove m e) }
    ensures written { (m : PairMap K V) (e : List ℕ) (v : V) → IsKeyed K.encoding K.is_value m
        → IsKeyed K.encoding K.is_value (with_value m e v) }
    ensures written_or { (m : PairMap K V) (k : K) (v : V) → IsKeyed K.encoding K.is_value m
        → K.is_value k
        → IsKeyed K.encoding K.is_value (with_value_or m (K.encoding k) k v) }
    ensures part { (m : PairMap K V) (e : List ℕ) → IsKeyed K.encoding K.is_value m
        → IsKeyed K.encoding K.is_value (below m e) }
    ensures rest { (m : PairMap K V) (e : List ℕ) → IsKeyed K.encoding K.is_value m
        → IsKeyed K.encoding K.is_value (without_below m e) }
    ensures extended { (m : PairMap K V) (ps : List (K × V)) → IsKeyed K.encoding K.is_value m
        → All (λ p. K.is_value p.0) ps
        → IsKeyed K.encoding K.is_value (with_pairs K.encoding m ps) }
{}

/// What was split off goes back: the map without all below a list, with the pairs of the part that
/// is below it stored one by one, as `Trie::graft` stores them, is the trie's map. `Trie::graft`
/// can then fail only for memory, and never where the rest has no pair.
pub fn split_part_goes_back<K: TrieKey, V>(trie: &Trie<K, V>)
    ensures same { (e : List ℕ) → with_pairs K.encoding (without_below trie.now e)
        (pairs_below (below trie.now e) []) ≡ trie.now }
    ensures why { (e : List ℕ) (why : GraftWhy)
        → RefusesGraft (without_below trie.now e) (below trie.now e) why
        → (map.len (without_below trie.now e) ≡ 0) ⊎ (why ≡ GraftWhy.Memory) }
{
    let _ = trie.root();
    let _count = trie.len();
}

/// In each trie a key stands at its encoding. So the keys at and below a list have encodings that
/// begin with it, and in the order of a walk these rise; so have those of a page, the first pairs
/// of a walk. Of a type all of whose keys are values, as texts are, no more is needed for
/// `stored_keys_are_equal`.
pub fn keys_stand_at_their_encodings<K: TrieKey, V>(trie: &Trie<K, V>)
    ensures stored { (e : List ℕ) (p : K × V) → map.get trie.now e ≡ Some p
        → e ≡ K.encoding p.0 }
    ensures below { (e : List ℕ) → Each (λ key. IsPrefix e (K.encoding key))
        (each (λ p. p.0) (pairs_below trie.now e)) }
    ensures rising { (e : List ℕ)
        → IsRising (each (λ p. K.encoding p.0) (pairs_below trie.now e)) }
    ensures page { (e : List ℕ) (n : ℕ) → Each (λ key. IsPrefix e (K.encoding key))
        (each (λ p. p.0) (take n (pairs_below trie.now e))) }
    ensures keyed { ((key : K) → K.is_value key) → IsKeyed K.encoding K.is_value trie.now }
{
    let _ = trie.root();
}

/// Of a trie's walks, each holds the pairs that it is asked for, and misses none: those whose keys'
/// encodings begin with a list; are a prefix of it; and of the first those that are another list or
/// come after it. In each the encodings rise.
pub fn walks_miss_no_key<K: TrieKey, V>(trie: &Trie<K, V>)
    ensures below { (e : List ℕ) (p : K × V) → Contains (pairs_below trie.now e) p
        ↔ (IsPrefix e (K.encoding p.0) × (map.get trie.now (K.encoding p.0) ≡ Some p)) }
    ensures above { (e : List ℕ) (p : K × V) → Contains (pairs_above trie.now e) p
        ↔ (IsPrefix (K.encoding p.0) e × (map.get trie.now (K.encoding p.0) ≡ Some p)) }
    ensures from { (e q : List ℕ) (p : K × V) → Contains (pairs_from trie.now e q) p
        ↔ (Contains (pairs_below trie.now e) p
        × ((K.encoding p.0 ≡ q) ⊎ IsBefore q (K.encoding p.0))) }
    ensures after { (e q : List ℕ) (p : K × V) → Contains (pairs_after trie.now e q) p
        ↔ (Contains (pairs_below trie.now e) p × IsBefore q (K.encoding p.0)) }
    ensures rising_above { (e : List ℕ)
        → IsRising (each (λ p. K.encoding p.0) (pairs_above trie.now e)) }
    ensures rising_from { (e q : List ℕ)
        → IsRising (each (λ p. K.encoding p.0) (pairs_from trie.now e q)) }
    ensures rising_after { (e q : List ℕ)
        → IsRising (each (λ p. K.encoding p.0) (pairs_after trie.now e q)) }
{
    let _ = trie.root();
}

/// A page, and the walk after its last key, are the whole walk: between two pages no pair is
/// missed, and none comes twice.
pub fn pages_follow_one_another<K: TrieKey, V>(trie: &Trie<K, V>)
    ensures { (e : List ℕ) (n : ℕ) (p : K × V) → slice_get (pairs_below trie.now e) n ≡ Some p
        → take (n + 1) (pairs_below trie.now e) ++ pairs_after trie.now e (K.encoding p.0)
        ≡ pairs_below trie.now e }
{
    let _ = trie.root();
}

/// The keys of a walk, and of a page, rise in each order that their encodings keep, in each map in
/// which every stored key is a value of its type and stands at its encoding.
/// `numbers_keep_their_order`, `signed_numbers_keep_their_order`, `texts_keep_their_order` and
/// `parts_keep_their_order` name such orders.
pub fn keys_of_walks_rise<K: TrieKey, V>()
    ensures below { (cmp : K → K → Ordering) → IsKeptOrder K.encoding K.is_value cmp
        → (m : PairMap K V) → IsKeyed K.encoding K.is_value m → (e : List ℕ)
        → AllPairs (λ x y. cmp x y ≡ Less) (each (λ p. p.0) (pairs_below m e)) }
    ensures above { (cmp : K → K → Ordering) → IsKeptOrder K.encoding K.is_value cmp
        → (m : PairMap K V) → IsKeyed K.encoding K.is_value m → (e : List ℕ)
        → AllPairs (λ x y. cmp x y ≡ Less) (each (λ p. p.0) (pairs_above m e)) }
    ensures from { (cmp : K → K → Ordering) → IsKeptOrder K.encoding K.is_value cmp
        → (m : PairMap K V) → IsKeyed K.encoding K.is_value m → (e q : List ℕ)
        → AllPairs (λ x y. cmp x y ≡ Less) (each (λ p. p.0) (pairs_from m e q)) }
    ensures after { (cmp : K → K → Ordering) → IsKeptOrder K.encoding K.is_value cmp
        → (m : PairMap K V) → IsKeyed K.encoding K.is_value m → (e q : List ℕ)
        → AllPairs (λ x y. cmp x y ≡ Less) (each (λ p. p.0) (pairs_after m e q)) }
    ensures page { (cmp : K → K → Ordering) → IsKeptOrder K.encoding K.is_value cmp
        → (m : PairMap K V) → IsKeyed K.encoding K.is_value m → (e : List ℕ) (n : ℕ)
        → AllPairs (λ x y. cmp x y ≡ Less) (each (λ p. p.0) (take n (pairs_below m e))) }
{}

/// The pairs of a range are those at and below the path whose keys lie within its bounds in each
/// order that the encodings keep, and the keys rise in it, in each map in which every stored key is
/// a value of its type and stands at its encoding.
pub fn keys_of_ranges_rise<K: TrieKey, V>()
    ensures within { (cmp : K → K → Ordering) → IsKeptOrder K.encoding K.is_value cmp
        → (m : PairMap K V) → IsKeyed K.encoding K.is_value m → (e : List ℕ)
        → (low high : Bound K) → IsBoundValue K.is_value low → IsBoundValue K.is_value high
        → (p : K × V) → Contains (pairs_within m e (encoded_bound K.encoding low)
        (encoded_bound K.encoding high)) p
        ↔ (Contains (pairs_below m e) p × IsAboveBound cmp low p.0 × IsBelowBound cmp high p.0) }
    ensures rising { (cmp : K → K → Ordering) → IsKeptOrder K.encoding K.is_value cmp
        → (m : PairMap K V) → IsKeyed K.encoding K.is_value m → (e : List ℕ)
        → (low high : Bound (List ℕ))
        → AllPairs (λ x y. cmp x y ≡ Less) (each (λ p. p.0) (pairs_within m e low high)) }
{}

/// Unsigned numbers and characters compare as their encodings do.
pub fn numbers_keep_their_order()
    ensures { (w : Width) → IsKeptOrder (unsigned_key w) (λ n. n < 256 ^ byte_len w) nat_cmp }
{}

/// Signed numbers in the wrapper `Ascending` compare as their encodings do.
pub fn signed_numbers_keep_their_order<T: KeySigned>()
    ensures { IsKeptOrder (λ (x : T). nibbles (turned_bytes (T.KeyInt.bytes x)))
        T.KeyInt.is_value (λ x y. int_cmp (T.number x) (T.number y)) }
{}

/// Keys whose encodings are the nibbles of their bytes, as texts, compare as their bytes do.
pub fn texts_keep_their_order<K>()
    ensures { (bytes_of : K → List ℕ) → IsKeptOrder (λ key. nibbles (bytes_of key))
        (λ _. Unit {0}) (λ x y. slice_cmp nat_cmp (bytes_of x) (bytes_of y)) }
{}

/// Lists of parts compare as their encodings do: part by part.
pub fn parts_keep_their_order()
    ensures { IsKeptOrder (λ parts. nibbles (part_bytes parts)) AreParts
        (slice_cmp (slice_cmp nat_cmp)) }
{}

/// Where the encoding of a key is the nibbles of its bytes, as that of a text is, the keys whose
/// encodings begin with the nibbles of some bytes begin with these bytes.
pub fn encodings_keep_prefixes<K: TrieKey>()
    ensures { (bytes_of : K → List ℕ) → ((key : K) → K.encoding key ≡ nibbles (bytes_of key))
        → (start : List ℕ) (keys : List K)
        → Each (λ key. IsPrefix (nibbles start) (K.encoding key)) keys
        → Each (λ key. IsPrefix start (bytes_of key)) keys }
{}

//! What the map by keys answers after a closure went over all pairs, and of a clone.
ghost use Rattle.std.specs.Prelude.{◌≡◌, ◌⊎◌, None, Some, false, option_map, true};
ghost use Rattle.nibble_map.specs.Copies.{IsMapCopy, IsPairClone};
ghost use Rattle.nibble_map.specs.Maps.{PairMap};
ghost use Rattle.radix_trie.specs.Keys.{IsKeyed};
ghost use Rattle.radix_trie.specs.Retains.{Retains, RetainsAtLeast, ReturnsAtPair};
ghost use Rattle.radix_trie.specs.Values.{ChangesEachPair, LeavesAtPair};
ghost use Rattle.keyed_maps.specs.KeyedMaps.{AlwaysLeaves, keyed_map, stored_key};

use radix_trie::TrieKey;

/// The map by keys after `Trie::retain`, also where it failed: a value stays where the closure
/// can't return false of it, and no other comes. Where it didn't fail, a value goes where the
/// closure can't return true of it. The last two say the same where that depends on the stored key,
/// which equals the key.
pub fn keyed_maps_follow_retain<K: TrieKey, V, F: Fn(&K, &V) -> bool>(keep: &F)
    ensures get_kept { (m n : PairMap K V) → RetainsAtLeast (ReturnsAtPair F.Fn keep.now) m n
        → (k : K) (v : V) → keyed_map K.encoding m k ≡ Some v
        → ((j : K) → ReturnsAtPair F.Fn keep.now (j, v) false → ⊥)
        → keyed_map K.encoding n k ≡ Some v }
    ensures get_dropped { (m n : PairMap K V) → Retains (ReturnsAtPair F.Fn keep.now) m n
        → (k : K) (v : V) → keyed_map K.encoding m k ≡ Some v
        → ((j : K) → ReturnsAtPair F.Fn keep.now (j, v) true → ⊥)
        → keyed_map K.encoding n k ≡ None }
    ensures get_at_least { (m n : PairMap K V) → RetainsAtLeast (ReturnsAtPair F.Fn keep.now) m n
        → (k : K) → (keyed_map K.encoding n k ≡ keyed_map K.encoding m k)
        ⊎ (keyed_map K.encoding n k ≡ None) }
    ensures kept_by_key { (m n : PairMap K V) → RetainsAtLeast (ReturnsAtPair F.Fn keep.now) m n
        → IsKeyed K.encoding K.is_value m
        → (k : K) (v : V) → K.is_value k → keyed_map K.encoding m k ≡ Some v
        → ((j : K) → K.eq j k ≡ true → ReturnsAtPair F.Fn keep.now (j, v) false → ⊥)
        → keyed_map K.encoding n k ≡ Some v }
    ensures dropped_by_key { (m n : PairMap K V) → Retains (ReturnsAtPair F.Fn keep.now) m n
        → IsKeyed K.encoding K.is_value m
        → (k : K) (v : V) → K.is_value k → keyed_map K.encoding m k ≡ Some v
        → ((j : K) → K.eq j k ≡ true → ReturnsAtPair F.Fn keep.now (j, v) true → ⊥)
        → keyed_map K.encoding n k ≡ None }
{}

/// The map by keys after `Trie::for_each_mut`: each value is one that the closure may leave of the
/// old one, called with the stored key, which equals the key; where it always leaves what a
/// function makes of the value, it is that (`get_mapped`). The stored keys stay, and no other value
/// comes.
pub fn keyed_maps_follow_changes<K: TrieKey, V, F: Fn(&K, &mut V)>(f: &F)
    ensures get_changed { (m n : PairMap K V) → ChangesEachPair (LeavesAtPair F.Fn f.now) m n
        → (k : K) (v : V) → keyed_map K.encoding m k ≡ Some v
        → (j : K) × (w : V) × LeavesAtPair F.Fn f.now (j, v) w
        × (keyed_map K.encoding n k ≡ Some w)
        × (IsKeyed K.encoding K.is_value m → K.is_value k → K.eq j k ≡ true) }
    ensures get_changed_to { (m n : PairMap K V) → ChangesEachPair (LeavesAtPair F.Fn f.now) m n
        → (k : K) (v u : V) → keyed_map K.encoding m k ≡ Some v
        → AlwaysLeaves F.Fn f.now v u → keyed_map K.encoding n k ≡ Some u }
    ensures get_mapped { (m n : PairMap K V) → ChangesEachPair (LeavesAtPair F.Fn f.now) m n
        → (g : V → V) → ((v : V) → AlwaysLeaves F.Fn f.now v (g v))
        → (k : K) → keyed_map K.encoding n k ≡ option_map g (keyed_map K.encoding m k) }
    ensures keys_stay { (m n : PairMap K V) → ChangesEachPair (LeavesAtPair F.Fn f.now) m n
        → (k : K) → stored_key K.encoding n k ≡ stored_key K.encoding m k }
    ensures changed_none { (m n : PairMap K V) → ChangesEachPair (LeavesAtPair F.Fn f.now) m n
        → (k : K) → keyed_map K.encoding m k ≡ None → keyed_map K.encoding n k ≡ None }
{}

/// The map by keys of a `Trie::clone`: each value is a clone, and no other comes. Where a clone of
/// a value is the value, as a number's is, it is the same map.
pub fn keyed_maps_follow_clones<K: TrieKey + Clone, V: Clone>()
    ensures get_cloned { (m n : PairMap K V) → IsMapCopy (IsPairClone K.is_clone V.is_clone) m n
        → (k : K) (v : V) → keyed_map K.encoding m k ≡ Some v
        → (w : V) × V.is_clone v w × (keyed_map K.encoding n k ≡ Some w) }
    ensures get_same { ((v w : V) → V.is_clone v w → w ≡ v) → (m n : PairMap K V)
        → IsMapCopy (IsPairClone K.is_clone V.is_clone) m n
        → (k : K) → keyed_map K.encoding n k ≡ keyed_map K.encoding m k }
    ensures cloned_none { (m n : PairMap K V) → IsMapCopy (IsPairClone K.is_clone V.is_clone) m n
        → (k : K) → keyed_map K.encoding m k ≡ None → keyed_map K.encoding n k ≡ None }
{}

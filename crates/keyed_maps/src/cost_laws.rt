//! How many nodes and nibbles an edit makes or takes away, as `footprint` counts them.
ghost use Rattle.std.specs.FinMap as map;
ghost use Rattle.std.specs.Prelude.{◌+◌, ◌≤◌, length, ℕ};
ghost use Rattle.nibble_map.specs.Lists.{Counts};
ghost use Rattle.nibble_map.specs.Maps.{IsPoint, IsSomePrefix, PairMap};

use radix_trie::TrieKey;

/// An insertion takes no node away and makes at most two: the key's own, and one where its encoding
/// parts from that of a stored key. A removal makes no node and takes at most two away.
pub fn edits_make_few_nodes<K: TrieKey, V>()
    ensures insert_takes_none { (m : PairMap K V) (k : K) (v : V) (n o : ℕ)
        → Counts (IsPoint m) n → Counts (IsPoint (map.insert m (K.encoding k) (k, v))) o
        → n ≤ o }
    ensures insert_makes_two { (m : PairMap K V) (k : K) (v : V) (n o : ℕ)
        → Counts (IsPoint m) n → Counts (IsPoint (map.insert m (K.encoding k) (k, v))) o
        → o ≤ n + 2 }
    ensures remove_makes_none { (m : PairMap K V) (k : K) (n o : ℕ)
        → Counts (IsPoint m) n → Counts (IsPoint (map.remove m (K.encoding k))) o → o ≤ n }
    ensures remove_takes_two { (m : PairMap K V) (k : K) (n o : ℕ)
        → Counts (IsPoint m) n → Counts (IsPoint (map.remove m (K.encoding k))) o → n ≤ o + 2 }
{}

/// An insertion takes no nibble of the fragments away and makes at most as many as the key's
/// encoding has. A removal makes none and takes at most so many away.
pub fn edits_make_few_nibbles<K: TrieKey, V>()
    ensures insert_takes_none { (m : PairMap K V) (k : K) (v : V) (n o : ℕ)
        → Counts (IsSomePrefix m) n
        → Counts (IsSomePrefix (map.insert m (K.encoding k) (k, v))) o → n ≤ o }
    ensures insert_makes_few { (m : PairMap K V) (k : K) (v : V) (n o : ℕ)
        → Counts (IsSomePrefix m) n
        → Counts (IsSomePrefix (map.insert m (K.encoding k) (k, v))) o
        → o ≤ n + length (K.encoding k) }
    ensures remove_makes_none { (m : PairMap K V) (k : K) (n o : ℕ)
        → Counts (IsSomePrefix m) n
        → Counts (IsSomePrefix (map.remove m (K.encoding k))) o → o ≤ n }
    ensures remove_takes_few { (m : PairMap K V) (k : K) (n o : ℕ)
        → Counts (IsSomePrefix m) n
        → Counts (IsSomePrefix (map.remove m (K.encoding k))) o
        → n ≤ o + length (K.encoding k) }
{}

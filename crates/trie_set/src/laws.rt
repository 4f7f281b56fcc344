//! What two sets hold together.
ghost use Rattle.std.specs.FinMap as map;
ghost use Rattle.std.specs.Option.{option_or};
ghost use Rattle.std.specs.Prelude.{◌≡◌, ◌+◌, ◌⊎◌, ◌↔◌, ℕ, List, None, Some, map as each};
ghost use Rattle.nibble_map.specs.Lists.{Has, IsRising};
ghost use Rattle.nibble_map.specs.Maps.{IsStored, NibbleMap, PairMap, value_at};
ghost use Rattle.radix_trie.specs.Sets.{combined, common, joined, lacking};
ghost use Rattle.trie_set.specs.Sets.{key_at, keys_in};

use crate::set::TrieSet;
use radix_trie::iter::Operation;
use radix_trie::{TrieKey, keys_stand_at_their_encodings};

/// What is stored in the parts and in the union that walks go over, and by which key.
pub fn sets_answer_by_both<P>()
    ensures common { (m n : NibbleMap P) (e : List ℕ)
        → IsStored (common m n) e ↔ (IsStored m e × IsStored n e) }
    ensures common_key { (m n : NibbleMap P) (e : List ℕ) → IsStored n e
        → map.get (common m n) e ≡ map.get m e }
    ensures lacking { (m n : NibbleMap P) (e : List ℕ)
        → IsStored (lacking m n) e ↔ (IsStored m e × (IsStored n e → ⊥)) }
    ensures joined { (m n : NibbleMap P) (e : List ℕ)
        → IsStored (joined m n) e ↔ (IsStored m e ⊎ IsStored n e) }
    ensures joined_key { (m n : NibbleMap P) (e : List ℕ) → IsStored m e
        → map.get (joined m n) e ≡ map.get m e }
    ensures other_key { (m n : NibbleMap P) (e : List ℕ) → (IsStored m e → ⊥)
        → map.get (joined m n) e ≡ map.get n e }
{}

/// The value at a list, as a key's encoding is, of what a `Combination` walks over: of a union the
/// first map's, or else the second's; of an intersection the first map's where the second stores
/// the list too; of a difference the first map's where the second doesn't; of a symmetric
/// difference that of the one map that stores it.
pub fn combinations_have_values<K, V>()
    ensures union { (m n : PairMap K V) (e : List ℕ) → value_at (combined Operation.Union m n) e
        ≡ option_or (value_at m e) (value_at n e) }
    ensures intersection { (m n : PairMap K V) (e : List ℕ) → IsStored n e
        → value_at (combined Operation.Intersection m n) e ≡ value_at m e }
    ensures intersection_none { (m n : PairMap K V) (e : List ℕ) → value_at n e ≡ None
        → value_at (combined Operation.Intersection m n) e ≡ None }
    ensures difference { (m n : PairMap K V) (e : List ℕ) → value_at n e ≡ None
        → value_at (combined Operation.Difference m n) e ≡ value_at m e }
    ensures difference_none { (m n : PairMap K V) (e : List ℕ) → IsStored n e
        → value_at (combined Operation.Difference m n) e ≡ None }
    ensures first_alone { (m n : PairMap K V) (e : List ℕ) → value_at n e ≡ None
        → value_at (combined Operation.SymmetricDifference m n) e ≡ value_at m e }
    ensures second_alone { (m n : PairMap K V) (e : List ℕ) → value_at m e ≡ None
        → value_at (combined Operation.SymmetricDifference m n) e ≡ value_at n e }
    ensures neither { (m n : PairMap K V) (e : List ℕ) → IsStored m e → IsStored n e
        → value_at (combined Operation.SymmetricDifference m n) e ≡ None }
{}

/// The algebra of sets. Where two sets hold keys with one encoding, the first one's stand in what
/// both have in common, and in what they have together.
pub fn sets_have_an_algebra<P>()
    ensures counts { (m n : NibbleMap P)
        → map.len (joined m n) + map.len (common m n) ≡ map.len m + map.len n }
    ensures common_over { (m n o : NibbleMap P)
        → common m (joined n o) ≡ joined (common m n) (common m o) }
    ensures joined_over { (m n o : NibbleMap P)
        → joined m (common n o) ≡ common (joined m n) (joined m o) }
    ensures common_absorbs { (m n : NibbleMap P) → common m (joined m n) ≡ m }
    ensures joined_absorbs { (m n : NibbleMap P) → joined m (common m n) ≡ m }
    ensures lacking_both { (m n o : NibbleMap P)
        → lacking m (joined n o) ≡ lacking (lacking m n) o }
    ensures lacking_one { (m n o : NibbleMap P)
        → lacking m (common n o) ≡ joined (lacking m n) (lacking m o) }
    ensures parts_joined { (m n : NibbleMap P) → joined (common m n) (lacking m n) ≡ m }
    ensures common_apart { (m n o : NibbleMap P)
        → common (common m n) o ≡ common m (common n o) }
    ensures joined_apart { (m n o : NibbleMap P)
        → joined (joined m n) o ≡ joined m (joined n o) }
{}

/// The keys of a set, and of two sets side by side, stand in the order of their encodings; those of
/// a set are the keys that it answers at their encodings.
pub fn keys_of_sets_rise<K: TrieKey>(set: &TrieSet<K>, other: &TrieSet<K>)
    ensures held { (k : K) → Has (keys_in set.now) k
        ↔ (key_at set.now (K.encoding k) ≡ Some k) }
    ensures all { IsRising (each K.encoding (keys_in set.now)) }
    ensures common { IsRising (each K.encoding (keys_in (common set.now other.now))) }
    ensures lacking { IsRising (each K.encoding (keys_in (lacking set.now other.now))) }
    ensures joined { IsRising (each K.encoding (keys_in (joined set.now other.now))) }
{
    keys_stand_at_their_encodings(set.as_trie());
    keys_stand_at_their_encodings(other.as_trie());
}

//! Two sets side by side.
ghost use Rattle.std.specs.FinMap as map;
ghost use Rattle.std.specs.Prelude.{◌≡◌, ◌↔◌, ◌⊎◌, ℕ, List, IsTrue, IsOk, IfOk};
ghost use Rattle.nibble_map.specs.Maps.{IsStored};
ghost use Rattle.radix_trie.specs.Sets.{common, joined, lacking};
ghost use Rattle.trie_set.specs.Sets.{keys_in};

use crate::selection::Selection;
use crate::set::TrieSet;
use radix_trie::iter::Operation;
use radix_trie::{Memory, TrieKey};

impl<K: TrieKey> TrieSet<K> {
    /// The walk over the keys of this set at whose encodings the other set has keys too.
    ///
    /// A whole walk takes at most the time of the ways down to the keys of the smaller set. The
    /// first key is found here.
    ///
    /// # Errors
    ///
    /// An allocation fails, as in a step. None is allocated for empty sets.
    pub fn intersection<'a>(&'a self, other: &'a TrieSet<K>) -> Result<Selection<'a, K>, Memory>
        ensures keys { IfOk result (λ walk. walk ≡ keys_in (common self.now other.now)) }
        ensures none { map.len self.now ≡ 0 → map.len other.now ≡ 0 → IsOk result }
    {
        Selection::new(&self.trie, &other.trie, Operation::Intersection)
    }

    /// The walk over the keys of this set at whose encodings the other set has none. A whole walk
    /// takes at most the time of a walk over this set.
    ///
    /// # Errors
    ///
    /// Those of `intersection`.
    ///
    /// # Examples
    ///
    /// ```
    /// # use nifazombi::{rattle_std::alloc::Global, trie_set::TrieSet};
    /// let (mut wanted, mut stored) = (TrieSet::new(Global), TrieSet::new(Global));
    /// wanted.insert("tea")?;
    /// wanted.insert("ten")?;
    /// stored.insert("tea")?;
    /// assert_eq!(wanted.difference(&stored)?.next()?, Some(&"ten"));
    /// # Ok::<(), Box<dyn std::error::Error>>(())
    /// ```
    ///
    /// `first_missing` in `crates/trie_examples/src/key_sets.rt` proves that it is the first one.
    pub fn difference<'a>(&'a self, other: &'a TrieSet<K>) -> Result<Selection<'a, K>, Memory>
        ensures keys { IfOk result (λ walk. walk ≡ keys_in (lacking self.now other.now)) }
        ensures none { map.len self.now ≡ 0 → map.len other.now ≡ 0 → IsOk result }
    {
        Selection::new(&self.trie, &other.trie, Operation::Difference)
    }

    /// The walk over the keys of both sets, in the order of the encodings; where both have a key,
    /// this set's is given. A whole walk takes at most the time of a walk over each of the two
    /// sets.
    ///
    /// # Errors
    ///
    /// Those of `intersection`.
    pub fn union<'a>(&'a self, other: &'a TrieSet<K>) -> Result<Selection<'a, K>, Memory>
        ensures keys { IfOk result (λ walk. walk ≡ keys_in (joined self.now other.now)) }
        ensures none { map.len self.now ≡ 0 → map.len other.now ≡ 0 → IsOk result }
    {
        Selection::new(&self.trie, &other.trie, Operation::Union)
    }

    /// The walk over the keys of each set at whose encodings the other one has none, in the order
    /// of the encodings, in the time of `union`.
    ///
    /// # Errors
    ///
    /// Those of `intersection`.
    pub fn symmetric_difference<'a>(
        &'a self,
        other: &'a TrieSet<K>,
    ) -> Result<Selection<'a, K>, Memory>
        ensures keys { IfOk result (λ walk. walk
            ≡ keys_in (joined (lacking self.now other.now) (lacking other.now self.now))) }
        ensures none { map.len self.now ≡ 0 → map.len other.now ≡ 0 → IsOk result }
    {
        Selection::new(&self.trie, &other.trie, Operation::SymmetricDifference)
    }

    /// Whether the other set has a key at each encoding at which this set has one, in the time of
    /// `difference`.
    ///
    /// # Errors
    ///
    /// Those of `difference` and of its `next`. None comes where this set is empty.
    pub fn is_subset(&self, other: &TrieSet<K>) -> Result<bool, Memory>
        ensures subset { IfOk result (λ is. IsTrue is
            ↔ ((e : List ℕ) → IsStored self.now e → IsStored other.now e)) }
        ensures none { map.len self.now ≡ 0 → IsOk result }
    {
        if self.is_empty() {
            return Ok(true);
        }
        let mut missing = self.difference(other)?;
        Ok(missing.next()?.is_none())
    }

    /// Whether this set has a key at each encoding at which the other set has one, in the time of
    /// the other set's `difference`.
    ///
    /// # Errors
    ///
    /// Those of `is_subset`. None comes where the other set is empty.
    pub fn is_superset(&self, other: &TrieSet<K>) -> Result<bool, Memory>
        ensures superset { IfOk result (λ is. IsTrue is
            ↔ ((e : List ℕ) → IsStored other.now e → IsStored self.now e)) }
        ensures none { map.len other.now ≡ 0 → IsOk result }
    {
        other.is_subset(self)
    }

    /// Whether the two sets have no encoding in common, in the time of `intersection`.
    ///
    /// # Errors
    ///
    /// Those of `intersection` and of its `next`. None comes where one of the sets is empty.
    pub fn is_disjoint(&self, other: &TrieSet<K>) -> Result<bool, Memory>
        ensures disjoint { IfOk result (λ is. IsTrue is
            ↔ ((e : List ℕ) → IsStored self.now e → IsStored other.now e → ⊥)) }
        ensures none { (map.len self.now ≡ 0) ⊎ (map.len other.now ≡ 0) → IsOk result }
    {
        if self.is_empty() || other.is_empty() {
            return Ok(true);
        }
        let mut shared = self.intersection(other)?;
        Ok(shared.next()?.is_none())
    }
}

//! The reading calls that every map has.
ghost use Rattle.std.specs.Prelude.{◌≡◌, ◌↔◌, ◌-◌, [], IsOk, IsTrue, IfOk, OnErr, OnOk, List, Some, drop, length, option_copied, option_map, slice_get, ℕ};
ghost use Rattle.std.specs.FinMap as finite;
ghost use Rattle.nibble_map.specs.Maps.{IsStored, PairMap, below, value_at};
ghost use Rattle.radix_trie.specs.Views.{IsPairAbove, pairs_above, pairs_below};
ghost use Rattle.prefix_maps.specs.Calls.{lent_pair};

use radix_keys::Memory;

/// A map that is asked by keys and their prefixes, by queries of type `Q`: what every map here can
/// be asked, under one name and with one contract, whether it may still grow or not.
///
/// It is implemented for references, so what a call returns lasts as long as the map's borrow. A
/// contract sees the map as the finite map from the lists of nibbles that stand for keys to the
/// pairs that are stored there, and a walk as the list of the pairs that are left.
///
/// # Examples
///
/// ```
/// # use nifazombi::{radix_trie::Trie, rattle_std::alloc::Global};
/// use nifazombi::{prefix_maps::PrefixMap, radix_keys::Memory};
///
/// fn lookup<'a, Q, M: PrefixMap<'a, Q>>(map: M, key: &Q) -> Result<Option<&'a M::Value>, Memory> {
///     match map.longest_match(key)? {
///         Some((_, value)) => Ok(Some(value)),
///         None => Ok(None),
///     }
/// }
/// let limits = Trie::from_iter(Global, [("/home/", 20), ("/", 10)].into_iter())?;
/// assert_eq!(lookup(&limits, &"/home/bob/")?, Some(&20));
/// # Ok::<(), Box<dyn std::error::Error>>(())
/// ```
///
/// `lookup` in `crates/prefix_maps/src/callers.rt` proves that the longest key decides.
pub trait PrefixMap<'a, Q>: Copy {
    /// A key, as it is lent.
    type Key: Copy;

    /// The values.
    type Value: 'a;

    /// A walk over pairs; `next` gives the next one.
    type Walk: Drop;

    // A stored key, as a contract sees it.
    ghost Stored: { Type 0 };

    // The stored key that is lent.
    ghost stored_key: { Self.Key → Stored };

    // The list that a stored key stands for.
    ghost encoding: { Stored → List ℕ };

    // The map.
    ghost map: { Self → PairMap Stored Self.Value };

    // The list that a query stands for.
    ghost list: { Q → List ℕ };

    // The pairs that a walk has left.
    ghost left: { Self.Walk → List (Stored × Self.Value) };

    // No lookup by this query fails.
    ghost is_free: { Q → Type 0 };

    // No step of a walk fails, and no range by queries that never do.
    ghost has_free_walks: { Type 0 };

    /// In each map a key stands at the list that it stands for. The call does nothing, but what it
    /// says holds in a caller's proof.
    fn keys_stand_at_their_encodings(self)
        ensures stored { (e : List ℕ) (p : Stored × Self.Value)
            → finite.get (map self) e ≡ Some p → e ≡ encoding p.0 };

    /// The count of pairs.
    fn len(self) -> usize
        ensures { result ≡ finite.len (map self) };

    /// Whether there is no pair.
    fn is_empty(self) -> bool
        ensures { IsTrue result ↔ (finite.len (map self) ≡ 0) };

    /// The value of a key, if it is stored.
    ///
    /// # Errors
    ///
    /// `Memory`: an allocation fails, for the key's encoding.
    fn get(self, key: &Q) -> Result<Option<&'a Self::Value>, Memory>
        ensures value { IfOk result
            (λ found. option_copied found ≡ value_at (map self) (list key.now)) }
        ensures free { is_free key.now → IsOk result };

    /// A key and its value, as they are stored, if the key is.
    ///
    /// # Errors
    ///
    /// Those of `get`.
    fn get_key_value(self, key: &Q) -> Result<Option<(Self::Key, &'a Self::Value)>, Memory>
        ensures pair { IfOk result (λ found. option_map (lent_pair Self.stored_key) found
            ≡ finite.get (map self) (list key.now)) }
        ensures free { is_free key.now → IsOk result };

    /// Whether a key is stored.
    ///
    /// # Errors
    ///
    /// Those of `get`.
    fn contains_key(self, key: &Q) -> Result<bool, Memory>
        ensures stored { IfOk result
            (λ found. IsTrue found ↔ IsStored (map self) (list key.now)) }
        ensures free { is_free key.now → IsOk result };

    /// The longest stored key that is a prefix of a key, and its value, or None where there is
    /// none.
    ///
    /// # Errors
    ///
    /// Those of `get`.
    fn longest_match(self, key: &Q) -> Result<Option<(Self::Key, &'a Self::Value)>, Memory>
        ensures pair { IfOk result (λ found. IsPairAbove (map self) (list key.now)
            (option_map (lent_pair Self.stored_key) found)) }
        ensures free { is_free key.now → IsOk result };

    /// The first key and its value, in order, or None where no pair is stored.
    fn first_key_value(self) -> Option<(Self::Key, &'a Self::Value)>
        ensures pair { option_map (lent_pair Self.stored_key) result
            ≡ slice_get (pairs_below (map self) []) 0 };

    /// The last key and its value, in order, or None where no pair is stored.
    fn last_key_value(self) -> Option<(Self::Key, &'a Self::Value)>
        ensures pair { option_map (lent_pair Self.stored_key) result
            ≡ slice_get (pairs_below (map self) [])
            (length (pairs_below (map self) []) - 1) };

    /// How many of the stored keys begin with a key, itself among them.
    ///
    /// # Errors
    ///
    /// Those of `get`.
    fn count_below(self, key: &Q) -> Result<usize, Memory>
        ensures count { IfOk result
            (λ count. count ≡ finite.len (below (map self) (list key.now))) }
        ensures free { is_free key.now → IsOk result };

    /// The walk over all pairs, in order.
    fn iter(self) -> Self::Walk
        ensures walk { left result ≡ pairs_below (map self) [] };

    /// The walk over the pairs whose keys begin with a key, itself among them, in order.
    ///
    /// # Errors
    ///
    /// Those of `get`.
    fn below(self, key: &Q) -> Result<Self::Walk, Memory>
        ensures walk { IfOk result
            (λ walk. left walk ≡ pairs_below (map self) (list key.now)) }
        ensures free { is_free key.now → IsOk result };

    /// The walk over the pairs whose keys are prefixes of a key, from the shortest to the longest.
    ///
    /// # Errors
    ///
    /// Those of `get`.
    fn common_prefixes(self, key: &Q) -> Result<Self::Walk, Memory>
        ensures walk { IfOk result
            (λ walk. left walk ≡ pairs_above (map self) (list key.now)) }
        ensures free { is_free key.now → IsOk result };

    /// The next pair of a walk, or None at its end, and then at each further call.
    ///
    /// # Errors
    ///
    /// `Memory`: an allocation fails. The same pairs are left then, and the next call tries again.
    fn next(walk: &mut Self::Walk) -> Result<Option<(Self::Key, &'a Self::Value)>, Memory>
        ensures pair { IfOk result (λ found. option_map (lent_pair Self.stored_key) found
            ≡ slice_get (left walk.old) 0) }
        ensures rest { OnOk result (left walk.new ≡ drop 1 (left walk.old)) }
        ensures unchanged { OnErr result (left walk.new ≡ left walk.old) }
        ensures free { has_free_walks → IsOk result };
}

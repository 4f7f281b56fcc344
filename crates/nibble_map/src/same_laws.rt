//! Laws of maps that are the same, and of copies of maps.

ghost use Rattle.nibble_map.specs.Copies.{same_maps, IsPairClone, IsMapCopy};
ghost use Rattle.nibble_map.specs.MapQueries.{IsSame};
ghost use Rattle.nibble_map.specs.Maps.{PairMap};
ghost use Rattle.std.specs.Cmp.{IsPartialEquivalence};
ghost use Rattle.std.specs.Prelude.{◌↔◌, ◌≡◌, Bool, IsTrue};

/// The test of two maps tells whether they are the same. It is symmetric and transitive where the
/// value type's `==` is.
pub fn sameness_is_computed<K, V>()
    ensures maps { (eq : V → V → Bool) (m n : PairMap K V)
        → IsTrue (same_maps eq m n) ↔ IsSame eq m n }
    ensures laws { (eq : V → V → Bool) → IsPartialEquivalence eq
        → IsPartialEquivalence (same_maps {K = K} eq) }
{}

/// A copy of a map whose clones are the values themselves is that map.
pub fn plain_copies_are_the_map<K, V>()
    ensures { (m copy : PairMap K V)
        → IsMapCopy (IsPairClone (λ x y. y ≡ x) (λ x y. y ≡ x)) m copy
        → copy ≡ m }
{}

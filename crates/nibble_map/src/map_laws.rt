//! Laws of the finite map from nibble lists: its entries, its edits, other values in their place.

ghost use Rattle.nibble_map.specs.Lists.{IsPrefix, IsRising, Lists, is_prefix};
ghost use Rattle.nibble_map.specs.MapQueries.{AreSame, IsSame};
ghost use Rattle.nibble_map.specs.Maps.{NibbleMap, PairMap, IsPoint, IsSomePrefix, IsStored, below, without_below, walk, with_value, mapped};
ghost use Rattle.nibble_map.specs.Stored as stored;
ghost use Rattle.nibble_map.specs.Swaps.{Swaps, entry};
ghost use Rattle.std.specs.Cmp.Lexicographic.{slice_cmp};
ghost use Rattle.std.specs.FinMap as map;
ghost use Rattle.std.specs.Ordering.{nat_cmp};
ghost use Rattle.std.specs.Prelude.{[], ◌&&◌, ◌+◌, ◌↔◌, ◌≡◌, ◌≢◌, map as each, cond, filter, fold, not, Bool, IsTrue, List, None, Option, Some, T, option_map, ℕ};

/// What a map holds, by its list of entries: the keys are the stored lists in rising order, and the
/// walk below a path is the entries below it.
pub fn entries_tell_the_map<P>()
    ensures keys { (m : NibbleMap P) → Lists (IsStored m) (map.keys m) }
    ensures stored { (m : NibbleMap P) (e : List ℕ)
        → IsStored m e ↔ stored.IsStored (map.entries m) e }
    ensures empty { map.from_sorted {X = P} {R = slice_cmp nat_cmp} [] ≡ map.empty }
    ensures walk { (m : NibbleMap P) (p : List ℕ)
        → walk m p ≡ stored.below (map.entries m) p }
{}

/// An insertion sets one entry, a removal cuts one, and nothing else does.
pub fn edits_by_entries<P>()
    ensures set { (m : NibbleMap P) (e : List ℕ) (v : P)
        → stored.IsSetAt (map.entries m) e v (map.entries (map.insert m e v)) }
    ensures cut { (m : NibbleMap P) (e : List ℕ)
        → stored.IsCutAt (map.entries m) e (map.entries (map.remove m e)) }
    ensures inserted { (m n : NibbleMap P) (e : List ℕ) (v : P)
        → stored.IsSetAt (map.entries m) e v (map.entries n) → n ≡ map.insert m e v }
    ensures removed { (m n : NibbleMap P) (e : List ℕ)
        → stored.IsCutAt (map.entries m) e (map.entries n) → n ≡ map.remove m e }
{}

/// One entry swapped in a rising list of entries is the map's insertion or removal, and tells the
/// pair that was there.
pub fn edits_by_swaps<P>()
    ensures inserted { (p : List ℕ) (was : Option P) (x : P) (old new : List (List ℕ × P))
        → IsRising (stored.stored old) → IsRising (stored.stored new)
        → Swaps (entry p was) (entry p (Some x)) old new
        → map.from_sorted {R = slice_cmp nat_cmp} new ≡ map.insert (map.from_sorted old) p x }
    ensures inserted_over { (p : List ℕ) (was : Option P) (x : P) (old new : List (List ℕ × P))
        → IsRising (stored.stored old) → IsRising (stored.stored new)
        → Swaps (entry p was) (entry p (Some x)) old new
        → map.get (map.from_sorted {R = slice_cmp nat_cmp} old) p ≡ was }
    ensures removed { (p : List ℕ) (x : P) (old new : List (List ℕ × P))
        → IsRising (stored.stored old)
        → Swaps (entry p (Some x)) (entry p None) old new
        → map.from_sorted {R = slice_cmp nat_cmp} new ≡ map.remove (map.from_sorted old) p }
    ensures removed_from { (p : List ℕ) (x : P) (old new : List (List ℕ × P))
        → IsRising (stored.stored old)
        → Swaps (entry p (Some x)) (entry p None) old new
        → map.get (map.from_sorted {R = slice_cmp nat_cmp} old) p ≡ Some x }
{}

/// What an edit does to the part of a map below a path, and what a smaller part holds.
pub fn edits_below_a_path<P>()
    ensures insert_inside { (m : NibbleMap P) (p e : List ℕ) (v : P) → T (is_prefix p e)
        → below (map.insert m e v) p ≡ map.insert (below m p) e v }
    ensures insert_outside { (m : NibbleMap P) (p e : List ℕ) (v : P) → T (not (is_prefix p e))
        → below (map.insert m e v) p ≡ below m p }
    ensures remove { (m : NibbleMap P) (p e : List ℕ) → below (map.remove m e) p
        ≡ map.remove (below m p) e }
    ensures twice { (m : NibbleMap P) (p q : List ℕ) → below (below m p) q
        ≡ map.retain_keys m (λ e. is_prefix p e && is_prefix q e) }
    ensures get { (m : NibbleMap P) (p e : List ℕ) → T (is_prefix p e) → map.get (below m p) e
        ≡ map.get m e }
{}

/// The map with f of what it holds answers so at each list, and follows the edits of the map.
pub fn mapped_follows_the_map<P, Q>()
    ensures entries { (f : P → Q) (m : NibbleMap P) → map.entries (mapped f m)
        ≡ each (λ e. (e.0, f e.1)) (map.entries m) }
    ensures len { (f : P → Q) (m : NibbleMap P) → map.len (mapped f m) ≡ map.len m }
    ensures get { (f : P → Q) (m : NibbleMap P) (e : List ℕ) → map.get (mapped f m) e
        ≡ option_map f (map.get m e) }
    ensures stored { (f : P → Q) (m : NibbleMap P) (e : List ℕ)
        → IsStored (mapped f m) e ↔ IsStored m e }
    ensures empty { (f : P → Q) → mapped f map.empty ≡ map.empty }
    ensures insert { (f : P → Q) (m : NibbleMap P) (e : List ℕ) (p : P)
        → mapped f (map.insert m e p) ≡ map.insert (mapped f m) e (f p) }
    ensures remove { (f : P → Q) (m : NibbleMap P) (e : List ℕ) → mapped f (map.remove m e)
        ≡ map.remove (mapped f m) e }
    ensures below { (f : P → Q) (m : NibbleMap P) (p : List ℕ) → mapped f (below m p)
        ≡ below (mapped f m) p }
    ensures rest { (f : P → Q) (m : NibbleMap P) (p : List ℕ) →
        mapped f (without_below m p) ≡ without_below (mapped f m) p }
{}

/// The entries of a map, inserted one after another, give the map.
pub fn entries_rebuild_the_map<P>()
    ensures { (m : NibbleMap P)
        → fold (λ n e. map.insert n e.0 e.1) map.empty (map.entries m) ≡ m }
{}

/// What is left of a map without all below a path: the lists that haven't the prefix, with the
/// pairs that they had. What was taken, put back, makes the map.
pub fn rest_of_a_map<P>()
    ensures get { (m : NibbleMap P) (p e : List ℕ) →
        map.get (without_below m p) e ≡ cond (is_prefix p e) None (map.get m e) }
    ensures stored { (m : NibbleMap P) (p e : List ℕ) → IsStored (without_below m p) e →
        IsStored m e × (IsPrefix p e → ⊥) }
    ensures elsewhere { (m : NibbleMap P) (p e : List ℕ) → IsStored m e
        → (IsPrefix p e → ⊥) →
        IsStored (without_below m p) e }
    ensures below { (m : NibbleMap P) (p : List ℕ) → below (without_below m p) p ≡ map.empty }
    ensures put_back { (m : NibbleMap P) (p : List ℕ) →
        fold (λ n e. map.insert n e.0 e.1) (without_below m p) (walk m p) ≡ m }
    ensures len { (m : NibbleMap P) (p : List ℕ) →
        map.len (without_below m p) + map.len (below m p) ≡ map.len m }
    ensures nothing { (m : NibbleMap P) (p : List ℕ) → map.len (below m p) ≡ 0 →
        without_below m p ≡ m }
{}

/// The points and prefixes of what is left: none is new, those neither above nor below the path
/// stay, and of those at and below it the empty list alone.
pub fn points_of_the_rest<P>()
    ensures point_before { (m : NibbleMap P) (p q : List ℕ) →
        IsPoint (without_below m p) q → IsPoint m q }
    ensures point_apart { (m : NibbleMap P) (p q : List ℕ) →
        (IsPrefix q p → ⊥) → (IsPrefix p q → ⊥) → IsPoint m q
        → IsPoint (without_below m p) q }
    ensures point_below { (m : NibbleMap P) (p q : List ℕ) →
        IsPrefix p q → IsPoint (without_below m p) q → q ≡ [] }
    ensures some_prefix_before { (m : NibbleMap P) (p q : List ℕ) →
        IsSomePrefix (without_below m p) q → IsSomePrefix m q }
    ensures some_prefix_apart { (m : NibbleMap P) (p q : List ℕ) →
        (IsPrefix q p → ⊥) → (IsPrefix p q → ⊥) → IsSomePrefix m q
        → IsSomePrefix (without_below m p) q }
    ensures some_prefix_below { (m : NibbleMap P) (p q : List ℕ) →
        IsPrefix p q → IsSomePrefix (without_below m p) q → ⊥ }
{}

/// A run cut from a rising list of entries, of all whose lists have a prefix, leaves the map
/// without what is below it.
pub fn rest_by_swaps<P>()
    ensures { (p : List ℕ) (gone old new : List (List ℕ × P))
        → IsRising (stored.stored old) →
        Swaps gone [] old new → filter (λ e. is_prefix p e.0) old ≡ gone →
        map.from_sorted {R = slice_cmp nat_cmp} new ≡ without_below (map.from_sorted old) p }
{}

/// A value written at a stored list changes that value alone; at an absent list nothing changes.
pub fn one_value_changes<K, V>()
    ensures absent { (m : PairMap K V) (e : List ℕ) (w : V) → map.get m e ≡ None
        → with_value m e w ≡ m }
    ensures stored { (m : PairMap K V) (e : List ℕ) (w : V) (p : K × V)
        → map.get m e ≡ Some p
        → with_value m e w ≡ map.insert m e (p.0, w) }
    ensures here { (m : PairMap K V) (e : List ℕ) (w : V) (p : K × V) → map.get m e ≡ Some p
        → map.get (with_value m e w) e ≡ Some (p.0, w) }
    ensures elsewhere { (m : PairMap K V) (e : List ℕ) (w : V) (q : List ℕ) → q ≢ e
        → map.get (with_value m e w) q ≡ map.get m q }
    ensures same_lists { (m : PairMap K V) (e : List ℕ) (w : V) (q : List ℕ)
        → IsStored (with_value m e w) q ↔ IsStored m q }
    ensures len { (m : PairMap K V) (e : List ℕ) (w : V) → map.len (with_value m e w)
        ≡ map.len m }
{}

/// The removal of a list that isn't stored changes nothing.
pub fn absent_list_is_not_removed<P>()
    ensures { (m : NibbleMap P) (e : List ℕ) → map.get m e ≡ None → map.remove m e ≡ m }
{}

/// The removal of a list that an insertion added gives the map back.
pub fn removal_undoes_insertion<P>()
    ensures { (m : NibbleMap P) (e : List ℕ) (v : P) → map.get m e ≡ None
        → map.remove (map.insert m e v) e ≡ m }
{}

/// Being the same map goes both ways and on where the value type's `==` does, and is seen entry by
/// entry.
pub fn sameness_follows_the_values<K, V>()
    ensures reflexive { (eq : V → V → Bool) → ((v : V) → IsTrue (eq v v))
        → (m : PairMap K V)
        → IsSame eq m m }
    ensures symmetric { (eq : V → V → Bool)
        → ((v w : V) → IsTrue (eq v w) → IsTrue (eq w v))
        → (m n : PairMap K V) → IsSame eq m n → IsSame eq n m }
    ensures transitive { (eq : V → V → Bool)
        → ((u v w : V) → IsTrue (eq u v) → IsTrue (eq v w) → IsTrue (eq u w))
        → (m n o : PairMap K V) → IsSame eq m n → IsSame eq n o → IsSame eq m o }
    ensures entries { (eq : V → V → Bool) (m n : PairMap K V)
        → IsSame eq m n ↔ AreSame eq (map.entries m) (map.entries n) }
{}

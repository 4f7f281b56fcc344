//! Laws of maps that callers of a trie cite: what a part and a turned copy hold, and that equal
//! lists have one tree.
ghost use Rattle.std.specs.FinMap as map;
ghost use Rattle.std.specs.Prelude.{◌≡◌, ◌↔◌, ℕ, List, None, Some};
ghost use Rattle.nibble_map.specs.Copies.{IsPairClone};
ghost use Rattle.nibble_map.specs.Lists.{Counts, IsPrefix};
ghost use Rattle.nibble_map.specs.MapQueries.{AreChildren, IsFragment};
ghost use Rattle.nibble_map.specs.Maps.{IsPoint, IsSomePrefix, IsStored, NibbleMap, PairMap, below};
ghost use Rattle.nibble_map.specs.Turned.{IsSameFootprint, IsTurnedCopy, turned};

/// What the part of a map below a path holds: at the lists that have the path as a prefix what the
/// map holds, and none elsewhere. So it holds the stored lists that have the prefix and no other,
/// and its count is how many these are.
pub fn part_answers_below<P>()
    ensures inside { (m : NibbleMap P) (p e : List ℕ) → IsPrefix p e
        → map.get (below m p) e ≡ map.get m e }
    ensures outside { (m : NibbleMap P) (p e : List ℕ) → (IsPrefix p e → ⊥)
        → map.get (below m p) e ≡ None }
    ensures stored { (m : NibbleMap P) (p e : List ℕ)
        → IsStored (below m p) e ↔ (IsPrefix p e × IsStored m e) }
    ensures count { (m : NibbleMap P) (p : List ℕ)
        → Counts (λ e. IsPrefix p e × IsStored m e) (map.len (below m p)) }
{}

/// Maps with the same stored lists have one tree, whatever their pairs: the same points, fragments
/// and children, and as many nodes and nibbles. So these stored lists, and not what was done
/// before, tell what a trie looks like.
pub fn equal_lists_have_one_tree<P, Q>()
    ensures points { (m : NibbleMap P) (n : NibbleMap Q)
        → ((e : List ℕ) → IsStored m e ↔ IsStored n e)
        → (p : List ℕ) → IsPoint m p ↔ IsPoint n p }
    ensures fragment { (m : NibbleMap P) (n : NibbleMap Q)
        → ((e : List ℕ) → IsStored m e ↔ IsStored n e)
        → (p f g : List ℕ) → IsFragment m p f → IsFragment n p g → f ≡ g }
    ensures children { (m : NibbleMap P) (n : NibbleMap Q)
        → ((e : List ℕ) → IsStored m e ↔ IsStored n e)
        → (p : List ℕ) (qs rs : List (List ℕ)) → AreChildren m p qs → AreChildren n p rs
        → qs ≡ rs }
    ensures nodes { (m : NibbleMap P) (n : NibbleMap Q)
        → ((e : List ℕ) → IsStored m e ↔ IsStored n e)
        → (j k : ℕ) → Counts (IsPoint m) j → Counts (IsPoint n) k → j ≡ k }
    ensures nibbles { (m : NibbleMap P) (n : NibbleMap Q)
        → ((e : List ℕ) → IsStored m e ↔ IsStored n e)
        → (j k : ℕ) → Counts (IsSomePrefix m) j → Counts (IsSomePrefix n) k → j ≡ k }
{}

/// What the trie of ascending keys holds that `to_ascending` makes: at each list, with the top bit
/// of its first nibble flipped, the key and a clone of the value that the first trie holds at the
/// list, and none where that holds none. It has as many nodes and nibbles.
pub fn turned_copies_answer_alike<K, V: Clone>()
    ensures stored { (m n : PairMap K V)
        → IsTurnedCopy (IsPairClone (λ x y. y ≡ x) V.is_clone) m n
        → (e : List ℕ) (x : K × V) → map.get m e ≡ Some x
        → (v : V) × (map.get n (turned e) ≡ Some (x.0, v)) × V.is_clone x.1 v }
    ensures absent { (m n : PairMap K V)
        → IsTurnedCopy (IsPairClone (λ x y. y ≡ x) V.is_clone) m n
        → (e : List ℕ) → map.get m e ≡ None → map.get n (turned e) ≡ None }
    ensures nodes { (m n : PairMap K V) → IsSameFootprint m n
        → (j k : ℕ) → Counts (IsPoint m) j → Counts (IsPoint n) k → j ≡ k }
    ensures nibbles { (m n : PairMap K V) → IsSameFootprint m n
        → (j k : ℕ) → Counts (IsSomePrefix m) j → Counts (IsSomePrefix n) k → j ≡ k }
{}

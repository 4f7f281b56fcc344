//! Laws that callers cite: what a map answers after an edit, and what a walk gives.
ghost use Rattle.nibble_map.specs.Lists.{Each, Has, IsPrefix, IsRising};
ghost use Rattle.nibble_map.specs.Maps.{NibbleMap, walk, without_below};
ghost use Rattle.std.specs.FinMap as map;
ghost use Rattle.std.specs.Prelude.{◌≡◌, ◌≢◌, ◌↔◌, map as each, List, None, Some, ℕ};

/// What a map answers after an insertion or a removal: at that list what was inserted, or none, and
/// elsewhere what it answered before.
pub fn edits_change_one_answer<P>()
    ensures inserted { (m : NibbleMap P) (e : List ℕ) (v : P)
        → map.get (map.insert m e v) e ≡ Some v }
    ensures insert_elsewhere { (m : NibbleMap P) (e q : List ℕ) (v : P) → q ≢ e
        → map.get (map.insert m e v) q ≡ map.get m q }
    ensures removed { (m : NibbleMap P) (e : List ℕ) → map.get (map.remove m e) e ≡ None }
    ensures remove_elsewhere { (m : NibbleMap P) (e q : List ℕ) → q ≢ e
        → map.get (map.remove m e) q ≡ map.get m q }
{}

/// What a map answers without all below a path: none at the lists that have the path as a prefix,
/// and elsewhere what it answered before.
pub fn rest_answers_elsewhere<P>()
    ensures below { (m : NibbleMap P) (p e : List ℕ) → IsPrefix p e
        → map.get (without_below m p) e ≡ None }
    ensures elsewhere { (m : NibbleMap P) (p e : List ℕ) → (IsPrefix p e → ⊥)
        → map.get (without_below m p) e ≡ map.get m e }
{}

/// A walk below a path gives exactly what the map holds at lists that have the path as a prefix, in
/// rising order.
pub fn walks_lie_below<P>()
    ensures exactly { (m : NibbleMap P) (p e : List ℕ) (v : P)
        → Has (walk m p) (e, v) ↔ (IsPrefix p e × (map.get m e ≡ Some v)) }
    ensures prefix { (m : NibbleMap P) (p : List ℕ) → Each (λ e. IsPrefix p e.0) (walk m p) }
    ensures rising { (m : NibbleMap P) (p : List ℕ)
        → IsRising (each (λ e. e.0) (walk m p)) }
{}

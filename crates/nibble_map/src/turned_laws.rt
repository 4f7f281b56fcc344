//! The law of lists whose first nibble is turned over.

ghost use Rattle.nibble_map.specs.Turned.{turned};
ghost use Rattle.std.specs.Prelude.{◌≡◌, List, ℕ, length};

/// Turned over twice, a list is itself again, and its count of nibbles stays.
pub fn turning_undoes_itself()
    ensures twice { (e : List ℕ) → turned (turned e) ≡ e }
    ensures count { (e : List ℕ) → length (turned e) ≡ length e }
{}

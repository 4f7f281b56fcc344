//! Laws of equal trees and of copies: two roots are alike exactly where their maps are the same,
//! and a copy keeps the shape.

ghost use Rattle.masked_tree.specs.Tree.{Tree, IsTreePlaced, IsTreeFull, entries_at, nodes_in, nibbles_in};
ghost use Rattle.masked_tree.specs.Same.{IsFullRoot, read_entries, same_tree, IsCopy, AreEntryCopies};
ghost use Rattle.nibble_map.specs.Copies.{same_maps, IsPairClone, IsMapCopy};
ghost use Rattle.nibble_map.specs.MapQueries.{IsSame, AreSame};
ghost use Rattle.nibble_map.specs.Maps.{PairMap};
ghost use Rattle.std.specs.Cmp.Lexicographic.{slice_cmp};
ghost use Rattle.std.specs.FinMap as map;
ghost use Rattle.std.specs.Ordering.{nat_cmp};
ghost use Rattle.std.specs.Prelude.{◌↔◌, ◌≡◌, Bool, IsTrue, List, ℕ};

/// Two roots are alike under an `==` of values exactly where they store the same lists, and at each
/// list values that are equal under it.
pub fn same_trees_are_same_maps<P, K, V>()
    ensures entries { (row : P → K × V) (eq : V → V → Bool) (t u : Tree P) → IsFullRoot t
        → IsFullRoot u
        → IsTrue (same_tree (λ x y. eq (row x).1 (row y).1) t u)
        ↔ AreSame eq (read_entries row t) (read_entries row u) }
    ensures maps { (row : P → K × V) (eq : V → V → Bool) (t u : Tree P) → IsFullRoot t
        → IsFullRoot u
        → IsTrue (same_tree (λ x y. eq (row x).1 (row y).1) t u)
        ↔ IsSame eq (map.from_sorted (read_entries row t))
        (map.from_sorted (read_entries row u)) }
    ensures entries_of_map { (row : P → K × V) (t : Tree P) → IsFullRoot t
        → map.entries (map.from_sorted {R = slice_cmp nat_cmp} (read_entries row t))
        ≡ read_entries row t }
    // The test of the two trees answers what the test of their maps answers.
    ensures tests { (row : P → K × V) (eq : V → V → Bool) (t u : Tree P) (m n : PairMap K V)
        → IsFullRoot t → IsFullRoot u
        → map.entries m ≡ read_entries row t → map.entries n ≡ read_entries row u
        → same_tree (λ x y. eq (row x).1 (row y).1) t u ≡ same_maps eq m n }
{}

/// A copy of a tree has its shape: it stands at its places and is full where the tree is, and has
/// as many nodes and nibbles.
pub fn copies_keep_the_shape<P: Clone>()
    ensures placed { (t u : Tree P) → IsCopy P.is_clone t u → IsTreePlaced t
        → IsTreePlaced u }
    ensures full { (t u : Tree P) → IsCopy P.is_clone t u → IsTreeFull t → IsTreeFull u }
    ensures root { (t u : Tree P) → IsCopy P.is_clone t u → IsFullRoot t → IsFullRoot u }
    ensures nodes { (t u : Tree P) → IsCopy P.is_clone t u → nodes_in u.children
        ≡ nodes_in t.children }
    ensures nibbles { (t u : Tree P) → IsCopy P.is_clone t u → nibbles_in u.children
        ≡ nibbles_in t.children }
    ensures entries { (t u : Tree P) → IsCopy P.is_clone t u → (q : List ℕ)
        → AreEntryCopies P.is_clone (entries_at q t) (entries_at q u) }
{}

/// The map of a copied root stores the same lists, each with a clone of its key and of its value.
pub fn copies_keep_the_map<P, K: Clone, V: Clone>()
    ensures { (row : P → K × V) (t u : Tree P) → IsFullRoot t
        → IsCopy (λ x y. IsPairClone K.is_clone V.is_clone (row x) (row y)) t u
        → IsMapCopy (IsPairClone K.is_clone V.is_clone) (map.from_sorted (read_entries row t))
        (map.from_sorted (read_entries row u)) }
{}

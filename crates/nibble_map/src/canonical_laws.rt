//! Laws of a map's canonical tree: which trees are canonical, what they tell of the map, and that a
//! map has one.

ghost use Rattle.nibble_map.specs.Answers.{IsLongest, IsShortest};
ghost use Rattle.nibble_map.specs.Canonical.{IsCanonical};
ghost use Rattle.nibble_map.specs.Lists.{Counts, Each, Has, is_prefix};
ghost use Rattle.nibble_map.specs.MapQueries.{IsFragment, IsRawAncestor, IsRawDescendant, IsCompared, IsVisited};
ghost use Rattle.nibble_map.specs.Maps.{NibbleMap, IsStored, IsPoint, IsSomePrefix};
ghost use Rattle.nibble_map.specs.Trees.{FragmentTree, nodes, paths, entries, fragment_nibbles, IsShaped, IsForestPlaced, IsFull, walked, paths_and_fragments};
ghost use Rattle.std.specs.FinMap as map;
ghost use Rattle.std.specs.Prelude.{filter, length, List, max, None, Some, ◌*◌, ◌↔◌, ◌≡◌, ◌≤◌, ℕ};

/// A tree whose children stand at their places is the canonical tree of its pairs' map exactly
/// where each node but the root has a pair or two children: the local shape is the set of points.
pub fn full_trees_are_canonical<P>()
    ensures full { (t : FragmentTree P) (m : NibbleMap P) → IsForestPlaced 0 t.children
        → entries (nodes t)
        ≡ map.entries m → IsFull t.children ↔ IsCanonical t m }
    ensures shaped { (t : FragmentTree P) → IsShaped 0 t.children
        → IsCanonical t (map.from_sorted (entries (nodes t))) }
{}

/// A map's canonical tree has a node for each point and a nibble for each non-empty prefix of a
/// stored list; it has at most two nodes a pair, or one; its fragments are the points'; its paths
/// answer queries for the nearest point; its search compares as many nibbles as the map says; and
/// the nodes on the way to a list, those whose paths are prefixes of it, are as many as the map
/// says.
pub fn canonical_trees_tell_the_map<P>()
    ensures nodes { (t : FragmentTree P) (m : NibbleMap P) → IsCanonical t m
        → Counts (IsPoint m) (length (nodes t)) }
    ensures nibbles { (t : FragmentTree P) (m : NibbleMap P) → IsCanonical t m
        → Counts (IsSomePrefix m) (fragment_nibbles (nodes t)) }
    ensures few { (t : FragmentTree P) (m : NibbleMap P) → IsCanonical t m
        → length (nodes t) ≤ max 1 (2 * map.len m) }
    ensures fragments { (t : FragmentTree P) (m : NibbleMap P) → IsCanonical t m
        → Each (λ n. IsFragment m n.path n.fragment) (nodes t) }
    ensures raw_ancestor { (t : FragmentTree P) (m : NibbleMap P) → IsCanonical t m
        → (e p : List ℕ)
        → IsLongest (Has (paths (nodes t))) e p ↔ IsRawAncestor m e p }
    ensures raw_descendant { (t : FragmentTree P) (m : NibbleMap P) → IsCanonical t m
        → (e p : List ℕ)
        → IsShortest (Has (paths (nodes t))) e p ↔ IsRawDescendant m e (Some p) }
    ensures compared { (t : FragmentTree P) (m : NibbleMap P) → IsCanonical t m → (e : List ℕ)
        → IsCompared m e (walked t.children e) }
    ensures visited { (t : FragmentTree P) (m : NibbleMap P) → IsCanonical t m → (e : List ℕ)
        → IsVisited m e (length (filter (λ p. is_prefix p e) (paths (nodes t)))) }
{}

/// Each map has a canonical tree, and only one.
pub fn each_map_has_one_tree<P>()
    ensures one { (m : NibbleMap P) → (t : FragmentTree P) × IsCanonical t m }
    ensures only { (t u : FragmentTree P) (m : NibbleMap P) → IsCanonical t m → IsCanonical u m
        → nodes t ≡ nodes u }
{}

/// The canonical trees of two maps with the same stored lists have the same paths and fragments,
/// whatever their pairs.
pub fn stored_lists_shape_the_tree<P, Q>()
    ensures { (t : FragmentTree P) (m : NibbleMap P) (u : FragmentTree Q) (n : NibbleMap Q)
        → IsCanonical t m
        → IsCanonical u n
        → ((e : List ℕ) → IsStored m e ↔ IsStored n e) → paths_and_fragments (nodes t)
        ≡ paths_and_fragments (nodes u) }
{}

/// An insertion and a removal lead from a canonical tree to one, and a removal right after an
/// insertion leads back.
pub fn edits_keep_the_tree_canonical<P>()
    ensures inserted { (t : FragmentTree P) (m : NibbleMap P) → IsCanonical t m
        → (e : List ℕ) (v : P)
        → (u : FragmentTree P) × IsCanonical u (map.insert m e v) }
    ensures removed { (t : FragmentTree P) (m : NibbleMap P) → IsCanonical t m → (e : List ℕ)
        → (u : FragmentTree P) × IsCanonical u (map.remove m e) }
    ensures undone { (t u : FragmentTree P) (m : NibbleMap P) (e : List ℕ) (v : P)
        → map.get m e ≡ None
        → IsCanonical t m
        → IsCanonical u (map.remove (map.insert m e v) e) → nodes u ≡ nodes t }
{}

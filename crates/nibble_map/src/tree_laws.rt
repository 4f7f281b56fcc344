//! Laws of the tree of fragments: the local shape is the set of points.

ghost use Rattle.nibble_map.specs.Points.{IsPoint, IsSomePrefix};
ghost use Rattle.nibble_map.specs.Answers.{IsFragment, IsCompared};
ghost use Rattle.nibble_map.specs.Canonical.{IsCanonicalAt, IsLocal};
ghost use Rattle.nibble_map.specs.Lists.{Lists, Counts, Each, IsRising};
ghost use Rattle.nibble_map.specs.Stored.{IsStored, stored, IsSetAt, IsCutAt};
ghost use Rattle.nibble_map.specs.Trees.{FragmentTree, nodes, paths, entries, fragment_nibbles, IsShaped, IsForestPlaced, IsFull, Forest, walked, paths_and_fragments};
ghost use Rattle.std.specs.Prelude.{Option, ◌↔◌, ◌≤◌, ◌*◌, max, length, ℕ, List, ◌≡◌};

/// The paths of a tree's nodes are the points of its entries.
pub fn paths_are_points<V>()
    ensures { (t : FragmentTree V) → IsShaped 0 t.children
        → Lists (IsPoint (IsStored (entries (nodes t)))) (paths (nodes t)) }
{}

/// A shaped tree has at most twice as many nodes as entries, and one where it has none.
pub fn nodes_are_few<V>()
    ensures { (t : FragmentTree V) → IsShaped 0 t.children
        → length (nodes t) ≤ max 1 (2 * length (entries (nodes t))) }
{}

/// The fragments of a shaped tree hold one nibble for each non-empty prefix of its entries' lists.
pub fn nibbles_are_prefixes<V>()
    ensures { (t : FragmentTree V) → IsShaped 0 t.children
        → Counts (IsSomePrefix (IsStored (entries (nodes t)))) (fragment_nibbles (nodes t)) }
{}

/// The local shape is that children stand at their places and each node but the root is full.
pub fn shape_is_place_and_fullness<V>()
    ensures parts { (low : ℕ) (children : Forest V) → IsShaped low children
        → IsForestPlaced low children × IsFull children }
    ensures whole { (low : ℕ) (children : Forest V) → IsForestPlaced low children
        → IsFull children
        → IsShaped low children }
{}

/// Of a tree whose children stand at their places: each node but the root is full exactly where the
/// paths are the points.
pub fn full_is_points<V>()
    ensures { (t : FragmentTree V) → IsForestPlaced 0 t.children
        → IsFull t.children ↔ Lists (IsPoint (IsStored (entries (nodes t)))) (paths (nodes t)) }
{}

/// A node is canonical exactly where it and those below it have the local shape.
pub fn canonical_is_local<V>()
    ensures to { (q f : List ℕ) (o : Option V) (children : Forest V) → IsLocal q f o children
        → IsCanonicalAt q f o children }
    ensures from { (q f : List ℕ) (o : Option V) (children : Forest V)
        → IsCanonicalAt q f o children → IsLocal q f o children }
{}

/// The fragments of a shaped tree are those of its entries' points.
pub fn fragments_are_the_points<V>()
    ensures { (t : FragmentTree V) → IsShaped 0 t.children
        → Each (λ n. IsFragment (IsStored (entries (nodes t))) n.path n.fragment) (nodes t) }
{}

/// The entries of a shaped tree rise.
pub fn entries_rise<V>()
    ensures { (t : FragmentTree V) → IsShaped 0 t.children
        → IsRising (stored (entries (nodes t))) }
{}

/// A set has one rising list and one count.
pub fn a_set_has_one_list<V>()
    ensures points { (m : List (List ℕ × V)) (xs ys : List (List ℕ))
        → Lists (IsPoint (IsStored m)) xs → Lists (IsPoint (IsStored m)) ys → xs ≡ ys }
    ensures prefixes { (m : List (List ℕ × V)) (i j : ℕ)
        → Counts (IsSomePrefix (IsStored m)) i
        → Counts (IsSomePrefix (IsStored m)) j → i ≡ j }
{}

/// A search's count of compared nibbles.
pub fn count_is_compared<V>()
    ensures { (t : FragmentTree V) → IsShaped 0 t.children → (e : List ℕ)
        → IsCompared (IsStored (entries (nodes t))) e (walked t.children e) }
{}

/// An entry can be set in a shaped tree, and taken out of it, so that it stays shaped.
pub fn changes_keep_the_shape<V>()
    ensures set { (t : FragmentTree V) → IsShaped 0 t.children → (e : List ℕ) (v : V)
        → (n : FragmentTree V) × IsShaped 0 n.children
        × IsSetAt (entries (nodes t)) e v (entries (nodes n)) }
    ensures cut { (t : FragmentTree V) → IsShaped 0 t.children → (e : List ℕ)
        → (n : FragmentTree V) × IsShaped 0 n.children
        × IsCutAt (entries (nodes t)) e (entries (nodes n)) }
{}

/// Two shaped trees with the same stored lists have the same paths and fragments.
pub fn equal_lists_give_equal_trees<V, W>()
    ensures { (t : FragmentTree V) (u : FragmentTree W) → IsShaped 0 t.children
        → IsShaped 0 u.children →
        ((e : List ℕ) → IsStored (entries (nodes t)) e ↔ IsStored (entries (nodes u)) e)
        → paths_and_fragments (nodes t) ≡ paths_and_fragments (nodes u) }
{}

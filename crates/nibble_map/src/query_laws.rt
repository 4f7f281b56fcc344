//! Laws of points and of the answers of queries.

ghost use Rattle.nibble_map.specs.Points as points;
ghost use Rattle.nibble_map.specs.Answers as answers;
ghost use Rattle.nibble_map.specs.Computed as computed;
ghost use Rattle.nibble_map.specs.Lists.{Counts, IsPrefix, IsStrictPrefix, Lists};
ghost use Rattle.nibble_map.specs.MapQueries as map_queries;
ghost use Rattle.nibble_map.specs.Maps as maps;
ghost use Rattle.nibble_map.specs.Maps.{NibbleMap, IsStored};
ghost use Rattle.nibble_map.specs.Stored as stored;
ghost use Rattle.std.specs.FinMap as map;
ghost use Rattle.std.specs.Prelude.{[], ◌↔◌, ◌≡◌, ◌≤◌, IsTrue, length, List, None, Option, Some, suc, ℕ};

/// The points of a map and the prefixes of its stored lists are those of its entries.
pub fn points_by_entries<P>()
    ensures reached { (m : NibbleMap P) (p : List ℕ)
        → maps.IsReached m p ↔ points.IsReached (stored.IsStored (map.entries m)) p }
    ensures branch_point { (m : NibbleMap P) (p : List ℕ)
        → maps.IsBranchPoint m p ↔ points.IsBranchPoint (stored.IsStored (map.entries m)) p }
    ensures point { (m : NibbleMap P) (p : List ℕ)
        → maps.IsPoint m p ↔ points.IsPoint (stored.IsStored (map.entries m)) p }
    ensures some_prefix { (m : NibbleMap P) (p : List ℕ)
        → maps.IsSomePrefix m p ↔ points.IsSomePrefix (stored.IsStored (map.entries m)) p }
{}

/// The answers of a map's queries are those of its entries.
pub fn answers_by_entries<P>()
    ensures ancestor { (m : NibbleMap P) (e : List ℕ) (a : Option (List ℕ))
        → map_queries.IsAncestor m e a
        ↔ answers.IsAncestor (stored.IsStored (map.entries m)) e a }
    ensures raw_ancestor { (m : NibbleMap P) (e p : List ℕ) → map_queries.IsRawAncestor m e p
        ↔ answers.IsRawAncestor (stored.IsStored (map.entries m)) e p }
    ensures raw_descendant { (m : NibbleMap P) (e : List ℕ) (a : Option (List ℕ))
        → map_queries.IsRawDescendant m e a
        ↔ answers.IsRawDescendant (stored.IsStored (map.entries m)) e a }
    ensures fragment { (m : NibbleMap P) (p f : List ℕ)
        → map_queries.IsFragment m p f
        ↔ answers.IsFragment (stored.IsStored (map.entries m)) p f }
    ensures children { (m : NibbleMap P) (p : List ℕ) (qs : List (List ℕ))
        → map_queries.AreChildren m p qs
        ↔ answers.AreChildren (stored.IsStored (map.entries m)) p qs }
    ensures compared { (m : NibbleMap P) (e : List ℕ) (n : ℕ)
        → map_queries.IsCompared m e n
        ↔ answers.IsCompared (stored.IsStored (map.entries m)) e n }
    ensures visited { (m : NibbleMap P) (e : List ℕ) (n : ℕ)
        → map_queries.IsVisited m e n
        ↔ answers.IsVisited (stored.IsStored (map.entries m)) e n }
{}

/// Two maps with the same stored lists have the same points and answers, whatever their pairs.
pub fn stored_lists_decide<P, Q>()
    ensures point { (m : NibbleMap P) (n : NibbleMap Q)
        → ((e : List ℕ) → IsStored m e ↔ IsStored n e) → (p : List ℕ)
        → maps.IsPoint m p
        → maps.IsPoint n p }
    ensures raw_descendant { (m : NibbleMap P) (n : NibbleMap Q)
        → ((e : List ℕ) → IsStored m e ↔ IsStored n e)
        → (e : List ℕ) (a : Option (List ℕ))
        → map_queries.IsRawDescendant m e a → map_queries.IsRawDescendant n e a }
    ensures raw_ancestor { (m : NibbleMap P) (n : NibbleMap Q)
        → ((e : List ℕ) → IsStored m e ↔ IsStored n e) → (e p : List ℕ)
        → map_queries.IsRawAncestor m e p → map_queries.IsRawAncestor n e p }
    ensures fragment { (m : NibbleMap P) (n : NibbleMap Q)
        → ((e : List ℕ) → IsStored m e ↔ IsStored n e) → (p f : List ℕ)
        → map_queries.IsFragment m p f → map_queries.IsFragment n p f }
    ensures children { (m : NibbleMap P) (n : NibbleMap Q)
        → ((e : List ℕ) → IsStored m e ↔ IsStored n e)
        → (p : List ℕ) (qs : List (List ℕ))
        → map_queries.AreChildren m p qs → map_queries.AreChildren n p qs }
    ensures compared { (m : NibbleMap P) (n : NibbleMap Q)
        → ((e : List ℕ) → IsStored m e ↔ IsStored n e) → (e : List ℕ) (k : ℕ)
        → map_queries.IsCompared m e k → map_queries.IsCompared n e k }
    ensures visited { (m : NibbleMap P) (n : NibbleMap Q)
        → ((e : List ℕ) → IsStored m e ↔ IsStored n e) → (e : List ℕ) (k : ℕ)
        → map_queries.IsVisited m e k → map_queries.IsVisited n e k }
{}

/// Each query has one answer.
pub fn answers_are_unique<P>()
    ensures ancestor { (m : NibbleMap P) (e : List ℕ) (a b : Option (List ℕ))
        → map_queries.IsAncestor m e a → map_queries.IsAncestor m e b → a ≡ b }
    ensures raw_ancestor { (m : NibbleMap P) (e p q : List ℕ) → map_queries.IsRawAncestor m e p
        → map_queries.IsRawAncestor m e q → p ≡ q }
    ensures raw_descendant { (m : NibbleMap P) (e : List ℕ) (a b : Option (List ℕ))
        → map_queries.IsRawDescendant m e a → map_queries.IsRawDescendant m e b → a ≡ b }
    ensures fragment { (m : NibbleMap P) (p f g : List ℕ) → map_queries.IsFragment m p f
        → map_queries.IsFragment m p g → f ≡ g }
    ensures children { (m : NibbleMap P) (p : List ℕ) (qs rs : List (List ℕ))
        → map_queries.AreChildren m p qs → map_queries.AreChildren m p rs → qs ≡ rs }
    ensures compared { (m : NibbleMap P) (e : List ℕ) (j k : ℕ) → map_queries.IsCompared m e j
        → map_queries.IsCompared m e k → j ≡ k }
    ensures visited { (m : NibbleMap P) (e : List ℕ) (j k : ℕ) → map_queries.IsVisited m e j
        → map_queries.IsVisited m e k → j ≡ k }
{}

/// The slow lists of points and of prefixes are those of the definitions, and so are their sizes
/// and the slow test of a point.
pub fn computed_points<P>()
    ensures points { (m : List (List ℕ × P))
        → Lists (points.IsPoint (stored.IsStored m)) (computed.points m) }
    ensures prefixes { (m : List (List ℕ × P))
        → Lists (points.IsSomePrefix (stored.IsStored m)) (computed.prefixes m) }
    ensures nodes { (m : List (List ℕ × P))
        → Counts (points.IsPoint (stored.IsStored m)) (computed.footprint m).0 }
    ensures nibbles { (m : List (List ℕ × P))
        → Counts (points.IsSomePrefix (stored.IsStored m)) (computed.footprint m).1 }
    ensures is_point { (m : List (List ℕ × P)) (p : List ℕ)
        → points.IsPoint (stored.IsStored m) p ↔ IsTrue (computed.is_point m p) }
{}

/// A slow answer is the one answer of its relation.
pub fn computed_answers<P>()
    ensures ancestor { (m : List (List ℕ × P)) (e : List ℕ) (a : Option (List ℕ))
        → answers.IsAncestor (stored.IsStored m) e a ↔ (a ≡ computed.ancestor m e) }
    ensures raw_ancestor { (m : List (List ℕ × P)) (e p : List ℕ)
        → answers.IsRawAncestor (stored.IsStored m) e p ↔ (p ≡ computed.raw_ancestor m e) }
    ensures raw_descendant { (m : List (List ℕ × P)) (e : List ℕ) (a : Option (List ℕ))
        → answers.IsRawDescendant (stored.IsStored m) e a
        ↔ (a ≡ computed.raw_descendant m e) }
    ensures fragment { (m : List (List ℕ × P)) (p f : List ℕ)
        → answers.IsFragment (stored.IsStored m) p f ↔ (f ≡ computed.fragment m p) }
    ensures children { (m : List (List ℕ × P)) (p : List ℕ) (qs : List (List ℕ))
        → answers.AreChildren (stored.IsStored m) p qs ↔ (qs ≡ computed.children m p) }
    ensures compared { (m : List (List ℕ × P)) (e : List ℕ) (k : ℕ)
        → answers.IsCompared (stored.IsStored m) e k ↔ (k ≡ computed.compared m e) }
    ensures visited { (m : List (List ℕ × P)) (e : List ℕ) (k : ℕ)
        → answers.IsVisited (stored.IsStored m) e k ↔ (k ≡ computed.visited m e) }
{}

/// A search visits at most one node for each nibble of the query, and the root; and no more nodes
/// than there are points.
pub fn few_nodes_are_visited<P>()
    ensures nibbles { (m : NibbleMap P) (e : List ℕ) (n : ℕ) → map_queries.IsVisited m e n
        → n ≤ suc (length e) }
    ensures points { (m : NibbleMap P) (e : List ℕ) (n k : ℕ) → map_queries.IsVisited m e n
        → Counts (maps.IsPoint m) k → n ≤ k }
{}

/// Where the query is a point, the longest point above it and the shortest below it are that point.
pub fn points_answer_themselves<P>()
    ensures raw_ancestor { (m : NibbleMap P) (p : List ℕ) → maps.IsPoint m p → (a : List ℕ)
        → map_queries.IsRawAncestor m p a ↔ (a ≡ p) }
    ensures raw_descendant { (m : NibbleMap P) (p : List ℕ) → maps.IsPoint m p
        → (a : Option (List ℕ)) → map_queries.IsRawDescendant m p a ↔ (a ≡ Some p) }
{}

/// A path is a leaf exactly where it has no children.
pub fn leaves_have_no_children<P>()
    ensures { (m : NibbleMap P) (p : List ℕ)
        → map_queries.IsLeaf m p ↔ map_queries.AreChildren m p [] }
{}

/// Each stored list strictly below a path is at or below exactly one of the path's children.
pub fn one_child_leads_to_each_list<P>()
    ensures { (m : NibbleMap P) (p e : List ℕ) → IsStored m e → IsStrictPrefix p e
        → (q : List ℕ) × map_queries.IsChild m p q × IsPrefix q e
        × ((r : List ℕ) → map_queries.IsChild m p r → IsPrefix r e → r ≡ q) }
{}

/// The pairs at and below a list are those at and below the shortest point that it begins, or none
/// where there is none.
pub fn descendants_hold_all_below<P>()
    ensures some { (m : NibbleMap P) (e q : List ℕ) → map_queries.IsRawDescendant m e (Some q)
        → maps.below m e ≡ maps.below m q }
    ensures none { (m : NibbleMap P) (e : List ℕ) → map_queries.IsRawDescendant m e None
        → maps.below m e ≡ map.empty }
{}

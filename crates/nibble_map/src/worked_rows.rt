//! Worked rows: small maps with their points, prefixes, answers, counts and walks, computed from
//! the definitions.

ghost use Rattle.nibble_map.specs.Stored.{below};
ghost use Rattle.nibble_map.specs.Computed.{ancestor, compared, footprint, fragment, is_point, children, points, raw_ancestor, raw_descendant, visited};
ghost use Rattle.nibble_map.specs.Maps.{NibbleMap};
ghost use Rattle.nibble_map.specs.Nibbles.{nibbles, IsShort};
ghost use Rattle.nibble_map.specs.Rows.{inserted, insert_all, removed, number_at, values, text, nothing, nested_texts, a_abc_abd, abc_abd, ab_and_a_half, abc_abcdef, aba_abb_abc_z, abcz_abca, two_bytes, four_signed_bytes, low_bytes_first, umlauts, wow_hella_hellb, odd_nibbles, letters_a, long_twins, short_and_long, chain};
ghost use Rattle.std.specs.FinMap as map;
ghost use Rattle.std.specs.Prelude.{[], ◌++◌, ◌∷◌, ◌≡◌, ◌*◌, suc, codes, false, length, List, map as each, None, Some, sum, take, true, ℕ};

/// The rows' lists of entries are those of maps after insertions and removals.
pub fn rows_are_maps()
    ensures inserted { (m : NibbleMap ℕ) (es : List (List ℕ × ℕ))
        → map.entries (insert_all m es)
        ≡ inserted (map.entries m) es }
    ensures removed { (m : NibbleMap ℕ) (e : List ℕ) → map.entries (map.remove m e)
        ≡ removed e (map.entries m) }
{}

/// The tree that the page of definitions draws.
pub fn drawn_tree()
    ensures points { points a_abc_abd ≡ [] ∷ nibbles (codes "a") ∷ ab_and_a_half ∷
        nibbles (codes "abc") ∷ nibbles (codes "abd") ∷ [] }
    ensures fragments { each (fragment a_abc_abd) (points a_abc_abd)
        ≡ [] ∷ (6 ∷ 1 ∷ []) ∷ (6 ∷ 2 ∷ 6 ∷ []) ∷ (3 ∷ []) ∷
        (4 ∷ []) ∷ [] }
    ensures above_abe { ancestor a_abc_abd (nibbles (codes "abe")) ≡ Some (nibbles (codes "a")) }
    ensures point_above_abe { raw_ancestor a_abc_abd (nibbles (codes "abe")) ≡ ab_and_a_half }
    ensures point_below_ab { raw_descendant a_abc_abd (nibbles (codes "ab"))
        ≡ Some ab_and_a_half }
    ensures ab { is_point a_abc_abd (nibbles (codes "ab")) ≡ false }
    ensures children_of_a { children a_abc_abd (nibbles (codes "a")) ≡ ab_and_a_half ∷ [] }
    ensures children_of_the_branch_point { children a_abc_abd ab_and_a_half
        ≡ nibbles (codes "abc") ∷ nibbles (codes "abd") ∷ [] }
    ensures search_for_abe { compared a_abc_abd (nibbles (codes "abe")) ≡ 5 }
    ensures search_for_b { compared a_abc_abd (nibbles (codes "b")) ≡ 2 }
    ensures nodes_for_abe { visited a_abc_abd (nibbles (codes "abe")) ≡ 3 }
    ensures nodes_for_b { visited a_abc_abd (nibbles (codes "b")) ≡ 1 }
    ensures without_abd { each (fragment (removed (nibbles (codes "abd")) a_abc_abd))
        (points (removed (nibbles (codes "abd")) a_abc_abd))
        ≡ [] ∷ (6 ∷ 1 ∷ []) ∷ (6 ∷ 2 ∷ 6 ∷ 3 ∷ []) ∷ [] }
{}

/// The empty map has the empty list as its one point.
pub fn empty_map_has_one_point()
    ensures footprint { footprint nothing ≡ (1, 0) }
    ensures top { is_point nothing [] ≡ true }
    ensures ancestor { ancestor nothing [] ≡ None }
    ensures raw_ancestor { raw_ancestor nothing (nibbles (codes "x")) ≡ [] }
    ensures no_descendant { raw_descendant nothing (nibbles (codes "x")) ≡ None }
    ensures top_descendant { raw_descendant nothing [] ≡ Some [] }
{}

/// A second insertion at a text replaces its number.
pub fn haskell_is_replaced()
    ensures { inserted [] (text (codes "haskell") 18 ∷ text (codes "haskell") 36 ∷ [])
        ≡ text (codes "haskell") 36 ∷ [] }
{}

/// Points of the nested texts, some of them with no number.
pub fn nested_texts_have_ten_points()
    ensures footprint { footprint nested_texts ≡ (10, 38) }
    ensures below_ab { length (below nested_texts (nibbles (codes "ab"))) ≡ 4 }
    ensures below_a { length (below nested_texts (nibbles (codes "a"))) ≡ 6 }
    ensures below_top { length (below nested_texts []) ≡ 7 }
    ensures below_b { length (below nested_texts (nibbles (codes "bcdefgh"))) ≡ 1 }
    ensures top { is_point nested_texts [] ≡ true }
    ensures half_byte { is_point nested_texts (6 ∷ []) ≡ true }
    ensures byte_and_half { is_point nested_texts (6 ∷ 1 ∷ 6 ∷ []) ≡ true }
    ensures top_value { number_at [] nested_texts ≡ None }
    ensures half_byte_value { number_at (6 ∷ []) nested_texts ≡ None }
    ensures byte_and_half_value { number_at (6 ∷ 1 ∷ 6 ∷ []) nested_texts ≡ None }
{}

/// A place within a fragment is no point, and a branch point is one, with all that lies below it.
pub fn inside_a_fragment_is_no_point()
    ensures inside { is_point nested_texts (nibbles (codes "abc")) ≡ false }
    ensures branch_point { is_point nested_texts (6 ∷ []) ≡ true }
    ensures no_value { number_at (6 ∷ []) nested_texts ≡ None }
    ensures below_branch_point { length (below nested_texts (6 ∷ [])) ≡ 7 }
{}

/// Compared nibbles in searches among the nested texts.
pub fn searches_of_nested_texts()
    ensures between { compared nested_texts (nibbles (codes "abcde")) ≡ 10 }
    ensures far_off { compared nested_texts (nibbles (codes "nonexistant")) ≡ 1 }
    ensures beside { compared nested_texts (nibbles (codes "acbg")) ≡ 8 }
    ensures stored { compared nested_texts (nibbles (codes "abcd")) ≡ 8 }
    ensures stored_value { number_at (nibbles (codes "abcd")) nested_texts ≡ Some 17 }
    ensures empty { compared nested_texts [] ≡ 0 }
{}

/// Visited nodes in searches among the nested texts: the points that begin the query, the root
/// among them.
pub fn nodes_of_nested_texts()
    ensures stored { visited nested_texts (nibbles (codes "abcd")) ≡ 6 }
    ensures within { visited nested_texts (nibbles (codes "abc")) ≡ 5 }
    ensures far_off { visited nested_texts (nibbles (codes "nonexistant")) ≡ 2 }
    ensures deepest { visited nested_texts (nibbles (codes "abcdefgh")) ≡ 8 }
    ensures empty { visited nested_texts [] ≡ 1 }
{}

/// The nearest stored list above, and the nearest point below, among the nested texts.
pub fn nearest_of_nested_texts()
    ensures above_empty { ancestor nested_texts [] ≡ None }
    ensures above_abcdefg { ancestor nested_texts (nibbles (codes "abcdefg"))
        ≡ Some (nibbles (codes "abcdef")) }
    ensures abcdef { number_at (nibbles (codes "abcdef")) nested_texts ≡ Some 18 }
    ensures above_abcde { ancestor nested_texts (nibbles (codes "abcde"))
        ≡ Some (nibbles (codes "abcd")) }
    ensures above_aauksdjk { ancestor nested_texts (nibbles (codes "aauksdjk"))
        ≡ Some (nibbles (codes "a")) }
    ensures a { number_at (nibbles (codes "a")) nested_texts ≡ Some 15 }
    ensures below_abcdefgh { raw_descendant nested_texts (nibbles (codes "abcdefgh"))
        ≡ Some (nibbles (codes "abcdefgh")) }
    ensures below_abcdefg { raw_descendant nested_texts (nibbles (codes "abcdefg"))
        ≡ Some (nibbles (codes "abcdefgh")) }
    ensures abcdefgh { number_at (nibbles (codes "abcdefgh")) nested_texts ≡ Some 19 }
    ensures below_acbg { raw_descendant nested_texts (nibbles (codes "acbg")) ≡ None }
{}

/// The nearest stored list above passes over a branch point.
pub fn ancestor_passes_over_a_branch_point()
    ensures footprint { footprint a_abc_abd ≡ (5, 7) }
    ensures ancestor { ancestor a_abc_abd (nibbles (codes "abe")) ≡ Some (nibbles (codes "a")) }
    ensures absent { number_at (nibbles (codes "ab")) a_abc_abd ≡ None }
    ensures stored { number_at (nibbles (codes "abc")) a_abc_abd ≡ Some 2 }
{}

/// A removal takes the branch point above with it, and a removal of an absent list takes nothing.
pub fn removal_merges_upward()
    ensures removed { footprint (removed (nibbles (codes "abd")) a_abc_abd) ≡ (3, 6) }
    ensures absent { footprint
        (removed (nibbles (codes "ab")) (removed (nibbles (codes "abd")) a_abc_abd)) ≡ (3, 6) }
{}

/// The nearest point below a place within a fragment is the fragment's end.
pub fn descendants_within_fragments()
    ensures within { raw_descendant abcz_abca (nibbles (codes "a"))
        ≡ Some (nibbles (codes "abc")) }
    ensures at_the_point { raw_descendant abcz_abca (nibbles (codes "abc"))
        ≡ Some (nibbles (codes "abc")) }
    ensures below { raw_descendant abcz_abca (nibbles (codes "abca"))
        ≡ Some (nibbles (codes "abcaaaa")) }
{}

/// Two bytes with the same high half: a point of one nibble, and two below it.
pub fn bytes_share_a_half()
    ensures top { fragment two_bytes [] ≡ [] }
    ensures child { children two_bytes [] ≡ (15 ∷ []) ∷ [] }
    ensures shared { fragment two_bytes (15 ∷ []) ≡ 15 ∷ [] }
    ensures children { children two_bytes (15 ∷ [])
        ≡ (15 ∷ 1 ∷ []) ∷ (15 ∷ 2 ∷ []) ∷ [] }
    ensures first { fragment two_bytes (15 ∷ 1 ∷ []) ≡ 1 ∷ [] }
    ensures second { fragment two_bytes (15 ∷ 2 ∷ []) ≡ 2 ∷ [] }
    ensures removed { removed (15 ∷ []) two_bytes ≡ two_bytes }
    ensures no_value { number_at (15 ∷ []) two_bytes ≡ None }
    ensures below { length (below two_bytes (15 ∷ [])) ≡ 2 }
{}

/// The longer of two texts leaves the part below the shorter.
pub fn longer_text_leaves()
    ensures { length (below (removed (nibbles (codes "abcdef")) abc_abcdef) (nibbles (codes "abc")))
        ≡ 1 }
{}

/// A path whose pair is removed is no point, and still has what is below it.
pub fn path_outlives_its_pair()
    ensures own_fragment { fragment abc_abcdef (nibbles (codes "abc"))
        ≡ 6 ∷ 1 ∷ 6 ∷ 2 ∷ 6 ∷ 3 ∷ [] }
    ensures no_point { is_point (removed (nibbles (codes "abc")) abc_abcdef) (nibbles (codes "abc"))
        ≡ false }
    ensures below { length
        (below (removed (nibbles (codes "abc")) abc_abcdef) (nibbles (codes "abc"))) ≡ 1 }
    ensures child { children (removed (nibbles (codes "abc")) abc_abcdef) (nibbles (codes "abc"))
        ≡ nibbles (codes "abcdef") ∷ [] }
    ensures fragment { length
        (fragment (removed (nibbles (codes "abc")) abc_abcdef) (nibbles (codes "abcdef"))) ≡ 12 }
    ensures footprint { footprint
        (inserted (removed (nibbles (codes "abc")) abc_abcdef) (text (codes "abc") 9 ∷ []))
        ≡ (3, 12) }
{}

/// A longer text joins, and the shorter gets another number.
pub fn longer_text_joins()
    ensures { values
        (below (inserted []
        (text (codes "abc") 3 ∷ text (codes "abcdef") 6 ∷ text (codes "abc") 9 ∷
        [])) (nibbles (codes "abc"))) ≡ 9 ∷ 6 ∷ [] }
{}

/// Walks go by the lists: signed bytes from 0 on, then the negative ones; numbers with the low byte
/// first by that byte.
pub fn walks_go_by_the_lists()
    ensures signed { values four_signed_bytes ≡ 3 ∷ 4 ∷ 1 ∷ 2 ∷ [] }
    ensures low_first { values low_bytes_first ≡ 256 ∷ 2 ∷ [] }
    ensures footprint { footprint low_bytes_first ≡ (4, 7) }
{}

/// The empty text comes and goes, and adds no point.
pub fn empty_text_comes_and_goes()
    ensures comes { number_at [] (inserted nested_texts (text [] 99 ∷ [])) ≡ Some 99 }
    ensures goes { footprint (removed [] (inserted nested_texts (text [] 99 ∷ []))) ≡ (10, 38) }
    ensures alone { footprint (inserted [] (text [] 1 ∷ [])) ≡ (1, 0) }
    ensures gone { footprint (removed [] (inserted [] (text [] 1 ∷ []))) ≡ (1, 0) }
{}

/// One text alone has two points.
pub fn one_text_has_two_points()
    ensures { footprint (inserted [] (text (codes "abc") 3 ∷ [])) ≡ (2, 6) }
{}

/// The children of a branch point, and what their numbers come to.
pub fn children_of_a_branch_point()
    ensures path { raw_ancestor aba_abb_abc_z (nibbles (codes "abd")) ≡ ab_and_a_half }
    ensures children { children aba_abb_abc_z ab_and_a_half
        ≡ nibbles (codes "aba") ∷ nibbles (codes "abb") ∷ nibbles (codes "abc") ∷ [] }
    ensures sum { sum (values (below aba_abb_abc_z ab_and_a_half)) ≡ 61 }
{}

/// Texts go by their bytes, so a letter of two bytes is two of them.
pub fn umlauts_are_two_bytes()
    ensures path { raw_descendant umlauts (nibbles (98 ∷ 195 ∷ 164 ∷ []))
        ≡ Some (nibbles (98 ∷ 195 ∷ 164 ∷ 114 ∷ [])) }
    ensures walk { values (below umlauts (nibbles (98 ∷ 195 ∷ 164 ∷ 114 ∷ [])))
        ≡ 1 ∷ 2 ∷ [] }
{}

/// The longest point above a text that isn't stored is where its neighbours part.
pub fn neighbours_of_hello()
    ensures below { length
        (below wow_hella_hellb (raw_ancestor wow_hella_hellb (nibbles (codes "hello")))) ≡ 2 }
    ensures no_value { number_at (raw_ancestor wow_hella_hellb (nibbles (codes "hello")))
        wow_hella_hellb ≡ None }
{}

/// Texts of digits share their high half; an object's names make a map of texts.
pub fn names_of_objects()
    ensures digits { footprint (inserted [] (text (codes "1") 2 ∷ text (codes "3") 4 ∷ []))
        ≡ (4, 3) }
    ensures nested { footprint
        (inserted [] (text (codes "a") 0 ∷ text (codes "ab") 0 ∷ text (codes "abc") 0 ∷ []))
        ≡ (4, 6) }
{}

/// Three insertions and a removal leave two texts that part.
pub fn commands_leave_two_texts()
    ensures { footprint (removed (nibbles (codes "a")) a_abc_abd) ≡ (4, 7) }
{}

/// Compared nibbles along two texts that part within their last byte.
pub fn searches_of_two_texts()
    ensures stored { compared abc_abd (nibbles (codes "abd")) ≡ 6 }
    ensures above { compared abc_abd (nibbles (codes "ab")) ≡ 4 }
    ensures past { compared abc_abd (nibbles (codes "abe")) ≡ 5 }
    ensures aside { compared abc_abd (nibbles (codes "ac")) ≡ 4 }
    ensures apart { compared abc_abd (nibbles (codes "x")) ≡ 0 }
{}

/// A search tells whether a branch point is left where a text was removed.
pub fn searches_after_removals()
    ensures before { compared a_abc_abd (nibbles (codes "abd")) ≡ 6 }
    ensures after { compared (removed (nibbles (codes "abd")) a_abc_abd) (nibbles (codes "abd"))
        ≡ 6 }
    ensures left_alone { compared
        (removed (nibbles (codes "a"))
        (inserted [] (text (codes "a") 1 ∷ text (codes "p") 2 ∷ [])))
        (nibbles (codes "q")) ≡ 2 }
{}

/// The points nearest to places beside two texts that part within a byte.
pub fn nearest_of_two_texts()
    ensures beside { raw_ancestor abc_abd (nibbles (codes "abx")) ≡ [] }
    ensures past { raw_ancestor abc_abd (nibbles (codes "abe")) ≡ ab_and_a_half }
    ensures below { raw_descendant abc_abd (nibbles (codes "ab")) ≡ Some ab_and_a_half }
{}

/// Long texts that part late, before and after a removal.
pub fn long_texts_part_late()
    ensures twin_removed { footprint (removed (nibbles (letters_a 15 ++ 98 ∷ [])) long_twins)
        ≡ (2, 32) }
    ensures short_and_long { footprint short_and_long ≡ (4, 35) }
    ensures short_removed { footprint (removed (nibbles (codes "ab")) short_and_long) ≡ (2, 34) }
    ensures one_left { footprint (removed (nibbles (codes "abc")) abc_abd) ≡ (2, 6) }
{}

/// A branch point's own path, while the texts below it are removed one by one and one comes back.
pub fn emptied_branch_point()
    ensures point { is_point abc_abd ab_and_a_half ≡ true }
    ensures no_value { number_at ab_and_a_half abc_abd ≡ None }
    ensures own_fragment { fragment abc_abd ab_and_a_half ≡ ab_and_a_half }
    ensures below { length (below (removed (nibbles (codes "abc")) abc_abd) ab_and_a_half) ≡ 1 }
    ensures child { children (removed (nibbles (codes "abc")) abc_abd) ab_and_a_half
        ≡ nibbles (codes "abd") ∷ [] }
    ensures fragment { length
        (fragment (removed (nibbles (codes "abc")) abc_abd) (nibbles (codes "abd"))) ≡ 6 }
    ensures emptied { removed (nibbles (codes "abd")) (removed (nibbles (codes "abc")) abc_abd)
        ≡ nothing }
    ensures no_child { children nothing ab_and_a_half ≡ [] }
    ensures back { footprint (inserted nothing (text (codes "abc") 3 ∷ [])) ≡ (2, 6) }
    ensures no_point { is_point (inserted nothing (text (codes "abc") 3 ∷ [])) ab_and_a_half
        ≡ false }
{}

/// Lists with an odd number of nibbles are as good as others.
pub fn odd_nibbles_partition()
    ensures walk { values odd_nibbles ≡ 0 ∷ 1 ∷ 2 ∷ 3 ∷ 4 ∷ [] }
    ensures footprint { footprint odd_nibbles ≡ (6, 6) }
    ensures compared { compared odd_nibbles (1 ∷ 2 ∷ 5 ∷ []) ≡ 2 }
    ensures absent { removed (1 ∷ 2 ∷ []) odd_nibbles ≡ odd_nibbles }
    ensures removed { footprint (removed (1 ∷ 2 ∷ 4 ∷ []) odd_nibbles) ≡ (4, 5) }
{}

/// A chain of n texts, each with one letter more, has the empty list and the texts as its points,
/// and a prefix for each nibble of the longest: 1,001 points and 2,000 prefixes of 1,000 texts.
pub fn chain_of_texts()
    ensures inserted { (n : ℕ) → inserted [] (chain n) ≡ chain n }
    ensures points { (n : ℕ) → points (chain n) ≡ [] ∷ each (λ e. e.0) (chain n) }
    ensures footprint { (n : ℕ) → footprint (chain n) ≡ (suc n, 2 * n) }
    ensures thousand { footprint (chain 1000) ≡ (1001, 2000) }
{}

/// The first two of the nested texts' walk.
pub fn walk_begins_with_the_shortest()
    ensures { take 2 nested_texts ≡ text (codes "a") 15 ∷ text (codes "ab") 16 ∷ [] }
{}

/// A list of 32 nibbles is short, and one of 33 is not.
pub fn short_lists_end_at_32()
    ensures short { IsShort (nibbles (letters_a 16)) }
    ensures long { IsShort (0 ∷ nibbles (letters_a 16)) → ⊥ }
{}

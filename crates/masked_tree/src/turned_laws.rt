//! Laws of trees whose children's first nibbles are turned over.

ghost use Rattle.masked_tree.specs.Tree.{Tree, IsTreePlaced, IsFullBelow, nodes_in, nibbles_in};
ghost use Rattle.masked_tree.specs.Same.{IsFullRoot, read_entries};
ghost use Rattle.nibble_map.specs.Copies.{IsMapCopy, IsPairClone};
ghost use Rattle.nibble_map.specs.Maps.{PairMap};
ghost use Rattle.masked_tree.specs.Turned.{turned_root};
ghost use Rattle.nibble_map.specs.Turned.{IsTurnedCopy};
ghost use Rattle.std.specs.FinMap as map;
ghost use Rattle.std.specs.Prelude.{◌≡◌};

/// A root whose children's first nibbles are turned over stands at its places and is full where the
/// root is, and has as many nodes and nibbles.
pub fn turning_keeps_the_shape<P>()
    ensures placed { (t : Tree P) → IsTreePlaced t → IsTreePlaced (turned_root t) }
    ensures full { (t : Tree P) → IsTreePlaced t → IsFullBelow t
        → IsFullBelow (turned_root t) }
    ensures nodes { (t : Tree P) → nodes_in (turned_root t).children ≡ nodes_in t.children }
    ensures nibbles { (t : Tree P)
        → nibbles_in (turned_root t).children ≡ nibbles_in t.children }
{}

/// Where the map of a turned root is copied, the copy stores the turned lists of the root's own
/// map, each with a clone of its key and of its value.
pub fn turned_roots_hold_turned_lists<P, K: Clone, V: Clone>()
    ensures { (row : P → K × V) (t : Tree P) (n : PairMap K V) → IsFullRoot t
        → IsMapCopy (IsPairClone K.is_clone V.is_clone)
        (map.from_sorted (read_entries row (turned_root t))) n
        → IsTurnedCopy (IsPairClone K.is_clone V.is_clone)
        (map.from_sorted (read_entries row t)) n }
{}

//! Where a path, and all that goes on from it, stands beside a list.
ghost use Rattle.std.specs.Prelude.{◌≤◌, length};
ghost use Rattle.radix_trie.specs.Walks.{StandsBeside};

use radix_keys::Nibblet;
use radix_nodes::search::compare::compare;

/// Where the lists that a fragment begins stand beside a list.
pub(crate) enum Side {
    /// All of them come before it.
    Before,
    /// The list begins with the fragment. So many of its nibbles lie behind it then.
    On(usize),
    /// All of them come after it.
    After,
}

/// Where the lists that a fragment begins stand beside a list from `depth` on.
pub(crate) fn side_of(fragment: &Nibblet, list: &Nibblet, depth: usize) -> Side
    requires { depth ≤ length list.now }
    ensures { StandsBeside fragment.now list.now depth result }
{
    let same = compare(fragment, list, depth).same;
    let end = depth + same;
    if same == fragment.len() {
        return Side::On(end);
    }
    if end == list.len() {
        return Side::After;
    }
    if fragment.get(same) < list.get(end) {
        Side::Before
    } else {
        Side::After
    }
}

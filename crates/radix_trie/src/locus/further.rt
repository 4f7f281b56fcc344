//! The locus of a path that goes on.
ghost use Rattle.std.specs.Prelude.{◌++◌, ℕ, List};
ghost use Rattle.nibble_map.specs.Maps.{PairMap};
ghost use Rattle.radix_trie.specs.Loci.{IsLocusIn, IsSomeLocus};

use crate::locus::Locus;
use radix_keys::{Nibblet, TrieKey};
use radix_nodes::search::compare::compare;
use radix_nodes::search::queries::shortest;

impl<'a, K: TrieKey, V> Locus<'a, K, V> {
    /// The locus of the path and a list behind it. The lookup goes on from the node that was found.
    pub(crate) fn below(&self, list: &Nibblet) -> Locus<'a, K, V>
        requires { IsSomeLocus K.encoding self.now }
        ensures { (m : PairMap K V) (p : List ℕ) → IsLocusIn K.encoding m p self.now
            → IsLocusIn K.encoding m (p ++ list.now) result }
    {
        let alloc = self.alloc;
        let Some((node, covered)) = self.found else {
            return Locus { alloc, found: None };
        };
        let same = compare(list, &node.fragment, covered).same;
        if covered + same == node.fragment.len() {
            let found = shortest(node, list, same);
            return Locus { alloc, found };
        }
        if same == list.len() {
            let found = Some((node, covered + same));
            return Locus { alloc, found };
        }
        Locus { alloc, found: None }
    }
}

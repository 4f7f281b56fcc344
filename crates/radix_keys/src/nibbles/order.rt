//! The order of lists of nibbles: the order in which a walk of a trie comes to them.
ghost use Rattle.std.specs.Prelude.{Some, refl};
ghost use Rattle.std.specs.Cmp.Lexicographic.{slice_cmp, nat_list_cmp_total, texts_po, texts_ties};
ghost use Rattle.std.specs.Ordering.{nat_cmp};

use crate::nibbles::NibbleVec;
use std::cmp::Ordering;

impl PartialOrd for NibbleVec {
    ghost partial_cmp = { λ x y. Some (slice_cmp nat_cmp x y) };

    ghost laws = { texts_po };

    fn partial_cmp(&self, other: &NibbleVec) -> Option<Ordering> {
        Some(self.cmp(other))
    }
}

impl Ord for NibbleVec {
    ghost cmp = { slice_cmp nat_cmp };

    ghost total = { nat_list_cmp_total };

    ghost matches_partial_cmp = { λ _ _. refl };

    ghost matches_eq = { texts_ties };

    fn cmp(&self, other: &NibbleVec) -> Ordering {
        let same = self.agreement(other, 0);
        if same == self.len() {
            return self.len().cmp(&other.len());
        }
        if same == other.len() {
            return self.len().cmp(&other.len());
        }
        self.get(same).cmp(&other.get(same))
    }
}

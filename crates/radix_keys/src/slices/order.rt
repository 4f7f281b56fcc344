//! The order of borrowed lists of nibbles, which is that of `NibbleVec`.
ghost use Rattle.std.specs.Prelude.{Some, refl, nat_eq};
ghost use Rattle.std.specs.Cmp.{partial_equiv_from_equiv};
ghost use Rattle.std.specs.Cmp.Lexicographic.{pointwise, nat_list_eq_equiv, slice_cmp, nat_list_cmp_total, texts_po, texts_ties};
ghost use Rattle.std.specs.Ordering.{nat_cmp};

use crate::slices::NibbleSlice;
use std::cmp::Ordering;

impl<'a> PartialEq for NibbleSlice<'a> {
    ghost eq = { pointwise nat_eq };

    ghost laws = { partial_equiv_from_equiv nat_list_eq_equiv };

    fn eq(&self, other: &NibbleSlice<'a>) -> bool {
        self.is_odd == other.is_odd && self.bytes == other.bytes
    }
}

impl<'a> Eq for NibbleSlice<'a> {
    ghost laws = { nat_list_eq_equiv };
}

impl<'a> PartialOrd for NibbleSlice<'a> {
    ghost partial_cmp = { λ x y. Some (slice_cmp nat_cmp x y) };

    ghost laws = { texts_po };

    fn partial_cmp(&self, other: &NibbleSlice<'a>) -> Option<Ordering> {
        Some(self.cmp(other))
    }
}

impl<'a> Ord for NibbleSlice<'a> {
    ghost cmp = { slice_cmp nat_cmp };

    ghost total = { nat_list_cmp_total };

    ghost matches_partial_cmp = { λ _ _. refl };

    ghost matches_eq = { texts_ties };

    fn cmp(&self, other: &NibbleSlice<'a>) -> Ordering {
        let same = self.agreement(other, 0);
        if same == self.len() {
            return self.len().cmp(&other.len());
        }
        if same == other.len() {
            return self.len().cmp(&other.len());
        }
        self.get(same).cmp(&other.get(same))
    }
}

//! The order of lists of parts, part by part: the order in which a walk of a trie comes to them.
ghost use Rattle.std.specs.Prelude.{Some, refl, nat_eq};
ghost use Rattle.std.specs.Cmp.{partial_equiv_from_equiv, partial_order_from_agreeing_total};
ghost use Rattle.std.specs.Cmp.Lexicographic.{pointwise, slice_cmp, lists_equiv, lists_total, lists_ties, nat_list_eq_equiv, nat_list_cmp_total, texts_ties};
ghost use Rattle.std.specs.Ordering.{nat_cmp};

use crate::parts::Parts;
use std::cmp::Ordering;

impl PartialEq for Parts {
    ghost eq = { pointwise (pointwise nat_eq) };

    ghost laws = { partial_equiv_from_equiv (lists_equiv nat_list_eq_equiv) };

    fn eq(&self, other: &Parts) -> bool {
        self.bytes == other.bytes
    }
}

impl Eq for Parts {
    ghost laws = { lists_equiv nat_list_eq_equiv };
}

impl PartialOrd for Parts {
    ghost partial_cmp = { λ x y. Some (slice_cmp (slice_cmp nat_cmp) x y) };

    ghost laws = { partial_order_from_agreeing_total (slice_cmp (slice_cmp nat_cmp))
        (lists_total nat_list_cmp_total) (λ _ _. refl) (lists_ties (slice_cmp nat_cmp) texts_ties) };

    fn partial_cmp(&self, other: &Parts) -> Option<Ordering> {
        Some(self.cmp(other))
    }
}

/// The first part that differs decides, by its bytes, and a list comes before what goes on from it.
impl Ord for Parts {
    ghost cmp = { slice_cmp (slice_cmp nat_cmp) };

    ghost total = { lists_total nat_list_cmp_total };

    ghost matches_partial_cmp = { λ _ _. refl };

    ghost matches_eq = { lists_ties (slice_cmp nat_cmp) texts_ties };

    fn cmp(&self, other: &Parts) -> Ordering {
        // A 0 is below each byte of a part, so that what ends a part decides as it should.
        self.bytes.cmp(&other.bytes)
    }
}

//! The order of networks: that in which a walk of a trie comes to them.
ghost use Rattle.std.specs.Prelude.{Some, refl};
ghost use Rattle.std.specs.Cmp.{partial_equiv_from_equiv};
ghost use Rattle.radix_keys.specs.NetworkOrder.{network_eq, network_cmp, network_equiv, network_po, network_total, network_ties};

use crate::networks::{Address, Network};
use std::cmp::Ordering;

impl<A: Address> PartialEq for Network<A> {
    ghost eq = { network_eq A.number };

    ghost laws = { partial_equiv_from_equiv (network_equiv A.number) };

    fn eq(&self, other: &Network<A>) -> bool {
        self.base.to_number() == other.base.to_number() && self.bits == other.bits
    }
}

impl<A: Address> Eq for Network<A> {
    ghost laws = { network_equiv A.number };
}

impl<A: Address> PartialOrd for Network<A> {
    ghost partial_cmp = { λ x y. Some (network_cmp A.number x y) };

    ghost laws = { network_po A.number };

    fn partial_cmp(&self, other: &Network<A>) -> Option<Ordering> {
        Some(self.cmp(other))
    }
}

/// The order of the bases, and of the bits where these are one: that of the encodings, so of a
/// walk.
impl<A: Address> Ord for Network<A> {
    ghost cmp = { network_cmp A.number };

    ghost total = { network_total A.number };

    ghost matches_partial_cmp = { λ _ _. refl };

    ghost matches_eq = { network_ties A.number };

    fn cmp(&self, other: &Network<A>) -> Ordering {
        let bases = self.base.to_number().cmp(&other.base.to_number());
        bases.then(self.bits.cmp(&other.bits))
    }
}

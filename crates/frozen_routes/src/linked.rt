//! The link of a network that comes after others.
ghost use Rattle.std.specs.Prelude.{◌≡◌, ◌↔◌, ◌-◌, ◌^◌, ◌<◌, ◌++◌, [], ◌∷◌, IsTrue, MatchOption, length};
ghost use Rattle.frozen_routes.specs.Routes.{AreRising, AreRowsInOrder, AreUplinks, IsLastHolder, base_numbers, bit_counts};

use crate::directory::Cell;
use crate::rows::{bits_at, first_at};
use crate::search::follow_parents;
use radix_keys::{Address, Network};

/// Whether a network comes after all of some rising ones.
fn follows<A: Address, V>(rows: &[(Network<A>, V)], network: &Network<A>) -> bool
    requires { AreRowsInOrder A.BITS A.number rows.now }
    ensures { IsTrue result ↔ AreRising A.BITS
        (base_numbers A.number rows.now ++ A.number network.now.base ∷ [])
        (bit_counts rows.now ++ network.now.bits ∷ []) }
{
    // Each network has its base, but it's a clause of `new` that says so.
    if Network::new(network.base(), network.bits()).is_none() {
        return false;
    }
    let count = rows.len();
    if count == 0 {
        return true;
    }
    let number = network.base().to_number();
    let last = first_at(rows, count - 1);
    if last != number {
        return last < number;
    }
    bits_at(rows, count - 1) < network.bits()
}

/// The link of a network that comes after all of some linked ones, or None where it doesn't.
pub(crate) fn link_after<A: Address, V>(
    rows: &[(Network<A>, V)],
    parents: &[u32],
    network: &Network<A>,
) -> Option<u32>
    requires few { length rows.now < 2 ^ 32 }
    requires linked { length parents.now ≡ length rows.now }
    requires rising { AreRowsInOrder A.BITS A.number rows.now }
    requires links { AreUplinks A.BITS (base_numbers A.number rows.now) (bit_counts rows.now)
        parents.now }
    ensures { MatchOption result
        (AreRising A.BITS (base_numbers A.number rows.now ++ A.number network.now.base ∷ [])
        (bit_counts rows.now ++ network.now.bits ∷ []) → ⊥)
        (λ link. AreRising A.BITS
        (base_numbers A.number rows.now ++ A.number network.now.base ∷ [])
        (bit_counts rows.now ++ network.now.bits ∷ [])
        × IsLastHolder A.BITS (base_numbers A.number rows.now) (bit_counts rows.now)
        (length rows.now) (A.number network.now.base) link) }
{
    if !follows(rows, network) {
        return None;
    }
    let number = network.base().to_number();
    Some(follow_parents(rows, parents, rows.len(), Cell::NONE, number) as u32)
}

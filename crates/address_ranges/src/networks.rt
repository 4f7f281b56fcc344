//! The networks of a range.
ghost use Rattle.std.specs.Prelude.{◌≡◌, ℕ, ◌+◌, ◌-◌, ◌*◌, ◌^◌, ◌<◌, ◌≤◌, List, [], ◌∷◌, length};
ghost use Rattle.std.specs.Iterator.{YieldsFirstBy, item_count};
ghost use Rattle.std.specs.List.{AllPairs};
ghost use Rattle.radix_keys.specs.Networks.{Net};
ghost use Rattle.address_ranges.specs.Ranges.{AreNetworksOf, EndsBefore, net_by_number, networks_between};

use crate::numbers::{block_end, free_bits};
use radix_keys::{Address, Network};
use std::iter::FusedIterator;
use std::marker::Model;

/// A walk over the networks of a range of addresses, in order. A contract sees it as the list of
/// the networks that are left, each by its base's number.
#[derive(Drop)]
pub struct RangeNetworks<A: Address> {
    /// The first and the last address of what is left.
    rest: Option<(A, A)>,
}

impl<A: Address> Model for RangeNetworks<A> {
    ghost use Rattle.std.specs.Prelude.{ℕ, List, ◌≤◌};
    ghost use Rattle.std.specs.Option.{ForSome};
    ghost use Rattle.radix_keys.specs.Networks.{Net};
    ghost use Rattle.address_ranges.specs.Ranges.{networks_left};

    ghost Value = { List (Net ℕ) };

    ghost view = { λ walk. networks_left A.BITS A.number walk.rest };

    ghost invariant = { λ walk. ForSome walk.rest (λ r. A.number r.0 ≤ A.number r.1) };
}

/// The networks of the range from one address to another, both of them in it: the fewest such that
/// an address is in one of them exactly when it is in the range, in order. There are at most 62 of
/// IPv4 and 254 of IPv6, and none where the first address comes after the last. It allocates
/// nothing, and each step takes constant time.
///
/// # Examples
///
/// ```
/// # use std::net::Ipv4Addr;
/// use nifazombi::address_ranges::networks_of;
///
/// let mut networks = networks_of(Ipv4Addr::new(10, 0, 0, 1), Ipv4Addr::new(10, 0, 0, 6));
/// assert_eq!(networks.next().map(|it| it.to_string()), Some("10.0.0.1/32".to_string()));
/// assert_eq!(networks.next().map(|it| it.to_string()), Some("10.0.0.2/31".to_string()));
/// assert_eq!(networks.count(), 2);
/// ```
pub fn networks_of<A: Address>(first: A, last: A) -> RangeNetworks<A>
    ensures exact { AreNetworksOf A.BITS (A.number first) (A.number last) result }
    ensures least { (others : List (Net ℕ))
        → AreNetworksOf A.BITS (A.number first) (A.number last) others
        → length result ≤ length others }
    ensures rising { AllPairs (EndsBefore A.BITS) result }
    ensures few { 1 < A.BITS → length result ≤ 2 * A.BITS - 2 }
    ensures whole { A.number first ≡ 0 → A.number last + 1 ≡ 2 ^ A.BITS
        → result ≡ record { base = 0; bits = 0 } ∷ [] }
    ensures none { A.number last < A.number first → result ≡ [] }
    ensures walk { result ≡ networks_between A.BITS (A.number first) (A.number last) }
{
    let is_range = first.to_number() <= last.to_number();
    RangeNetworks {
        rest: if is_range { Some((first, last)) } else { None },
    }
}

impl<A: Address> Iterator for RangeNetworks<A> {
    type Item = Network<A>;

    ghost next_gives = { YieldsFirstBy (net_by_number A.number) (λ walk. walk) };

    ghost remaining = { item_count (λ walk. walk) };

    fn next(&mut self) -> Option<Network<A>> {
        let (first, last) = self.rest?;
        let from = first.to_number();
        let to = last.to_number();
        let free = free_bits(from, to);
        let end = block_end(from, free);
        self.rest = if end < to {
            Some((A::from_number(end + 1), last))
        } else {
            None
        };
        Network::new(first, A::BITS - free)
    }
}

impl<A: Address> FusedIterator for RangeNetworks<A> {}

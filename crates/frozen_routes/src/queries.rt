//! What rows are sought by.
ghost use Rattle.std.specs.Prelude.{◌≡◌};
ghost use Rattle.radix_keys.specs.Networks.{Net};

use radix_keys::{Address, Network};

/// What rows are sought by: a network, or an address, which asks as the network of it alone.
pub trait RouteQuery<A: Address> {
    // The network, as a contract sees it.
    ghost net: { Self → Net A };

    /// The network that the query stands for.
    fn network(&self) -> Network<A>
        ensures { result ≡ net self.now };
}

impl<A: Address> RouteQuery<A> for Network<A> {
    ghost net = { λ network. network };

    fn network(&self) -> Network<A> {
        *self
    }
}

impl<A: Address> RouteQuery<A> for A {
    ghost net = { λ address. record { base = address; bits = A.BITS } };

    fn network(&self) -> Network<A> {
        Network::host(*self)
    }
}

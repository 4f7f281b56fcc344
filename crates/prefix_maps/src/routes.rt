//! The calls of a routing table, by networks and addresses.
ghost use Rattle.std.specs.FinMap as finite;
ghost use Rattle.std.specs.Prelude.{◌≡◌, option_map, ⊤};
ghost use Rattle.radix_keys.specs.Networks.{Net};
ghost use Rattle.radix_trie.specs.Views.{pairs_below};
ghost use Rattle.frozen_routes.specs.Routes.{row_of_refs};
ghost use Rattle.frozen_networks.specs.Networks.{network_code, network_map};
ghost use Rattle.prefix_maps.specs.Calls.{route_walk_left};

use crate::calls::PrefixMap;
use frozen_networks::{maps_answer_as_tables, rows_and_maps_go_back};
use frozen_routes::{CommonPrefixes, FrozenRoutes, RouteQuery};
use radix_keys::{Address, Memory, Network};

/// A walk over rows of a routing table, no step of which fails.
#[derive(Drop)]
pub enum RouteWalk<'a, A: Address, V> {
    /// In the order of the networks.
    Rows(&'a [(Network<A>, V)]),
    /// Over the networks that hold all of a query, from the widest to the longest.
    Prefixes(CommonPrefixes<'a, A, V>),
}

/// The row of a network.
fn row_of<'a, A: Address, V>(
    routes: &'a FrozenRoutes<A, V>,
    network: &Network<A>,
) -> Option<(&'a Network<A>, &'a V)>
    ensures { option_map row_of_refs result ≡ finite.get (network_map A.BITS A.number routes.now)
        (network_code A.BITS A.number network.now) }
{
    maps_answer_as_tables::<A, V>();
    routes.rows();
    // For its clause that the base has 0 behind the bits.
    network.base();
    routes.get_key_value(network)
}

/// The rows within a network.
fn rows_of<'a, A: Address, V>(
    routes: &'a FrozenRoutes<A, V>,
    network: &Network<A>,
) -> &'a [(Network<A>, V)]
    ensures { result.now ≡ pairs_below (network_map A.BITS A.number routes.now)
        (network_code A.BITS A.number network.now) }
{
    maps_answer_as_tables::<A, V>();
    routes.rows();
    network.base();
    routes.below(network)
}

/// A routing table is asked by networks, and by addresses, each as the network of it alone: the
/// stored keys that are prefixes of it are the networks that hold it.
impl<'a, A: Address + 'a, V: 'a, Q: RouteQuery<A>> PrefixMap<'a, Q> for &'a FrozenRoutes<A, V> {
    type Key = &'a Network<A>;

    type Value = V;

    type Walk = RouteWalk<'a, A, V>;

    ghost Stored = { Net A };

    ghost stored_key = { λ network. network.now };

    ghost encoding = { network_code A.BITS A.number };

    ghost map = { λ routes. network_map A.BITS A.number routes.now };

    ghost list = { λ query. network_code A.BITS A.number (Q.net query) };

    ghost left = { route_walk_left };

    ghost is_free = { λ _. ⊤ };

    ghost has_free_walks = { ⊤ };

    fn keys_stand_at_their_encodings(self) {
        maps_answer_as_tables::<A, V>();
        self.rows();
    }

    fn len(self) -> usize {
        maps_answer_as_tables::<A, V>();
        self.rows().len()
    }

    fn is_empty(self) -> bool {
        maps_answer_as_tables::<A, V>();
        self.rows().is_empty()
    }

    fn get(self, key: &Q) -> Result<Option<&'a V>, Memory> {
        match row_of(self, &key.network()) {
            Some((_, value)) => Ok(Some(value)),
            None => Ok(None),
        }
    }

    fn get_key_value(self, key: &Q) -> Result<Option<(&'a Network<A>, &'a V)>, Memory> {
        Ok(row_of(self, &key.network()))
    }

    fn contains_key(self, key: &Q) -> Result<bool, Memory> {
        Ok(row_of(self, &key.network()).is_some())
    }

    fn longest_match(self, key: &Q) -> Result<Option<(&'a Network<A>, &'a V)>, Memory> {
        maps_answer_as_tables::<A, V>();
        self.rows();
        key.network().base();
        Ok(FrozenRoutes::longest_match(self, key))
    }

    fn first_key_value(self) -> Option<(&'a Network<A>, &'a V)> {
        rows_and_maps_go_back::<A, V>();
        self.rows();
        FrozenRoutes::first_key_value(self)
    }

    fn last_key_value(self) -> Option<(&'a Network<A>, &'a V)> {
        rows_and_maps_go_back::<A, V>();
        self.rows();
        FrozenRoutes::last_key_value(self)
    }

    fn count_below(self, key: &Q) -> Result<usize, Memory> {
        Ok(rows_of(self, &key.network()).len())
    }

    fn iter(self) -> RouteWalk<'a, A, V> {
        rows_and_maps_go_back::<A, V>();
        RouteWalk::Rows(self.rows())
    }

    fn below(self, key: &Q) -> Result<RouteWalk<'a, A, V>, Memory> {
        Ok(RouteWalk::Rows(rows_of(self, &key.network())))
    }

    fn common_prefixes(self, key: &Q) -> Result<RouteWalk<'a, A, V>, Memory> {
        maps_answer_as_tables::<A, V>();
        self.rows();
        key.network().base();
        Ok(RouteWalk::Prefixes(FrozenRoutes::common_prefixes(self, key)))
    }

    fn next(walk: &mut RouteWalk<'a, A, V>) -> Result<Option<(&'a Network<A>, &'a V)>, Memory> {
        Ok(match walk {
            RouteWalk::Rows(left) => match left.split_first() {
                Some((first, others)) => {
                    *left = others;
                    Some((&first.0, &first.1))
                }
                None => None,
            },
            RouteWalk::Prefixes(left) => left.next(),
        })
    }
}

//! The least list of routes that gives each address the hop that a table gives it.
ghost use Rattle.std.specs.Prelude.{◌≡◌, ◌<◌, IfOk, OnOk, length, map};
ghost use Rattle.std.specs.List.{All, AllZip};
ghost use Rattle.least_routes.specs.Routes.{IsOfWidth};
ghost use Rattle.route_tool.specs.Aggregates.{IsAggregate, route_of};
ghost use Rattle.route_tool.specs.Numbers.{AreKept, AreNumbered, ArePlaces, IsNumberOf, IsRowOf};

use crate::hop::Hop;
use crate::table::{Rest, Routes};
use least_routes::{Route, least};
use radix_trie::{Address, Memory, Network, Trie};
use std::alloc::{AllocError, Global};

/// The number of a hop: its place among the hops so far, of which it is one afterwards.
fn number_of<'a>(
    numbers: &mut Trie<&'a [u8], usize>,
    hops: &mut Vec<&'a Hop>,
    hop: &'a Hop,
) -> Result<usize, Memory>
    requires { ArePlaces numbers.old hops.old.items }
    ensures number { IfOk result (IsNumberOf numbers.new hop.now) }
    ensures kept { OnOk result (AreKept numbers.old numbers.new) }
    ensures places { OnOk result (ArePlaces numbers.new hops.new.items) }
{
    let bytes = hop.as_bytes();
    if let Some(number) = numbers.get(&bytes)? {
        return Ok(*number);
    }
    let number = hops.len();
    hops.push(hop)?;
    match numbers.insert(bytes, number) {
        Ok(_) => Ok(number),
        Err(_) => Err(Memory),
    }
}

/// The routes with their hops as numbers, and the hop of each number.
fn numbered<'a, A: Address>(
    alloc: Global,
    rest: Rest<'a, A>,
) -> Result<(Vec<Route>, Vec<&'a Hop>), Memory>
    ensures { IfOk result (λ p. AreNumbered A.number rest.entry p.0.items p.1.items) }
{
    let mut numbers = Trie::new(alloc);
    let mut hops = Vec::new(alloc);
    let mut routes = Vec::new(alloc);
    let mut rest = rest;
    while let Some((network, hop)) = rest.next()? {
        let hop = number_of(&mut numbers, &mut hops, hop)?;
        routes.push(Route {
            base: network.base().to_number(),
            bits: network.bits(),
            hop,
        })?;
    }
    Ok((routes, hops))
}

/// The network of a route, and the hop of its number.
fn row_of<'a, A: Address>(route: &Route, hops: &[&'a Hop]) -> (Network<A>, &'a Hop)
    requires network { IsOfWidth A.BITS route.now }
    requires hop { route.now.hop < length hops.now }
    ensures { IsRowOf A.number hops.now result route.now }
{
    let network = Network::new(A::from_number(route.base), route.bits);
    (network.unwrap(), hops[route.hop])
}

/// The rows of some routes.
fn rows_of<'a, A: Address>(
    alloc: Global,
    routes: &[Route],
    hops: &[&'a Hop],
) -> Result<Vec<(Network<A>, &'a Hop)>, AllocError>
    requires networks { All (IsOfWidth A.BITS) routes.now }
    requires hops { All (λ r. r.hop < length hops.now) routes.now }
    ensures { IfOk result (λ rows. AllZip (IsRowOf A.number hops.now) rows.items routes.now) }
{
    let mut rows = Vec::with_capacity(alloc, routes.len())?;
    for route in routes {
        rows.push_reserved(row_of(route, hops));
    }
    Ok(rows)
}

/// The least list of routes that gives each address the hop that these routes give it.
pub fn aggregate<A: Address>(
    alloc: Global,
    routes: &Routes<A>,
) -> Result<Vec<(Network<A>, &Hop)>, Memory>
    ensures { IfOk result
        (λ rows. IsAggregate A.BITS A.number routes.now (map route_of rows.items)) }
{
    let (numbered, hops) = numbered(alloc, routes.rest())?;
    let chosen = least(alloc, A::BITS, &numbered)?;
    Ok(rows_of(alloc, &chosen, &hops)?)
}

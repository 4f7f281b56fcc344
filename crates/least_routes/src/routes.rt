//! Routes, and the least list of them.
ghost use Rattle.std.specs.Prelude.{◌≡◌, ◌%◌, ◌^◌, ◌<◌, ◌≤◌, ◌↔◌, IfOk, IsTrue, List, length};
ghost use Rattle.std.specs.List.{All};
ghost use Rattle.least_routes.specs.declared.routes.Route.{Route};
ghost use Rattle.least_routes.specs.Routes.{HasHop, HaveSameAnswers, IsOfWidth, IsTable, IsSortedBefore};

use crate::blocks::Block;
use crate::plans::Plan;
use std::alloc::{AllocError, Global};

/// A network of addresses of some width, by the number of its first address and how many first bits
/// its addresses share, and the hop that they are sent to.
#[derive(Clone, Copy, PartialEq, Eq, Debug)]
pub struct Route {
    pub base: u128,
    pub bits: u8,
    pub hop: usize,
}

/// Whether the number has no more bits than these.
fn has_bits(number: u128, bits: u8) -> bool
    requires { bits ≤ 128 }
    ensures { IsTrue result ↔ (number < 2 ^ bits) }
{
    bits == 128 || number < 1 << bits
}

/// Whether the last bits of the number are 0.
fn ends_in_zeros(number: u128, bits: u8) -> bool
    requires { bits ≤ 128 }
    ensures { IsTrue result ↔ (number % 2 ^ bits ≡ 0) }
{
    if bits == 128 {
        number == 0
    } else {
        number % (1 << bits) == 0
    }
}

impl Route {
    /// Whether the route goes to a network of addresses of `width` bits: its base has 0 in each bit
    /// that its addresses don't share.
    pub fn is_of_width(&self, width: u8) -> bool
        requires { width ≤ 128 }
        ensures { IsTrue result ↔ IsOfWidth width self.now }
    {
        self.bits <= width
            && has_bits(self.base, width)
            && ends_in_zeros(self.base, width - self.bits)
    }

    /// Whether the route stands before the other in a table: its base is less, or the same with
    /// fewer bits.
    pub fn precedes(&self, other: &Route) -> bool
        ensures { IsTrue result ↔ IsSortedBefore self.now other.now }
    {
        self.base < other.base || self.base == other.base && self.bits < other.bits
    }
}

/// Whether the routes go to networks of addresses of `width` bits, in strict order.
pub fn is_table(width: u8, routes: &[Route]) -> bool
    requires { width ≤ 128 }
    ensures { IsTrue result ↔ IsTable width routes.now }
{
    for (i, route) in routes.iter().enumerate() {
        if !route.is_of_width(width) || i > 0 && !routes[i - 1].precedes(route) {
            return false;
        }
    }
    true
}

/// The least list of networks that gives each address the answer of this table, of addresses of
/// `width` bits: the hop of the longest network that holds it. An address without an answer stays
/// without one.
///
/// # Examples
///
/// ```
/// # use nifazombi::{least_routes::{Route, is_table, least}, rattle_std::alloc::Global};
/// let low = Route { base: 0, bits: 1, hop: 7 };
/// let routes = [low, Route { base: 128, ..low }];
/// assert!(is_table(8, &routes));
/// assert_eq!(least(Global, 8, &routes)?.len(), 1);
/// # Ok::<(), Box<dyn std::error::Error>>(())
/// ```
pub fn least(alloc: Global, width: u8, routes: &[Route]) -> Result<Vec<Route>, AllocError>
    requires no_wider { width ≤ 128 }
    requires table { IsTable width routes.now }
    ensures same { IfOk result (λ v. HaveSameAnswers width v.items routes.now) }
    ensures least { IfOk result
        (λ v. (other : List Route) → HaveSameAnswers width other routes.now
        → length v.items ≤ length other) }
    ensures table { IfOk result (λ v. IsTable width v.items) }
    ensures hops { IfOk result (λ v. All (λ r. HasHop routes.now r.hop) v.items) }
{
    let all = Block::all(width);
    let plan = Plan::of(alloc, all, None, routes)?;
    let mut chosen = Vec::new(alloc);
    plan.write(all, None, &mut chosen)?;
    Ok(chosen)
}

//! Plans: for each block of addresses, where a route to it is worth its place.
ghost use Rattle.std.specs.Prelude.{◌≡◌, ◌+◌, ◌-◌, ◌*◌, ◌^◌, ◌<◌, ◌≤◌, ◌++◌, false, IfOk, OnOk, length};
ghost use Rattle.std.specs.List.{All, AllPairs};
ghost use Rattle.std.specs.List.Sorted.{IsNonDecreasing};
ghost use Rattle.least_routes.specs.Plans.{plan_tree};
ghost use Rattle.least_routes.specs.Routes.{IsWithin, IsSortedBefore};
ghost use Rattle.least_routes.specs.Trees.{Suits, IsReady, IsJoint, IsBest, IsSound, has, is_open, hops_of, given, at_root, chosen, last_answer};

use crate::blocks::Block;
use crate::routes::Route;
use std::alloc::{AllocError, Global};

/// What is planned for a block.
#[derive(Drop)]
pub(super) enum Plan {
    /// All its addresses have this one answer.
    One(Option<usize>),

    /// Its halves, where some address has no answer.
    Open(Box<Plan>, Box<Plan>),

    /// Its halves, where each address has an answer, with the hops that cost least when given from
    /// above, in order.
    Closed(Vec<usize>, Box<Plan>, Box<Plan>),
}

/// Whether a hop is among these, which rise.
fn contains(hops: &[usize], hop: usize) -> bool
    requires { IsNonDecreasing hops.now }
    ensures { result ≡ has hops.now hop }
{
    hops.binary_search(&hop).is_ok()
}

/// The routes within the halves of a block.
fn halves<'a>(block: Block, routes: &'a [Route]) -> (&'a [Route], &'a [Route])
    requires some { 0 < block.free }
    requires within { All (IsWithin block.width block.free block.number) routes.now }
    requires narrow { All (λ r. block.width - r.bits < block.free) routes.now }
    requires order { AllPairs IsSortedBefore routes.now }
    ensures parts { routes.now ≡ result.0.now ++ result.1.now }
    ensures low { All (IsWithin block.width (block.free - 1) (2 * block.number)) result.0.now }
    ensures high { All (IsWithin block.width (block.free - 1) (2 * block.number + 1)) result.1.now }
    ensures low_order { AllPairs IsSortedBefore result.0.now }
    ensures high_order { AllPairs IsSortedBefore result.1.now }
{
    let middle = block.high().first();
    routes.split_at(routes.partition_point(|route| route.base < middle))
}

impl Plan {
    /// Whether some address of the block has no answer.
    fn is_open(&self) -> bool
        ensures { result ≡ is_open (plan_tree self.now) }
    {
        matches!(self, Plan::One(None) | Plan::Open(_, _))
    }

    /// Whether a hop from above is among the best.
    fn has(&self, hop: usize) -> bool
        requires { IsNonDecreasing (hops_of (plan_tree self.now)) }
        ensures { result ≡ has (hops_of (plan_tree self.now)) hop }
    {
        match self {
            Plan::One(Some(only)) => *only == hop,
            Plan::Closed(hops, _, _) => contains(hops, hop),
            _ => false,
        }
    }

    /// The hops that cost least when given from above.
    fn hops(&self, alloc: Global) -> Result<Vec<usize>, AllocError>
        ensures { IfOk result (λ v. v.items ≡ hops_of (plan_tree self.now)) }
    {
        match self {
            Plan::One(Some(only)) => [*only].to_vec(alloc),
            Plan::Closed(hops, _, _) => hops.clone(),
            _ => Ok(Vec::new(alloc)),
        }
    }

    /// The hops that are best for a block of these two halves.
    fn best_hops(alloc: Global, low: &Plan, high: &Plan) -> Result<Vec<usize>, AllocError>
        requires low_some { 0 < length (hops_of (plan_tree low.now)) }
        requires low_rise { IsNonDecreasing (hops_of (plan_tree low.now)) }
        requires high_rise { IsNonDecreasing (hops_of (plan_tree high.now)) }
        ensures { IfOk result
            (λ v. IsBest (hops_of (plan_tree low.now)) (hops_of (plan_tree high.now)) v.items) }
    {
        let mut both = low.hops(alloc)?;
        both.retain(|hop| high.has(*hop));
        if !both.is_empty() {
            return Ok(both);
        }
        let mut either = low.hops(alloc)?;
        either.extend_from_slice(&high.hops(alloc)?)?;
        either.sort_unstable();
        Ok(either)
    }

    /// The plan of a block of these two halves.
    fn join(alloc: Global, low: Plan, high: Plan) -> Result<Plan, AllocError>
        requires low_ready { IsReady (plan_tree low) }
        requires high_ready { IsReady (plan_tree high) }
        ensures { IfOk result (λ v. IsJoint (plan_tree low) (plan_tree high) (plan_tree v)) }
    {
        if low.is_open() || high.is_open() {
            return Ok(Plan::Open(Box::new(alloc, low)?, Box::new(alloc, high)?));
        }
        let hops = Plan::best_hops(alloc, &low, &high)?;
        Ok(Plan::Closed(hops, Box::new(alloc, low)?, Box::new(alloc, high)?))
    }

    /// The plan of a block under what stands above it, for these routes within it.
    pub(super) fn of(
        alloc: Global,
        block: Block,
        above: Option<usize>,
        routes: &[Route],
    ) -> Result<Plan, AllocError>
        requires within { All (IsWithin block.width block.free block.number) routes.now }
        requires order { AllPairs IsSortedBefore routes.now }
        ensures { IfOk result (λ v. Suits block.free block.number
            (last_answer block.width above routes.now) (plan_tree v)) }
    {
        let Some((first, others)) = routes.split_first() else {
            return Ok(Plan::One(above));
        };
        if first.bits == block.bits() {
            return Plan::of(alloc, block, Some(first.hop), others);
        }
        let (lower, upper) = halves(block, routes);
        let low = Plan::of(alloc, block.low(), above, lower)?;
        let high = Plan::of(alloc, block.high(), above, upper)?;
        Plan::join(alloc, low, high)
    }

    /// Writes the route to the block where the hop from above is none of the best, and answers the
    /// hop that stands below.
    fn write_root(
        hops: &[usize],
        block: Block,
        above: Option<usize>,
        out: &mut Vec<Route>,
    ) -> Result<usize, AllocError>
        requires some { 0 < length hops.now }
        requires rise { IsNonDecreasing hops.now }
        ensures given { IfOk result (λ hop. hop ≡ given hops.now above) }
        ensures written { OnOk result (out.new.items
            ≡ out.old.items ++ at_root block.width block.free block.number hops.now above) }
    {
        if let Some(hop) = above
            && contains(hops, hop)
        {
            return Ok(hop);
        }
        let hop = hops[0];
        out.push(Route {
            base: block.first(),
            bits: block.bits(),
            hop,
        })?;
        Ok(hop)
    }

    /// Writes the routes that are chosen for the block under a hop from above.
    pub(super) fn write(
        &self,
        block: Block,
        above: Option<usize>,
        out: &mut Vec<Route>,
    ) -> Result<(), AllocError>
        requires { IsSound block.free (plan_tree self.now) }
        ensures { OnOk result (out.new.items ≡ out.old.items
            ++ chosen block.width block.free block.number (plan_tree self.now) above) }
    {
        match self {
            Plan::One(None) => Ok(()),
            Plan::One(Some(hop)) => {
                Plan::write_root(&[*hop], block, above, out)?;
                Ok(())
            }
            Plan::Open(low, high) => {
                low.write(block.low(), None, out)?;
                high.write(block.high(), None, out)
            }
            Plan::Closed(hops, low, high) => {
                let hop = Plan::write_root(hops, block, above, out)?;
                low.write(block.low(), Some(hop), out)?;
                high.write(block.high(), Some(hop), out)
            }
        }
    }
}

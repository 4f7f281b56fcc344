//! Where the longest network changes from one address to the next.
ghost use Rattle.std.specs.Prelude.{◌≡◌, ◌+◌, ◌-◌, ◌<◌, ◌≤◌, ℕ, MatchOption, None, Option, Some, slice_index};
ghost use Rattle.frozen_routes.specs.Routes.{AreUpTo, IsLastHolder};
ghost use Rattle.flat_routes.specs.Images.{AreLinkedTo, HasNoTurn, IsKnownAt, IsRowPlan, IsTurn, bases, links, sizes, width};
ghost use Rattle.flat_routes.specs.SpanLaws.{IsEnd, earlier};

use crate::head::RowPlan;
use crate::rows::{bits_at, bits_of, first_at, without_last};
use crate::search::follow_on;

/// What is known at an address: how many networks begin by it, and the last of these that holds it,
/// by its index and one more, or 0.
#[derive(Clone, Copy)]
pub(crate) struct Begun {
    pub(crate) count: usize,
    pub(crate) around: usize,
}

impl Begun {
    /// What is known where no network has begun.
    pub(crate) const NONE: Begun = Begun {
        count: 0,
        around: 0,
    };
}

/// How many networks begin by an address, by its number, where the first `from` do.
fn count_up_to(image: &[u8], wide: bool, plan: RowPlan, from: usize, number: u128) -> usize
    requires plan { IsRowPlan wide image.now plan }
    requires linked { AreLinkedTo (width wide) (bases wide image.now) (sizes wide image.now)
        (links wide image.now) plan.rows }
    requires within { from ≤ plan.rows }
    requires before { (k : ℕ) → k < from → slice_index (bases wide image.now) k ≤ number }
    ensures least { from ≤ result }
    ensures most { result ≤ plan.rows }
    ensures count { AreUpTo (bases wide image.now) number result }
{
    let mut count = from;
    while count < plan.rows && first_at(image, wide, plan, count) <= number {
        count += 1;
    }
    count
}

/// What is known at an address, by its number, where `before` is known at one that isn't behind it.
/// From address to address all steps together are no more than there are addresses and networks.
pub(crate) fn begun_at(
    image: &[u8],
    wide: bool,
    plan: RowPlan,
    before: Begun,
    number: u128,
) -> Begun
    requires plan { IsRowPlan wide image.now plan }
    requires linked { AreLinkedTo (width wide) (bases wide image.now) (sizes wide image.now)
        (links wide image.now) plan.rows }
    requires within { before.count ≤ plan.rows }
    requires around { before.around ≤ before.count }
    requires before { (k : ℕ) → k < before.count → slice_index (bases wide image.now) k ≤ number }
    ensures most { result.count ≤ plan.rows }
    ensures around_within { result.around ≤ result.count }
    ensures begun { (a : ℕ) → a ≤ number
        → ((k : ℕ) → k < before.count → slice_index (bases wide image.now) k ≤ a)
        → IsLastHolder (width wide) (bases wide image.now) (sizes wide image.now) before.count a
        before.around
        → IsKnownAt (width wide) (bases wide image.now) (sizes wide image.now) number result }
{
    let count = count_up_to(image, wide, plan, before.count, number);
    let around = follow_on(image, wide, plan, count, before, number);
    Begun { count, around }
}

/// The first address of the network at an index, or None where there is no such network.
fn next_first(image: &[u8], wide: bool, plan: RowPlan, at: usize) -> Option<u128>
    requires plan { IsRowPlan wide image.now plan }
    requires within { at ≤ plan.rows }
    ensures { MatchOption result (at ≡ plan.rows)
        (λ first. (at < plan.rows) × (first ≡ slice_index (bases wide image.now) at)) }
{
    if at == plan.rows {
        return None;
    }
    Some(first_at(image, wide, plan, at))
}

/// The address behind the last one of the network whose index and one more is `around`, or None
/// where that is the last of all, and at 0.
fn end_at(image: &[u8], wide: bool, plan: RowPlan, around: usize) -> Option<u128>
    requires plan { IsRowPlan wide image.now plan }
    requires linked { AreLinkedTo (width wide) (bases wide image.now) (sizes wide image.now)
        (links wide image.now) plan.rows }
    requires within { around ≤ plan.rows }
    ensures { IsEnd (width wide) (bases wide image.now) (sizes wide image.now) around result }
{
    if around == 0 {
        return None;
    }
    let all = bits_of(wide);
    let rest = all - bits_at(image, wide, plan, around - 1);
    if rest == 128 {
        return None;
    }
    let end = first_at(image, wide, plan, around - 1).checked_add(1u128 << rest)?;
    if without_last(end, all) != 0 {
        return None;
    }
    Some(end)
}

/// The smaller one of two numbers, or the one that there is.
fn earlier(one: Option<u128>, other: Option<u128>) -> Option<u128>
    ensures { result ≡ earlier one other }
{
    match (one, other) {
        (Some(a), Some(b)) => Some(a.min(b)),
        (Some(a), None) => Some(a),
        (None, b) => b,
    }
}

/// The first address from which on another network is the longest one, or none, where `begun` is
/// known of an address before it; or None where there is no such address.
pub(crate) fn turn(image: &[u8], wide: bool, plan: RowPlan, begun: Begun) -> Option<u128>
    requires plan { IsRowPlan wide image.now plan }
    requires linked { AreLinkedTo (width wide) (bases wide image.now) (sizes wide image.now)
        (links wide image.now) plan.rows }
    requires within { begun.count ≤ plan.rows }
    requires around { begun.around ≤ begun.count }
    ensures turn { (a : ℕ)
        → IsKnownAt (width wide) (bases wide image.now) (sizes wide image.now) a begun
        → MatchOption result
        (HasNoTurn (width wide) (bases wide image.now) (sizes wide image.now) a begun.around)
        (IsTurn (width wide) (bases wide image.now) (sizes wide image.now) a begun.around) }
{
    let next = next_first(image, wide, plan, begun.count);
    let end = end_at(image, wide, plan, begun.around);
    earlier(next, end)
}

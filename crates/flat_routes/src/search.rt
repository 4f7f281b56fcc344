//! Searches in an image. Each is total: whatever the bytes are, it ends, and reads none but them.
ghost use Rattle.std.specs.Prelude.{◌≡◌, ◌+◌, ◌-◌, ◌/◌, ◌^◌, ◌<◌, ◌≤◌, ℕ, SomeIff, length, min, slice_index};
ghost use Rattle.sorted_tables.specs.Tables.{IsPartedAt};
ghost use Rattle.flat_routes.specs.SpanLaws.{AreCounted, IsCountedBy};
ghost use Rattle.frozen_routes.specs.Routes.{IsLastAround, IsLastHolder, IsLongestRow};
ghost use Rattle.flat_routes.specs.Images.{AreLinkedTo, IsImage, IsPlanOf, IsRowPlan, bases, found_row, image_rows, links, sizes, start_in, width};

use crate::columns::Rows;
use crate::head::{CellPlan, Plan, RowPlan};
use crate::rows::{bits_at, bits_of, link_at};
use crate::spans::{Spans, answer_at, cell_at, start_at};
use crate::turns::Begun;
use sorted_columns::count_in_front;
use std::hint::select_unpredictable;

/// The block that an address lies in, the last one behind it, or None in front of the first. Where
/// 64 bits count both addresses, as those of IPv4, it takes no arithmetic of more.
#[inline(always)]
fn block_at(wide: bool, cells: CellPlan, last: usize, number: u128) -> Option<usize>
    requires rest { cells.rest < 128 }
    ensures { SomeIff result (cells.low ≤ number)
        (min ((number - cells.low) / 2 ^ cells.rest) last) }
{
    if !wide && cells.rest < 64 {
        if let (Ok(number), Ok(low)) = (u64::try_from(number), u64::try_from(cells.low)) {
            let behind = number.checked_sub(low)?;
            return Some((behind >> cells.rest).min(last as u64) as usize);
        }
    }
    let behind = number.checked_sub(cells.low)?;
    Some((behind >> cells.rest).min(last as u128) as usize)
}

/// Between which counts that of the spans lies that begin by an address: those that begin by the
/// first address of its block, and by the first one of the next block. In front of the first block
/// they are none, and behind the last one all; both where there is no cell.
#[inline(always)]
fn block_of(image: &[u8], wide: bool, plan: Plan, number: u128) -> (usize, usize)
    requires plan { IsPlanOf wide image.now plan }
    ensures order { result.0 ≤ result.1 }
    ensures within { result.1 ≤ plan.spans.count }
    ensures below { IsImage wide image.now → (k : ℕ) → k < result.0
        → start_in wide image.now k ≤ number }
    ensures above { IsImage wide image.now → (k : ℕ) → result.1 ≤ k → k < plan.spans.count
        → number < start_in wide image.now k }
{
    let (spans, cells) = (plan.spans.count, plan.cells);
    let Some(last) = cells.count.checked_sub(1) else {
        return (0, spans);
    };
    let Some(block) = block_at(wide, cells, last, number) else {
        return (0, spans.min(cell_at(image, cells, 0) + 1));
    };
    let from = cell_at(image, cells, block) + 1;
    let to = if block == last {
        spans
    } else {
        cell_at(image, cells, block + 1) + 1
    };
    if from > to || to > spans {
        return (0, spans);
    }
    (from, to)
}

/// The last of the first `from` networks that holds an address, by its index and one more, or 0
/// where there is none; the floor says so of as many as it counts.
#[inline(always)]
pub(crate) fn follow_parents(
    image: &[u8],
    wide: bool,
    plan: RowPlan,
    from: usize,
    floor: Begun,
    number: u128,
) -> usize
    requires plan { IsRowPlan wide image.now plan }
    requires within { from ≤ plan.rows }
    requires floor { floor.count ≤ from }
    requires around { floor.around ≤ floor.count }
    ensures within { result ≤ from }
    ensures last { AreLinkedTo (width wide) (bases wide image.now) (sizes wide image.now)
        (links wide image.now) from
        → ((k : ℕ) → k < from → slice_index (bases wide image.now) k ≤ number)
        → IsLastHolder (width wide) (bases wide image.now) (sizes wide image.now) floor.count
        number floor.around
        → IsLastHolder (width wide) (bases wide image.now) (sizes wide image.now) from number
        result }
{
    let rows = Rows::first(image, wide, plan, from);
    sorted_columns::follow_parents(&rows, &number, from, floor.count, floor.around)
}

/// The last of the first `from` networks that holds an address, where `before` says it of an
/// address that isn't behind this one. It goes up from there: from address to address all steps
/// together are no more than there are addresses and networks.
pub(crate) fn follow_on(
    image: &[u8],
    wide: bool,
    plan: RowPlan,
    from: usize,
    before: Begun,
    number: u128,
) -> usize
    requires plan { IsRowPlan wide image.now plan }
    requires within { from ≤ plan.rows }
    requires order { before.count ≤ from }
    requires around { before.around ≤ before.count }
    ensures within { result ≤ from }
    ensures last { (a : ℕ) → a ≤ number
        → AreLinkedTo (width wide) (bases wide image.now) (sizes wide image.now)
        (links wide image.now) from
        → ((k : ℕ) → k < before.count → slice_index (bases wide image.now) k ≤ a)
        → ((k : ℕ) → k < from → slice_index (bases wide image.now) k ≤ number)
        → IsLastHolder (width wide) (bases wide image.now) (sizes wide image.now) before.count
        a before.around
        → IsLastHolder (width wide) (bases wide image.now) (sizes wide image.now) from number
        result }
{
    let around = follow_parents(image, wide, plan, before.around, Begun::NONE, number);
    let floor = Begun {
        count: before.count,
        around,
    };
    follow_parents(image, wide, plan, from, floor, number)
}

/// Between which counts the searches of eight addresses begin, and how many spans each goes over:
/// as many as the longest of them, so that all take the same steps.
#[inline(always)]
fn blocks_of(image: &[u8], wide: bool, plan: Plan, numbers: &[u128; 8]) -> ([usize; 8], usize)
    requires plan { IsPlanOf wide image.now plan }
    ensures length { length result.0 ≡ 8 }
    ensures bounds { AreCounted (start_in wide image.now) (IsImage wide image.now)
        plan.spans.count numbers.now result.0 result.1 }
{
    let mut from = [0usize; 8];
    let mut left = 0;
    for i in 0..8 {
        let (lo, hi) = block_of(image, wide, plan, numbers[i]);
        from[i] = lo;
        left += (hi - lo).saturating_sub(left);
    }
    for at in 0..8 {
        from[at] = from[at].min(plan.spans.count - left);
    }
    (from, left)
}

/// One step of the search of an address among the spans from one on: how many begin by it, or up to
/// half as many more.
#[inline(always)]
fn halved(image: &[u8], wide: bool, plan: Plan, number: u128, from: usize, left: usize) -> usize
    requires plan { IsPlanOf wide image.now plan }
    requires some { 0 < left }
    requires within { from + left ≤ plan.spans.count }
    ensures { IsCountedBy (start_in wide image.now) (IsImage wide image.now) plan.spans.count
        number from left
        → IsCountedBy (start_in wide image.now) (IsImage wide image.now) plan.spans.count number
        result (left / 2) }
{
    let half = left - left / 2;
    let is_front = start_at(image, wide, plan.spans, from + half - 1) <= number;
    select_unpredictable(is_front, from + half, from)
}

/// How many spans begin by each of eight addresses, whose searches go side by side.
#[inline(always)]
fn counts_of(image: &[u8], wide: bool, plan: Plan, numbers: &[u128; 8]) -> [usize; 8]
    requires plan { IsPlanOf wide image.now plan }
    ensures length { length result ≡ 8 }
    ensures counts { AreCounted (start_in wide image.now) (IsImage wide image.now)
        plan.spans.count numbers.now result 0 }
{
    let (mut from, mut left) = blocks_of(image, wide, plan, numbers);
    while left > 0 {
        for i in 0..8 {
            from[i] = halved(image, wide, plan, numbers[i], from[i], left);
        }
        left /= 2;
    }
    from
}

/// The answer of the span before a count, or 0 before the first one.
#[inline(always)]
fn answer_before(image: &[u8], wide: bool, plan: Plan, count: usize) -> usize
    requires plan { IsPlanOf wide image.now plan }
    requires within { count ≤ plan.spans.count }
    ensures within { result ≤ plan.rows.rows }
    ensures row { (a : ℕ) → a < 2 ^ width wide → IsImage wide image.now
        → IsPartedAt (λ k. start_in wide image.now k ≤ a)
        (λ k. start_in wide image.now k ≤ a → ⊥) plan.spans.count count
        → IsLongestRow (width wide) (λ n. n) (image_rows wide image.now) a
        (found_row wide image.now result) }
    ensures last { (a : ℕ) → a < 2 ^ width wide → IsImage wide image.now
        → IsPartedAt (λ k. start_in wide image.now k ≤ a)
        (λ k. start_in wide image.now k ≤ a → ⊥) plan.spans.count count
        → IsLastHolder (width wide) (bases wide image.now) (sizes wide image.now) plan.rows.rows
        a result }
{
    if count == 0 {
        return 0;
    }
    let found = answer_at(image, wide, plan.spans, count - 1);
    if found > plan.rows.rows {
        return 0;
    }
    found
}

/// Puts the rows of the longest networks that hold eight addresses, as `find` finds each of them,
/// into `found` from a place on.
#[inline(always)]
pub(crate) fn find_eight(
    image: &[u8],
    wide: bool,
    plan: Plan,
    numbers: &[u128; 8],
    found: &mut [u32],
    at: usize,
)
    requires plan { IsPlanOf wide image.now plan }
    requires fit { (i : ℕ) → i < 8 → slice_index numbers.now i < 2 ^ width wide }
    requires room { at + 8 ≤ length found.old }
    ensures within { (k : ℕ) → at ≤ k → k < at + 8
        → slice_index found.new k ≤ plan.rows.rows }
    ensures rows { IsImage wide image.now → (k : ℕ) → at ≤ k → k < at + 8
        → IsLongestRow (width wide) (λ n. n) (image_rows wide image.now)
        (slice_index numbers.now (k - at)) (found_row wide image.now (slice_index found.new k)) }
    ensures before { (k : ℕ) → k < at → slice_index found.new k ≡ slice_index found.old k }
    ensures behind { (k : ℕ) → at + 8 ≤ k → slice_index found.new k ≡ slice_index found.old k }
    ensures length { length found.new ≡ length found.old }
{
    let counts = counts_of(image, wide, plan, numbers);
    for i in 0..8 {
        found[at + i] = answer_before(image, wide, plan, counts[i]) as u32;
    }
}

/// The row of the longest network that holds an address, by its index and one more, or 0 where none
/// does.
#[inline(always)]
pub(crate) fn find(image: &[u8], wide: bool, plan: Plan, number: u128) -> usize
    requires plan { IsPlanOf wide image.now plan }
    requires fits { number < 2 ^ width wide }
    ensures within { result ≤ plan.rows.rows }
    ensures row { IsImage wide image.now → IsLongestRow (width wide) (λ n. n)
        (image_rows wide image.now) number (found_row wide image.now result) }
    ensures last { IsImage wide image.now → IsLastHolder (width wide) (bases wide image.now)
        (sizes wide image.now) plan.rows.rows number result }
{
    let (from, to) = block_of(image, wide, plan, number);
    let spans = Spans::of(image, wide, plan.spans);
    let count = count_in_front(&spans, &number, from, to);
    answer_before(image, wide, plan, count)
}

/// The row of the longest network that holds all of another one, by its index and one more, or 0
/// where none does.
///
/// From that of its first address it goes up the links for as long as they have more bits than it.
/// None has more than an address alone.
#[inline(always)]
pub(crate) fn find_around(image: &[u8], wide: bool, plan: Plan, number: u128, bits: u32) -> usize
    requires plan { IsPlanOf wide image.now plan }
    requires fits { number < 2 ^ width wide }
    ensures within { result ≤ plan.rows.rows }
    ensures last { IsImage wide image.now → IsLastAround (width wide) (bases wide image.now)
        (sizes wide image.now) plan.rows.rows number bits result }
{
    let mut at = find(image, wide, plan, number);
    'up: while bits < bits_of(wide) && at > 0 && bits_at(image, wide, plan.rows, at - 1) > bits {
        let link = link_at(image, wide, plan.rows, at - 1) as usize;
        if link >= at {
            return 0;
        }
        at = link;
    }
    at
}

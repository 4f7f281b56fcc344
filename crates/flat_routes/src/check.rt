//! Whether bytes are an image, and what is wrong where they aren't.
ghost use Rattle.std.specs.Prelude.{◌≡◌, ◌↔◌, ◌+◌, ◌*◌, ◌-◌, ◌%◌, ◌^◌, ◌<◌, ◌≤◌, ℕ, IfErr, IfOk, IfSome, IsOk, IsTrue, MatchOption, OnOk, length, slice_index};
ghost use Rattle.radix_keys.specs.Networks.{IsBase};
ghost use Rattle.frozen_routes.specs.Routes.{IsEarlier, IsLastHolder};
ghost use Rattle.flat_routes.specs.Faults.{AreRowsRight, IsCellRight, IsRouteFault, IsRoutePart, IsRowsPart, IsSpanRightIn, IsSpansPart};
ghost use Rattle.flat_routes.specs.Images.{AreLinkedTo, AreSpansInside, IsKnownAt, IsImage, IsNext, IsPlanOf, IsRowPlan, bases, links, sizes, start_in, begin_of, width};

use crate::head::{CellPlan, Plan, RowPlan, SpanPlan, mark_of, plan_of, size_of_rows, start_size};
use crate::rows::{bits_at, bits_of, first_at, link_at};
use crate::search::follow_parents;
use crate::spans::{answer_at, cell_at, start_at};
use crate::turns::{Begun, begun_at, turn};
use image_parts::{ImageError, part_at, u32_at, u64_at};

/// Whether a network of so many bits begins at an address.
pub(crate) fn is_base(wide: bool, bits: u32, first: u128) -> bool
    requires { first < 2 ^ width wide }
    ensures { IsTrue result ↔ IsBase (width wide) bits first }
{
    let all = bits_of(wide);
    if bits > all {
        return false;
    }
    if all - bits == 128 {
        return first == 0;
    }
    first % (1u128 << (all - bits)) == 0
}

/// Whether one network comes before another one: by the first addresses, and of one first address
/// by their bits.
pub(crate) fn is_earlier(first: u128, bits: u32, next_first: u128, next_bits: u32) -> bool
    ensures { IsTrue result ↔ IsEarlier first bits next_first next_bits }
{
    if first != next_first {
        return first < next_first;
    }
    bits < next_bits
}

/// Whether the network at an index is one, and comes after the one before it.
pub(crate) fn is_next(image: &[u8], wide: bool, plan: RowPlan, at: usize) -> bool
    requires plan { IsRowPlan wide image.now plan }
    requires within { at < plan.rows }
    ensures { IsTrue result
        ↔ IsNext (width wide) (bases wide image.now) (sizes wide image.now) at }
{
    let first = first_at(image, wide, plan, at);
    let bits = bits_at(image, wide, plan, at);
    if !is_base(wide, bits, first) {
        return false;
    }
    if at == 0 {
        return true;
    }
    let last = first_at(image, wide, plan, at - 1);
    is_earlier(last, bits_at(image, wide, plan, at - 1), first, bits)
}

/// Whether the span at an index begins before the next one, and the first at 0.
fn is_in_order(image: &[u8], wide: bool, spans: SpanPlan, at: usize) -> bool
    requires inside { AreSpansInside wide image.now spans }
    requires within { at < spans.count }
    ensures { IsTrue result ↔ ((at ≡ 0 → begin_of wide spans image.now 0 ≡ 0)
        × (at + 1 < spans.count
        → begin_of wide spans image.now at < begin_of wide spans image.now (at + 1))) }
{
    let start = start_at(image, wide, spans, at);
    if at == 0 && start != 0 {
        return false;
    }
    at + 1 == spans.count || start < start_at(image, wide, spans, at + 1)
}

/// Whether the span at an index ends by an address, if there is one.
fn ends_by(image: &[u8], wide: bool, spans: SpanPlan, at: usize, end: Option<u128>) -> bool
    requires inside { AreSpansInside wide image.now spans }
    requires within { at < spans.count }
    ensures { IsTrue result ↔ IfSome end (λ t. (at + 1 < spans.count)
        × (begin_of wide spans image.now (at + 1) ≤ t)) }
{
    let Some(end) = end else {
        return true;
    };
    at + 1 < spans.count && start_at(image, wide, spans, at + 1) <= end
}

/// What is known at the start of the span at an index, or None where the span isn't right; `before`
/// is known at the start of the span before it.
fn right_span(image: &[u8], wide: bool, plan: Plan, at: usize, before: Begun) -> Option<Begun>
    requires plan { IsPlanOf wide image.now plan }
    requires within { at < plan.spans.count }
    requires linked { AreLinkedTo (width wide) (bases wide image.now) (sizes wide image.now)
        (links wide image.now) plan.rows.rows }
    requires count { before.count ≤ plan.rows.rows }
    requires order { start_in wide image.now (at - 1) ≤ start_in wide image.now at }
    requires begun { (k : ℕ) → k < before.count
        → slice_index (bases wide image.now) k ≤ start_in wide image.now (at - 1) }
    requires last { IsLastHolder (width wide) (bases wide image.now) (sizes wide image.now)
        before.count (start_in wide image.now (at - 1)) before.around }
    ensures right { MatchOption result (IsSpanRightIn wide image.now at → ⊥)
        (λ _. IsSpanRightIn wide image.now at) }
    ensures count { IfSome result (λ begun. begun.count ≤ plan.rows.rows) }
    ensures begun { IfSome result (λ begun. IsKnownAt (width wide) (bases wide image.now)
        (sizes wide image.now) (start_in wide image.now at) begun) }
{
    if !is_in_order(image, wide, plan.spans, at) {
        return None;
    }
    let start = start_at(image, wide, plan.spans, at);
    let begun = begun_at(image, wide, plan.rows, before, start);
    if begun.around != answer_at(image, wide, plan.spans, at) {
        return None;
    }
    let end = turn(image, wide, plan.rows, begun);
    if !ends_by(image, wide, plan.spans, at, end) {
        return None;
    }
    Some(begun)
}

/// The first address of the block at an index, or None where a `u128` doesn't count it.
fn block_start(cells: CellPlan, at: usize) -> Option<u128>
    requires { cells.rest < 128 }
    ensures { MatchOption result (2 ^ 128 ≤ cells.low + at * 2 ^ cells.rest)
        (λ start. start ≡ cells.low + at * 2 ^ cells.rest) }
{
    let behind = (at as u128).checked_mul(1u128 << cells.rest)?;
    cells.low.checked_add(behind)
}

/// Whether the cell at an index leads to the span of the first address of its block.
fn is_cell(image: &[u8], wide: bool, plan: Plan, at: usize) -> bool
    requires plan { IsPlanOf wide image.now plan }
    requires within { at < plan.cells.count }
    ensures { IsTrue result ↔ IsCellRight wide image.now at }
{
    let span = cell_at(image, plan.cells, at);
    if span >= plan.spans.count {
        return false;
    }
    let Some(first) = block_start(plan.cells, at) else {
        // No address is behind the last one.
        return span + 1 == plan.spans.count;
    };
    start_at(image, wide, plan.spans, span) <= first
        && (span + 1 == plan.spans.count || first < start_at(image, wide, plan.spans, span + 1))
}

/// Whether the part listed first is that of the rows.
fn is_rows_part(image: &[u8], wide: bool) -> bool
    requires { 88 ≤ length image.now }
    ensures { IsTrue result ↔ IsRowsPart wide image.now }
{
    let Some((_, size)) = part_at(image, 16, 1) else {
        return false;
    };
    u32_at(image, 20) == 0 && size == size_of_rows(wide, u32_at(image, 8) as usize)
}

/// Whether the part listed second is that of the spans, of which there are some.
fn is_spans_part(image: &[u8], wide: bool) -> bool
    requires { 88 ≤ length image.now }
    ensures { IsTrue result ↔ IsSpansPart wide image.now }
{
    let Some((_, size)) = part_at(image, 40, 2) else {
        return false;
    };
    let detail = u32_at(image, 44) as usize;
    let start = start_size(wide, detail == 8);
    detail == start && size >= start + 4 && size % (start + 4) == 0
}

/// Where the parts of an image lie, by its head alone.
pub(crate) fn check_head(image: &[u8], wide: bool) -> Result<Plan, ImageError>
    ensures plan { IfOk result (IsPlanOf wide image.now) }
    ensures parts { OnOk result ((j : ℕ) → j < 3 → IsRoutePart wide image.now j) }
    ensures fault { IfErr result (IsRouteFault wide image.now) }
{
    if image.len() < 88 {
        return Err(ImageError::Short);
    }
    let (own, mark) = (u64_at(image, 0), mark_of(wide));
    if own % (1 << 56) != mark % (1 << 56) {
        return Err(ImageError::Mark);
    }
    if own != mark {
        return Err(ImageError::Version);
    }
    let parts = u32_at(image, 12) as usize;
    if 16 + 24 * parts > image.len() {
        return Err(ImageError::Short);
    }
    if parts == 0 || !is_rows_part(image, wide) {
        return Err(ImageError::Part(0));
    }
    if parts == 1 || !is_spans_part(image, wide) {
        return Err(ImageError::Part(1));
    }
    if parts == 2 {
        return Err(ImageError::Part(2));
    }
    // What is left is the part of the cells.
    match plan_of(image, wide) {
        Some(plan) if u64_at(image, 80) % 4 == 0 => Ok(plan),
        _ => Err(ImageError::Part(2)),
    }
}

/// Whether the row at an index is of a network that comes after the one before it, and has its
/// link.
fn is_row(image: &[u8], wide: bool, plan: RowPlan, at: usize) -> bool
    requires plan { IsRowPlan wide image.now plan }
    requires within { at < plan.rows }
    requires before { AreRowsRight wide image.now at }
    ensures { IsTrue result ↔ AreRowsRight wide image.now (at + 1) }
{
    if !is_next(image, wide, plan, at) {
        return false;
    }
    let first = first_at(image, wide, plan, at);
    let link = follow_parents(image, wide, plan, at, Begun::NONE, first);
    link == link_at(image, wide, plan, at) as usize
}

/// Where the parts of an image lie, or the first of the faults where the bytes aren't one of the
/// family.
pub(crate) fn check(image: &[u8], wide: bool) -> Result<Plan, ImageError>
    ensures plan { IfOk result (IsPlanOf wide image.now) }
    ensures image { IsOk result ↔ IsImage wide image.now }
    ensures fault { IfErr result (IsRouteFault wide image.now) }
{
    let plan = check_head(image, wide)?;
    for at in 0..plan.rows.rows {
        if !is_row(image, wide, plan.rows, at) {
            return Err(ImageError::Row(at));
        }
    }
    let mut before = Begun::NONE;
    for span in 0..plan.spans.count {
        match right_span(image, wide, plan, span, before) {
            Some(begun) => before = begun,
            None => return Err(ImageError::Span(span)),
        }
    }
    for cell in 0..plan.cells.count {
        if !is_cell(image, wide, plan, cell) {
            return Err(ImageError::Cell(cell));
        }
    }
    Ok(plan)
}

//! The spans and the cells of an image are written, where its rows stand.
ghost use Rattle.std.specs.Prelude.{◌≡◌, ◌+◌, ◌*◌, ◌%◌, ◌^◌, ◌<◌, ◌≤◌, ℕ, IsTrue, false, true, length, take};
ghost use Rattle.image_parts.specs.Parts.{u32_in};
ghost use Rattle.flat_routes.specs.Images.{AreCells, AreLinkedTo, AreSpans, AreSpansInside, IsRowPlan, IsSpanOf, answer_of, bases, image_rows, links, low_of, row_size, sizes, start_from, begin_of, start_size, width};
ghost use Rattle.flat_routes.specs.SpanLaws.{AreStarts};
ghost use Rattle.flat_routes.specs.Written.{AreListed, ChangesWithin, IsImageOf, IsRowHead, MayBeHalf, image_size, most_cells, most_span};

use crate::head::{CellPlan, RowPlan, SpanPlan, size_of_rows, start_size};
use crate::layout::{bits_for, most_cells};
use crate::rows::{bits_at, first_of_all};
use crate::spans::start_at;
use crate::turns::{Begun, begun_at, turn};
use image_parts::{put_bytes, put_part, put_u32, put_u64};

/// Whether all networks are of IPv6 and have at most 64 bits, so that of an address at which one of
/// them begins or ends the upper half is enough.
fn are_half(image: &[u8], wide: bool, plan: RowPlan) -> bool
    requires plan { IsRowPlan wide image.now plan }
    ensures { IsTrue result → MayBeHalf wide (sizes wide image.now) plan.rows }
{
    if !wide {
        return false;
    }
    for at in 0..plan.rows {
        if bits_at(image, wide, plan, at) > 64 {
            return false;
        }
    }
    true
}

/// Puts in the start of a span.
fn put_start(out: &mut [u8], wide: bool, is_half: bool, place: usize, start: u128)
    requires room { place + start_size wide is_half ≤ length out.old }
    requires fits { start < 2 ^ width wide }
    requires half { is_half ≡ true → start % 2 ^ 64 ≡ 0 }
    ensures start { start_from wide is_half out.new place ≡ start }
    ensures change { ChangesWithin place (place + start_size wide is_half) out.old out.new }
{
    if wide {
        if is_half {
            put_u64(out, place, (start >> 64) as u64);
        } else {
            put_u64(out, place, (start % (1 << 64)) as u64);
            put_u64(out, place + 8, (start >> 64) as u64);
        }
    } else {
        put_u32(out, place, start as u32);
    }
}

/// Puts the spans in behind the rows, and returns where they lie.
fn put_spans(out: &mut [u8], wide: bool, plan: RowPlan, is_half: bool) -> SpanPlan
    requires plan { IsRowPlan wide out.old plan }
    requires place { plan.rows_at ≡ 112 }
    requires linked { AreLinkedTo (width wide) (bases wide out.old) (sizes wide out.old)
        (links wide out.old) plan.rows }
    requires half { is_half ≡ true → MayBeHalf wide (sizes wide out.old) plan.rows }
    requires room { plan.rows_at + row_size wide * plan.rows
        + most_span wide * (2 * plan.rows + 1) ≤ length out.old }
    ensures half { result.is_half ≡ is_half }
    ensures at { result.at ≡ plan.rows_at + row_size wide * plan.rows }
    ensures most { result.count ≤ 2 * plan.rows + 1 }
    ensures spans { AreSpans (width wide) (bases wide out.old) (sizes wide out.old)
        (begin_of wide result out.new) (answer_of wide result out.new) result.count }
    ensures change { ChangesWithin result.at
        (result.at + (start_size wide is_half + 4) * result.count) out.old out.new }
{
    let size = start_size(wide, is_half);
    let at = plan.rows_at + size_of_rows(wide, plan.rows);
    let (mut begun, mut start) = (Begun::NONE, 0u128);
    put_start(out, wide, is_half, at, start);
    for span in 0..2 * plan.rows + 1 {
        begun = begun_at(out, wide, plan, begun, start);
        let place = at + (size + 4) * span;
        put_u32(out, place + size, begun.around as u32);
        let Some(next) = turn(out, wide, plan, begun) else {
            let count = span + 1;
            return SpanPlan { count, at, is_half };
        };
        put_start(out, wide, is_half, place + size + 4, next);
        start = next;
    }
    // There are no more spans than addresses at which a network begins or ends, and one.
    unreachable!()
}

/// Where the cells are put behind the spans. Their blocks go from the first address of the first
/// network to the last span, and are as small as so many cells allow.
fn cells_for(image: &[u8], wide: bool, plan: RowPlan, spans: SpanPlan) -> CellPlan
    requires plan { IsRowPlan wide image.now plan }
    requires inside { AreSpansInside wide image.now spans }
    requires some { 0 < spans.count }
    ensures count { result.count ≤ most_cells plan.rows }
    ensures few { result.count ≤ 2 ^ 21 }
    ensures at { result.at ≡ spans.at + (start_size wide spans.is_half + 4) * spans.count }
    ensures rest { result.rest < 128 }
    ensures low { result.low ≡ low_of wide image.now }
    ensures fits { (t : ℕ) → t < result.count → result.low + t * 2 ^ result.rest < 2 ^ 128 }
{
    let low = first_of_all(image, wide, plan);
    let at = spans.at + (start_size(wide, spans.is_half) + 4) * spans.count;
    let most = most_cells(plan.rows);
    if most == 0 {
        let (count, rest) = (0, 0);
        return CellPlan {
            count,
            at,
            rest,
            low,
        };
    }
    let reach = start_at(image, wide, spans, spans.count - 1).saturating_sub(low);
    let rest = (u128::BITS - reach.leading_zeros()).saturating_sub(bits_for(plan.rows));
    let count = (reach >> rest).min(most as u128 - 1) as usize + 1;
    CellPlan {
        count,
        at,
        rest,
        low,
    }
}

/// The index of the span that holds an address, by which that at `from` begins.
fn span_from(image: &[u8], wide: bool, spans: SpanPlan, from: usize, number: u128) -> usize
    requires inside { AreSpansInside wide image.now spans }
    requires within { from < spans.count }
    requires before { begin_of wide spans image.now from ≤ number }
    ensures { IsSpanOf (begin_of wide spans image.now) spans.count number result }
{
    let mut span = from;
    while span + 1 < spans.count && start_at(image, wide, spans, span + 1) <= number {
        span += 1;
    }
    span
}

/// Puts the cells in behind the spans.
fn put_cells(out: &mut [u8], wide: bool, spans: SpanPlan, cells: CellPlan)
    requires inside { AreSpansInside wide out.old spans }
    requires starts { AreStarts (begin_of wide spans out.old) spans.count }
    requires few { 0 < cells.count → spans.count < 2 ^ 32 }
    requires at { cells.at ≡ spans.at + (start_size wide spans.is_half + 4) * spans.count }
    requires room { cells.at + 4 * cells.count ≤ length out.old }
    requires rest { cells.rest < 128 }
    requires fits { (t : ℕ) → t < cells.count → cells.low + t * 2 ^ cells.rest < 2 ^ 128 }
    ensures cells { AreCells (begin_of wide spans out.old) spans.count cells.low cells.rest
        (λ t. u32_in out.new (cells.at + 4 * t)) cells.count }
    ensures change { ChangesWithin cells.at (cells.at + 4 * cells.count) out.old out.new }
{
    let mut span = 0;
    for at in 0..cells.count {
        let number = cells.low + (at as u128) * (1u128 << cells.rest);
        span = span_from(out, wide, spans, span, number);
        put_u32(out, cells.at + 4 * at, span as u32);
    }
}

/// Lists the other parts.
fn put_parts(out: &mut [u8], wide: bool, spans: SpanPlan, cells: CellPlan, payload: usize)
    requires room { 112 ≤ length out.old }
    requires few { spans.count < 2 ^ 34 }
    requires some_place { cells.at < 2 ^ 62 }
    requires few_cells { cells.count ≤ 2 ^ 21 }
    ensures listed { AreListed wide out.new spans cells payload }
    ensures change { ChangesWithin 40 112 out.old out.new }
{
    let start = start_size(wide, spans.is_half);
    put_part(
        out,
        40,
        2,
        start as u32,
        spans.at,
        (start + 4) * spans.count,
    );
    put_part(out, 64, 5, cells.rest, cells.at, 4 * cells.count);
    put_part(out, 88, 3, 0, cells.at + 4 * cells.count, payload);
}

/// Puts in all that is behind the rows, and lists it: the spans, the cells, and the user's own
/// bytes. It returns how many bytes the image takes.
pub(crate) fn put_index(out: &mut [u8], wide: bool, plan: RowPlan, payload: &[u8]) -> usize
    requires plan { IsRowPlan wide out.old plan }
    requires place { plan.rows_at ≡ 112 }
    requires head { IsRowHead wide out.old plan }
    requires linked { AreLinkedTo (width wide) (bases wide out.old) (sizes wide out.old)
        (links wide out.old) plan.rows }
    requires room { image_size wide plan.rows (length payload.now) ≤ length out.old }
    ensures written { IsImageOf wide (image_rows wide out.old) payload.now out.new }
    ensures front { IsImageOf wide (image_rows wide out.old) payload.now (take result out.new) }
    ensures least { plan.rows_at + row_size wide * plan.rows ≤ result }
    ensures most { result ≤ image_size wide plan.rows (length payload.now) }
    ensures change { ChangesWithin 40 result out.old out.new }
{
    let is_half = are_half(out, wide, plan);
    let spans = put_spans(out, wide, plan, is_half);
    let cells = cells_for(out, wide, plan, spans);
    put_cells(out, wide, spans, cells);
    put_parts(out, wide, spans, cells, payload.len());
    let payload_at = cells.at + 4 * cells.count;
    put_bytes(out, payload_at, payload);
    payload_at + payload.len()
}

//! The spans of an image by their numbers, and its cells.
ghost use Rattle.std.specs.Prelude.{◌≡◌, ◌+◌, ◌*◌, ◌^◌, ◌<◌, ◌≤◌, length};
ghost use Rattle.image_parts.specs.Parts.{u32_in};
ghost use Rattle.flat_routes.specs.Images.{AreSpansInside, answer_of, span_plan, start_from, begin_of, start_size, width};

use crate::head::{CellPlan, SpanPlan, start_size};
use image_parts::{u32_at, u64_at, u128_at};
use sorted_columns::{Columns, Fronts};
use std::marker::Model;

/// The address that a start stands for.
#[inline(always)]
pub(crate) fn start_from(image: &[u8], wide: bool, is_half: bool, place: usize) -> u128
    requires { place + start_size wide is_half ≤ length image.now }
    ensures value { result ≡ start_from wide is_half image.now place }
    ensures fits { result < 2 ^ width wide }
{
    if !wide {
        u128::from(u32_at(image, place))
    } else if is_half {
        (1u128 << 64) * u128::from(u64_at(image, place))
    } else {
        u128_at(image, place)
    }
}

/// The address that the span at an index begins with.
#[inline(always)]
pub(crate) fn start_at(image: &[u8], wide: bool, spans: SpanPlan, at: usize) -> u128
    requires inside { AreSpansInside wide image.now spans }
    requires within { at < spans.count }
    ensures value { result ≡ begin_of wide spans image.now at }
    ensures fits { result < 2 ^ width wide }
{
    let size = start_size(wide, spans.is_half) + 4;
    start_from(image, wide, spans.is_half, spans.at + size * at)
}

/// The answer of the span at an index.
#[inline(always)]
pub(crate) fn answer_at(image: &[u8], wide: bool, spans: SpanPlan, at: usize) -> usize
    requires inside { AreSpansInside wide image.now spans }
    requires within { at < spans.count }
    ensures { result ≡ answer_of wide spans image.now at }
{
    let start = start_size(wide, spans.is_half);
    u32_at(image, spans.at + (start + 4) * at + start) as usize
}

/// The cell at an index.
#[inline(always)]
pub(crate) fn cell_at(image: &[u8], cells: CellPlan, at: usize) -> usize
    requires inside { cells.at + 4 * cells.count ≤ length image.now }
    requires within { at < cells.count }
    ensures value { result ≡ u32_in image.now (cells.at + 4 * at) }
    ensures few { result < 2 ^ 32 }
{
    u32_at(image, cells.at + 4 * at) as usize
}

/// The spans of an image, as columns that are searched.
#[derive(Drop)]
pub(crate) struct Spans<'a> {
    image: &'a [u8],
    wide: bool,
    spans: SpanPlan,
}

impl<'a> Model for Spans<'a> {
    ghost use Rattle.std.specs.Prelude.{◌≡◌};
    ghost use Rattle.flat_routes.specs.Images.{AreSpansInside, span_plan};
    ghost use Rattle.flat_routes.specs.SpanLaws.{SpansOf};

    ghost Value = { SpansOf };

    ghost view = { λ s. record { wide = s.wide; bytes = s.image.now } };

    ghost invariant = { λ s. (s.spans ≡ span_plan s.wide s.image.now)
        × AreSpansInside s.wide s.image.now s.spans };
}

impl<'a> Spans<'a> {
    /// The spans of an image.
    #[inline(always)]
    pub(crate) fn of(image: &'a [u8], wide: bool, spans: SpanPlan) -> Spans<'a>
        requires plan { spans ≡ span_plan wide image.now }
        requires inside { AreSpansInside wide image.now spans }
        ensures { result ≡ record { wide = wide; bytes = image.now } }
    {
        Spans { image, wide, spans }
    }
}

impl<'a> Columns for Spans<'a> {
    ghost use Rattle.flat_routes.specs.Images.{IsImage, span_count};

    ghost count = { λ s. span_count s.wide s.bytes };

    ghost is_sorted = { λ s. IsImage s.wide s.bytes };
}

impl<'a> Fronts<u128> for Spans<'a> {
    ghost use Rattle.std.specs.Prelude.{◌≤◌};
    ghost use Rattle.flat_routes.specs.Images.{start_in};
    ghost use Rattle.flat_routes.specs.SpanLaws.{spans_rise};

    ghost is_front = { λ s a k. start_in s.wide s.bytes k ≤ a };

    ghost rising = { spans_rise };

    #[inline(always)]
    fn is_in_front(&self, at: usize, query: &u128) -> bool {
        start_at(self.image, self.wide, self.spans, at) <= *query
    }
}

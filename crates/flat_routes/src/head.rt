//! The head of an image, and where its parts lie.
ghost use Rattle.std.specs.Prelude.{◌≡◌, ◌↔◌, ◌+◌, ◌*◌, ◌^◌, ◌<◌, ◌≤◌, IsTrue, MatchOption, length};
ghost use Rattle.image_parts.specs.Parts.{part_count, u64_in};
ghost use Rattle.flat_routes.specs.Images.{HasHead, IsPlanOf, IsRowPlan, mark, row_size, start_size};

use crate::rows::first_of_all;
use image_parts::{part_at, u32_at, u64_at};

/// Where the rows of an image lie.
#[derive(Clone, Copy)]
pub(crate) struct RowPlan {
    /// How many there are.
    pub(crate) rows: usize,
    /// The place of the first.
    pub(crate) rows_at: usize,
}

/// Where the spans lie.
#[derive(Clone, Copy)]
pub(crate) struct SpanPlan {
    /// How many there are.
    pub(crate) count: usize,
    /// The place of the first.
    pub(crate) at: usize,
    /// Whether of IPv6 a start is the upper half of an address alone.
    pub(crate) is_half: bool,
}

/// Where the cells lie.
#[derive(Clone, Copy)]
pub(crate) struct CellPlan {
    /// How many there are.
    pub(crate) count: usize,
    /// The place of the first.
    pub(crate) at: usize,
    /// How many bits of an address lie within a block.
    pub(crate) rest: u32,
    /// The address that the first block begins with: the first one of the first network.
    pub(crate) low: u128,
}

/// Where the parts of an image lie, as its head says.
#[derive(Clone, Copy)]
pub(crate) struct Plan {
    pub(crate) rows: RowPlan,
    pub(crate) spans: SpanPlan,
    pub(crate) cells: CellPlan,
}

/// How many bytes the list of four parts ends behind, of which the last are the user's own bytes.
pub(crate) const HEAD: usize = 112;

/// The number of the family's first 8 bytes.
#[inline(always)]
pub(crate) fn mark_of(wide: bool) -> u64
    ensures { result ≡ mark wide }
{
    if wide {
        u64::from_le_bytes(*b"NZIPV6.2")
    } else {
        u64::from_le_bytes(*b"NZIPV4.2")
    }
}

/// Whether the bytes begin as an image of the family does, with room for a list of three parts or
/// more.
#[inline(always)]
fn is_marked(image: &[u8], wide: bool) -> bool
    requires { 88 ≤ length image.now }
    ensures { IsTrue result ↔ ((u64_in image.now 0 ≡ mark wide) × (3 ≤ part_count image.now)
        × (16 + 24 * part_count image.now ≤ length image.now)) }
{
    let own = u64_at(image, 0);
    let parts = u32_at(image, 12) as usize;
    if parts < 3 || 16 + 24 * parts > image.len() {
        return false;
    }
    own == mark_of(wide)
}

/// How many bytes so many rows take.
#[inline(always)]
pub(crate) fn size_of_rows(wide: bool, rows: usize) -> usize
    requires { rows < 2 ^ 32 }
    ensures value { result ≡ row_size wide * rows }
    ensures most { result ≤ 32 * rows }
{
    if wide { 32 * rows } else { 16 * rows }
}

/// How many bytes the start of a span takes.
#[inline(always)]
pub(crate) fn start_size(wide: bool, is_half: bool) -> usize
    ensures value { result ≡ start_size wide is_half }
    ensures some { 4 ≤ result }
    ensures most { result ≤ 16 }
{
    if !wide {
        4
    } else if is_half {
        8
    } else {
        16
    }
}

/// Where the rows lie, or None where the head is not one of the family.
#[inline(always)]
pub(crate) fn row_plan_of(image: &[u8], wide: bool) -> Option<RowPlan>
    ensures { MatchOption result (HasHead wide image.now → ⊥)
        (λ plan. IsRowPlan wide image.now plan) }
{
    let Some(plan) = plan_of(image, wide) else {
        return None;
    };
    Some(plan.rows)
}

/// Where the parts of an image lie, or None where the head is not one of the family.
#[inline(always)]
pub(crate) fn plan_of(image: &[u8], wide: bool) -> Option<Plan>
    ensures { MatchOption result (HasHead wide image.now → ⊥)
        (λ plan. IsPlanOf wide image.now plan) }
{
    if image.len() < 88 || !is_marked(image, wide) {
        return None;
    }
    let Some((rows_at, rows_size)) = part_at(image, 16, 1) else {
        return None;
    };
    let Some((spans_at, spans_size)) = part_at(image, 40, 2) else {
        return None;
    };
    let Some((cells_at, cells_size)) = part_at(image, 64, 5) else {
        return None;
    };
    let count = u32_at(image, 8) as usize;
    let (detail, rest) = (u32_at(image, 44) as usize, u32_at(image, 68));
    let is_half = detail == 8;
    let start = start_size(wide, is_half);
    if detail != start || rest >= 128 || rows_size != size_of_rows(wide, count) {
        return None;
    }
    let rows = RowPlan {
        rows: count,
        rows_at,
    };
    let spans = SpanPlan {
        count: spans_size / (start + 4),
        at: spans_at,
        is_half,
    };
    let cells = CellPlan {
        count: cells_size / 4,
        at: cells_at,
        rest,
        low: first_of_all(image, wide, rows),
    };
    Some(Plan { rows, spans, cells })
}

//! How many bytes an image takes that is written.
ghost use Rattle.std.specs.Prelude.{◌≡◌, ◌+◌, ◌*◌, ◌^◌, ◌<◌, ◌≤◌, MatchOption};
ghost use Rattle.std.specs.Option.{SomeIff};
ghost use Rattle.flat_routes.specs.Written.{cell_bits, image_size, most_cells};

use crate::head::{HEAD, size_of_rows};
use crate::writing::FlatRow;

/// Of how many blocks the cells of so many rows are at most, as a power of two: two less than the
/// count has binary digits, but at least 7 and at most 21.
#[tactic(auto, unfolding(crate::specs::Written::cell_bits))]
pub(crate) fn bits_for(rows: usize) -> u32
    ensures value { result ≡ cell_bits rows }
    ensures some { 7 ≤ result }
    ensures few { result ≤ 21 }
{
    (usize::BITS - rows.leading_zeros())
        .saturating_sub(2)
        .clamp(7, 21)
}

/// How many cells an image of so many rows has at most. Below 256 rows it has none, and none where
/// there may be more spans than a cell counts.
pub(crate) fn most_cells(rows: usize) -> usize
    ensures value { result ≡ most_cells rows }
    ensures few { result ≤ 2 ^ 21 }
{
    if rows < 256 || rows >= 1 << 31 {
        return 0;
    }
    1usize << bits_for(rows)
}

/// How many bytes an image of so many rows takes at most, without the user's own, or None of 2^32
/// rows or more.
pub(crate) fn most_bytes(wide: bool, rows: usize) -> Option<usize>
    ensures value { MatchOption result (2 ^ 32 ≤ rows)
        (λ len. (rows < 2 ^ 32) × (len ≡ image_size wide rows 0)) }
    ensures few { MatchOption result (2 ^ 32 ≤ rows) (λ len. len < 2 ^ 40) }
{
    if rows > u32::MAX as usize {
        return None;
    }
    let span = if wide { 20 } else { 8 };
    Some(HEAD + size_of_rows(wide, rows) + span * (2 * rows + 1) + 4 * most_cells(rows))
}

/// How many bytes the image of so many rows takes at most, with so many bytes of the user's own, or
/// None of 2^32 rows or more, or where a `usize` doesn't count them.
pub fn image_len<R: FlatRow>(rows: usize, payload: usize) -> Option<usize>
    ensures { SomeIff result ((rows < 2 ^ 32) × (image_size R.WIDE rows payload < 2 ^ 64))
        (image_size R.WIDE rows payload) }
{
    let Some(len) = most_bytes(R::WIDE, rows) else {
        return None;
    };
    len.checked_add(payload)
}

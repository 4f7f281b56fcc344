//! An image and changes are merged into a new image.
ghost use Rattle.std.specs.Prelude.{◌≡◌, ◌↔◌, ◌+◌, ◌-◌, ◌*◌, ◌^◌, ◌<◌, ◌≤◌, ◌⊎◌, ℕ, Bool, IfErr, IfOk, IsOk, MatchOption, OnErr, OnOk, false, true, length, slice_index, take, map as each};
ghost use Rattle.std.specs.Option.{SomeIff};
ghost use Rattle.frozen_routes.specs.Routes.{AreRowsInOrder, IsEarlier};
ghost use Rattle.image_parts.specs.Parts.{row_count};
ghost use Rattle.flat_routes.specs.Images.{AreLinkedTo, IsImage, IsNext, IsRowPlan, bases, image_rows, link_in, links, row_in, row_size, sizes, width};
ghost use Rattle.flat_routes.specs.Merged.{AreMerged, AreRowsAfter, CanMerge, IsMergeFault, gone_at, link_place, merged_size, put_place, put_row_at, row_at};
ghost use Rattle.flat_routes.specs.Written.{ChangesWithin, IsImageOf};

use crate::check::{is_earlier, is_next};
use crate::head::{HEAD, RowPlan, row_plan_of, size_of_rows};
use crate::index::put_index;
use crate::layout::most_bytes;
use crate::rows::{bits_at, first_at};
use crate::search::follow_parents;
use crate::turns::Begun;
use crate::writing::{FlatRow, put_row, put_row_head, unsorted};
use image_parts::{WriteError, put_bytes, put_u32};

/// A change of one of the families: a row that is stored from now on, or whose network goes.
pub trait FlatChange: FlatRow {
    // Whether its network goes.
    ghost removes: { Self → Bool };

    /// Whether its network goes.
    fn is_removed(&self) -> bool
        ensures { result ≡ removes self.now };
}

/// How many bytes the image of so many rows and changes takes at most, without the user's own, or
/// None of 2^32 or more.
fn most_merged(wide: bool, rows: usize, changes: usize) -> Option<usize>
    ensures value { MatchOption result (2 ^ 32 ≤ rows + changes)
        (λ len. (rows + changes < 2 ^ 32) × (len ≡ merged_size wide (rows + changes) 0)) }
    ensures few { MatchOption result (2 ^ 32 ≤ rows + changes) (λ len. len < 2 ^ 41) }
{
    let Some(most) = rows.checked_add(changes) else {
        return None;
    };
    let Some(len) = most_bytes(wide, most) else {
        return None;
    };
    if most < 1 << 31 {
        return Some(len);
    }
    // Fewer rows may have cells, of which so many have none.
    Some(len + (1 << 23))
}

/// How many bytes the image takes at most that so many changes make of one, with so many bytes of
/// the user's own, or None where there may be 2^32 rows or more, or where a `usize` doesn't count
/// the bytes. It is `image_len` of all rows and changes, and 2^23 more of 2^31 or more.
pub fn merge_len<C: FlatChange>(image: &[u8], changes: usize, payload: usize) -> Option<usize>
    ensures { IsImage C.WIDE image.now
        → SomeIff result ((length (image_rows C.WIDE image.now) + changes < 2 ^ 32)
        × (merged_size C.WIDE (length (image_rows C.WIDE image.now) + changes) payload
        < 2 ^ 64))
        (merged_size C.WIDE (length (image_rows C.WIDE image.now) + changes) payload) }
{
    let wide = C::WIDE;
    let rows = match row_plan_of(image, wide) {
        Some(plan) => plan.rows,
        None => 0,
    };
    let Some(most) = most_merged(wide, rows, changes) else {
        return None;
    };
    most.checked_add(payload)
}

/// How many of the first rows are in order: all of an image.
fn count_in_order(image: &[u8], wide: bool, plan: RowPlan) -> usize
    requires plan { IsRowPlan wide image.now plan }
    ensures within { result ≤ plan.rows }
    ensures next { (k : ℕ) → k < result
        → IsNext (width wide) (bases wide image.now) (sizes wide image.now) k }
    ensures all { IsImage wide image.now → result ≡ plan.rows }
{
    for at in 0..plan.rows {
        if !is_next(image, wide, plan, at) {
            return at;
        }
    }
    plan.rows
}

/// The index of the first row from one on, and before another one, that doesn't come before a
/// network.
fn end_before(
    image: &[u8],
    wide: bool,
    plan: RowPlan,
    from: usize,
    to: usize,
    first: u128,
    bits: u32,
) -> usize
    requires plan { IsRowPlan wide image.now plan }
    requires order { from ≤ to }
    requires within { to ≤ plan.rows }
    ensures least { from ≤ result }
    ensures most { result ≤ to }
    ensures before { (k : ℕ) → from ≤ k → k < result
        → IsEarlier (slice_index (bases wide image.now) k) (slice_index (sizes wide image.now) k)
        first bits }
    ensures end { result < to → IsEarlier (slice_index (bases wide image.now) result)
        (slice_index (sizes wide image.now) result) first bits → ⊥ }
{
    for at in from..to {
        let is_before = is_earlier(
            first_at(image, wide, plan, at),
            bits_at(image, wide, plan, at),
            first,
            bits,
        );
        if !is_before {
            return at;
        }
    }
    to
}

/// The index of the row behind a network, where the row at an index, which is less than another
/// one, is of it, or this index.
fn behind(
    image: &[u8],
    wide: bool,
    plan: RowPlan,
    at: usize,
    to: usize,
    first: u128,
    bits: u32,
) -> usize
    requires plan { IsRowPlan wide image.now plan }
    requires order { at ≤ to }
    requires within { to ≤ plan.rows }
    ensures most { result ≤ to }
    ensures own { (result ≡ at) ⊎ ((result ≡ at + 1)
        × (slice_index (bases wide image.now) at ≡ first)
        × (slice_index (sizes wide image.now) at ≡ bits)) }
    ensures other { result ≡ at → at < to → slice_index (bases wide image.now) at ≡ first
        → slice_index (sizes wide image.now) at ≡ bits → ⊥ }
{
    if at == to {
        return at;
    }
    if first_at(image, wide, plan, at) == first && bits_at(image, wide, plan, at) == bits {
        return at + 1;
    }
    at
}

/// Puts the rows of an image from one on up to another one in behind so many.
fn put_run(
    out: &mut [u8],
    count: usize,
    image: &[u8],
    wide: bool,
    plan: RowPlan,
    from: usize,
    to: usize,
)
    requires plan { IsRowPlan wide image.now plan }
    requires order { from ≤ to }
    requires within { to ≤ plan.rows }
    requires few { count < 2 ^ 32 }
    requires room { put_place wide (count + (to - from)) ≤ length out.old }
    ensures rows { (k : ℕ) → from ≤ k → k < to
        → put_row_at wide out.new (count + (k - from)) ≡ row_in wide image.now k }
    ensures change { ChangesWithin (put_place wide count) (put_place wide (count + (to - from)))
        out.old out.new }
{
    let start = plan.rows_at + size_of_rows(wide, from);
    let end = plan.rows_at + size_of_rows(wide, to);
    put_bytes(out, HEAD + size_of_rows(wide, count), &image[start..end]);
}

/// Puts the row of a change in behind so many, where it isn't removed, and returns how many stand
/// then.
fn put_change<C: FlatChange>(out: &mut [u8], wide: bool, count: usize, change: &C) -> usize
    requires family { C.WIDE ≡ wide }
    requires few { count < 2 ^ 32 }
    requires room { put_place wide (count + 1) ≤ length out.old }
    ensures removed { C.removes change.now ≡ true → result ≡ count }
    ensures given { C.removes change.now ≡ false → result ≡ count + 1 }
    ensures row { C.removes change.now ≡ false
        → put_row_at wide out.new count ≡ C.shown change.now }
    ensures change { ChangesWithin (put_place wide count) (put_place wide result) out.old out.new }
{
    if change.is_removed() {
        return count;
    }
    put_row(out, HEAD + size_of_rows(wide, count), change, 0);
    count + 1
}

/// Puts in the first rows of an image as changes leave them, and what these add, and returns how
/// many there are.
fn put_merged<C: FlatChange>(
    image: &[u8],
    wide: bool,
    plan: RowPlan,
    rows: usize,
    changes: &[C],
    out: &mut [u8],
) -> usize
    requires family { C.WIDE ≡ wide }
    requires plan { IsRowPlan wide image.now plan }
    requires within { rows ≤ plan.rows }
    requires next { (k : ℕ) → k < rows
        → IsNext (width wide) (bases wide image.now) (sizes wide image.now) k }
    requires rising { AreRowsInOrder (width wide) (λ n. n) (each C.shown changes.now) }
    requires few { rows + length changes.now < 2 ^ 32 }
    requires room { put_place wide (rows + length changes.now) ≤ length out.old }
    ensures most { result ≤ rows + length changes.now }
    ensures merged { AreMerged (row_in wide image.now) (row_at (each C.shown changes.now))
        (gone_at (each C.removes changes.now)) (put_row_at wide out.new) rows
        (length changes.now) result }
    ensures change { ChangesWithin 112 (put_place wide result) out.old out.new }
{
    let (mut at, mut count) = (0, 0);
    for i in 0..changes.len() {
        let change = &changes[i];
        let (first, bits) = (change.first(), change.bits());
        let end = end_before(image, wide, plan, at, rows, first, bits);
        put_run(out, count, image, wide, plan, at, end);
        count = put_change(out, wide, count + (end - at), change);
        at = behind(image, wide, plan, end, rows, first, bits);
    }
    put_run(out, count, image, wide, plan, at, rows);
    count + (rows - at)
}

/// How many bytes of a row are before its link.
fn link_place(wide: bool) -> usize
    ensures value { result ≡ link_place wide }
    ensures most { result ≤ 20 }
{
    if wide { 20 } else { 8 }
}

/// Puts in the link of the row at an index.
fn put_link(out: &mut [u8], wide: bool, plan: RowPlan, at: usize, link: u32)
    requires plan { IsRowPlan wide out.old plan }
    requires place { plan.rows_at ≡ 112 }
    requires within { at < plan.rows }
    ensures plan { IsRowPlan wide out.new plan }
    ensures rows { image_rows wide out.new ≡ image_rows wide out.old }
    ensures link { link_in wide out.new at ≡ link }
    ensures others { (k : ℕ) → k < at → link_in wide out.new k ≡ link_in wide out.old k }
    ensures change { ChangesWithin 112 (112 + row_size wide * plan.rows) out.old out.new }
{
    put_u32(
        out,
        plan.rows_at + size_of_rows(wide, at) + link_place(wide),
        link,
    );
}

/// Puts in the links of rows that stand in order.
fn put_links(out: &mut [u8], wide: bool, plan: RowPlan)
    requires plan { IsRowPlan wide out.old plan }
    requires place { plan.rows_at ≡ 112 }
    requires next { (k : ℕ) → k < plan.rows
        → IsNext (width wide) (bases wide out.old) (sizes wide out.old) k }
    ensures plan { IsRowPlan wide out.new plan }
    ensures rows { image_rows wide out.new ≡ image_rows wide out.old }
    ensures linked { AreLinkedTo (width wide) (bases wide out.new) (sizes wide out.new)
        (links wide out.new) plan.rows }
    ensures change { ChangesWithin 112 (112 + row_size wide * plan.rows) out.old out.new }
{
    for at in 0..plan.rows {
        let first = first_at(out, wide, plan, at);
        let link = follow_parents(out, wide, plan, at, Begun::NONE, first);
        put_link(out, wide, plan, at, link as u32);
    }
}

/// Writes the image that changes make of the rows of an image, where its head is told.
fn merge_rows<C: FlatChange>(
    image: &[u8],
    wide: bool,
    plan: RowPlan,
    changes: &[C],
    payload: &[u8],
    out: &mut [u8],
) -> Result<usize, WriteError>
    requires family { C.WIDE ≡ wide }
    requires plan { IsRowPlan wide image.now plan }
    ensures ok { IsOk result ↔ CanMerge wide plan.rows (each C.shown changes.now)
        (length payload.now) (length out.old) }
    ensures fault { IfErr result (IsMergeFault wide plan.rows (each C.shown changes.now)
        (length payload.now) (length out.old)) }
    ensures written { OnOk result (IsImageOf wide (image_rows wide out.new) payload.now out.new) }
    ensures rows { OnOk result (IsImage wide image.now → AreRowsAfter C.shown C.removes
        changes.now (image_rows wide image.now) (image_rows wide out.new)) }
    ensures front { IfOk result (λ len. IsImageOf wide (image_rows wide out.new) payload.now
        (take len out.new)) }
    ensures most { IfOk result (λ len. len
        ≤ merged_size wide (plan.rows + length changes.now) (length payload.now)) }
    ensures change { IfOk result (λ len. ChangesWithin 0 len out.old out.new) }
    ensures unchanged { OnErr result (out.new ≡ out.old) }
{
    let Some(most) = most_merged(wide, plan.rows, changes.len()) else {
        return Err(WriteError::Full);
    };
    if out.len() < most + payload.len() {
        return Err(WriteError::Short);
    }
    if let Some(at) = unsorted(changes) {
        return Err(WriteError::OutOfOrder(at));
    }
    let old = count_in_order(image, wide, plan);
    let rows = put_merged(image, wide, plan, old, changes, out);
    let plan = RowPlan {
        rows,
        rows_at: HEAD,
    };
    put_row_head(out, wide, plan);
    put_links(out, wide, plan);
    Ok(put_index(out, wide, plan, payload))
}

/// Writes the image that changes make of another one, with the user's own bytes, into a buffer of
/// `merge_len` bytes or more, and returns how many bytes it takes. The changes rise as the rows of
/// `write` do, and no network has two. A row that isn't removed is stored with its value, whether
/// its network has a row or not; a network that is removed needs none. Bytes behind the new image
/// stay as they are. It takes linear time and allocates nothing.
///
/// Of bytes that are no image it takes the first rows that are in order, and none where there is no
/// head.
///
/// # Errors
///
/// In this order: there may be too many rows, the buffer is shorter than `merge_len`, or a change
/// is of no network or doesn't come after the one before it. The buffer is as before.
///
/// # Examples
///
/// ```
/// use nifazombi::flat_routes::ipv4::{Change, Row};
/// use nifazombi::flat_routes::{Table, merge, write};
/// use std::net::Ipv4Addr;
///
/// let row = |value| Row { first: 0x0a00_0000, bits: 8, link: 0, value };
/// let mut image = [0u8; 400];
/// assert!(write(&[row(7)], &[], &mut image).is_ok());
/// let change = Change { row: row(8), removes: 0 };
/// let mut changed = [0u8; 400];
/// assert!(merge(&image, &[change], &[], &mut changed).is_ok());
/// let table = Table::<Ipv4Addr>::checked(&changed)?;
/// assert!(table.row_at(0).is_some_and(|row| row.value == 8));
/// # Ok::<(), nifazombi::flat_routes::ImageError>(())
/// ```
pub fn merge<C: FlatChange>(
    image: &[u8],
    changes: &[C],
    payload: &[u8],
    out: &mut [u8],
) -> Result<usize, WriteError>
    ensures ok { IsImage C.WIDE image.now → IsOk result ↔ CanMerge C.WIDE
        (length (image_rows C.WIDE image.now)) (each C.shown changes.now) (length payload.now)
        (length out.old) }
    ensures fault { IsImage C.WIDE image.now → IfErr result (IsMergeFault C.WIDE
        (length (image_rows C.WIDE image.now)) (each C.shown changes.now) (length payload.now)
        (length out.old)) }
    ensures written { OnOk result (IsImageOf C.WIDE (image_rows C.WIDE out.new) payload.now
        out.new) }
    ensures rows { OnOk result (IsImage C.WIDE image.now → AreRowsAfter C.shown C.removes
        changes.now (image_rows C.WIDE image.now) (image_rows C.WIDE out.new)) }
    ensures front { IfOk result (λ len. IsImageOf C.WIDE (image_rows C.WIDE out.new) payload.now
        (take len out.new)) }
    ensures most { IfOk result (λ len. len ≤ merged_size C.WIDE
        (row_count image.now + length changes.now) (length payload.now)) }
    ensures change { IfOk result (λ len. ChangesWithin 0 len out.old out.new) }
    ensures unchanged { OnErr result (out.new ≡ out.old) }
{
    let wide = C::WIDE;
    let Some(plan) = row_plan_of(image, wide) else {
        let plan = RowPlan {
            rows: 0,
            rows_at: 0,
        };
        return merge_rows(&image[..0], wide, plan, changes, payload, out);
    };
    merge_rows(image, wide, plan, changes, payload, out)
}

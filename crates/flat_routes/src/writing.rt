//! An image is written.
ghost use Rattle.std.specs.Prelude.{◌≡◌, ◌↔◌, ◌+◌, ◌-◌, ◌*◌, ◌^◌, ◌<◌, ◌≤◌, ℕ, Bool, IfErr, IfOk, IsOk, IsTrue, MatchOption, OnErr, OnOk, false, length, take, map as each};
ghost use Rattle.radix_keys.specs.Networks.{Net};
ghost use Rattle.frozen_routes.specs.Routes.{AreRowsInOrder, IsFirstOutOfOrder, base_numbers, bit_counts};
ghost use Rattle.flat_routes.specs.Images.{IsNext, IsRowPlan, network, of_ipv4, of_ipv6, row_size, width};
ghost use Rattle.flat_routes.specs.Written.{CanWrite, ChangesWithin, HoldsRows, IsImageOf, IsRowHead, IsWriteFault, image_size, link_from, row_from};

use crate::check::{is_base, is_earlier};
use crate::head::{HEAD, RowPlan, mark_of, size_of_rows};
use crate::index::put_index;
use crate::layout::most_bytes;
use crate::search::follow_parents;
use crate::turns::Begun;
use image_parts::{WriteError, put_part, put_u32, put_u64};

/// A row of one of the families, by its numbers.
pub trait FlatRow {
    // Whether it is of IPv6.
    ghost WIDE: { Bool };

    // Its network, and its value.
    ghost shown: { Self → Net ℕ × ℕ };

    /// Whether it is of IPv6.
    const WIDE: bool;

    /// The first address of its network.
    fn first(&self) -> u128
        ensures value { result ≡ (shown self.now).0.base }
        ensures fits { result < 2 ^ width WIDE };

    /// How many bits the addresses of its network share.
    fn bits(&self) -> u32
        ensures { result ≡ (shown self.now).0.bits };

    /// Its value, below 2^32 for IPv4.
    fn value(&self) -> u64
        ensures value { result ≡ (shown self.now).1 }
        ensures fits { WIDE ≡ false → result < 2 ^ 32 };
}

/// Puts a row of IPv4 in from a place on.
fn put_narrow(out: &mut [u8], place: usize, first: u32, bits: u32, link: u32, value: u32)
    requires { place + row_size of_ipv4 ≤ length out.old }
    ensures row { row_from of_ipv4 out.new place ≡ (network first bits, value) }
    ensures link { link_from of_ipv4 out.new place ≡ link }
    ensures change { ChangesWithin place (place + row_size of_ipv4) out.old out.new }
{
    put_u32(out, place, first);
    put_u32(out, place + 4, bits);
    put_u32(out, place + 8, link);
    put_u32(out, place + 12, value);
}

/// Puts a row of IPv6 in from a place on.
fn put_wide(out: &mut [u8], place: usize, first: u128, bits: u32, link: u32, value: u64)
    requires { place + row_size of_ipv6 ≤ length out.old }
    ensures row { row_from of_ipv6 out.new place ≡ (network first bits, value) }
    ensures link { link_from of_ipv6 out.new place ≡ link }
    ensures change { ChangesWithin place (place + row_size of_ipv6) out.old out.new }
{
    put_u64(out, place, (first % (1 << 64)) as u64);
    put_u64(out, place + 8, (first >> 64) as u64);
    put_u32(out, place + 16, bits);
    put_u32(out, place + 20, link);
    put_u64(out, place + 24, value);
}

/// Puts a row in from a place on, with a link.
pub(crate) fn put_row<R: FlatRow>(out: &mut [u8], place: usize, row: &R, link: u32)
    requires { place + row_size R.WIDE ≤ length out.old }
    ensures row { row_from R.WIDE out.new place ≡ R.shown row.now }
    ensures link { link_from R.WIDE out.new place ≡ link }
    ensures change { ChangesWithin place (place + row_size R.WIDE) out.old out.new }
{
    let (first, bits, value) = (row.first(), row.bits(), row.value());
    if R::WIDE {
        put_wide(out, place, first, bits, link, value);
    } else {
        put_narrow(out, place, first as u32, bits, link, value as u32);
    }
}

/// Whether the row at an index is of a network, which comes after the one before it.
fn is_in_place<R: FlatRow>(rows: &[R], at: usize) -> bool
    requires { at < length rows.now }
    ensures { IsTrue result ↔ IsNext (width R.WIDE)
        (base_numbers (λ n. n) (each R.shown rows.now)) (bit_counts (each R.shown rows.now)) at }
{
    let (first, bits) = (rows[at].first(), rows[at].bits());
    if !is_base(R::WIDE, bits, first) {
        return false;
    }
    if at == 0 {
        return true;
    }
    let last = &rows[at - 1];
    is_earlier(last.first(), last.bits(), first, bits)
}

/// The index of the first row that is of no network, or doesn't come after the row before it.
pub(crate) fn unsorted<R: FlatRow>(rows: &[R]) -> Option<usize>
    ensures { MatchOption result
        (AreRowsInOrder (width R.WIDE) (λ n. n) (each R.shown rows.now))
        (IsFirstOutOfOrder (width R.WIDE) (λ n. n) (each R.shown rows.now)) }
{
    for at in 0..rows.len() {
        if !is_in_place(rows, at) {
            return Some(at);
        }
    }
    None
}

/// Puts in the head up to the part of the rows.
pub(crate) fn put_row_head(out: &mut [u8], wide: bool, plan: RowPlan)
    requires few { plan.rows < 2 ^ 32 }
    requires place { plan.rows_at ≡ 112 }
    requires room { 112 ≤ length out.old }
    ensures head { IsRowHead wide out.new plan }
    ensures change { ChangesWithin 0 40 out.old out.new }
{
    put_u64(out, 0, mark_of(wide));
    put_u32(out, 8, plan.rows as u32);
    put_u32(out, 12, 4);
    put_part(out, 16, 1, 0, plan.rows_at, size_of_rows(wide, plan.rows));
}

/// Puts the rows in, with their links, where their head stands.
fn put_rows<R: FlatRow>(out: &mut [u8], plan: RowPlan, rows: &[R])
    requires count { plan.rows ≡ length rows.now }
    requires place { plan.rows_at ≡ 112 }
    requires plan { IsRowPlan R.WIDE out.old plan }
    requires rising { AreRowsInOrder (width R.WIDE) (λ n. n) (each R.shown rows.now) }
    ensures rows { HoldsRows R.WIDE out.new (each R.shown rows.now) plan.rows }
    ensures change { ChangesWithin 112 (112 + row_size R.WIDE * plan.rows) out.old out.new }
{
    let wide = R::WIDE;
    for at in 0..rows.len() {
        let row = &rows[at];
        let link = follow_parents(out, wide, plan, at, Begun::NONE, row.first());
        let place = plan.rows_at + size_of_rows(wide, at);
        put_row(out, place, row, link as u32);
    }
}

/// Writes the image of rows, which rise by their first addresses, and of one first address by their
/// bits, with the user's own bytes, into a buffer of `image_len` bytes or more, and returns how
/// many bytes it takes. Bytes behind the image stay as they are. It takes linear time and allocates
/// nothing.
///
/// # Errors
///
/// In this order: there are too many rows, the buffer is shorter than `image_len`, or the rows
/// aren't in order. The buffer is as before.
pub fn write<R: FlatRow>(rows: &[R], payload: &[u8], out: &mut [u8]) -> Result<usize, WriteError>
    ensures ok { IsOk result ↔ CanWrite R.WIDE (each R.shown rows.now) (length payload.now)
        (length out.old) }
    ensures fault { IfErr result (IsWriteFault R.WIDE (each R.shown rows.now)
        (length payload.now) (length out.old)) }
    ensures written { OnOk result (IsImageOf R.WIDE (each R.shown rows.now) payload.now
        out.new) }
    ensures front { IfOk result (λ len. IsImageOf R.WIDE (each R.shown rows.now) payload.now
        (take len out.new)) }
    ensures most { IfOk result (λ len. len ≤ image_size R.WIDE (length rows.now)
        (length payload.now)) }
    ensures change { IfOk result (λ len. ChangesWithin 0 len out.old out.new) }
    ensures unchanged { OnErr result (out.new ≡ out.old) }
{
    let wide = R::WIDE;
    let Some(most) = most_bytes(wide, rows.len()) else {
        return Err(WriteError::Full);
    };
    if out.len() < most + payload.len() {
        return Err(WriteError::Short);
    }
    if let Some(at) = unsorted(rows) {
        return Err(WriteError::OutOfOrder(at));
    }
    let plan = RowPlan {
        rows: rows.len(),
        rows_at: HEAD,
    };
    put_row_head(out, wide, plan);
    put_rows(out, plan, rows);
    Ok(put_index(out, wide, plan, payload))
}

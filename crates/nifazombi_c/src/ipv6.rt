//! Images of IPv6 networks. An address is its 16 octets in network order, as in `struct in6_addr`.
ghost use Rattle.std.specs.Prelude.{◌≡◌, ◌↔◌, ◌⊎◌, ◌<◌, ◌≤◌, ◌+◌, ◌-◌, ◌/◌, ℕ, false, true, IsFalse, IsSome, IsSomeAnd, IsTrue, MatchOption, None, Some, drop, length, min, slice_get, slice_index, take, map as each, ◌^◌};
ghost use Rattle.std.specs.List.{filter};
ghost use Rattle.radix_keys.specs.Networks.{Net};
ghost use Rattle.image_parts.specs.Parts.{HoldsPayload, row_count};
ghost use Rattle.frozen_routes.specs.Routes.{AreInFront, IsLongestAround, IsLongestRow, IsOwnRow, is_inside};
ghost use Rattle.flat_routes.specs.Merged.{AreRowsAfter, CanMerge, IsMergeFault, is_removal6, merged_size, row_of_change6};
ghost use Rattle.flat_routes.specs.Written.{CanWrite, ChangesWithin, IsImageOf, IsWriteFault, image_size};
ghost use Rattle.flat_routes.specs.Faults.{IsRouteFault};
ghost use Rattle.flat_routes.specs.Images.{IsImage, bases, first_in, found_row, found_value, image_rows, link_in, network, octet_number, of_ipv6, row6_of, sizes};
ghost use Rattle.nifazombi_c.specs.Results.{told_error, told_write};

use crate::results::{Span, code_of, length_of};
use flat_routes::ipv6::{self, Change, Row};
use flat_routes::{Table, image_len, longest_matches, merge, merge_len, write};
use radix_keys::Address;
use std::net::Ipv6Addr;

/// Checks whether bytes are an image of IPv6 networks, in linear time. Returns 0 of an image, and
/// else why they are none: one of the numbers above; an index that belongs to it is put into `at`.
#[unsafe(no_mangle)]
pub extern "C" fn nifazombi_ipv6_check(image: &[u8], at: &mut usize) -> u32
    ensures image { (result ≡ 0) ↔ IsImage of_ipv6 image.now }
    ensures fault { (result ≡ 0)
        ⊎ IsSomeAnd (told_error result at.new) (IsRouteFault of_ipv6 image.now) }
{
    code_of(Table::<Ipv6Addr>::checked(image), at)
}

/// The count of rows.
#[unsafe(no_mangle)]
pub extern "C" fn nifazombi_ipv6_len(image: &[u8]) -> usize
    ensures count { IsImage of_ipv6 image.now
        → result ≡ length (image_rows of_ipv6 image.now) }
    ensures within { result ≤ row_count image.now }
{
    match Table::<Ipv6Addr>::open(image) {
        Ok(table) => table.len(),
        Err(_) => 0,
    }
}

/// Puts the row at an index into `row`, and returns whether there is one.
#[unsafe(no_mangle)]
pub extern "C" fn nifazombi_ipv6_row_at(image: &[u8], at: usize, row: &mut Row) -> bool
    ensures row { IsTrue result → IsImage of_ipv6 image.now
        → slice_get (image_rows of_ipv6 image.now) at ≡ Some (row6_of row.new) }
    ensures none { IsFalse result → IsImage of_ipv6 image.now
        → slice_get (image_rows of_ipv6 image.now) at ≡ None }
    ensures link { IsTrue result → row.new.link ≡ link_in of_ipv6 image.now at }
    ensures unchanged { IsFalse result → row.new ≡ row.old }
{
    let Ok(table) = Table::<Ipv6Addr>::open(image) else {
        return false;
    };
    let Some(found) = table.row_at(at) else {
        return false;
    };
    *row = Row {
        first: found.first.octets(),
        bits: found.bits,
        link: found.link,
        value: found.value,
    };
    true
}

/// The row of the longest network that holds an address, by its index and one more, or 0 where none
/// does.
#[unsafe(no_mangle)]
pub extern "C" fn nifazombi_ipv6_longest_match(image: &[u8], address: &[u8; 16]) -> usize
    ensures within { result ≤ row_count image.now }
    ensures row { IsImage of_ipv6 image.now → IsLongestRow 128 (λ n. n)
        (image_rows of_ipv6 image.now) (octet_number address.now)
        (found_row of_ipv6 image.now result) }
{
    let Ok(table) = Table::open(image) else {
        return 0;
    };
    match table.longest_match(Ipv6Addr::from_number(u128::from_be_bytes(*address))) {
        Some(at) => at + 1,
        None => 0,
    }
}

/// Looks up addresses, as many as there are of both, and puts for each what
/// `nifazombi_ipv6_longest_match` returns into `found`. Returns how many.
#[unsafe(no_mangle)]
pub extern "C" fn nifazombi_ipv6_longest_matches(
    image: &[u8],
    addresses: &[[u8; 16]],
    found: &mut [u32],
) -> usize
    ensures count { result ≤ min (length addresses.now) (length found.new) }
    ensures all { IsImage of_ipv6 image.now
        → result ≡ min (length addresses.now) (length found.new) }
    ensures within { (k : ℕ) → k < result → slice_index found.new k ≤ row_count image.now }
    ensures rest { (k : ℕ) → result ≤ k
        → slice_index found.new k ≡ slice_index found.old k }
    ensures rows { IsImage of_ipv6 image.now → (k : ℕ) → k < result
        → IsLongestRow 128 (λ n. n) (image_rows of_ipv6 image.now)
        (slice_index (each octet_number addresses.now) k)
        (found_row of_ipv6 image.now (slice_index found.new k)) }
{
    longest_matches(image, addresses, found)
}

/// Looks up addresses as `nifazombi_ipv6_longest_matches` does, and puts for each the value of its
/// row too, or 0 where no network holds it, into `values`. Goes as far as the shortest of the
/// three, and returns how many.
#[unsafe(no_mangle)]
pub extern "C" fn nifazombi_ipv6_longest_values(
    image: &[u8],
    addresses: &[[u8; 16]],
    found: &mut [u32],
    values: &mut [u64],
) -> usize
    ensures count { result
        ≤ min (length addresses.now) (min (length found.new) (length values.new)) }
    ensures all { IsImage of_ipv6 image.now
        → result ≡ min (length addresses.now) (min (length found.new) (length values.new)) }
    ensures within { (k : ℕ) → k < result → slice_index found.new k ≤ row_count image.now }
    ensures values { (k : ℕ) → k < result
        → slice_index values.new k ≡ found_value of_ipv6 image.now (slice_index found.new k) }
    ensures rest { (k : ℕ) → result ≤ k → slice_index found.new k ≡ slice_index found.old k }
    ensures rest_of_values { (k : ℕ) → result ≤ k
        → slice_index values.new k ≡ slice_index values.old k }
    ensures rows { IsImage of_ipv6 image.now → (k : ℕ) → k < result
        → IsLongestRow 128 (λ n. n) (image_rows of_ipv6 image.now)
        (slice_index (each octet_number addresses.now) k)
        (found_row of_ipv6 image.now (slice_index found.new k)) }
{
    ipv6::longest_values(image, addresses, found, values)
}

/// The row of the longest network that holds all of a network, its own where there is one, by its
/// index and one more, or 0 where none does.
#[unsafe(no_mangle)]
pub extern "C" fn nifazombi_ipv6_longest_around(image: &[u8], first: &[u8; 16], bits: u32) -> usize
    ensures within { result ≤ row_count image.now }
    ensures row { IsImage of_ipv6 image.now → IsLongestAround 128 (λ n. n)
        (image_rows of_ipv6 image.now) (network (octet_number first.now) bits)
        (found_row of_ipv6 image.now result) }
{
    let Ok(table) = Table::open(image) else {
        return 0;
    };
    match table.longest_around(Ipv6Addr::from_number(u128::from_be_bytes(*first)), bits) {
        Some(at) => at + 1,
        None => 0,
    }
}

/// The row of this very network, by its index and one more, or 0 where no row is of it.
#[unsafe(no_mangle)]
pub extern "C" fn nifazombi_ipv6_get(image: &[u8], first: &[u8; 16], bits: u32) -> usize
    ensures within { result ≤ row_count image.now }
    ensures row { IsImage of_ipv6 image.now
        → MatchOption (found_row of_ipv6 image.now result)
        ((r : Net ℕ × ℕ) → IsOwnRow (λ n. n) (image_rows of_ipv6 image.now)
        (network (octet_number first.now) bits) r → ⊥)
        (IsOwnRow (λ n. n) (image_rows of_ipv6 image.now) (network (octet_number first.now) bits)) }
{
    let Ok(table) = Table::open(image) else {
        return 0;
    };
    match table.get(Ipv6Addr::from_number(u128::from_be_bytes(*first)), bits) {
        Some(at) => at + 1,
        None => 0,
    }
}

/// Puts the rows whose networks lie within a network, itself among them, into `span`: the index of
/// the first, or the one that it would have where there is none, and how many there are.
#[unsafe(no_mangle)]
pub extern "C" fn nifazombi_ipv6_below(image: &[u8], first: &[u8; 16], bits: u32, span: &mut Span)
    ensures within { span.new.first + span.new.count ≤ row_count image.now }
    ensures first { IsImage of_ipv6 image.now → AreInFront 128 false bits
        (octet_number first.now / 2 ^ (128 - bits)) (bases of_ipv6 image.now) (sizes of_ipv6 image.now)
        span.new.first }
    ensures behind { IsImage of_ipv6 image.now → AreInFront 128 true bits
        (octet_number first.now / 2 ^ (128 - bits)) (bases of_ipv6 image.now) (sizes of_ipv6 image.now)
        (span.new.first + span.new.count) }
    ensures rows { IsImage of_ipv6 image.now
        → take span.new.count (drop span.new.first (image_rows of_ipv6 image.now))
        ≡ filter (is_inside 128 (λ n. n) (network (octet_number first.now) bits))
        (image_rows of_ipv6 image.now) }
{
    let (first, count) = match Table::open(image) {
        Ok(table) => table.below(Ipv6Addr::from_number(u128::from_be_bytes(*first)), bits),
        Err(_) => (0, 0),
    };
    *span = Span { first, count };
}

/// The row of the network around that of the row at an index, the longest other one that holds it,
/// by its index and one more, or 0 where there is none. It is at most `at`, so a walk upward ends.
#[unsafe(no_mangle)]
pub extern "C" fn nifazombi_ipv6_above(image: &[u8], at: usize) -> usize
    ensures within { result ≤ at }
    ensures past { row_count image.now ≤ at → result ≡ 0 }
    ensures row { IsImage of_ipv6 image.now → at < row_count image.now
        → IsLongestRow 128 (λ n. n) (take at (image_rows of_ipv6 image.now))
        (first_in of_ipv6 image.now at) (found_row of_ipv6 image.now result) }
{
    let Ok(table) = Table::<Ipv6Addr>::open(image) else {
        return 0;
    };
    match table.above(at) {
        Some(up) => up + 1,
        None => 0,
    }
}

/// How many bytes the image of so many rows takes at most, with so many bytes of the user's own, or
/// 0 of 2^32 rows or more, and where these are 2^64 bytes or more.
#[unsafe(no_mangle)]
pub extern "C" fn nifazombi_ipv6_image_len(rows: usize, payload: usize) -> usize
    ensures len { rows < 2 ^ 32 → image_size of_ipv6 rows payload < 2 ^ 64
        → result ≡ image_size of_ipv6 rows payload }
    ensures none { (2 ^ 32 ≤ rows) ⊎ (2 ^ 64 ≤ image_size of_ipv6 rows payload)
        → result ≡ 0 }
{
    match image_len::<Row>(rows, payload) {
        Some(len) => len,
        None => 0,
    }
}

/// Writes the image of rows in order, by first address and then by bits, whose links count for
/// nothing, and of the user's own bytes into `out`. Returns 0, and puts into `at` how many bytes
/// the image takes; or why it couldn't: one of the numbers above; an index that belongs to it is
/// put into `at`, and `out` is as before then.
#[unsafe(no_mangle)]
pub extern "C" fn nifazombi_ipv6_write(
    rows: &[Row],
    payload: &[u8],
    out: &mut [u8],
    at: &mut usize,
) -> u32
    ensures ok { (result ≡ 0) ↔ CanWrite of_ipv6 (each row6_of rows.now) (length payload.now)
        (length out.old) }
    ensures fault { (result ≡ 0) ⊎ IsSomeAnd (told_write result at.new)
        (IsWriteFault of_ipv6 (each row6_of rows.now) (length payload.now) (length out.old)) }
    ensures image { result ≡ 0 → IsImage of_ipv6 out.new }
    ensures rows { result ≡ 0 → image_rows of_ipv6 out.new ≡ each row6_of rows.now }
    ensures payload { result ≡ 0 → HoldsPayload out.new payload.now }
    ensures front { result ≡ 0 → IsImageOf of_ipv6 (each row6_of rows.now) payload.now
        (take at.new out.new) }
    ensures most { result ≡ 0
        → at.new ≤ image_size of_ipv6 (length rows.now) (length payload.now) }
    ensures change { result ≡ 0 → ChangesWithin 0 at.new out.old out.new }
    ensures unchanged { (result ≡ 0 → ⊥) → out.new ≡ out.old }
{
    length_of(write(rows, payload, out), at)
}

/// How many bytes the image takes at most that so many changes make of one, with so many bytes of
/// the user's own, or 0 where all rows and changes are 2^32 or more, and where these are 2^64 bytes
/// or more.
#[unsafe(no_mangle)]
pub extern "C" fn nifazombi_ipv6_merge_len(image: &[u8], changes: usize, payload: usize) -> usize
    ensures len { IsImage of_ipv6 image.now
        → length (image_rows of_ipv6 image.now) + changes < 2 ^ 32
        → merged_size of_ipv6 (length (image_rows of_ipv6 image.now) + changes) payload < 2 ^ 64
        → result
        ≡ merged_size of_ipv6 (length (image_rows of_ipv6 image.now) + changes) payload }
    ensures none { IsImage of_ipv6 image.now
        → (2 ^ 32 ≤ length (image_rows of_ipv6 image.now) + changes) ⊎ (2 ^ 64
        ≤ merged_size of_ipv6 (length (image_rows of_ipv6 image.now) + changes) payload)
        → result ≡ 0 }
{
    match merge_len::<Change>(image, changes, payload) {
        Some(len) => len,
        None => 0,
    }
}

/// Writes the image that changes make of another one, with the user's own bytes, into `out`. The
/// changes are in order as rows are for `nifazombi_ipv6_write`, and no network has two; one that is
/// removed needs no row. Returns 0, and puts into `at` how many bytes the new image takes; or why
/// it couldn't: one of the numbers above; an index that belongs to it is put into `at`, and `out`
/// is as before then. Of bytes that are no image it takes the first rows that are in order.
#[unsafe(no_mangle)]
pub extern "C" fn nifazombi_ipv6_merge(
    image: &[u8],
    changes: &[Change],
    payload: &[u8],
    out: &mut [u8],
    at: &mut usize,
) -> u32
    ensures ok { IsImage of_ipv6 image.now → (result ≡ 0) ↔ CanMerge of_ipv6
        (length (image_rows of_ipv6 image.now)) (each row_of_change6 changes.now)
        (length payload.now) (length out.old) }
    ensures fault { IsImage of_ipv6 image.now → (result ≡ 0)
        ⊎ IsSomeAnd (told_write result at.new) (IsMergeFault of_ipv6
        (length (image_rows of_ipv6 image.now)) (each row_of_change6 changes.now)
        (length payload.now) (length out.old)) }
    ensures told { (result ≡ 0) ⊎ IsSome (told_write result at.new) }
    ensures image { result ≡ 0 → IsImage of_ipv6 out.new }
    ensures rows { result ≡ 0 → IsImage of_ipv6 image.now → AreRowsAfter row_of_change6
        is_removal6 changes.now (image_rows of_ipv6 image.now)
        (image_rows of_ipv6 out.new) }
    ensures payload { result ≡ 0 → HoldsPayload out.new payload.now }
    ensures front { result ≡ 0 → IsImageOf of_ipv6 (image_rows of_ipv6 out.new) payload.now
        (take at.new out.new) }
    ensures most { result ≡ 0 → at.new ≤ merged_size of_ipv6
        (row_count image.now + length changes.now) (length payload.now) }
    ensures change { result ≡ 0 → ChangesWithin 0 at.new out.old out.new }
    ensures unchanged { (result ≡ 0 → ⊥) → out.new ≡ out.old }
{
    length_of(merge(image, changes, payload, out), at)
}

//! Searches among networks in order.
ghost use Rattle.std.specs.Prelude.{◌≡◌, ◌↔◌, ◌-◌, ◌/◌, ◌^◌, ◌<◌, ◌≤◌, ℕ, IsTrue, length, slice_index};
ghost use Rattle.frozen_routes.specs.Routes.{AreInFront, AreUplinks, AreTopCells, AreUpTo, AreUppers, IsInFront, IsLastAround, IsLastHolder, AreRowsInOrder, base_numbers, bit_counts};

use crate::directory::{Cell, Directory, top_span};
use crate::rows::{bits_at, first_at, holds_at, without_last};
use radix_keys::{Address, Network};

/// Whether the network at an index begins at or before an address, by its number. The upper half of
/// its own number tells so where there is one that differs.
fn begins_by<A: Address, V>(
    rows: &[(Network<A>, V)],
    uppers: &[u64],
    at: usize,
    number: u128,
) -> bool
    requires within { at < length rows.now }
    requires uppers { AreUppers (base_numbers A.number rows.now) uppers.now }
    ensures { IsTrue result ↔ (slice_index (base_numbers A.number rows.now) at ≤ number) }
{
    if at < uppers.len() {
        let own = uppers[at];
        let upper = (number >> 64) as u64;
        if own != upper {
            return own < upper;
        }
    }
    first_at(rows, at) <= number
}

/// How many of the networks begin at or before an address, by its number, where it's known that the
/// first `lo` do, and none from `hi` on.
fn count_to<A: Address, V>(
    rows: &[(Network<A>, V)],
    uppers: &[u64],
    number: u128,
    mut lo: usize,
    mut hi: usize,
) -> usize
    requires order { lo ≤ hi }
    requires within { hi ≤ length rows.now }
    requires rising { AreRowsInOrder A.BITS A.number rows.now }
    requires uppers { AreUppers (base_numbers A.number rows.now) uppers.now }
    requires below { (k : ℕ) → k < lo
        → slice_index (base_numbers A.number rows.now) k ≤ number }
    requires above { (k : ℕ) → hi ≤ k → k < length rows.now
        → number < slice_index (base_numbers A.number rows.now) k }
    ensures count { AreUpTo (base_numbers A.number rows.now) number result }
    ensures least { lo ≤ result }
{
    while lo < hi {
        let mid = lo + (hi - lo) / 2;
        if begins_by(rows, uppers, mid, number) {
            lo = mid + 1;
        } else {
            hi = mid;
        }
    }
    lo
}

/// The last of the first `from` networks that holds an address, by its index and one more, or 0
/// where there is none; the floor says so of as many as it counts.
///
/// It goes from each to the link of it, down to the floor, so at most as often as networks hold the
/// first address of the one before `from`.
pub(crate) fn follow_parents<A: Address, V>(
    rows: &[(Network<A>, V)],
    parents: &[u32],
    from: usize,
    floor: Cell,
    number: u128,
) -> usize
    requires within { from ≤ length rows.now }
    requires floor { floor.count ≤ from }
    requires linked { from ≤ length parents.now }
    requires rising { AreRowsInOrder A.BITS A.number rows.now }
    requires links { AreUplinks A.BITS (base_numbers A.number rows.now) (bit_counts rows.now)
        parents.now }
    requires before { (k : ℕ) → k < from
        → slice_index (base_numbers A.number rows.now) k ≤ number }
    requires around { IsLastHolder A.BITS (base_numbers A.number rows.now) (bit_counts rows.now)
        floor.count number floor.around }
    ensures { IsLastHolder A.BITS (base_numbers A.number rows.now) (bit_counts rows.now) from
        number result }
{
    let mut at = from;
    while at > floor.count as usize {
        if holds_at(rows, at - 1, number) {
            return at;
        }
        at = parents[at - 1] as usize;
    }
    floor.around as usize
}

/// The last of the networks that holds an address, by its index and one more, or 0 where there is
/// none.
fn last_holder<A: Address, V>(
    rows: &[(Network<A>, V)],
    parents: &[u32],
    directory: &Directory,
    address: A,
) -> usize
    requires linked { length parents.now ≡ length rows.now }
    requires rising { AreRowsInOrder A.BITS A.number rows.now }
    requires links { AreUplinks A.BITS (base_numbers A.number rows.now) (bit_counts rows.now)
        parents.now }
    requires directory { AreTopCells directory.now.rest A.BITS (base_numbers A.number rows.now)
        (bit_counts rows.now) directory.now.cells.items }
    requires uppers { AreUppers (base_numbers A.number rows.now) directory.now.uppers.items }
    ensures { IsLastHolder A.BITS (base_numbers A.number rows.now) (bit_counts rows.now)
        (length rows.now) (A.number address) result }
{
    let number = address.to_number();
    let (floor, hi) = top_span(rows, directory, number);
    let from = count_to(rows, &directory.uppers, number, floor.count as usize, hi);
    follow_parents(rows, parents, from, floor, number)
}

/// The last of the networks that holds all of another one, by its index and one more, or 0 where
/// there is none.
///
/// From the last that holds its first address it goes up the links for as long as they have more
/// bits than it. None has more than an address alone.
pub(crate) fn last_around<A: Address, V>(
    rows: &[(Network<A>, V)],
    parents: &[u32],
    directory: &Directory,
    network: &Network<A>,
) -> usize
    requires linked { length parents.now ≡ length rows.now }
    requires rising { AreRowsInOrder A.BITS A.number rows.now }
    requires links { AreUplinks A.BITS (base_numbers A.number rows.now) (bit_counts rows.now)
        parents.now }
    requires directory { AreTopCells directory.now.rest A.BITS (base_numbers A.number rows.now)
        (bit_counts rows.now) directory.now.cells.items }
    requires uppers { AreUppers (base_numbers A.number rows.now) directory.now.uppers.items }
    ensures { IsLastAround A.BITS (base_numbers A.number rows.now) (bit_counts rows.now)
        (length rows.now) (A.number network.now.base) network.now.bits result }
{
    let bits = network.bits();
    let mut at = last_holder(rows, parents, directory, network.base());
    while bits < A::BITS && at > 0 && bits_at(rows, at - 1) > bits {
        at = parents[at - 1] as usize;
    }
    at
}

/// Whether the network at an index comes in front of those within the network of `bits` bits whose
/// addresses have `quotient` for these, or of those behind it where the search is one through it.
fn is_in_front<A: Address, V>(
    rows: &[(Network<A>, V)],
    at: usize,
    bits: u8,
    quotient: u128,
    is_through: bool,
) -> bool
    requires within { at < length rows.now }
    ensures { IsTrue result ↔ IsInFront A.BITS is_through bits quotient
        (slice_index (base_numbers A.number rows.now) at) (slice_index (bit_counts rows.now) at) }
{
    let own = without_last(first_at(rows, at), A::BITS.saturating_sub(bits));
    if own != quotient {
        return own < quotient;
    }
    is_through || bits_at(rows, at) < bits
}

/// How many of the networks come in front of those within a network, or also those within where the
/// search is one through it.
pub(crate) fn cut<A: Address, V>(
    rows: &[(Network<A>, V)],
    network: &Network<A>,
    is_through: bool,
) -> usize
    requires rising { AreRowsInOrder A.BITS A.number rows.now }
    ensures { AreInFront A.BITS is_through network.now.bits
        (A.number network.now.base / 2 ^ (A.BITS - network.now.bits))
        (base_numbers A.number rows.now) (bit_counts rows.now) result }
{
    let bits = network.bits();
    let quotient = without_last(network.base().to_number(), A::BITS.saturating_sub(bits));
    let (mut lo, mut hi) = (0usize, rows.len());
    while lo < hi {
        let mid = lo + (hi - lo) / 2;
        if is_in_front(rows, mid, bits, quotient, is_through) {
            lo = mid + 1;
        } else {
            hi = mid;
        }
    }
    lo
}

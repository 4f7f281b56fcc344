//! Rows for a routing table, made of ranges.
ghost use Rattle.std.specs.Prelude.{◌≡◌, ◌≢◌, ◌-◌, ◌*◌, ◌<◌, ◌≤◌, ◌++◌, map, IfErr, IfOk, OnOk, length};
ghost use Rattle.address_ranges.specs.Rows.{AreInTurn, AreRowsInTurn, HaveSameValues, IsTrueReason, row_by_number, range_rows};

use crate::errors::RangesError;
use crate::networks::networks_of;
use radix_keys::{Address, Memory, Network};
use std::alloc::Global;

/// Whether no range ends before it begins, and each comes after the one before it.
fn check<A: Address, V>(ranges: &[(A, A, V)]) -> Result<(), RangesError>
    ensures ok { OnOk result (AreInTurn A.number ranges.now) }
    ensures reason { IfErr result (IsTrueReason A.number ranges.now) }
    ensures memory { IfErr result (λ e. e ≢ RangesError.Memory) }
{
    for (i, range) in ranges.iter().enumerate() {
        let first = range.0.to_number();
        if range.1.to_number() < first {
            return Err(RangesError::Reversed(i));
        }
        if i > 0 && first <= ranges[i - 1].1.to_number() {
            return Err(RangesError::OutOfOrder(i));
        }
    }
    Ok(())
}

/// Appends a row for each network of a range.
fn push_rows<A: Address, V: Copy>(
    rows: &mut Vec<(Network<A>, V)>,
    range: &(A, A, V),
) -> Result<(), Memory>
    ensures { OnOk result (map (row_by_number A.number) rows.new.items
        ≡ map (row_by_number A.number) rows.old.items ++ range_rows A.number A.BITS range.now) }
{
    for network in networks_of(range.0, range.1) {
        rows.push((network, range.2))?;
    }
    Ok(())
}

/// The rows of ranges, each from its first address to its last, both of them in it, with a value:
/// a row for each network of a range, with the range's value, in the order that
/// `FrozenRoutes::from_sorted` asks for. It takes linear time in the ranges and the rows.
///
/// # Errors
///
/// A range ends before it begins, or it doesn't come after the one before it: the error says of the
/// first such range where it stands, before any memory is taken. An allocation fails.
///
/// # Examples
///
/// ```
/// # use nifazombi::rattle_std::alloc::Global;
/// # use std::net::Ipv4Addr;
/// use nifazombi::address_ranges::rows_of_ranges;
/// use nifazombi::frozen_routes::FrozenRoutes;
///
/// let ranges = [
///     (Ipv4Addr::new(10, 0, 0, 1), Ipv4Addr::new(10, 0, 0, 6), "NL"),
///     (Ipv4Addr::new(10, 0, 0, 7), Ipv4Addr::new(10, 0, 1, 0), "BE"),
/// ];
/// let table = FrozenRoutes::from_sorted(rows_of_ranges(Global, &ranges)?)?;
/// let found = table.longest_match(&Ipv4Addr::new(10, 0, 0, 200));
/// assert!(found.is_some_and(|(_, land)| *land == "BE"));
/// # Ok::<(), Box<dyn std::error::Error>>(())
/// ```
pub fn rows_of_ranges<A: Address, V: Copy>(
    alloc: Global,
    ranges: &[(A, A, V)],
) -> Result<Vec<(Network<A>, V)>, RangesError>
    ensures in_turn { OnOk result (AreInTurn A.number ranges.now) }
    ensures values { IfOk result (λ rows. HaveSameValues A.number A.BITS ranges.now rows.items) }
    ensures rising { IfOk result (λ rows. AreRowsInTurn A.number A.BITS rows.items) }
    ensures few { IfOk result
        (λ rows. 1 < A.BITS → length rows.items ≤ (2 * A.BITS - 2) * length ranges.now) }
    ensures reason { IfErr result (IsTrueReason A.number ranges.now) }
{
    check(ranges)?;
    let mut rows = Vec::new(alloc);
    for range in ranges {
        push_rows(&mut rows, range)?;
    }
    Ok(rows)
}

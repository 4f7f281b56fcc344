//! The rows of a table by their numbers.
ghost use Rattle.std.specs.Prelude.{◌≡◌, ◌↔◌, ◌-◌, ◌/◌, ◌^◌, ◌<◌, ◌≤◌, IsTrue, length, option_map, slice_get, slice_index, slice_index_or};
ghost use Rattle.radix_keys.specs.Networks.{AgreeIn};
ghost use Rattle.frozen_routes.specs.Routes.{row_of_refs, base_numbers, bit_counts};

use radix_keys::{Address, Network};

/// The row at an index, by its parts.
pub(crate) fn entry_at<K, V>(rows: &[(K, V)], at: usize) -> (&K, &V)
    requires { at < length rows.now }
    ensures { row_of_refs result ≡ slice_index_or rows.now at (row_of_refs result) }
{
    let row = &rows[at];
    (&row.0, &row.1)
}

/// The row at an index, by its parts, if there is one.
pub(crate) fn entry_in<K, V>(rows: &[(K, V)], at: usize) -> Option<(&K, &V)>
    ensures { option_map row_of_refs result ≡ slice_get rows.now at }
{
    match rows.get(at) {
        Some(row) => Some((&row.0, &row.1)),
        None => None,
    }
}

/// The number of the first address of the network at an index.
pub(crate) fn first_at<A: Address, V>(rows: &[(Network<A>, V)], at: usize) -> u128
    requires { at < length rows.now }
    ensures { result ≡ slice_index (base_numbers A.number rows.now) at }
{
    rows[at].0.base().to_number()
}

/// How many bits the addresses of the network at an index share.
pub(crate) fn bits_at<A: Address, V>(rows: &[(Network<A>, V)], at: usize) -> u8
    requires { at < length rows.now }
    ensures { result ≡ slice_index (bit_counts rows.now) at }
{
    rows[at].0.bits()
}

/// Whether the network at an index holds an address, by its number.
pub(crate) fn holds_at<A: Address, V>(rows: &[(Network<A>, V)], at: usize, number: u128) -> bool
    requires { at < length rows.now }
    ensures { IsTrue result ↔ AgreeIn A.BITS (slice_index (bit_counts rows.now) at)
        (slice_index (base_numbers A.number rows.now) at) number }
{
    let rest = A::BITS.saturating_sub(bits_at(rows, at));
    without_last(first_at(rows, at), rest) == without_last(number, rest)
}

/// Whether the network at an index is this one.
pub(crate) fn is_of<A: Address, V>(
    rows: &[(Network<A>, V)],
    at: usize,
    network: &Network<A>,
) -> bool
    requires { at < length rows.now }
    ensures { IsTrue result
        ↔ ((slice_index (base_numbers A.number rows.now) at ≡ A.number network.now.base)
        × (slice_index (bit_counts rows.now) at ≡ network.now.bits)) }
{
    rows[at].0 == *network
}

/// The number without its last bits.
pub(crate) fn without_last(number: u128, bits: u8) -> u128
    requires { bits ≤ 128 }
    ensures { result ≡ number / 2 ^ bits }
{
    if bits == 128 { 0 } else { number >> bits }
}

//! Rows and changes of images of IPv6 networks, and images of tables in memory.
ghost use Rattle.std.specs.Prelude.{◌≡◌, ◌<◌, ◌≤◌, ℕ, IfErr, IfOk, OnOk, true, length, min, slice_index, vec_len, map as each};
ghost use Rattle.std.specs.Net.Addr.{ipv6_bits};
ghost use Rattle.frozen_routes.specs.Routes.{IsLongestRow};
ghost use Rattle.image_parts.specs.Parts.{row_count};
ghost use Rattle.flat_routes.specs.Faults.{IsRouteFault};
ghost use Rattle.flat_routes.specs.Written.{IsImageOf, image_size};
ghost use Rattle.flat_routes.specs.Images.{IsImage, found_row, found_value, image_rows, numbered_row, octet_number, of_ipv6};

use crate::head::plan_of;
use crate::many::{FlatAddress, find_many};
use crate::merging::FlatChange;
use crate::rows::found_value;
use crate::tables;
use crate::tables::TableRow;
use crate::writing::FlatRow;
use frozen_routes::FrozenRoutes;
use image_parts::{ImageError, TableError};
use radix_keys::{Address, Memory, Network};
use std::alloc::Global;
use std::net::Ipv6Addr;

/// A row as it lies in an image, in 32 bytes: a network by its first address, in network order, and
/// how many bits its addresses share, the index and one more of the row of the network around it,
/// or 0, and the network's value. Of the link `write` takes no notice.
#[repr(C)]
#[derive(Clone, Copy)]
pub struct Row {
    pub first: [u8; 16],
    pub bits: u32,
    pub link: u32,
    pub value: u64,
}

impl FlatRow for Row {
    ghost use Rattle.flat_routes.specs.Images.{row6_of};

    ghost WIDE = { true };

    ghost shown = { row6_of };

    const WIDE: bool = true;

    fn first(&self) -> u128 {
        u128::from_be_bytes(self.first)
    }

    fn bits(&self) -> u32 {
        self.bits
    }

    fn value(&self) -> u64 {
        self.value
    }
}

/// A change of a routing table: its row is stored from now on where `removes` is 0; else its
/// network goes, and the row's value and link count for nothing.
#[repr(C)]
#[derive(Clone, Copy)]
pub struct Change {
    pub row: Row,
    // In a `bool` of C any byte may stand.
    pub removes: u32,
}

impl FlatRow for Change {
    ghost use Rattle.flat_routes.specs.Merged.{row_of_change6};

    ghost WIDE = { true };

    ghost shown = { row_of_change6 };

    const WIDE: bool = true;

    fn first(&self) -> u128 {
        self.row.first()
    }

    fn bits(&self) -> u32 {
        self.row.bits
    }

    fn value(&self) -> u64 {
        self.row.value()
    }
}

impl FlatChange for Change {
    ghost use Rattle.flat_routes.specs.Merged.{is_removal6};

    ghost removes = { is_removal6 };

    fn is_removed(&self) -> bool {
        self.removes != 0
    }
}

impl FlatAddress for [u8; 16] {
    ghost WIDE = { true };

    ghost number = { octet_number };

    const WIDE: bool = true;

    fn number(self) -> u128 {
        u128::from_be_bytes(self)
    }
}

/// Looks up addresses as `longest_matches` does, and puts for each its row's value too, or 0 where
/// no network holds it, into `values`. It goes as far as the shortest of the three.
pub fn longest_values(
    image: &[u8],
    addresses: &[[u8; 16]],
    found: &mut [u32],
    values: &mut [u64],
) -> usize
    ensures count { result
        ≤ min (length addresses.now) (min (length found.new) (length values.new)) }
    ensures all { IsImage of_ipv6 image.now
        → result ≡ min (length addresses.now) (min (length found.new) (length values.new)) }
    ensures within { (k : ℕ) → k < result → slice_index found.new k ≤ row_count image.now }
    ensures values { (k : ℕ) → k < result
        → slice_index values.new k ≡ found_value of_ipv6 image.now (slice_index found.new k) }
    ensures rest { (k : ℕ) → result ≤ k → slice_index found.new k ≡ slice_index found.old k }
    ensures rest_of_values { (k : ℕ) → result ≤ k
        → slice_index values.new k ≡ slice_index values.old k }
    ensures rows { IsImage of_ipv6 image.now → (k : ℕ) → k < result
        → IsLongestRow 128 (λ n. n) (image_rows of_ipv6 image.now)
        (slice_index (each octet_number addresses.now) k)
        (found_row of_ipv6 image.now (slice_index found.new k)) }
{
    let Some(plan) = plan_of(image, true) else {
        return 0;
    };
    let count = addresses.len().min(found.len()).min(values.len());
    find_many(image, plan, addresses, found, count);
    for i in 0..count {
        values[i] = found_value(image, true, plan.rows, found[i] as usize);
    }
    count
}

impl FlatRow for (Network<Ipv6Addr>, u64) {
    ghost use Rattle.std.specs.Net.Addr.{ipv6_bits};
    ghost use Rattle.flat_routes.specs.Images.{numbered_row};

    ghost WIDE = { true };

    ghost shown = { numbered_row ipv6_bits };

    const WIDE: bool = true;

    fn first(&self) -> u128 {
        self.0.base().to_number()
    }

    fn bits(&self) -> u32 {
        u32::from(self.0.bits())
    }

    fn value(&self) -> u64 {
        self.1
    }
}

impl TableRow for (Network<Ipv6Addr>, u64) {
    fn of_numbers(first: u128, bits: u32, value: u64) -> Option<(Network<Ipv6Addr>, u64)> {
        let network = Network::new(Ipv6Addr::from_number(first), u8::try_from(bits).ok()?)?;
        Some((network, value))
    }
}

/// The image of a table, with the user's own bytes. It takes the time of `write`.
///
/// # Errors
///
/// An allocation fails.
pub fn to_image(
    alloc: Global,
    table: &FrozenRoutes<Ipv6Addr, u64>,
    payload: &[u8],
) -> Result<Vec<u8>, Memory>
    ensures written { IfOk result (λ image. IsImageOf of_ipv6
        (each (numbered_row ipv6_bits) table.now) payload.now image.items) }
    ensures length { IfOk result (λ image. vec_len image
        ≤ image_size of_ipv6 (length table.now) (length payload.now)) }
{
    tables::image_of(alloc, table.rows(), payload)
}

/// The table of the rows of an image. It takes the time of `check` and of
/// `FrozenRoutes::from_sorted`.
///
/// # Errors
///
/// The bytes are no image, or an allocation fails.
pub fn from_image(alloc: Global, image: &[u8]) -> Result<FrozenRoutes<Ipv6Addr, u64>, TableError>
    ensures rows { IfOk result (λ table. each (numbered_row ipv6_bits) table
        ≡ image_rows of_ipv6 image.now) }
    ensures image { OnOk result (IsImage of_ipv6 image.now) }
    ensures fault { IfErr result (λ e. (why : ImageError) → e ≡ TableError.Image why
        → IsRouteFault of_ipv6 image.now why) }
    ensures memory { IfErr result (λ e. e ≡ TableError.Memory → IsImage of_ipv6 image.now) }
{
    let rows = tables::rows_of(alloc, image)?;
    match FrozenRoutes::from_sorted(rows) {
        Ok(table) => Ok(table),
        Err(_) => Err(TableError::Memory),
    }
}

//! The images of both families.
ghost use Rattle.std.specs.Prelude.{◌≡◌, Bool, false, true, IfErr, IfOk, OnOk, map as each};
ghost use Rattle.flat_routes.specs.Faults.{IsRouteFault};
ghost use Rattle.flat_routes.specs.Images.{IsImage, image_rows, numbered_row};
ghost use Rattle.flat_routes.specs.Written.{IsImageOf};
ghost use Rattle.route_tool.specs.RouteImages.{AreTooMany};

use crate::images::WriteFault;
use flat_routes::{TableError, ipv4, ipv6};
use frozen_routes::{FrozenRoutes, SortedWhy};
use image_parts::ImageError;
use radix_trie::{Address, Network};
use std::alloc::Global;
use std::net::{Ipv4Addr, Ipv6Addr};

/// A family of addresses, of whose networks there are images.
pub(crate) trait ImageFamily: Address {
    // Whether it is IPv6.
    ghost WIDE: { Bool };

    /// The rows of an image: networks, each with its value. It takes the time of the family's
    /// `from_image`.
    ///
    /// # Errors
    ///
    /// The bytes are no image, or an allocation fails.
    fn placed_rows(alloc: Global, image: &[u8]) -> Result<Vec<(Network<Self>, usize)>, TableError>
        ensures rows { IfOk result (λ rows. each (numbered_row Self.number) rows.items
            ≡ image_rows WIDE image.now) }
        ensures image { OnOk result (IsImage WIDE image.now) }
        ensures fault { IfErr result (λ e. (why : ImageError) → e ≡ TableError.Image why
            → IsRouteFault WIDE image.now why) }
        ensures memory { IfErr result (λ e. e ≡ TableError.Memory → IsImage WIDE image.now) };

    /// The image of rows in order, with the user's own bytes. It takes the time of the family's
    /// `to_image`.
    ///
    /// # Errors
    ///
    /// An allocation fails. There are 2^32 rows or more, or a value of IPv4 is as large.
    fn image_of(
        alloc: Global,
        rows: &[(Network<Self>, usize)],
        payload: &[u8],
    ) -> Result<Vec<u8>, WriteFault>
        ensures written { IfOk result (λ image. IsImageOf WIDE
            (each (numbered_row Self.number) rows.now) payload.now image.items) }
        ensures full { IfErr result (λ e. e ≡ WriteFault.Full → AreTooMany WIDE rows.now) };
}

/// Why rows make no table. Those of a table in order are never unsorted.
fn fault_of(why: SortedWhy) -> WriteFault
    ensures { result ≡ WriteFault.Full → why ≡ SortedWhy.Full }
{
    match why {
        SortedWhy::Full => WriteFault::Full,
        SortedWhy::Memory => WriteFault::Memory,
        SortedWhy::OutOfOrder(_) => WriteFault::Memory,
    }
}

impl ImageFamily for Ipv4Addr {
    ghost WIDE = { false };

    fn placed_rows(
        alloc: Global,
        image: &[u8],
    ) -> Result<Vec<(Network<Ipv4Addr>, usize)>, TableError> {
        let table = ipv4::from_image(alloc, image)?;
        let Ok(mut rows) = Vec::with_capacity(alloc, table.len()) else {
            return Err(TableError::Memory);
        };
        for (network, value) in table.rows() {
            rows.push_reserved((*network, *value as usize));
        }
        Ok(rows)
    }

    fn image_of(
        alloc: Global,
        rows: &[(Network<Ipv4Addr>, usize)],
        payload: &[u8],
    ) -> Result<Vec<u8>, WriteFault> {
        let mut short = Vec::with_capacity(alloc, rows.len())?;
        for (network, value) in rows {
            let Ok(value) = u32::try_from(*value) else {
                return Err(WriteFault::Full);
            };
            short.push_reserved((*network, value));
        }
        match FrozenRoutes::from_sorted(short) {
            Ok(table) => Ok(ipv4::to_image(alloc, &table, payload)?),
            Err(error) => Err(fault_of(error.why)),
        }
    }
}

impl ImageFamily for Ipv6Addr {
    ghost WIDE = { true };

    fn placed_rows(
        alloc: Global,
        image: &[u8],
    ) -> Result<Vec<(Network<Ipv6Addr>, usize)>, TableError> {
        let table = ipv6::from_image(alloc, image)?;
        let Ok(mut rows) = Vec::with_capacity(alloc, table.len()) else {
            return Err(TableError::Memory);
        };
        for (network, value) in table.rows() {
            rows.push_reserved((*network, *value as usize));
        }
        Ok(rows)
    }

    fn image_of(
        alloc: Global,
        rows: &[(Network<Ipv6Addr>, usize)],
        payload: &[u8],
    ) -> Result<Vec<u8>, WriteFault> {
        let mut table = Vec::with_capacity(alloc, rows.len())?;
        for (network, value) in rows {
            table.push_reserved((*network, *value as u64));
        }
        match FrozenRoutes::from_sorted(table) {
            Ok(table) => Ok(ipv6::to_image(alloc, &table, payload)?),
            Err(error) => Err(fault_of(error.why)),
        }
    }
}

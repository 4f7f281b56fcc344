//! Images of frozen tables, and tables of images.
ghost use Rattle.std.specs.Prelude.{◌≡◌, ◌^◌, ◌<◌, ◌≤◌, false, IfErr, IfOk, IsSomeAnd, length, vec_len, map as each};
ghost use Rattle.radix_keys.specs.Networks.{IsBase};
ghost use Rattle.frozen_routes.specs.Routes.{AreRowsInOrder};
ghost use Rattle.flat_routes.specs.Faults.{IsRouteFault};
ghost use Rattle.flat_routes.specs.Images.{IsImage, image_rows, network, width};
ghost use Rattle.flat_routes.specs.Written.{IsImageOf, image_size};

use crate::check::check;
use crate::layout::image_len;
use crate::rows::{bits_at, first_at, value_at};
use crate::writing::{FlatRow, write};
use image_parts::{ImageError, TableError};
use radix_keys::Memory;
use std::alloc::Global;

/// A row of a frozen table.
pub(crate) trait TableRow: FlatRow {
    /// The row with these numbers, or None where no network has them.
    fn of_numbers(first: u128, bits: u32, value: u64) -> Option<Self>
        requires first { first < 2 ^ width Self.WIDE }
        requires value { Self.WIDE ≡ false → value < 2 ^ 32 }
        ensures { IsBase (width Self.WIDE) bits first
            → IsSomeAnd result (λ row. Self.shown row ≡ (network first bits, value)) };
}

/// The image of rows, with the user's own bytes.
pub(crate) fn image_of<R: FlatRow>(
    alloc: Global,
    rows: &[R],
    payload: &[u8],
) -> Result<Vec<u8>, Memory>
    requires { AreRowsInOrder (width R.WIDE) (λ n. n) (each R.shown rows.now) }
    ensures written { IfOk result (λ image. IsImageOf R.WIDE (each R.shown rows.now)
        payload.now image.items) }
    ensures length { IfOk result (λ image. vec_len image
        ≤ image_size R.WIDE (length rows.now) (length payload.now)) }
{
    let Some(len) = image_len::<R>(rows.len(), payload.len()) else {
        // No memory has so many bytes.
        return Err(Memory);
    };
    let mut image = Vec::from_elem(alloc, 0u8, len)?;
    let Ok(len) = write(rows, payload, &mut image) else {
        unreachable!();
    };
    image.truncate(len);
    Ok(image)
}

/// The rows of an image.
pub(crate) fn rows_of<R: TableRow>(alloc: Global, image: &[u8]) -> Result<Vec<R>, TableError>
    ensures rows { IfOk result (λ rows. each R.shown rows.items ≡ image_rows R.WIDE image.now) }
    ensures image { IfOk result (λ _. IsImage R.WIDE image.now) }
    ensures fault { IfErr result (λ e. (why : ImageError) → e ≡ TableError.Image why
        → IsRouteFault R.WIDE image.now why) }
    ensures memory { IfErr result (λ e. e ≡ TableError.Memory → IsImage R.WIDE image.now) }
{
    let wide = R::WIDE;
    let plan = match check(image, wide) {
        Ok(plan) => plan.rows,
        Err(why) => return Err(TableError::Image(why)),
    };
    let Ok(mut rows) = Vec::with_capacity(alloc, plan.rows) else {
        return Err(TableError::Memory);
    };
    for at in 0..plan.rows {
        let first = first_at(image, wide, plan, at);
        let bits = bits_at(image, wide, plan, at);
        let Some(row) = R::of_numbers(first, bits, value_at(image, wide, plan, at)) else {
            unreachable!();
        };
        rows.push_reserved(row);
    }
    Ok(rows)
}

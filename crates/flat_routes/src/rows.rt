//! The rows of an image by their numbers.
ghost use Rattle.std.specs.Prelude.{◌≡◌, ◌↔◌, ◌+◌, ◌-◌, ◌*◌, ◌/◌, ◌^◌, ◌<◌, ◌≤◌, false, IsTrue, slice_index};
ghost use Rattle.frozen_routes.specs.Routes.{IsHolderAt};
ghost use Rattle.flat_routes.specs.Images.{IsRowPlan, bases, found_value, links, low_of, sizes, value_in, width};

use crate::head::RowPlan;
use image_parts::{u32_at, u64_at, u128_at};

/// How many bits an address has.
#[inline(always)]
pub(crate) fn bits_of(wide: bool) -> u32
    ensures value { result ≡ width wide }
    ensures most { result ≤ 128 }
{
    if wide { 128 } else { 32 }
}

/// The first address of the network at an index.
#[inline(always)]
pub(crate) fn first_at(image: &[u8], wide: bool, plan: RowPlan, at: usize) -> u128
    requires plan { IsRowPlan wide image.now plan }
    requires within { at < plan.rows }
    ensures value { result ≡ slice_index (bases wide image.now) at }
    ensures fits { result < 2 ^ width wide }
{
    if wide {
        u128_at(image, plan.rows_at + 32 * at)
    } else {
        u128::from(u32_at(image, plan.rows_at + 16 * at))
    }
}

/// How many bits the addresses of the network at an index share.
#[inline(always)]
pub(crate) fn bits_at(image: &[u8], wide: bool, plan: RowPlan, at: usize) -> u32
    requires plan { IsRowPlan wide image.now plan }
    requires within { at < plan.rows }
    ensures { result ≡ slice_index (sizes wide image.now) at }
{
    if wide {
        u32_at(image, plan.rows_at + 32 * at + 16)
    } else {
        u32_at(image, plan.rows_at + 16 * at + 4)
    }
}

/// The link of the network at an index.
#[inline(always)]
pub(crate) fn link_at(image: &[u8], wide: bool, plan: RowPlan, at: usize) -> u32
    requires plan { IsRowPlan wide image.now plan }
    requires within { at < plan.rows }
    ensures { result ≡ slice_index (links wide image.now) at }
{
    if wide {
        u32_at(image, plan.rows_at + 32 * at + 20)
    } else {
        u32_at(image, plan.rows_at + 16 * at + 8)
    }
}

/// The value of the row at an index.
pub(crate) fn value_at(image: &[u8], wide: bool, plan: RowPlan, at: usize) -> u64
    requires plan { IsRowPlan wide image.now plan }
    requires within { at < plan.rows }
    ensures value { result ≡ value_in wide image.now at }
    ensures fits { wide ≡ false → result < 2 ^ 32 }
{
    if wide {
        u64_at(image, plan.rows_at + 32 * at + 24)
    } else {
        u64::from(u32_at(image, plan.rows_at + 16 * at + 12))
    }
}

/// The value of the row whose index and one more is `found`, or 0 at 0.
#[inline(always)]
pub(crate) fn found_value(image: &[u8], wide: bool, plan: RowPlan, found: usize) -> u64
    requires plan { IsRowPlan wide image.now plan }
    requires within { found ≤ plan.rows }
    ensures value { result ≡ found_value wide image.now found }
    ensures fits { wide ≡ false → result < 2 ^ 32 }
{
    if found == 0 {
        return 0;
    }
    value_at(image, wide, plan, found - 1)
}

/// The first address of the first network, or 0 where there is none.
#[inline(always)]
pub(crate) fn first_of_all(image: &[u8], wide: bool, plan: RowPlan) -> u128
    requires { IsRowPlan wide image.now plan }
    ensures value { result ≡ low_of wide image.now }
{
    if plan.rows == 0 {
        return 0;
    }
    first_at(image, wide, plan, 0)
}

/// The number without its last bits.
#[inline(always)]
pub(crate) fn without_last(number: u128, bits: u32) -> u128
    requires { bits ≤ 128 }
    ensures { result ≡ number / 2 ^ bits }
{
    if bits == 128 { 0 } else { number >> bits }
}

/// The number without the bits that come behind so many.
#[inline(always)]
pub(crate) fn first_bits(wide: bool, number: u128, bits: u32) -> u128
    ensures { result ≡ number / 2 ^ (width wide - bits) }
{
    without_last(number, bits_of(wide).saturating_sub(bits))
}

/// Whether the network at an index holds an address, by its number. One of more bits than an
/// address has holds none.
#[inline(always)]
pub(crate) fn holds_at(image: &[u8], wide: bool, plan: RowPlan, at: usize, number: u128) -> bool
    requires plan { IsRowPlan wide image.now plan }
    requires within { at < plan.rows }
    ensures { slice_index (sizes wide image.now) at ≤ width wide → IsTrue result
        ↔ IsHolderAt (width wide) (bases wide image.now) (sizes wide image.now) number at }
{
    let bits = bits_at(image, wide, plan, at);
    let all = bits_of(wide);
    if bits > all {
        return false;
    }
    let first = first_at(image, wide, plan, at);
    without_last(first, all - bits) == without_last(number, all - bits)
}

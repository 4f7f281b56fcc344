//! Many addresses are looked up, eight side by side.
ghost use Rattle.std.specs.Prelude.{◌≡◌, ◌+◌, ◌^◌, ◌<◌, ◌≤◌, ℕ, Bool, length, min, slice_index, map as each};
ghost use Rattle.frozen_routes.specs.Routes.{IsLongestRow};
ghost use Rattle.image_parts.specs.Parts.{row_count};
ghost use Rattle.flat_routes.specs.Images.{IsImage, IsPlanOf, found_row, image_rows, width};

use crate::head::{Plan, plan_of};
use crate::search::{find, find_eight};

/// An address as lists hold it: `u32` of IPv4, and of IPv6 16 octets in network order.
pub trait FlatAddress: Copy {
    // Whether it is of IPv6.
    ghost WIDE: { Bool };

    // Its number, the first bit the highest.
    ghost number: { Self → ℕ };

    /// Whether it is of IPv6.
    const WIDE: bool;

    /// Its number, the first bit the highest.
    fn number(self) -> u128
        ensures value { result ≡ number self }
        ensures fits { result < 2 ^ width WIDE };
}

/// The numbers of eight addresses.
#[inline(always)]
fn numbers_at<N: FlatAddress>(addresses: &[N], at: usize) -> [u128; 8]
    requires { at + 8 ≤ length addresses.now }
    ensures numbers { (i : ℕ) → i < 8
        → slice_index result i ≡ slice_index (each N.number addresses.now) (at + i) }
    ensures fit { (i : ℕ) → i < 8 → slice_index result i < 2 ^ width N.WIDE }
{
    let mut numbers = [0u128; 8];
    for i in 0..8 {
        numbers[i] = addresses[at + i].number();
    }
    numbers
}

/// Looks up so many addresses, eight side by side as long as there are as many.
#[inline(always)]
pub(crate) fn find_many<N: FlatAddress>(
    image: &[u8],
    plan: Plan,
    addresses: &[N],
    found: &mut [u32],
    count: usize,
)
    requires plan { IsPlanOf N.WIDE image.now plan }
    requires asked { count ≤ length addresses.now }
    requires room { count ≤ length found.old }
    ensures within { (k : ℕ) → k < count → slice_index found.new k ≤ row_count image.now }
    ensures rest { (k : ℕ) → count ≤ k → slice_index found.new k ≡ slice_index found.old k }
    ensures rows { IsImage N.WIDE image.now → (k : ℕ) → k < count
        → IsLongestRow (width N.WIDE) (λ n. n) (image_rows N.WIDE image.now)
        (slice_index (each N.number addresses.now) k)
        (found_row N.WIDE image.now (slice_index found.new k)) }
    ensures length { length found.new ≡ length found.old }
{
    let mut at = 0;
    while count - at >= 8 {
        find_eight(image, N::WIDE, plan, &numbers_at(addresses, at), found, at);
        at += 8;
    }
    for i in at..count {
        found[i] = find(image, N::WIDE, plan, addresses[i].number()) as u32;
    }
}

/// Looks up addresses as `Table::longest_match` does, as many as there are of both, and puts for
/// each the index of its row and one more, or 0, into `found`. It returns how many.
pub fn longest_matches<N: FlatAddress>(image: &[u8], addresses: &[N], found: &mut [u32]) -> usize
    ensures count { result ≤ min (length addresses.now) (length found.new) }
    ensures all { IsImage N.WIDE image.now
        → result ≡ min (length addresses.now) (length found.new) }
    ensures within { (k : ℕ) → k < result → slice_index found.new k ≤ row_count image.now }
    ensures rest { (k : ℕ) → result ≤ k
        → slice_index found.new k ≡ slice_index found.old k }
    ensures rows { IsImage N.WIDE image.now → (k : ℕ) → k < result
        → IsLongestRow (width N.WIDE) (λ n. n) (image_rows N.WIDE image.now)
        (slice_index (each N.number addresses.now) k)
        (found_row N.WIDE image.now (slice_index found.new k)) }
{
    let Some(plan) = plan_of(image, N::WIDE) else {
        return 0;
    };
    let count = addresses.len().min(found.len());
    find_many(image, plan, addresses, found, count);
    count
}

//! The first nibbles of lists as numbers, which tell the order of most lists.
ghost use Rattle.std.specs.Prelude.{◌≡◌, ◌+◌, ◌*◌, ◌<◌, ◌≤◌, ℕ, length, slice_index, slice_index_or, IfOk};
ghost use Rattle.std.specs.Int.{w64, from_be_bytes};
ghost use Rattle.std.specs.List.Sorted.{IsNonDecreasing};
ghost use Rattle.encoded_keys.specs.Heads.{AreNibbles, AreSteps, AreTops, bound_of, head_padded};

use radix_keys::{Memory, NibbleSlice};
use std::alloc::Global;

/// The head of a list: its first 15 nibbles, and how many it has of these. Where the search is one
/// through the list, 15 stands for each nibble that it lacks, and for their count.
pub(crate) fn head_of(list: &NibbleSlice<'_>, is_through: bool) -> u64
    ensures head { result ≡ bound_of is_through list.now }
    ensures nibbles { (k : ℕ) → slice_index list.now k < 16 }
{
    let head = padded_head(list);
    let len = list.len();
    if 14 < len {
        head / 16 * 16 + 15
    } else if is_through {
        head + (u64::MAX >> (4 * len))
    } else {
        head + len as u64
    }
}

/// The first 16 nibbles of a list as a number, with a zero for each that it lacks.
fn padded_head(list: &NibbleSlice<'_>) -> u64
    ensures head { result ≡ head_padded 0 16 list.now }
    ensures nibbles { (k : ℕ) → slice_index list.now k < 16 }
{
    let (bytes, _) = list.as_packed();
    first_word(bytes)
}

/// The first eight bytes as a number, the first the highest, with a zero for each that is lacking.
fn first_word(bytes: &[u8]) -> u64
    ensures word { result ≡ from_be_bytes w64 bytes.now }
    ensures bytes { (i : ℕ) → slice_index bytes.now i < 256 }
{
    if bytes.len() < 8 {
        return u64::from_be_bytes([
            byte_or_zero(bytes, 0),
            byte_or_zero(bytes, 1),
            byte_or_zero(bytes, 2),
            byte_or_zero(bytes, 3),
            byte_or_zero(bytes, 4),
            byte_or_zero(bytes, 5),
            byte_or_zero(bytes, 6),
            0,
        ]);
    }
    u64::from_be_bytes([
        bytes[0], bytes[1], bytes[2], bytes[3], bytes[4], bytes[5], bytes[6], bytes[7],
    ])
}

/// The byte at an index, and zero past the end.
fn byte_or_zero(bytes: &[u8], i: usize) -> u8
    ensures { result ≡ slice_index bytes.now i }
{
    if i < bytes.len() { bytes[i] } else { 0 }
}

/// How far apart numbers are that are copied, so that the first steps of a search touch few places
/// in memory.
const APART: usize = 16;

/// How many numbers a search is left with, at most, once it has gone by the copied ones.
const FEW: usize = 64;

/// Bounds for a search among numbers that don't fall: those in front of the first bound are below a
/// number, and those from the second on above it. They are one where the number isn't among them.
pub(crate) fn span(numbers: &[u64], steps: &[u64], tops: &[u32], bound: u64) -> (usize, usize)
    requires rising { IsNonDecreasing numbers.now }
    requires steps { AreSteps numbers.now steps.now }
    requires tops { AreTops numbers.now tops.now }
    ensures order { result.0 ≤ result.1 }
    ensures within { result.1 ≤ length numbers.now }
    ensures below { (k : ℕ) → k < result.0 → slice_index numbers.now k < bound }
    ensures above { (k : ℕ) → result.1 ≤ k → k < length numbers.now
        → bound < slice_index numbers.now k }
{
    step_span(numbers, steps, top_span(numbers, tops, bound), bound)
}

/// Nearer bounds, by the copies of each sixteenth number.
fn step_span(numbers: &[u64], steps: &[u64], bounds: (usize, usize), bound: u64) -> (usize, usize)
    requires rising { IsNonDecreasing numbers.now }
    requires steps { AreSteps numbers.now steps.now }
    requires order { bounds.0 ≤ bounds.1 }
    requires within { bounds.1 ≤ length numbers.now }
    requires below { (k : ℕ) → k < bounds.0 → slice_index numbers.now k < bound }
    requires above { (k : ℕ) → bounds.1 ≤ k → k < length numbers.now
        → bound < slice_index numbers.now k }
    ensures order { result.0 ≤ result.1 }
    ensures within { result.1 ≤ length numbers.now }
    ensures below { (k : ℕ) → k < result.0 → slice_index numbers.now k < bound }
    ensures above { (k : ℕ) → result.1 ≤ k → k < length numbers.now
        → bound < slice_index numbers.now k }
{
    let (mut lo, mut hi) = bounds;
    while hi - lo > FEW {
        let step = (lo + (hi - lo) / 2) / APART;
        if step >= steps.len() {
            return (lo, hi);
        }
        let number = steps[step];
        if number == bound {
            return (lo, hi);
        }
        if number < bound {
            lo = step * APART + 1;
        } else {
            hi = step * APART;
        }
    }
    (lo, hi)
}

/// Copies of each sixteenth number.
///
/// # Errors
///
/// An allocation fails.
pub(crate) fn steps_of(alloc: Global, numbers: &[u64]) -> Result<Vec<u64>, Memory>
    ensures { IfOk result (λ steps. AreSteps numbers.now steps.items) }
{
    let mut steps = Vec::with_capacity(alloc, numbers.len() / APART)?;
    for step in 0..numbers.len() / APART {
        steps.push(numbers[step * APART])?;
    }
    Ok(steps)
}

/// The same by how many numbers are below the multiples of 2^48.
fn top_span(numbers: &[u64], tops: &[u32], bound: u64) -> (usize, usize)
    requires { AreTops numbers.now tops.now }
    ensures order { result.0 ≤ result.1 }
    ensures within { result.1 ≤ length numbers.now }
    ensures below { (k : ℕ) → k < result.0 → slice_index numbers.now k < bound }
    ensures above { (k : ℕ) → result.1 ≤ k → k < length numbers.now
        → bound < slice_index numbers.now k }
{
    let first = (bound / (1 << 48)) as usize;
    if first + 1 < tops.len() {
        (tops[first] as usize, tops[first + 1] as usize)
    } else {
        (0, numbers.len())
    }
}

/// How many of some numbers that don't fall are below each multiple of 2^48, from 0 to 2^64.
///
/// # Errors
///
/// An allocation fails, or there are 2^32 numbers or more.
pub(crate) fn tops_of(alloc: Global, numbers: &[u64]) -> Result<Vec<u32>, Memory>
    requires { IsNonDecreasing numbers.now }
    ensures { IfOk result (λ tops. AreTops numbers.now tops.items) }
{
    let mut tops = Vec::with_capacity(alloc, 65537)?;
    for first in 0..65536 {
        let Ok(count) = u32::try_from(count_below(numbers, first * (1 << 48))) else {
            return Err(Memory);
        };
        tops.push(count)?;
    }
    let Ok(count) = u32::try_from(numbers.len()) else {
        return Err(Memory);
    };
    tops.push(count)?;
    Ok(tops)
}

/// How many of some numbers that don't fall are below a bound.
pub(crate) fn count_below(numbers: &[u64], bound: u64) -> usize
    requires { IsNonDecreasing numbers.now }
    ensures within { result ≤ length numbers.now }
    ensures below { (k : ℕ) → k < result → slice_index numbers.now k < bound }
    ensures others { (k : ℕ) → result ≤ k → k < length numbers.now
        → bound ≤ slice_index numbers.now k }
{
    numbers.partition_point(|number| *number < bound)
}

/// How many of some numbers that don't fall are at most a bound.
pub(crate) fn count_up_to(numbers: &[u64], bound: u64) -> usize
    requires { IsNonDecreasing numbers.now }
    ensures within { result ≤ length numbers.now }
    ensures below { (k : ℕ) → k < result → slice_index numbers.now k ≤ bound }
    ensures others { (k : ℕ) → result ≤ k → k < length numbers.now
        → bound < slice_index numbers.now k }
{
    numbers.partition_point(|number| *number <= bound)
}

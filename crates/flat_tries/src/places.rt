//! Values among the own bytes of an image, each by the place at which its bytes stand.
ghost use Rattle.std.specs.Prelude.{◌≡◌, ◌++◌, ◌+◌, ℕ, List, IfNone, IfOk, IfSome, MatchOption, OnOk, length};
ghost use Rattle.frozen_trie.specs.FileRows.{counted_bytes};
ghost use Rattle.flat_tries.specs.ValueImages.{HoldsOwnBytes, HasValueAt, IsValueAt, StandsCounted};

use frozen_trie::FileItem;
use image_parts::{payload, u32_at};
use radix_keys::Memory;
use std::alloc::Global;

/// The user's own bytes in an image, none where it lists no such part.
pub fn own_bytes(image: &[u8]) -> &[u8]
    ensures { HoldsOwnBytes image.now result.now }
{
    match payload(image) {
        Some((place, size)) => &image[place..place + size],
        None => &[],
    }
}

/// The bytes that stand at a place among an image's own bytes, behind four that say how many they
/// are, or None where none do: where the place or their end lies outside.
pub fn bytes_at(own: &[u8], place: u64) -> Option<&[u8]>
    ensures { MatchOption result ((bytes : List ℕ) → StandsCounted own.now place bytes → ⊥)
        (λ bytes. StandsCounted own.now place bytes.now) }
{
    let place = place as usize;
    if own.len() < 4 || place > own.len() - 4 {
        return None;
    }
    let from = place + 4;
    let count = u32_at(own, place) as usize;
    if count > own.len() - from {
        return None;
    }
    Some(&own[from..from + count])
}

/// The value whose bytes stand at a place, and how many these are with the four before them, or
/// None where no value of the type stands there.
///
/// # Errors
///
/// An allocation fails.
pub(crate) fn value_at<V: FileItem>(
    alloc: Global,
    own: &[u8],
    place: u64,
) -> Result<Option<(V, usize)>, Memory>
    ensures value { IfOk result (λ found. IfSome found
        (λ value. IsValueAt V.file_bytes V.is_item own.now place value.0)) }
    ensures size { IfOk result (λ found. IfSome found
        (λ value. value.1 ≡ 4 + length (V.file_bytes value.0))) }
    ensures malformed { IfOk result (λ found. IfNone found
        (HasValueAt V.file_bytes V.is_item own.now place → ⊥)) }
{
    let Some(bytes) = bytes_at(own, place) else {
        return Ok(None);
    };
    match V::of_file(bytes, alloc)? {
        Some(value) => Ok(Some((value, 4 + bytes.len()))),
        None => Ok(None),
    }
}

/// Adds the bytes of a value, behind four that say how many they are, and returns the place of
/// these. What `bytes` held is lost.
///
/// # Errors
///
/// An allocation fails, or there are 2^32 bytes or more. Some of them may have been added.
pub(crate) fn put_value<V: FileItem>(
    own: &mut Vec<u8>,
    bytes: &mut Vec<u8>,
    value: &V,
) -> Result<u64, Memory>
    ensures value { IfOk result
        (λ place. IsValueAt V.file_bytes V.is_item own.new.items place value.now) }
    ensures bytes { OnOk result
        (own.new.items ≡ own.old.items ++ counted_bytes (V.file_bytes value.now)) }
{
    let place = own.len();
    bytes.clear();
    value.append_to(bytes)?;
    let Ok(count) = u32::try_from(bytes.len()) else {
        return Err(Memory);
    };
    own.extend_from_slice(&count.to_le_bytes())?;
    own.extend_from_slice(bytes)?;
    Ok(place as u64)
}

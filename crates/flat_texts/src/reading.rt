//! What an image holds of a key.
ghost use Rattle.std.specs.Prelude.{◌≡◌, ◌+◌, ◌<◌, ◌≤◌, ◌∷◌, ℕ, IfSome, IsNone, drop, length, map as each, option_map, reverse, slice_get, slice_index, take};
ghost use Rattle.nibble_map.specs.Maps.{value_at};
ghost use Rattle.nibble_map.specs.Nibbles.{nibbles};
ghost use Rattle.radix_trie.specs.Views.{IsPairAbove, pairs_above};
ghost use Rattle.frozen_trie.specs.Frozen.{prefixes_up};
ghost use Rattle.image_parts.specs.Parts.{row_count};
ghost use Rattle.flat_texts.specs.TextImages.{IsTextImage, image_map, image_pairs, key_in, pair_in, given_pair, place_of, placed_pair, stored_value};

use crate::head::plan_of;
use crate::pair::{Pair, Place};
use crate::pairs::{key_at, link_at, start_at, value_at};
use crate::search::{cut, last_prefix};

/// The count of pairs. Of bytes that are no image it is some number.
pub fn len(image: &[u8]) -> usize
    ensures { IsTextImage image.now → result ≡ length (image_pairs image.now) }
{
    match plan_of(image) {
        Ok(plan) => plan.pairs,
        Err(_) => 0,
    }
}

/// The pair at an index, in the order of the keys, or None where there is none. It takes constant
/// time.
pub fn nth(image: &[u8], at: usize) -> Option<Pair<'_>>
    ensures { IsTextImage image.now
        → option_map given_pair result ≡ slice_get (image_pairs image.now) at }
{
    let Ok(plan) = plan_of(image) else {
        return None;
    };
    if at >= plan.pairs {
        return None;
    }
    Some(Pair {
        key: key_at(image, plan, at),
        value: value_at(image, plan, at),
    })
}

/// Where the pair at an index lies, in the order of the keys, or None where there is none. It takes
/// constant time.
pub fn place_at(image: &[u8], at: usize) -> Option<Place>
    ensures inside { IfSome result (λ place. place.first + place.len ≤ length image.now) }
    ensures pair { IsTextImage image.now
        → option_map (placed_pair image.now) result ≡ slice_get (image_pairs image.now) at }
{
    let Ok(plan) = plan_of(image) else {
        return None;
    };
    if at >= plan.pairs {
        return None;
    }
    let from = start_at(image, plan, at).min(plan.keys_len);
    Some(Place {
        first: plan.keys_at + from,
        len: key_at(image, plan, at).len(),
        value: value_at(image, plan, at),
    })
}

/// The index of the pair of a key, or None where the key isn't stored.
///
/// It takes as many comparisons as the pairs have binary digits, most of them of the first eight
/// bytes alone. Of bytes that are no image it returns None or the index of some pair.
pub fn get(image: &[u8], key: &[u8]) -> Option<usize>
    ensures within { IfSome result (λ at. at < row_count image.now) }
    ensures key { IsTextImage image.now → IfSome result (λ at. key_in image.now at ≡ key.now) }
    ensures value { IsTextImage image.now → option_map (stored_value image.now) result
        ≡ value_at (image_map image.now) (nibbles key.now) }
{
    let Ok(plan) = plan_of(image) else {
        return None;
    };
    let (at, is_found) = cut(image, plan, key, false);
    if is_found {
        return Some(at);
    }
    None
}

/// The index of the pair of the longest stored key that is a prefix of some bytes, or None where
/// there is none.
///
/// Where the bytes aren't stored, the stored prefixes of the key before them are gone through, from
/// the longest on, until one of them is a prefix of the bytes too.
pub fn nearest(image: &[u8], key: &[u8]) -> Option<usize>
    ensures within { IfSome result (λ at. at < row_count image.now) }
    ensures pair { IsTextImage image.now → IsPairAbove (image_map image.now) (nibbles key.now)
        (option_map (pair_in image.now) result) }
{
    let Ok(plan) = plan_of(image) else {
        return None;
    };
    let found = last_prefix(image, plan, key);
    if found == 0 {
        return None;
    }
    Some(found - 1)
}

/// The index of the pair of the longest stored key that is a prefix of the one at an index, and not
/// this key itself, or None where there is none, as past the last pair. It takes constant time.
pub fn above(image: &[u8], at: usize) -> Option<usize>
    ensures before { IfSome result (λ k. k < at) }
    ensures past { row_count image.now ≤ at → IsNone result }
    ensures walk { IsTextImage image.now → at < row_count image.now
        → prefixes_up nibbles (image_map image.now) (at + 1)
        ≡ pair_in image.now at ∷ prefixes_up nibbles (image_map image.now) (place_of result) }
{
    let Ok(plan) = plan_of(image) else {
        return None;
    };
    if at >= plan.pairs {
        return None;
    }
    let link = link_at(image, plan, at);
    if link == 0 {
        return None;
    }
    if link > at {
        return None;
    }
    Some(link - 1)
}

/// Puts the indices of the pairs whose keys are prefixes of some bytes, from the longest up, into
/// `found`, as many as it has room for. It returns how many.
pub fn prefixes(image: &[u8], key: &[u8], found: &mut [u32]) -> usize
    ensures within { result ≤ length found.new }
    ensures pairs { IsTextImage image.now
        → each (pair_in image.now) (take result found.new)
        ≡ take (length found.new) (reverse (pairs_above (image_map image.now) (nibbles key.now))) }
    ensures rest { (k : ℕ) → result ≤ k
        → slice_index found.new k ≡ slice_index found.old k }
{
    let Ok(plan) = plan_of(image) else {
        return 0;
    };
    let mut at = last_prefix(image, plan, key);
    for count in 0..found.len() {
        if at == 0 {
            return count;
        }
        found[count] = (at - 1) as u32;
        let link = link_at(image, plan, at - 1);
        if link >= at {
            return count + 1;
        }
        at = link;
    }
    found.len()
}

//! Images of maps from byte strings to numbers of 64 bits.
ghost use Rattle.std.specs.Prelude.{◌≡◌, ◌↔◌, ◌⊎◌, ◌<◌, ◌≤◌, ◌+◌, ◌^◌, ◌∷◌, ℕ, IfSome, IsFalse, IsSomeAnd, IsTrue, None, Some, [], drop, length, map as each, option_map, reverse, slice_get, slice_index, take};
ghost use Rattle.std.specs.declared.ops.Bound.TheVariants.{Excluded, Included};
ghost use Rattle.nibble_map.specs.Maps.{value_at};
ghost use Rattle.nibble_map.specs.Nibbles.{nibbles};
ghost use Rattle.radix_trie.specs.Views.{IsPairAbove, pairs_above, pairs_before, pairs_below, pairs_within};
ghost use Rattle.frozen_trie.specs.Frozen.{prefixes_up};
ghost use Rattle.image_parts.specs.Parts.{HoldsPayload, row_count};
ghost use Rattle.flat_texts.specs.TextImages.{IsImageFault, IsTextImage, given_pair, image_map, image_pairs, key_in, pair_in, placed_pair, stored_value};
ghost use Rattle.flat_texts.specs.TextWritten.{CanWriteTexts, IsTextWriteFault, keys_len, text_image_size};
ghost use Rattle.nifazombi_c.specs.Results.{told_error, told_index, told_write};

use crate::results::{Span, code_of, status_of};
use flat_texts::{Pair, Place};

/// Checks whether bytes are an image of texts, in linear time. Returns 0 of an image, and else why
/// they are none: one of the numbers above; an index that belongs to it is put into `at`.
#[unsafe(no_mangle)]
pub extern "C" fn nifazombi_texts_check(image: &[u8], at: &mut usize) -> u32
    ensures image { (result ≡ 0) ↔ IsTextImage image.now }
    ensures fault { (result ≡ 0) ⊎ IsSomeAnd (told_error result at.new) (IsImageFault image.now) }
{
    code_of(flat_texts::check(image), at)
}

/// The count of pairs.
#[unsafe(no_mangle)]
pub extern "C" fn nifazombi_texts_len(image: &[u8]) -> usize
    ensures { IsTextImage image.now → result ≡ length (image_pairs image.now) }
{
    flat_texts::len(image)
}

/// Puts where the pair at an index lies, in the order of the keys, into `place`, and returns
/// whether there is one.
#[unsafe(no_mangle)]
pub extern "C" fn nifazombi_texts_pair_at(image: &[u8], at: usize, place: &mut Place) -> bool
    ensures inside { IsTrue result → place.new.first + place.new.len ≤ length image.now }
    ensures pair { IsTrue result → IsTextImage image.now
        → slice_get (image_pairs image.now) at ≡ Some (placed_pair image.now place.new) }
    ensures none { IsFalse result → IsTextImage image.now
        → slice_get (image_pairs image.now) at ≡ None }
    ensures unchanged { IsFalse result → place.new ≡ place.old }
{
    let Some(found) = flat_texts::place_at(image, at) else {
        return false;
    };
    *place = found;
    true
}

/// The pair of a key, by its index and one more, or 0 where it isn't stored.
#[unsafe(no_mangle)]
pub extern "C" fn nifazombi_texts_get(image: &[u8], key: &[u8]) -> usize
    ensures within { result ≤ row_count image.now }
    ensures key { IsTextImage image.now
        → IfSome (told_index result) (λ at. key_in image.now at ≡ key.now) }
    ensures value { IsTextImage image.now → option_map (stored_value image.now) (told_index result)
        ≡ value_at (image_map image.now) (nibbles key.now) }
{
    match flat_texts::get(image, key) {
        Some(at) => at + 1,
        None => 0,
    }
}

/// The pair of the longest stored key that is a prefix of some bytes, by its index and one more, or
/// 0 where there is none.
#[unsafe(no_mangle)]
pub extern "C" fn nifazombi_texts_nearest(image: &[u8], key: &[u8]) -> usize
    ensures within { result ≤ row_count image.now }
    ensures pair { IsTextImage image.now → IsPairAbove (image_map image.now) (nibbles key.now)
        (option_map (pair_in image.now) (told_index result)) }
{
    match flat_texts::nearest(image, key) {
        Some(at) => at + 1,
        None => 0,
    }
}

/// The pair of the longest stored key that is a prefix of the key at an index, and not this one, by
/// its index and one more, or 0 where there is none. It is at most `at`, so a walk upward ends.
#[unsafe(no_mangle)]
pub extern "C" fn nifazombi_texts_above(image: &[u8], at: usize) -> usize
    ensures within { result ≤ at }
    ensures past { row_count image.now ≤ at → result ≡ 0 }
    ensures walk { IsTextImage image.now → at < row_count image.now
        → prefixes_up nibbles (image_map image.now) (at + 1)
        ≡ pair_in image.now at ∷ prefixes_up nibbles (image_map image.now) result }
{
    match flat_texts::above(image, at) {
        Some(up) => up + 1,
        None => 0,
    }
}

/// Puts the indices of the pairs whose keys are prefixes of some bytes into `found`, from the
/// longest up, as many as it has room for. Returns how many.
#[unsafe(no_mangle)]
pub extern "C" fn nifazombi_texts_prefixes(image: &[u8], key: &[u8], found: &mut [u32]) -> usize
    ensures within { result ≤ length found.new }
    ensures pairs { IsTextImage image.now
        → each (pair_in image.now) (take result found.new)
        ≡ take (length found.new) (reverse (pairs_above (image_map image.now) (nibbles key.now))) }
    ensures rest { (k : ℕ) → result ≤ k
        → slice_index found.new k ≡ slice_index found.old k }
{
    flat_texts::prefixes(image, key, found)
}

/// How many of the keys come before some bytes: the index at which these are stored, or would be.
#[unsafe(no_mangle)]
pub extern "C" fn nifazombi_texts_rank(image: &[u8], key: &[u8]) -> usize
    ensures within { result ≤ row_count image.now }
    ensures count { IsTextImage image.now
        → result ≡ length (pairs_before (image_map image.now) [] (nibbles key.now)) }
{
    flat_texts::rank(image, key)
}

/// Puts the pairs whose keys begin with some bytes into `span`.
#[unsafe(no_mangle)]
pub extern "C" fn nifazombi_texts_below(image: &[u8], prefix: &[u8], span: &mut Span)
    ensures within { span.new.first + span.new.count ≤ row_count image.now }
    ensures pairs { IsTextImage image.now
        → take span.new.count (drop span.new.first (image_pairs image.now))
        ≡ pairs_below (image_map image.now) (nibbles prefix.now) }
{
    let (first, count) = flat_texts::below(image, prefix);
    *span = Span { first, count };
}

/// Puts the pairs whose keys are `from` or come after it, and come before `to`, into `span`.
#[unsafe(no_mangle)]
pub extern "C" fn nifazombi_texts_between(image: &[u8], from: &[u8], to: &[u8], span: &mut Span)
    ensures within { span.new.first + span.new.count ≤ row_count image.now }
    ensures pairs { IsTextImage image.now
        → take span.new.count (drop span.new.first (image_pairs image.now))
        ≡ pairs_within (image_map image.now) [] (Included (nibbles from.now))
        (Excluded (nibbles to.now)) }
{
    let (first, count) = flat_texts::between(image, from, to);
    *span = Span { first, count };
}

/// How many bytes the image of pairs takes, with so many bytes of the user's own, or 0 of 2^32
/// pairs or more, or as many bytes of keys, and where these are 2^64 bytes or more.
#[unsafe(no_mangle)]
pub extern "C" fn nifazombi_texts_image_len(pairs: &[Pair<'_>], payload: usize) -> usize
    ensures len { length pairs.now < 2 ^ 32 → keys_len pairs.now < 2 ^ 32
        → text_image_size pairs.now payload < 2 ^ 64
        → result ≡ text_image_size pairs.now payload }
    ensures none { (2 ^ 32 ≤ length pairs.now) ⊎ (2 ^ 32 ≤ keys_len pairs.now)
        ⊎ (2 ^ 64 ≤ text_image_size pairs.now payload) → result ≡ 0 }
{
    match flat_texts::image_len(pairs, payload) {
        Some(len) => len,
        None => 0,
    }
}

/// Writes the image of pairs whose keys rise in the order of their bytes, and of the user's own
/// bytes, into `out`. Returns 0, or why it couldn't: one of the numbers above; the index that
/// belongs to it is put into `at`, and `out` is as before then. Bytes behind the image stay as they
/// are.
#[unsafe(no_mangle)]
pub extern "C" fn nifazombi_texts_write(
    pairs: &[Pair<'_>],
    payload: &[u8],
    out: &mut [u8],
    at: &mut usize,
) -> u32
    ensures ok { (result ≡ 0) ↔ CanWriteTexts pairs.now (length payload.now) (length out.old) }
    ensures fault { (result ≡ 0) ⊎ IsSomeAnd (told_write result at.new)
        (IsTextWriteFault pairs.now (length payload.now) (length out.old)) }
    ensures image { result ≡ 0 → IsTextImage out.new }
    ensures pairs { result ≡ 0 → image_pairs out.new ≡ each given_pair pairs.now }
    ensures payload { result ≡ 0 → HoldsPayload out.new payload.now }
    ensures behind { (k : ℕ) → text_image_size pairs.now (length payload.now) ≤ k
        → slice_index out.new k ≡ slice_index out.old k }
    ensures unchanged { (result ≡ 0 → ⊥) → out.new ≡ out.old }
{
    status_of(flat_texts::write(pairs, payload, out), at)
}

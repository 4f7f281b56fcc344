//! Images of frozen tries, and frozen tries of images.
ghost use Rattle.std.specs.Prelude.{◌≡◌, ◌≢◌, [], ℕ, IfErr, IfOk};
ghost use Rattle.std.specs.List.{AllZip};
ghost use Rattle.radix_trie.specs.Views.{pairs_below};
ghost use Rattle.image_parts.specs.Parts.{HoldsPayload};
ghost use Rattle.flat_texts.specs.TextImages.{IsImageFault, IsTextImage, image_pairs};
ghost use Rattle.flat_tries.specs.TrieImages.{HasOddKey, IsCodedPair, IsForeignPair};

use crate::errors::TrieError;
use crate::keys::ImageKey;
use flat_texts::{check, len, nth};
use frozen_trie::{FrozenTexts, FrozenTrie};
use image_parts::ImageError;
use radix_keys::{BytesError, TrieKey};
use std::alloc::Global;

/// The image of a frozen trie, with the user's own bytes: of each pair the bytes of the key's
/// encoding, two nibbles to a byte and the first in the high half, with the value.
///
/// # Errors
///
/// `Odd`: the encoding of a key has an odd count of nibbles. `Memory`: an allocation fails, or the
/// encodings together take 2^31 bytes or more.
///
/// # Examples
///
/// ```
/// # use nifazombi::{frozen_trie::FrozenTrie, rattle_std::alloc::Global};
/// use nifazombi::flat_tries;
///
/// let mut codes: FrozenTrie<u16, u64> = FrozenTrie::new(Global);
/// codes.push(7, 1)?;
/// let image = flat_tries::to_image(Global, &codes, &[])?;
/// let Ok(again) = flat_tries::from_image::<u16>(Global, &image) else {
///     panic!("the image is whole");
/// };
/// assert_eq!(again.get(&7u16)?, Some(&1));
/// # Ok::<(), Box<dyn std::error::Error>>(())
/// ```
pub fn to_image<K: TrieKey + Drop>(
    alloc: Global,
    trie: &FrozenTrie<K, u64>,
    payload: &[u8],
) -> Result<Vec<u8>, BytesError>
    ensures image { IfOk result (λ image. IsTextImage image.items) }
    ensures pairs { IfOk result (λ image. AllZip (IsCodedPair K.encoding)
        (image_pairs image.items) (pairs_below trie.now [])) }
    ensures payload { IfOk result (λ image. HoldsPayload image.items payload.now) }
    ensures odd { IfErr result (λ e. e ≡ BytesError.Odd
        → HasOddKey K.encoding (pairs_below trie.now [])) }
{
    let mut texts = FrozenTexts::new(alloc);
    for (key, value) in trie.pairs() {
        let bytes = match key.encode_bytes(alloc) {
            Ok(bytes) => bytes,
            Err(why) => return Err(why),
        };
        match texts.push(&bytes, *value) {
            Ok(()) => {}
            Err(_) => return Err(BytesError::Memory),
        }
    }
    match flat_texts::to_image(alloc, &texts, payload) {
        Ok(image) => Ok(image),
        Err(_) => Err(BytesError::Memory),
    }
}

/// The frozen trie of the pairs of an image: of each pair the key whose encoding has these bytes,
/// with the value.
///
/// # Errors
///
/// The bytes are no image; or those of a pair are the encoding of no key of the type; or memory is
/// refused, or the encodings take more bytes than those of a frozen trie may.
pub fn from_image<K: ImageKey>(alloc: Global, image: &[u8]) -> Result<FrozenTrie<K, u64>, TrieError>
    ensures image { IfOk result (λ _. IsTextImage image.now) }
    ensures pairs { IfOk result (λ trie. AllZip (IsCodedPair K.encoding)
        (image_pairs image.now) (pairs_below trie [])) }
    ensures fault { IfErr result (λ e. (why : ImageError) → e ≡ TrieError.Image why
        → IsImageFault image.now why) }
    ensures key { IfErr result (λ e. (i : ℕ) → e ≡ TrieError.Key i
        → IsForeignPair K.encoding K.is_value (image_pairs image.now) i) }
    ensures value { IfErr result (λ e. (i : ℕ) → e ≢ TrieError.Value i) }
    ensures shared { IfErr result (λ e. (i : ℕ) → e ≢ TrieError.Shared i) }
{
    match check(image) {
        Ok(()) => {}
        Err(why) => return Err(TrieError::Image(why)),
    }
    let mut trie = FrozenTrie::new(alloc);
    for at in 0..len(image) {
        let Some(pair) = nth(image, at) else {
            return Err(TrieError::Memory);
        };
        let key = match K::of_image(pair.key, alloc) {
            Ok(Some(key)) => key,
            Ok(None) => return Err(TrieError::Key(at)),
            Err(_) => return Err(TrieError::Memory),
        };
        match trie.push(key, pair.value) {
            Ok(()) => {}
            Err(_) => return Err(TrieError::Memory),
        }
    }
    if trie.finish().is_err() {
        return Err(TrieError::Memory);
    }
    Ok(trie)
}

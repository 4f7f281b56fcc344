//! Images of frozen tries whose values are texts or other bytes, and such frozen tries of images.
ghost use Rattle.std.specs.Prelude.{◌≡◌, ◌≤◌, [], ℕ, IfErr, IfOk, length};
ghost use Rattle.radix_trie.specs.Views.{pairs_below};
ghost use Rattle.image_parts.specs.Parts.{HoldsPayload};
ghost use Rattle.flat_texts.specs.TextImages.{IsImageFault, IsTextImage, image_pairs};
ghost use Rattle.flat_tries.specs.TrieImages.{HasOddKey, IsForeignPair};
ghost use Rattle.flat_tries.specs.ValueImages.{HoldsValues, LacksValue, ShareValues, laid_values};

use crate::errors::TrieError;
use crate::keys::ImageKey;
use crate::places::{own_bytes, put_value, value_at};
use flat_texts::{check, len, nth};
use frozen_trie::{FileItem, FrozenTexts, FrozenTrie};
use image_parts::ImageError;
use radix_keys::{BytesError, TrieKey};
use std::alloc::Global;

/// The image of a frozen trie whose values are texts, lists of bytes, or other things that stand in
/// a file as bytes: of each pair the bytes of the key's encoding, two nibbles to a byte and the
/// first in the high half, with the place of the value among the image's own bytes. There stands
/// how many bytes the value has, in four bytes with the low one first, and they stand behind it.
/// The values stand in the order of the pairs, the first at 0.
///
/// # Errors
///
/// `Odd`: the encoding of a key has an odd count of nibbles. `Memory`: an allocation fails, the
/// encodings together take 2^31 bytes or more, or a value takes 2^32 bytes or more.
pub fn to_image_of_values<K: TrieKey + Drop, V: FileItem + Drop>(
    alloc: Global,
    trie: &FrozenTrie<K, V>,
) -> Result<Vec<u8>, BytesError>
    ensures image { IfOk result (λ image. IsTextImage image.items) }
    ensures pairs { IfOk result (λ image. HoldsValues V.file_bytes V.is_item K.encoding
        image.items (pairs_below trie.now [])) }
    ensures payload { IfOk result (λ image. HoldsPayload image.items
        (laid_values V.file_bytes (pairs_below trie.now []))) }
    ensures odd { IfErr result (λ e. e ≡ BytesError.Odd
        → HasOddKey K.encoding (pairs_below trie.now [])) }
{
    let mut texts = FrozenTexts::new(alloc);
    let mut own = Vec::new(alloc);
    let mut bytes = Vec::new(alloc);
    for (key, value) in trie.pairs() {
        let code = match key.encode_bytes(alloc) {
            Ok(code) => code,
            Err(why) => return Err(why),
        };
        let place = match put_value(&mut own, &mut bytes, value) {
            Ok(place) => place,
            Err(_) => return Err(BytesError::Memory),
        };
        match texts.push(&code, place) {
            Ok(()) => {}
            Err(_) => return Err(BytesError::Memory),
        }
    }
    match flat_texts::to_image(alloc, &texts, &own) {
        Ok(image) => Ok(image),
        Err(_) => Err(BytesError::Memory),
    }
}

/// The frozen trie of the pairs of an image: of each pair the key whose encoding has these bytes,
/// with the value whose bytes stand at the pair's number among the image's own. Pairs may share the
/// bytes of a value, which is made for each of them, but all values together take no more bytes
/// than the image.
///
/// # Errors
///
/// The bytes are no image; or those of a pair are the encoding of no key of the type, or its number
/// leads to no value of the type; or the values take more bytes than the image; or an allocation
/// fails, or the encodings take more bytes than those of a frozen trie may.
pub fn from_image_of_values<K: ImageKey, V: FileItem + Drop>(
    alloc: Global,
    image: &[u8],
) -> Result<FrozenTrie<K, V>, TrieError>
    ensures image { IfOk result (λ _. IsTextImage image.now) }
    ensures pairs { IfOk result (λ trie. HoldsValues V.file_bytes V.is_item K.encoding
        image.now (pairs_below trie [])) }
    ensures fault { IfErr result (λ e. (why : ImageError) → e ≡ TrieError.Image why
        → IsImageFault image.now why) }
    ensures key { IfErr result (λ e. (i : ℕ) → e ≡ TrieError.Key i
        → IsForeignPair K.encoding K.is_value (image_pairs image.now) i) }
    ensures value { IfErr result (λ e. (i : ℕ) → e ≡ TrieError.Value i
        → LacksValue V.file_bytes V.is_item image.now i) }
    ensures bounded { IfOk result (λ trie.
        length (laid_values V.file_bytes (pairs_below trie [])) ≤ length image.now) }
    ensures shared { IfErr result (λ e. (i : ℕ) → e ≡ TrieError.Shared i
        → ShareValues image.now i) }
{
    match check(image) {
        Ok(()) => {}
        Err(why) => return Err(TrieError::Image(why)),
    }
    let own = own_bytes(image);
    let mut left = image.len();
    let mut trie = FrozenTrie::new(alloc);
    for at in 0..len(image) {
        let Some(pair) = nth(image, at) else {
            return Err(TrieError::Memory);
        };
        let key = match K::of_image(pair.key, alloc) {
            Ok(Some(key)) => key,
            Ok(None) => return Err(TrieError::Key(at)),
            Err(_) => return Err(TrieError::Memory),
        };
        let (value, size) = match value_at(alloc, own, pair.value) {
            Ok(Some(found)) => found,
            Ok(None) => return Err(TrieError::Value(at)),
            Err(_) => return Err(TrieError::Memory),
        };
        if size > left {
            return Err(TrieError::Shared(at));
        }
        left -= size;
        match trie.push(key, value) {
            Ok(()) => {}
            Err(_) => return Err(TrieError::Memory),
        }
    }
    if trie.finish().is_err() {
        return Err(TrieError::Memory);
    }
    Ok(trie)
}

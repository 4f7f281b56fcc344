//! Maps in memory from images, and images of maps in memory.
ghost use Rattle.std.specs.Prelude.{◌≡◌, [], IfErr, IfOk};
ghost use Rattle.radix_trie.specs.Views.{pairs_below};
ghost use Rattle.image_parts.specs.Parts.{HoldsPayload};
ghost use Rattle.flat_texts.specs.TextImages.{IsImageFault, IsTextImage, image_pairs};

use crate::checking::check;
use crate::layout::image_len;
use crate::pair::Pair;
use crate::reading::{len, nth};
use crate::writing::write;
use frozen_trie::FrozenTexts;
use image_parts::{ImageError, TableError};
use radix_keys::Memory;
use std::alloc::Global;

/// The map in memory of the pairs of an image.
///
/// # Errors
///
/// The bytes are no image; an allocation fails; or the keys take more bytes than those of a map in
/// memory may.
pub fn from_image(alloc: Global, image: &[u8]) -> Result<FrozenTexts<u64>, TableError>
    ensures image { IfOk result (λ _. IsTextImage image.now) }
    ensures pairs { IfOk result (λ texts. pairs_below texts [] ≡ image_pairs image.now) }
    ensures fault { IfErr result (λ e. (why : ImageError) → e ≡ TableError.Image why
        → IsImageFault image.now why) }
{
    match check(image) {
        Ok(()) => {}
        Err(why) => return Err(TableError::Image(why)),
    }
    let mut texts = FrozenTexts::new(alloc);
    for at in 0..len(image) {
        let Some(pair) = nth(image, at) else {
            return Err(TableError::Memory);
        };
        match texts.push(pair.key, pair.value) {
            Ok(()) => {}
            Err(_) => return Err(TableError::Memory),
        }
    }
    if texts.finish().is_err() {
        return Err(TableError::Memory);
    }
    Ok(texts)
}

/// The image of a map in memory, with the user's own bytes.
///
/// # Errors
///
/// An allocation fails.
///
/// # Examples
///
/// ```
/// # use nifazombi::{frozen_trie::FrozenTexts, rattle_std::alloc::Global};
/// use nifazombi::flat_texts;
///
/// let mut texts: FrozenTexts<u64> = FrozenTexts::new(Global);
/// texts.push(b"tea", 1)?;
/// texts.push(b"team", 2)?;
/// let image = flat_texts::to_image(Global, &texts, &[])?;
/// assert_eq!(flat_texts::nearest(&image, b"teapot"), Some(0));
/// assert!(flat_texts::nth(&image, 0).is_some_and(|pair| pair.value == 1));
/// assert_eq!(flat_texts::below(&image, b"te"), (0, 2));
/// # Ok::<(), Box<dyn std::error::Error>>(())
/// ```
pub fn to_image(alloc: Global, texts: &FrozenTexts<u64>, payload: &[u8]) -> Result<Vec<u8>, Memory>
    ensures image { IfOk result (λ image. IsTextImage image.items) }
    ensures pairs { IfOk result (λ image. image_pairs image.items ≡ pairs_below texts.now []) }
    ensures payload { IfOk result (λ image. HoldsPayload image.items payload.now) }
{
    let mut pairs = Vec::new(alloc);
    for at in 0..texts.len() {
        let Some((key, value)) = texts.nth(at) else {
            return Err(Memory);
        };
        match pairs.push(Pair { key, value: *value }) {
            Ok(()) => {}
            Err(_) => return Err(Memory),
        }
    }
    let Some(len) = image_len(&pairs, payload.len()) else {
        return Err(Memory);
    };
    let Ok(mut out) = Vec::from_elem(alloc, 0u8, len) else {
        return Err(Memory);
    };
    match write(&pairs, payload, &mut out) {
        Ok(()) => Ok(out),
        Err(_) => Err(Memory),
    }
}

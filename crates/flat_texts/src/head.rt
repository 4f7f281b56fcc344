//! The head of an image, and where its parts lie.
ghost use Rattle.std.specs.Prelude.{◌≡◌, ◌≢◌, ◌+◌, ◌*◌, ◌%◌, ◌^◌, ◌≤◌, IfErr, IfOk, length};
ghost use Rattle.image_parts.specs.Parts.{part_count, u64_in};
ghost use Rattle.flat_texts.specs.TextImages.{HasTextHead, IsImageFault, IsTextPlan, text_mark};

use image_parts::{ImageError, part_at, u32_at, u64_at};

/// Where the parts of an image lie.
#[derive(Clone, Copy)]
pub(crate) struct Plan {
    /// How many pairs there are.
    pub(crate) pairs: usize,
    /// The place of the first head.
    pub(crate) heads_at: usize,
    /// The place of the first pair.
    pub(crate) pairs_at: usize,
    /// How many counts there are.
    pub(crate) counts: usize,
    /// The place of the first.
    pub(crate) counts_at: usize,
    /// The place of the first key's bytes.
    pub(crate) keys_at: usize,
    /// How many bytes the keys have.
    pub(crate) keys_len: usize,
}

/// The number of the first 8 bytes of an image.
#[inline(always)]
pub(crate) fn mark() -> u64
    ensures { result ≡ text_mark }
{
    u64::from_le_bytes(*b"NZTEXT.1")
}

/// Why bytes that begin with another number are no image: they are of another version where the
/// number's last 7 bytes are the same.
fn other_mark(own: u64) -> ImageError
    requires { own ≢ text_mark }
    ensures version { result ≡ ImageError.Version → own % 2 ^ 56 ≡ text_mark % 2 ^ 56 }
    ensures mark { result ≢ ImageError.Version
        → (result ≡ ImageError.Mark) × (own % 2 ^ 56 ≢ text_mark % 2 ^ 56) }
{
    if own % (1 << 56) == mark() % (1 << 56) {
        return ImageError::Version;
    }
    ImageError::Mark
}

/// Where the parts of an image lie.
///
/// # Errors
///
/// The head is none, or the part of an image isn't listed first.
#[inline(always)]
pub(crate) fn plan_of(image: &[u8]) -> Result<Plan, ImageError>
    ensures plan { IfOk result (λ plan. IsTextPlan image.now plan) }
    ensures refused { IfErr result (λ _. HasTextHead image.now → ⊥) }
    ensures fault { IfErr result (λ e. IsImageFault image.now e) }
{
    if image.len() < 40 {
        return Err(ImageError::Short);
    }
    let own = u64_at(image, 0);
    if own != mark() {
        return Err(other_mark(own));
    }
    let parts = u32_at(image, 12) as usize;
    if parts < 1 {
        return Err(ImageError::Part(0));
    }
    if 16 + 24 * parts > image.len() {
        return Err(ImageError::Short);
    }
    let Some((heads_at, len)) = part_at(image, 16, 4) else {
        return Err(ImageError::Part(0));
    };
    let pairs = u32_at(image, 8) as usize;
    let counts = u32_at(image, 20) as usize;
    let keys = 24 * pairs + 4 * counts;
    if keys > len {
        return Err(ImageError::Part(0));
    }
    Ok(Plan {
        pairs,
        heads_at,
        pairs_at: heads_at + 8 * pairs,
        counts,
        counts_at: heads_at + 24 * pairs,
        keys_at: heads_at + keys,
        keys_len: len - keys,
    })
}

//! What stands in an image, by its numbers.
ghost use Rattle.std.specs.Prelude.{◌≡◌, ◌<◌, length};
ghost use Rattle.flat_texts.specs.TextImages.{IsTextPlan, key_end, key_in, key_start, stored_count, stored_head, stored_link, stored_value};

use crate::head::Plan;
use image_parts::{u32_at, u64_at};

/// The head at an index.
#[inline(always)]
pub(crate) fn head_at(image: &[u8], plan: Plan, at: usize) -> u64
    requires plan { IsTextPlan image.now plan }
    requires within { at < plan.pairs }
    ensures { result ≡ stored_head image.now at }
{
    u64_at(image, plan.heads_at + 8 * at)
}

/// Where the key at an index ends among the keys' bytes.
#[inline(always)]
pub(crate) fn end_at(image: &[u8], plan: Plan, at: usize) -> usize
    requires plan { IsTextPlan image.now plan }
    requires within { at < plan.pairs }
    ensures { result ≡ key_end image.now at }
{
    u32_at(image, plan.pairs_at + 16 * at) as usize
}

/// Where it begins.
#[inline(always)]
pub(crate) fn start_at(image: &[u8], plan: Plan, at: usize) -> usize
    requires plan { IsTextPlan image.now plan }
    requires within { at < plan.pairs }
    ensures { result ≡ key_start image.now at }
{
    if at == 0 {
        return 0;
    }
    end_at(image, plan, at - 1)
}

/// The link of the pair at an index.
#[inline(always)]
pub(crate) fn link_at(image: &[u8], plan: Plan, at: usize) -> usize
    requires plan { IsTextPlan image.now plan }
    requires within { at < plan.pairs }
    ensures { result ≡ stored_link image.now at }
{
    u32_at(image, plan.pairs_at + 16 * at + 4) as usize
}

/// The value of the pair at an index.
#[inline(always)]
pub(crate) fn value_at(image: &[u8], plan: Plan, at: usize) -> u64
    requires plan { IsTextPlan image.now plan }
    requires within { at < plan.pairs }
    ensures { result ≡ stored_value image.now at }
{
    u64_at(image, plan.pairs_at + 16 * at + 8)
}

/// The count at an index.
#[inline(always)]
pub(crate) fn count_at(image: &[u8], plan: Plan, at: usize) -> usize
    requires plan { IsTextPlan image.now plan }
    requires within { at < plan.counts }
    ensures { result ≡ stored_count image.now at }
{
    u32_at(image, plan.counts_at + 4 * at) as usize
}

/// The key at an index; where it would end before it begins, or behind all keys' bytes, what there
/// is of it.
#[inline(always)]
pub(crate) fn key_at<'a>(image: &'a [u8], plan: Plan, at: usize) -> &'a [u8]
    requires plan { IsTextPlan image.now plan }
    requires within { at < plan.pairs }
    ensures { result.now ≡ key_in image.now at }
{
    let keys = &image[plan.keys_at..plan.keys_at + plan.keys_len];
    let from = start_at(image, plan, at);
    let to = end_at(image, plan, at).min(plan.keys_len);
    if from > to {
        return &keys[..0];
    }
    &keys[from..to]
}

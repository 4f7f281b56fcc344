//! Whether bytes are an image.
ghost use Rattle.std.specs.Prelude.{◌≡◌, ◌↔◌, ◌*◌, ◌-◌, ◌^◌, ◌<◌, ◌≤◌, ℕ, IfErr, IsOk, IsTrue, length};
ghost use Rattle.nibble_map.specs.Lists.{IsBefore};
ghost use Rattle.encoded_keys.specs.Heads.{IsTop};
ghost use Rattle.image_parts.specs.Parts.{row_count};
ghost use Rattle.flat_texts.specs.TextImages.{AreRightPairs, IsImageFault, IsRightPair, IsTextImage, IsTextPlan, key_code, stored_count, stored_head, stored_heads};

use crate::head::{Plan, plan_of};
use crate::heads::head_of;
use crate::pairs::{count_at, end_at, head_at, key_at, link_at, start_at};
use crate::search::follow_parents;
use image_parts::ImageError;
use radix_keys::NibbleSlice;

/// Whether the key at an index comes after the one before it.
fn is_after(image: &[u8], plan: Plan, at: usize) -> bool
    requires plan { IsTextPlan image.now plan }
    requires within { at < plan.pairs }
    ensures { IsTrue result
        ↔ (0 < at → IsBefore (key_code image.now (at - 1)) (key_code image.now at)) }
{
    if at == 0 {
        return true;
    }
    let last = NibbleSlice::from_bytes(key_at(image, plan, at - 1));
    let own = NibbleSlice::from_bytes(key_at(image, plan, at));
    last.cmp(&own).is_lt()
}

/// Whether the pair at an index is right, where those before it are.
fn is_pair(image: &[u8], plan: Plan, at: usize) -> bool
    requires plan { IsTextPlan image.now plan }
    requires within { at < plan.pairs }
    requires before { AreRightPairs image.now at }
    ensures { IsTrue result ↔ IsRightPair image.now at }
{
    let end = end_at(image, plan, at);
    if start_at(image, plan, at) > end || end > plan.keys_len {
        return false;
    }
    let key = key_at(image, plan, at);
    if head_at(image, plan, at) != head_of(key) {
        return false;
    }
    if !is_after(image, plan, at) {
        return false;
    }
    follow_parents(image, plan, at, key) == link_at(image, plan, at)
}

/// Whether the first heads, so many of them, are below `first` times 2^48.
fn are_below(image: &[u8], plan: Plan, count: usize, first: usize) -> bool
    requires plan { IsTextPlan image.now plan }
    requires pairs { AreRightPairs image.now plan.pairs }
    requires within { count ≤ plan.pairs }
    ensures { IsTrue result ↔ ((k : ℕ) → k < count → stored_head image.now k < first * 2 ^ 48) }
{
    if count == 0 {
        return true;
    }
    ((head_at(image, plan, count - 1) >> 48) as usize) < first
}

/// Whether the other ones aren't.
fn are_from(image: &[u8], plan: Plan, count: usize, first: usize) -> bool
    requires plan { IsTextPlan image.now plan }
    requires pairs { AreRightPairs image.now plan.pairs }
    requires within { count ≤ plan.pairs }
    ensures { IsTrue result ↔ ((k : ℕ) → count ≤ k → k < plan.pairs
        → first * 2 ^ 48 ≤ stored_head image.now k) }
{
    if count == plan.pairs {
        return true;
    }
    (head_at(image, plan, count) >> 48) as usize >= first
}

/// Whether the count at an index is right.
fn is_count(image: &[u8], plan: Plan, at: usize) -> bool
    requires plan { IsTextPlan image.now plan }
    requires pairs { AreRightPairs image.now plan.pairs }
    requires within { at < plan.counts }
    ensures { IsTrue result ↔ IsTop (stored_heads image.now) at (stored_count image.now at) }
{
    let count = count_at(image, plan, at);
    if count > plan.pairs {
        return false;
    }
    if !are_below(image, plan, count, at) {
        return false;
    }
    are_from(image, plan, count, at)
}

/// Whether bytes are an image. It takes linear time: the climbs from each key to its longest stored
/// prefix have together no more steps than there are pairs.
///
/// # Errors
///
/// They are none, and what is wrong: of the pairs and of the counts, the first that is.
pub fn check(image: &[u8]) -> Result<(), ImageError>
    ensures image { IsOk result ↔ IsTextImage image.now }
    ensures fault { IfErr result (λ e. IsImageFault image.now e) }
{
    let plan = match plan_of(image) {
        Ok(plan) => plan,
        Err(error) => return Err(error),
    };
    for at in 0..plan.pairs {
        if !is_pair(image, plan, at) {
            return Err(ImageError::Row(at));
        }
    }
    for at in 0..plan.counts {
        if !is_count(image, plan, at) {
            return Err(ImageError::Cell(at));
        }
    }
    Ok(())
}

/// Whether bytes are an image: whether `check` is Ok.
pub fn is_image(image: &[u8]) -> bool
    ensures { IsTrue result ↔ IsTextImage image.now }
{
    check(image).is_ok()
}

//! Searches in an image. Each is total: whatever the bytes are, it ends, and reads none but them.
ghost use Rattle.std.specs.Prelude.{◌≡◌, ◌↔◌, ◌*◌, ◌<◌, ◌≤◌, ℕ, IsTrue, false, length, min, slice_index, take};
ghost use Rattle.nibble_map.specs.Lists.{IsBefore, IsPrefix};
ghost use Rattle.nibble_map.specs.Nibbles.{nibbles};
ghost use Rattle.sorted_tables.specs.Tables.{IsLastOf};
ghost use Rattle.encoded_keys.specs.Codes.{IsCut, IsLastPrefix, IsSide, code_at, is_in_front};
ghost use Rattle.flat_texts.specs.TextImages.{AreRightPairs, IsTextImage, IsTextPlan, key_bound, key_code, key_codes, key_head, key_in, stored_head};

use crate::head::Plan;
use crate::heads::bound_of;
use crate::pairs::{count_at, head_at, key_at, link_at};
use radix_keys::NibbleSlice;
use std::cmp::Ordering;

/// What is searched for.
#[derive(Clone, Copy)]
pub(crate) struct Sought<'a> {
    pub(crate) key: &'a [u8],
    /// Its first eight bytes as a number, or a bound of those of all keys that it begins.
    pub(crate) bound: u64,
    /// Whether keys that it begins come in front too.
    pub(crate) is_through: bool,
}

/// On which side of a search a key lies of which the searched one is a prefix, or that is one of
/// it.
#[inline(always)]
fn side_of_begun(own: &[u8], key: &[u8], is_through: bool) -> Ordering
    ensures { take (2 * min (length own.now) (length key.now)) (nibbles own.now)
        ≡ take (2 * min (length own.now) (length key.now)) (nibbles key.now)
        → IsSide is_through (nibbles key.now) (nibbles own.now) result }
{
    if is_through {
        return Ordering::Less;
    }
    own.len().cmp(&key.len())
}

/// On which side of a search a key lies that has its bound as head.
#[inline(always)]
fn side_of(own: &[u8], key: &[u8], is_through: bool) -> Ordering
    ensures { key_head own.now ≡ key_bound is_through (nibbles key.now)
        → IsSide is_through (nibbles key.now) (nibbles own.now) result }
{
    let most = own.len().min(key.len());
    if most <= 8 {
        // All bytes of the shorter one are in its head.
        return side_of_begun(own, key, is_through);
    }
    let code = NibbleSlice::from_bytes(own);
    let list = NibbleSlice::from_bytes(key);
    let same = code.agreement(&list, 0);
    if same >= 2 * most {
        return side_of_begun(own, key, is_through);
    }
    code.get(same).cmp(&list.get(same))
}

/// On which side of a search the key at an index lies: Less where it comes before the searched one,
/// or also where it begins with it and the search is one through it; Equal, of a search that isn't,
/// where it is the searched one; and Greater otherwise.
#[inline(always)]
fn side_at(image: &[u8], plan: Plan, at: usize, sought: &Sought<'_>) -> Ordering
    requires plan { IsTextPlan image.now plan }
    requires within { at < plan.pairs }
    requires bound { sought.now.bound
        ≡ key_bound sought.now.is_through (nibbles sought.now.key.now) }
    requires nibbles { (k : ℕ) → slice_index (nibbles sought.now.key.now) k < 16 }
    ensures { stored_head image.now at ≡ key_head (key_in image.now at)
        → IsSide sought.now.is_through (nibbles sought.now.key.now) (key_code image.now at) result }
{
    let head = head_at(image, plan, at);
    if head < sought.bound {
        return Ordering::Less;
    }
    if head > sought.bound {
        return Ordering::Greater;
    }
    side_of(key_at(image, plan, at), sought.key, sought.is_through)
}

/// Bounds of a search, by the counts: the heads in front of the first are below a number, and those
/// from the second on above it. Where there are no counts for it these are all.
#[inline(always)]
fn top_span(image: &[u8], plan: Plan, bound: u64) -> (usize, usize)
    requires plan { IsTextPlan image.now plan }
    ensures order { result.0 ≤ result.1 }
    ensures within { result.1 ≤ plan.pairs }
    ensures below { IsTextImage image.now → (k : ℕ) → k < result.0
        → stored_head image.now k < bound }
    ensures above { IsTextImage image.now → (k : ℕ) → result.1 ≤ k → k < plan.pairs
        → bound < stored_head image.now k }
{
    let first = (bound >> 48) as usize;
    if first + 1 < plan.counts {
        let from = count_at(image, plan, first);
        let to = count_at(image, plan, first + 1);
        if from <= to && to <= plan.pairs {
            return (from, to);
        }
    }
    (0, plan.pairs)
}

/// How many of the keys come before another one, or also begin with it where the search is one
/// through it; and whether it stands behind these, of a search that isn't.
#[inline(always)]
pub(crate) fn cut(image: &[u8], plan: Plan, key: &[u8], is_through: bool) -> (usize, bool)
    requires plan { IsTextPlan image.now plan }
    ensures within { result.0 ≤ plan.pairs }
    ensures inside { IsTrue result.1 → result.0 < plan.pairs }
    ensures cut { IsTextImage image.now
        → IsCut (is_in_front is_through (nibbles key.now)) (key_codes image.now) result.0 }
    ensures found { IsTextImage image.now → is_through ≡ false → IsTrue result.1
        ↔ ((result.0 < length (key_codes image.now))
        × (code_at (key_codes image.now) result.0 ≡ nibbles key.now)) }
{
    let bound = bound_of(key, is_through);
    let sought = Sought {
        key,
        bound,
        is_through,
    };
    let (mut lo, mut hi) = top_span(image, plan, bound);
    while lo < hi {
        let mid = lo + (hi - lo) / 2;
        match side_at(image, plan, mid, &sought) {
            Ordering::Less => lo = mid + 1,
            Ordering::Equal => return (mid, true),
            Ordering::Greater => hi = mid,
        }
    }
    (lo, false)
}

/// The last of the first `from` keys that is a prefix of another one, by its index and one more, or
/// 0 where there is none.
///
/// It goes from each to the link of it, so at most as often as prefixes of the key before `from`
/// are stored.
#[inline(always)]
pub(crate) fn follow_parents(image: &[u8], plan: Plan, from: usize, key: &[u8]) -> usize
    requires plan { IsTextPlan image.now plan }
    requires within { from ≤ plan.pairs }
    ensures within { result ≤ from }
    ensures last { AreRightPairs image.now from
        → ((k : ℕ) → k < from → IsBefore (key_code image.now k) (nibbles key.now))
        → IsLastOf (λ k. IsPrefix (key_code image.now k) (nibbles key.now)) from result }
{
    if from == 0 {
        return 0;
    }
    let before = NibbleSlice::from_bytes(key_at(image, plan, from - 1));
    let shared = before.agreement(&NibbleSlice::from_bytes(key), 0);
    let mut at = from;
    while at > 0 {
        if 2 * key_at(image, plan, at - 1).len() <= shared {
            return at;
        }
        let link = link_at(image, plan, at - 1);
        if link >= at {
            return 0;
        }
        at = link;
    }
    0
}

/// The last of the keys that is a prefix of another one, by its index and one more, or 0 where
/// there is none.
#[inline(always)]
pub(crate) fn last_prefix(image: &[u8], plan: Plan, key: &[u8]) -> usize
    requires { IsTextPlan image.now plan }
    ensures within { result ≤ plan.pairs }
    ensures last { IsTextImage image.now → IsLastPrefix (key_codes image.now)
        (length (key_codes image.now)) (nibbles key.now) result }
{
    let (at, is_found) = cut(image, plan, key, false);
    if is_found {
        return at + 1;
    }
    follow_parents(image, plan, at, key)
}

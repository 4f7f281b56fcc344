//! An image is written.
ghost use Rattle.std.specs.Prelude.{◌≡◌, ◌↔◌, ◌+◌, ◌*◌, ◌^◌, ◌<◌, ◌≤◌, ℕ, IfErr, IsOk, MatchOption, OnErr, OnOk, drop, length, map as each, slice_index, take};
ghost use Rattle.nibble_map.specs.Nibbles.{nibbles};
ghost use Rattle.frozen_trie.specs.Frozen.{IsFirstListOutOfOrder, codes_of};
ghost use Rattle.image_parts.specs.Parts.{HoldsPayload, u32_in, u64_in};
ghost use Rattle.flat_texts.specs.TextImages.{AreRightPairs, IsTextImage, IsTextPlan, image_pairs, key_head, key_start, given_pair, stored_count, stored_head};
ghost use Rattle.flat_texts.specs.TextWritten.{AreKeysRising, CanWriteTexts, HoldsPairs, IsHeadCount, IsTextLayout, IsTextWriteFault, IsWrittenTextHead, PairsStay, keys_len, text_image_size};

use crate::head::{Plan, mark};
use crate::heads::head_of;
use crate::layout::layout;
use crate::pair::Pair;
use crate::pairs::head_at;
use crate::search::follow_parents;
use image_parts::{WriteError, put_bytes, put_part, put_u32, put_u64};
use radix_keys::NibbleSlice;

/// The index of the first pair whose key doesn't come after the one before it.
fn unsorted(pairs: &[Pair<'_>]) -> Option<usize>
    ensures { MatchOption result (AreKeysRising pairs.now)
        (IsFirstListOutOfOrder (codes_of nibbles (each given_pair pairs.now))) }
{
    for at in 1..pairs.len() {
        let last = NibbleSlice::from_bytes(pairs[at - 1].key);
        let own = NibbleSlice::from_bytes(pairs[at].key);
        if !last.cmp(&own).is_lt() {
            return Some(at);
        }
    }
    None
}

/// Puts the head in.
fn put_head(out: &mut [u8], plan: Plan, payload: usize)
    requires layout { IsTextLayout plan.pairs plan.keys_len plan }
    requires room { plan.keys_at + plan.keys_len + payload ≤ length out.old }
    ensures head { IsWrittenTextHead out.new plan payload }
    ensures behind { (k : ℕ) → 64 ≤ k → slice_index out.new k ≡ slice_index out.old k }
    ensures length { length out.new ≡ length out.old }
{
    let end = plan.keys_at + plan.keys_len;
    put_u64(out, 0, mark());
    put_u32(out, 8, plan.pairs as u32);
    put_u32(out, 12, 2);
    put_part(
        out,
        16,
        4,
        plan.counts as u32,
        plan.heads_at,
        end - plan.heads_at,
    );
    put_part(out, 40, 3, 0, end, payload);
}

/// Puts a pair in, and its head and its key, which begins at a place among the keys' bytes.
fn put_pair(out: &mut [u8], plan: Plan, at: usize, from: usize, link: usize, pair: Pair<'_>)
    requires layout { IsTextLayout plan.pairs plan.keys_len plan }
    requires room { plan.keys_at + plan.keys_len ≤ length out.old }
    requires within { at < plan.pairs }
    requires short { from + length pair.key.now ≤ plan.keys_len }
    requires link { link ≤ at }
    ensures head { u64_in out.new (plan.heads_at + 8 * at) ≡ key_head pair.entry.key.now }
    ensures end { u32_in out.new (plan.pairs_at + 16 * at) ≡ from + length pair.entry.key.now }
    ensures link { u32_in out.new (plan.pairs_at + 16 * at + 4) ≡ link }
    ensures value { u64_in out.new (plan.pairs_at + 16 * at + 8) ≡ pair.entry.value }
    ensures key { take (length pair.entry.key.now) (drop (plan.keys_at + from) out.new)
        ≡ pair.entry.key.now }
    ensures stay { PairsStay plan at from out.old out.new }
    ensures behind { (k : ℕ) → plan.keys_at + plan.keys_len ≤ k
        → slice_index out.new k ≡ slice_index out.old k }
{
    let place = plan.pairs_at + 16 * at;
    put_u64(out, plan.heads_at + 8 * at, head_of(pair.key));
    put_u32(out, place, (from + pair.key.len()) as u32);
    put_u32(out, place + 4, link as u32);
    put_u64(out, place + 8, pair.value);
    put_bytes(out, plan.keys_at + from, pair.key);
}

/// Puts the pairs in, where the head stands.
fn put_pairs(out: &mut [u8], plan: Plan, pairs: &[Pair<'_>])
    requires layout { IsTextLayout (length pairs.now) (keys_len pairs.now) plan }
    requires plan { IsTextPlan out.old plan }
    requires room { plan.keys_at + plan.keys_len ≤ length out.old }
    requires rising { AreKeysRising pairs.now }
    ensures pairs { HoldsPairs out.new pairs.now plan.pairs plan.keys_len }
    ensures head { (k : ℕ) → k < 64 → slice_index out.new k ≡ slice_index out.old k }
    ensures behind { (k : ℕ) → plan.keys_at + plan.keys_len ≤ k
        → slice_index out.new k ≡ slice_index out.old k }
    ensures length { length out.new ≡ length out.old }
{
    let mut from = 0;
    for at in 0..pairs.len() {
        let pair = pairs[at];
        let link = follow_parents(out, plan, at, pair.key);
        put_pair(out, plan, at, from, link, pair);
        from += pair.key.len();
    }
}

/// How many of the heads are below `at` times 2^48, where the first `from` are.
fn next_count(image: &[u8], plan: Plan, at: usize, from: usize) -> usize
    requires plan { IsTextPlan image.now plan }
    requires right { AreRightPairs image.now plan.pairs }
    requires within { from ≤ plan.pairs }
    requires before { (k : ℕ) → k < from → stored_head image.now k < at * 2 ^ 48 }
    ensures { IsHeadCount image.now at result }
{
    let mut count = from;
    while count < plan.pairs && ((head_at(image, plan, count) >> 48) as usize) < at {
        count += 1;
    }
    count
}

/// Puts the counts in, where the head and all pairs stand.
fn put_counts(out: &mut [u8], plan: Plan)
    requires layout { IsTextLayout plan.pairs plan.keys_len plan }
    requires plan { IsTextPlan out.old plan }
    requires room { plan.keys_at + plan.keys_len ≤ length out.old }
    requires right { AreRightPairs out.old plan.pairs }
    requires ends { key_start out.old plan.pairs ≤ plan.keys_len }
    ensures counts { (t : ℕ) → t < plan.counts → IsHeadCount out.old t (stored_count out.new t) }
    ensures stay { PairsStay plan plan.pairs plan.keys_len out.old out.new }
    ensures behind { (k : ℕ) → plan.keys_at + plan.keys_len ≤ k
        → slice_index out.new k ≡ slice_index out.old k }
{
    let mut count = 0;
    for at in 0..plan.counts {
        count = next_count(out, plan, at, count);
        put_u32(out, plan.counts_at + 4 * at, count as u32);
    }
}

/// Writes the image of pairs whose keys rise in the order of their bytes, with the user's own
/// bytes, into a buffer of `image_len` bytes or more. Bytes behind the image stay as they are. It
/// takes linear time and allocates nothing.
///
/// # Errors
///
/// In this order: there are too many pairs or bytes of keys, the buffer is too short, or a key
/// doesn't come after the one before it. The buffer is as before.
pub fn write(pairs: &[Pair<'_>], payload: &[u8], out: &mut [u8]) -> Result<(), WriteError>
    ensures ok { IsOk result ↔ CanWriteTexts pairs.now (length payload.now) (length out.old) }
    ensures fault { IfErr result (IsTextWriteFault pairs.now (length payload.now)
        (length out.old)) }
    ensures image { OnOk result (IsTextImage out.new) }
    ensures pairs { OnOk result (image_pairs out.new ≡ each given_pair pairs.now) }
    ensures payload { OnOk result (HoldsPayload out.new payload.now) }
    ensures behind { (k : ℕ) → text_image_size pairs.now (length payload.now) ≤ k
        → slice_index out.new k ≡ slice_index out.old k }
    ensures unchanged { OnErr result (out.new ≡ out.old) }
{
    let Some(plan) = layout(pairs) else {
        return Err(WriteError::Full);
    };
    let payload_at = plan.keys_at + plan.keys_len;
    if out.len() < payload_at + payload.len() {
        return Err(WriteError::Short);
    }
    if let Some(at) = unsorted(pairs) {
        return Err(WriteError::OutOfOrder(at));
    }
    put_head(out, plan, payload.len());
    put_pairs(out, plan, pairs);
    put_counts(out, plan);
    put_bytes(out, payload_at, payload);
    Ok(())
}

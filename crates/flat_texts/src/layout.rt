//! Where the parts of an image are laid that is written.
ghost use Rattle.std.specs.Prelude.{◌≡◌, ◌*◌, ◌^◌, ◌<◌, ◌≤◌, ◌⊎◌, IfNone, IfSome, MatchOption, length};
ghost use Rattle.std.specs.Option.{SomeIff};
ghost use Rattle.flat_texts.specs.TextWritten.{IsTextLayout, counts_size, keys_len, text_image_size};

use crate::head::Plan;
use crate::pair::Pair;

/// How many bytes the head takes, which lists two parts.
const HEAD: usize = 64;

/// From how many pairs on an image has counts.
const MANY: usize = 65536;

/// How many counts an image of so many pairs has.
fn counts_for(pairs: usize) -> usize
    ensures size { 4 * result ≡ counts_size pairs }
    ensures most { result ≤ 65537 }
{
    if pairs < MANY { 0 } else { 65537 }
}

/// How many bytes the keys have, or None of 2^32 bytes or more.
fn len_of_keys(pairs: &[Pair<'_>]) -> Option<usize>
    ensures len { IfSome result (λ len. len ≡ keys_len pairs.now) }
    ensures short { IfSome result (λ len. len < 2 ^ 32) }
    ensures long { IfNone result (2 ^ 32 ≤ keys_len pairs.now) }
{
    let mut len = 0usize;
    for at in 0..pairs.len() {
        let own = pairs[at].key.len();
        if own > u32::MAX as usize - len {
            return None;
        }
        len += own;
    }
    Some(len)
}

/// Where the parts of an image of pairs lie, or None of 2^32 pairs or more, or as many bytes of
/// keys.
pub(crate) fn layout(pairs: &[Pair<'_>]) -> Option<Plan>
    ensures { MatchOption result
        ((2 ^ 32 ≤ length pairs.now) ⊎ (2 ^ 32 ≤ keys_len pairs.now))
        (IsTextLayout (length pairs.now) (keys_len pairs.now)) }
{
    let count = pairs.len();
    if count > u32::MAX as usize {
        return None;
    }
    let Some(keys_len) = len_of_keys(pairs) else {
        return None;
    };
    let counts = counts_for(count);
    let counts_at = HEAD + 24 * count;
    Some(Plan {
        pairs: count,
        heads_at: HEAD,
        pairs_at: HEAD + 8 * count,
        counts,
        counts_at,
        keys_at: counts_at + 4 * counts,
        keys_len,
    })
}

/// How many bytes the image of pairs takes, with so many bytes of the user's own, as `write` lays
/// it out, or None of 2^32 pairs or more, or as many bytes of keys, or where a `usize` doesn't
/// count them.
pub fn image_len(pairs: &[Pair<'_>], payload: usize) -> Option<usize>
    ensures { SomeIff result ((length pairs.now < 2 ^ 32) × (keys_len pairs.now < 2 ^ 32)
        × (text_image_size pairs.now payload < 2 ^ 64)) (text_image_size pairs.now payload) }
{
    let Some(plan) = layout(pairs) else {
        return None;
    };
    (plan.keys_at + plan.keys_len).checked_add(payload)
}

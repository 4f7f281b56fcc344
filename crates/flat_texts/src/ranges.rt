//! Which pairs of an image lie where in the order of the keys.
ghost use Rattle.std.specs.Prelude.{◌≡◌, ◌+◌, ◌≤◌, [], drop, length, take};
ghost use Rattle.std.specs.declared.ops.Bound.TheVariants.{Excluded, Included};
ghost use Rattle.nibble_map.specs.Nibbles.{nibbles};
ghost use Rattle.radix_trie.specs.Views.{pairs_before, pairs_below, pairs_within};
ghost use Rattle.image_parts.specs.Parts.{row_count};
ghost use Rattle.flat_texts.specs.TextImages.{IsTextImage, image_map, image_pairs};

use crate::head::plan_of;
use crate::search::cut;

/// How many of the keys come before some bytes: the index at which these are stored, or would be.
pub fn rank(image: &[u8], key: &[u8]) -> usize
    ensures within { result ≤ row_count image.now }
    ensures count { IsTextImage image.now
        → result ≡ length (pairs_before (image_map image.now) [] (nibbles key.now)) }
{
    let Ok(plan) = plan_of(image) else {
        return 0;
    };
    let (at, _) = cut(image, plan, key, false);
    at
}

/// The pairs whose keys begin with some bytes: the index of the first, and how many there are.
pub fn below(image: &[u8], prefix: &[u8]) -> (usize, usize)
    ensures within { result.0 + result.1 ≤ row_count image.now }
    ensures pairs { IsTextImage image.now
        → take result.1 (drop result.0 (image_pairs image.now))
        ≡ pairs_below (image_map image.now) (nibbles prefix.now) }
{
    let Ok(plan) = plan_of(image) else {
        return (0, 0);
    };
    let (from, _) = cut(image, plan, prefix, false);
    let (to, _) = cut(image, plan, prefix, true);
    (from, to.saturating_sub(from))
}

/// The pairs whose keys are `from` or come after it, and come before `to`: the index of the first,
/// and how many there are. Where `from` isn't before `to` there is none.
pub fn between(image: &[u8], from: &[u8], to: &[u8]) -> (usize, usize)
    ensures within { result.0 + result.1 ≤ row_count image.now }
    ensures pairs { IsTextImage image.now
        → take result.1 (drop result.0 (image_pairs image.now))
        ≡ pairs_within (image_map image.now) [] (Included (nibbles from.now))
        (Excluded (nibbles to.now)) }
{
    let Ok(plan) = plan_of(image) else {
        return (0, 0);
    };
    let (start, _) = cut(image, plan, from, false);
    let (end, _) = cut(image, plan, to, false);
    (start, end.saturating_sub(start))
}

//! Which lists of levels are filters, and which are topics.
ghost use Rattle.std.specs.Prelude.{◌↔◌, ◌≡◌, [], ◌∷◌, All, IsTrue};
ghost use Rattle.topic_filters.specs.Filters.{HasNoWildcard, IsFilter, IsLastLevel, IsOneLevel, IsTopic};

use radix_trie::{Parts, PartsIter};

/// The level of a filter that stands for any one.
pub(crate) const ANY_LEVEL: &'static [u8] = b"+";

/// The last level of a filter that stands for all that is left.
pub(crate) const ANY_REST: &'static [u8] = b"#";

/// Whether the list of levels is a filter: there is one, not a single empty one; `+` and `#` stand
/// alone in their levels; and `#` in the last one only.
///
/// # Examples
///
/// ```
/// # use nifazombi::{radix_keys::Parts, rattle_std::alloc::Global};
/// use nifazombi::topic_filters::{is_filter, is_topic};
///
/// let filter = Parts::split(Global, "sport/+/score", b'/')?;
/// let topic = Parts::split(Global, "sport/chess/score", b'/')?;
/// assert!(is_filter(&filter) && !is_topic(&filter));
/// assert!(is_filter(&topic) && is_topic(&topic));
/// # Ok::<(), Box<dyn std::error::Error>>(())
/// ```
pub fn is_filter(levels: &Parts) -> bool
    ensures { IsTrue result ↔ IsFilter levels.now }
{
    if is_empty_text(levels) {
        return false;
    }
    let mut before = levels.iter();
    match before.next_back() {
        Some(last) => is_last_level(last) && are_one_level(before),
        None => false,
    }
}

/// Whether the list of levels is a topic: there is one, not a single empty one, and no byte is `+`
/// or `#`.
pub fn is_topic(levels: &Parts) -> bool
    ensures { IsTrue result ↔ IsTopic levels.now }
{
    !levels.is_empty() && !is_empty_text(levels) && have_no_wildcard(levels.iter())
}

/// Whether there is one level, and it is empty.
fn is_empty_text(levels: &Parts) -> bool
    ensures { IsTrue result ↔ (levels.now ≡ [] ∷ []) }
{
    let mut rest = levels.iter();
    match rest.next() {
        Some(first) => first.is_empty() && rest.next().is_none(),
        None => false,
    }
}

/// Whether each level stands for one level.
fn are_one_level(levels: PartsIter<'_>) -> bool
    ensures { IsTrue result ↔ All IsOneLevel levels.entry }
{
    let mut levels = levels;
    levels.all(is_one_level)
}

/// Whether no byte of the levels is `+` or `#`.
fn have_no_wildcard(levels: PartsIter<'_>) -> bool
    ensures { IsTrue result ↔ All HasNoWildcard levels.entry }
{
    let mut levels = levels;
    levels.all(has_no_wildcard)
}

/// Whether the level may be the last one of a filter.
fn is_last_level(level: &[u8]) -> bool
    ensures { IsTrue result ↔ IsLastLevel level.now }
{
    level == ANY_REST || is_one_level(level)
}

/// Whether the level stands for one level: it is `+`, or has no wildcard.
fn is_one_level(level: &[u8]) -> bool
    ensures { IsTrue result ↔ IsOneLevel level.now }
{
    level == ANY_LEVEL || has_no_wildcard(level)
}

/// Whether no byte of the level is `+` or `#`.
#[tactic(auto, using(crate::proofs::FormLemmas::no_wildcard, crate::proofs::FormLemmas::no_plus, crate::proofs::FormLemmas::no_hash))]
fn has_no_wildcard(level: &[u8]) -> bool
    ensures { IsTrue result ↔ HasNoWildcard level.now }
{
    !level.contains(&b'+') && !level.contains(&b'#')
}

//! The rows of the walks over the pairs at and below a path within bounds.
ghost use Rattle.std.specs.Prelude.{◌≡◌, ◌<◌, ◌^◌, [], ℕ, List, IsOk, IfOk, Some, None, length, option_map};
ghost use Rattle.std.specs.Range.Bound.{MatchBound};
ghost use Rattle.std.specs.declared.ops.Bound.{Bound};
ghost use Rattle.nibble_map.specs.Maps.{PairMap};
ghost use Rattle.radix_trie.specs.Limits.{AreLimits, IsLimit, limit_now};
ghost use Rattle.radix_trie.specs.Loci.{IsLocusIn};
ghost use Rattle.radix_trie.specs.Views.{IsInlineBound, encoded_bound, is_above, is_below, pairs_within};
ghost use Rattle.radix_trie.specs.Walks.{HasFullRows, ReachesDown, bound_now, left_rows, stacked};

use crate::iter::{Frame, Side, frames_within, side_of};
use crate::locus::Locus;
use radix_keys::{Memory, Nibblet, TrieKey};
use std::alloc::Global;
use std::ops::Bound;

/// What is left of two bounds behind a path that goes on to each of them, and how many nibbles the
/// path has.
#[derive(Drop)]
pub(crate) struct Limits<'l> {
    low: Bound<&'l Nibblet>,
    high: Bound<&'l Nibblet>,
    depth: usize,
}

impl<'l> Limits<'l> {
    /// What is left of two bounds behind a path, or None where no list that the path begins is
    /// within them.
    pub(crate) fn of(
        path: &Nibblet,
        low: Bound<&'l Nibblet>,
        high: Bound<&'l Nibblet>,
    ) -> Option<Limits<'l>>
        ensures { AreLimits path.now (bound_now low.entry) (bound_now high.entry) result }
    {
        let (low, _) = lower_limit(path, low, 0)?;
        let (high, _) = upper_limit(path, high, 0)?;
        let depth = path.len();
        Some(Limits { low, high, depth })
    }
}

/// The bound of a key's encoding.
pub(crate) fn encoded<Q: TrieKey>(bound: Bound<&Q>, alloc: Global) -> Result<Bound<Nibblet>, Memory>
    ensures list { IfOk result (λ b. b ≡ encoded_bound Q.encoding (bound_now bound.entry)) }
    ensures inline { IsInlineBound Q.is_inline (bound_now bound.entry) → IsOk result }
{
    match bound {
        Bound::Included(key) => Ok(Bound::Included(key.encode(alloc)?)),
        Bound::Excluded(key) => Ok(Bound::Excluded(key.encode(alloc)?)),
        Bound::Unbounded => Ok(Bound::Unbounded),
    }
}

/// The list of a bound.
fn list_of<'l>(bound: Bound<&'l Nibblet>) -> Option<&'l Nibblet>
    ensures { MatchBound (bound_now bound.entry) (λ q. option_map (λ l. l.now) result ≡ Some q)
        (λ q. option_map (λ l. l.now) result ≡ Some q)
        (option_map (λ l. l.now) result ≡ None) }
{
    match bound {
        Bound::Included(list) | Bound::Excluded(list) => Some(list),
        Bound::Unbounded => None,
    }
}

/// What is left of a lower bound, of which so many nibbles lie in front of a fragment, behind the
/// fragment, and how many lie in front then: unbounded where all lists that the fragment begins
/// come after it, and None where all come before it.
fn lower_limit<'l>(
    fragment: &Nibblet,
    low: Bound<&'l Nibblet>,
    depth: usize,
) -> Option<(Bound<&'l Nibblet>, usize)>
    requires { ReachesDown depth (bound_now low) }
    ensures { IsLimit is_above fragment.now depth (bound_now low.entry) (limit_now result) }
{
    let Some(list) = list_of(low) else {
        return Some((low, 0));
    };
    match side_of(fragment, list, depth) {
        Side::Before => None,
        Side::On(next) => Some((low, next)),
        Side::After => Some((Bound::Unbounded, 0)),
    }
}

/// The same of an upper bound: unbounded where all lists that the fragment begins come before it,
/// and None where all come after it.
fn upper_limit<'l>(
    fragment: &Nibblet,
    high: Bound<&'l Nibblet>,
    depth: usize,
) -> Option<(Bound<&'l Nibblet>, usize)>
    requires { ReachesDown depth (bound_now high) }
    ensures { IsLimit is_below fragment.now depth (bound_now high.entry) (limit_now result) }
{
    let Some(list) = list_of(high) else {
        return Some((high, 0));
    };
    match side_of(fragment, list, depth) {
        Side::Before => Some((Bound::Unbounded, 0)),
        Side::On(next) => Some((high, next)),
        Side::After => None,
    }
}

impl<'a, K: TrieKey, V> Locus<'a, K, V> {
    /// The rows of the walk over the pairs at and below the path whose lists are within the bounds
    /// that the limits are of.
    pub(crate) fn frames(&self, limits: Option<Limits<'_>>) -> Result<Vec<Frame<'a, K, V>>, Memory>
        requires { (m : PairMap K V) × (p : List ℕ)
            × (low : Bound (List ℕ)) × (high : Bound (List ℕ))
            × IsLocusIn K.encoding m p self.now × AreLimits p low high limits }
        ensures walk { (m : PairMap K V) (p : List ℕ) (low high : Bound (List ℕ))
            → IsLocusIn K.encoding m p self.now → AreLimits p low high limits.entry
            → IfOk result (λ frames. stacked frames.items ≡ pairs_within m p low high) }
        ensures countable { IfOk result (λ frames. length (stacked frames.items) < 2 ^ 64) }
        ensures rows { IfOk result (λ frames. HasFullRows (left_rows frames.items)) }
        ensures none { (m : PairMap K V) (p : List ℕ) (low high : Bound (List ℕ))
            → IsLocusIn K.encoding m p self.now → AreLimits p low high limits.entry
            → pairs_within m p low high ≡ [] → IsOk result }
    {
        let alloc = self.alloc;
        let Some((node, covered)) = self.found else {
            return Ok(Vec::new(alloc));
        };
        let Some(limits) = limits else {
            return Ok(Vec::new(alloc));
        };
        let front = limits.depth - covered;
        let Some((low, low_depth)) = lower_limit(&node.fragment, limits.low, front) else {
            return Ok(Vec::new(alloc));
        };
        let Some((high, high_depth)) = upper_limit(&node.fragment, limits.high, front) else {
            return Ok(Vec::new(alloc));
        };
        frames_within(alloc, node, low, high, low_depth.max(high_depth))
    }
}

//! Walks over ranges of keys.
ghost use Rattle.std.specs.Prelude.{◌≡◌, [], IsOk, IfOk, reverse};
ghost use Rattle.radix_trie.specs.Views.{IsInlineBound, encoded_bound, pairs_within};

use crate::calls::PrefixMap;
use radix_keys::Memory;
use std::ops::RangeBounds;

/// A map that gives the pairs within a range of keys, from either end.
pub trait RangeMap<'a, Q>: PrefixMap<'a, Q> {
    /// The walk over the pairs whose keys lie within a range, in order. Where the first key comes
    /// after the last, none does.
    ///
    /// # Errors
    ///
    /// `Memory`: an allocation fails, for a key's encoding or the way down to it.
    fn range<R: RangeBounds<Q>>(self, range: R) -> Result<Self::Walk, Memory>
        ensures walk { R.has_bounds range → IfOk result (λ walk. Self.left walk
            ≡ pairs_within (Self.map self) [] (encoded_bound Self.list (R.start_bound range))
            (encoded_bound Self.list (R.end_bound range))) }
        ensures free { Self.has_free_walks → R.has_bounds range
            → IsInlineBound Self.is_free (R.start_bound range)
            → IsInlineBound Self.is_free (R.end_bound range) → IsOk result };

    /// The walk of `range` from the last pair to the first.
    ///
    /// # Errors
    ///
    /// Those of `range`.
    fn range_back<R: RangeBounds<Q>>(self, range: R) -> Result<Self::Walk, Memory>
        ensures walk { R.has_bounds range → IfOk result (λ walk. Self.left walk
            ≡ reverse (pairs_within (Self.map self) []
            (encoded_bound Self.list (R.start_bound range))
            (encoded_bound Self.list (R.end_bound range)))) }
        ensures free { Self.has_free_walks → R.has_bounds range
            → IsInlineBound Self.is_free (R.start_bound range)
            → IsInlineBound Self.is_free (R.end_bound range) → IsOk result };
}

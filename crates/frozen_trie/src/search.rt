//! Searches by bounds among lists in rising order.
ghost use Rattle.std.specs.Prelude.{◌≡◌, not};
ghost use Rattle.nibble_map.specs.Lists.{IsRising};
ghost use Rattle.radix_trie.specs.Views.{is_above, is_below, is_within};
ghost use Rattle.encoded_keys.specs.Codes.{IsCut, IsSpan};

use encoded_keys::keys::EncodedKeys;
use encoded_keys::search::{behind, lower};
use radix_keys::NibbleSlice;
use std::ops::Bound;

/// How many of the lists stand in front of those that a lower bound leaves.
fn start(codes: &EncodedKeys, low: Bound<NibbleSlice<'_>>) -> usize
    requires { IsRising codes.now }
    ensures { IsCut (λ c. not (is_above low.entry c)) codes.now result }
{
    match low {
        Bound::Included(list) => lower(codes, &list),
        Bound::Excluded(list) => behind(codes, &list),
        Bound::Unbounded => 0,
    }
}

/// How many of the lists stand in front of those that an upper bound leaves out.
fn end(codes: &EncodedKeys, high: Bound<NibbleSlice<'_>>) -> usize
    requires { IsRising codes.now }
    ensures { IsCut (is_below high.entry) codes.now result }
{
    match high {
        Bound::Included(list) => behind(codes, &list),
        Bound::Excluded(list) => lower(codes, &list),
        Bound::Unbounded => codes.len(),
    }
}

/// The lists within two bounds: the index of the first, and that behind the last. Where there is
/// none the two are one.
pub(crate) fn within(
    codes: &EncodedKeys,
    low: Bound<NibbleSlice<'_>>,
    high: Bound<NibbleSlice<'_>>,
) -> (usize, usize)
    requires { IsRising codes.now }
    ensures { IsSpan (is_within low.entry high.entry) codes.now result.0 result.1 }
{
    let from = start(codes, low);
    let to = end(codes, high);
    (from, to.max(from))
}

//! Searches among lists in rising order.
ghost use Rattle.std.specs.Prelude.{◌≡◌, ◌↔◌, ◌+◌, ◌<◌, ◌≤◌, ℕ, length, not, IsTrue, MatchOption};
ghost use Rattle.nibble_map.specs.Lists.{IsBefore, IsRising};
ghost use Rattle.encoded_keys.specs.Codes.{AreLinks, IsCut, IsLastPrefix, is_before, is_until, code_at};
ghost use Rattle.encoded_keys.specs.Index.{AreKeys};

use crate::keys::{EncodedKeys, Look};
use radix_keys::{AsNibbles, NibbleSlice};

/// How many of the lists come before another one.
pub fn lower(codes: &EncodedKeys, list: &NibbleSlice<'_>) -> usize
    requires { IsRising codes.now }
    ensures { IsCut (λ c. is_before c list.now) codes.now result }
{
    codes.cut(list, false).0
}

/// How many of the lists come before another one or begin with it.
pub fn upper(codes: &EncodedKeys, list: &NibbleSlice<'_>) -> usize
    requires { IsRising codes.now }
    ensures { IsCut (λ c. is_until c list.now) codes.now result }
{
    codes.cut(list, true).0
}

/// The last of the first `from` lists that is a prefix of another one, by its index and one more,
/// or 0 where there is none.
///
/// It goes from each to the link of it, so at most as often as prefixes of the list before `from`
/// are stored.
pub(crate) fn follow_parents(
    codes: &EncodedKeys,
    parents: &[u32],
    from: usize,
    list: &NibbleSlice<'_>,
) -> usize
    requires within { from ≤ length codes.now }
    requires linked { from ≤ length parents.now }
    requires rising { IsRising codes.now }
    requires links { AreLinks codes.now parents.now }
    requires before { (k : ℕ) → k < from → IsBefore (code_at codes.now k) list.now }
    ensures { IsLastPrefix codes.now from list.now result }
{
    if from == 0 {
        return 0;
    }
    let shared = codes.agreement(from - 1, list);
    let mut at = from;
    while at > 0 {
        if codes.len_at(at - 1) <= shared {
            return at;
        }
        at = parents[at - 1] as usize;
    }
    0
}

/// How many of the lists come before another one or are it.
pub fn behind(codes: &EncodedKeys, list: &NibbleSlice<'_>) -> usize
    requires { IsRising codes.now }
    ensures { IsCut (λ c. not (is_before list.now c)) codes.now result }
{
    let (at, is_found) = codes.cut(list, false);
    if is_found { at + 1 } else { at }
}

/// The index of a list. The pairs of the lists are passed, or none.
pub fn index_of<K: AsNibbles, V>(
    codes: &EncodedKeys,
    pairs: &[(K, V)],
    list: &NibbleSlice<'_>,
) -> Option<usize>
    requires rising { IsRising codes.now }
    requires keyed { AreKeys K.encoding pairs.now codes.now }
    ensures { MatchOption result
        ((k : ℕ) → k < length codes.now → code_at codes.now k ≡ list.now → ⊥)
        (λ i. (i < length codes.now) × (code_at codes.now i ≡ list.now)) }
{
    match codes.look(pairs, list) {
        Look::Found(at) => Some(at),
        Look::Absent => None,
        Look::Unknown => index_by_order(codes, list),
    }
}

/// The same by the order of the lists.
fn index_by_order(codes: &EncodedKeys, list: &NibbleSlice<'_>) -> Option<usize>
    requires { IsRising codes.now }
    ensures { MatchOption result
        ((k : ℕ) → k < length codes.now → code_at codes.now k ≡ list.now → ⊥)
        (λ i. (i < length codes.now) × (code_at codes.now i ≡ list.now)) }
{
    let (at, is_found) = codes.cut(list, false);
    if is_found { Some(at) } else { None }
}

/// The last of the lists that is a prefix of another one, by its index and one more, or 0 where
/// there is none.
pub fn last_prefix(codes: &EncodedKeys, parents: &[u32], list: &NibbleSlice<'_>) -> usize
    requires linked { length parents.now ≡ length codes.now }
    requires rising { IsRising codes.now }
    requires links { AreLinks codes.now parents.now }
    ensures { IsLastPrefix codes.now (length codes.now) list.now result }
{
    let (at, is_found) = codes.cut(list, false);
    if is_found {
        at + 1
    } else {
        follow_parents(codes, parents, at, list)
    }
}

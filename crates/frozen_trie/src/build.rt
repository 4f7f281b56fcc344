//! Pairs in order, made a map for reading.
ghost use Rattle.std.specs.Prelude.{◌≡◌, ◌≤◌, ◌^◌, ℕ, All, length, IfOk, IfErr, IsOk, OnOk};
ghost use Rattle.nibble_map.specs.Lists.{IsRising};
ghost use Rattle.radix_trie.specs.Building.{pairs_in_order};
ghost use Rattle.radix_trie.specs.Keys.{IsKeyed};
ghost use Rattle.frozen_trie.specs.Frozen.{IsFirstListOutOfOrder, IsFrozen, codes_of};

use crate::frozen::FrozenTrie;
use encoded_keys::keys::EncodedKeys;
use encoded_keys::linked::push_last;
use radix_keys::{AsNibbles, Encoding, Refused};
use sorted_tables::{PushWhy, SortedWhy};
use std::alloc::Global;

impl<K: AsNibbles, V> FrozenTrie<K, V> {
    /// The frozen trie of pairs whose encodings rise, in linear time.
    ///
    /// # Errors
    ///
    /// The encoding of a pair isn't above that of the pair before it, and the error says of the
    /// first such pair where it stands. There are 2^32 pairs or more. An allocation fails, for an
    /// encoding, or for the list of them and the links; the encodings together take less than 2^31
    /// bytes. The pairs come back. Of no pair the call never fails.
    pub fn from_sorted(
        alloc: Global,
        pairs: Vec<(K, V)>,
    ) -> Result<FrozenTrie<K, V>, Refused<SortedWhy, Vec<(K, V)>>>
        ensures pairs { IfOk result
            (λ frozen. frozen ≡ pairs_in_order K.encoding pairs.items) }
        ensures rising { OnOk result (IsRising (codes_of K.encoding pairs.items)) }
        ensures handed_back { IfErr result (λ e. e.back ≡ pairs) }
        ensures unsorted { IfErr result (λ e. (i : ℕ) → e.why ≡ SortedWhy.OutOfOrder i
            → IsFirstListOutOfOrder (codes_of K.encoding pairs.items) i) }
        ensures full { IfErr result (λ e. e.why ≡ SortedWhy.Full
            → 2 ^ 32 ≤ length pairs.items) }
        ensures none { length pairs.items ≡ 0 → IsOk result }
        ensures keyed { IfOk result (IsKeyed K.encoding K.is_value) }
    {
        match codes_and_links(alloc, &pairs) {
            Ok((codes, parents)) => Ok(FrozenTrie::from_parts(codes, pairs, parents, alloc)),
            Err(why) => Err(Refused { why, back: pairs }),
        }
    }
}

/// The encodings of pairs, and their links.
pub(crate) fn codes_and_links<K: AsNibbles, V>(
    alloc: Global,
    pairs: &[(K, V)],
) -> Result<(EncodedKeys, Vec<u32>), SortedWhy>
    ensures ok { IfOk result (λ r. IsFrozen K.encoding r.0 pairs.now r.1.items) }
    ensures unsorted { (i : ℕ) → result ≡ Err (SortedWhy.OutOfOrder i)
        → IsFirstListOutOfOrder (codes_of K.encoding pairs.now) i }
    ensures full { result ≡ Err SortedWhy.Full → 2 ^ 32 ≤ length pairs.now }
    ensures none { length pairs.now ≡ 0 → IsOk result }
    ensures values { OnOk result (All (λ p. K.is_value p.0) pairs.now) }
{
    let Ok(mut parents) = Vec::with_capacity(alloc, pairs.len()) else {
        return Err(SortedWhy::Memory);
    };
    let mut codes = EncodedKeys::new(alloc);
    for pair in pairs {
        let Ok(list) = Encoding::of(alloc, &pair.0) else {
            return Err(SortedWhy::Memory);
        };
        if let Err(why) = push_last(&mut codes, &mut parents, &list.as_slice()) {
            return Err(why_unsorted(why, codes.len()));
        }
    }
    match codes.finish(alloc) {
        Ok(()) => Ok((codes, parents)),
        Err(_) => Err(SortedWhy::Memory),
    }
}

/// Why pairs aren't in order, by why the one at an index isn't appended.
fn why_unsorted(why: PushWhy, at: usize) -> SortedWhy
    ensures full { result ≡ SortedWhy.Full → why ≡ PushWhy.Full }
    ensures unsorted { (i : ℕ) → result ≡ SortedWhy.OutOfOrder i
        → (why ≡ PushWhy.OutOfOrder) × (i ≡ at) }
{
    match why {
        PushWhy::Memory => SortedWhy::Memory,
        PushWhy::Full => SortedWhy::Full,
        PushWhy::OutOfOrder => SortedWhy::OutOfOrder(at),
    }
}

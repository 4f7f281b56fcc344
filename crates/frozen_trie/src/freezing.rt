//! A trie, made a map for reading.
ghost use Rattle.std.specs.Prelude.{◌≡◌, ◌≤◌, ◌^◌, [], IfOk, IfErr, IsOk};
ghost use Rattle.std.specs.FinMap as map;
ghost use Rattle.radix_trie.specs.Views.{pairs_below};
ghost use Rattle.frozen_trie.specs.Frozen.{IsFrozen};

use crate::frozen::FrozenTrie;
use encoded_keys::keys::EncodedKeys;
use encoded_keys::linked::push_linked;
use radix_keys::{AsNibbles, Encoding, Refused};
use radix_trie::{
    BuildError, Trie, TrieCommon, keys_stand_at_their_encodings, split_part_goes_back,
};

/// The same map, for reading, in linear time: the pairs are moved, and the nodes are freed.
///
/// # Errors
///
/// The trie holds 2^32 pairs or more. An allocation fails, for the walk over the trie, an encoding,
/// the list of them and the links, or the list of the pairs; the encodings together take less than
/// 2^31 bytes. The trie comes back as it was: the pairs are moved last. Of no pair the call never
/// fails.
///
/// # Examples
///
/// ```
/// # use nifazombi::{radix_trie::Trie, rattle_std::alloc::Global};
/// use nifazombi::frozen_trie::freeze;
///
/// let mut words = Trie::new(Global);
/// words.insert("team", 2)?;
/// words.insert("tea", 1)?;
/// let frozen = freeze(words)?;
/// assert_eq!(frozen.below(&"te")?, [("tea", 1), ("team", 2)]);
/// assert_eq!(frozen.longest_match(&"teapot")?, Some((&"tea", &1)));
/// # Ok::<(), Box<dyn std::error::Error>>(())
/// ```
pub fn freeze<K: AsNibbles + Drop, V: Drop>(
    trie: Trie<K, V>,
) -> Result<FrozenTrie<K, V>, Refused<BuildError, Trie<K, V>>>
    ensures same { IfOk result (λ frozen. frozen ≡ trie) }
    ensures handed_back { IfErr result (λ e. e.back ≡ trie) }
    ensures full { IfErr result (λ e. e.why ≡ BuildError.Full → 2 ^ 32 ≤ map.len trie) }
    ensures none { map.len trie ≡ 0 → IsOk result }
{
    keys_stand_at_their_encodings(&trie);
    split_part_goes_back(&trie);
    let alloc = trie.allocator();
    match codes_and_links(&trie) {
        Ok((codes, parents)) => match trie.into_pairs() {
            Ok(pairs) => Ok(FrozenTrie::from_parts(codes, pairs, parents, alloc)),
            Err(back) => Err(Refused {
                why: BuildError::Memory,
                back,
            }),
        },
        Err(why) => Err(Refused { why, back: trie }),
    }
}

/// The encodings of a trie's pairs, and their links.
pub(crate) fn codes_and_links<K: AsNibbles, V>(
    trie: &Trie<K, V>,
) -> Result<(EncodedKeys, Vec<u32>), BuildError>
    ensures ok { IfOk result
        (λ r. IsFrozen K.encoding r.0 (pairs_below trie.now []) r.1.items) }
    ensures full { result ≡ Err BuildError.Full → 2 ^ 32 ≤ map.len trie.now }
    ensures none { map.len trie.now ≡ 0 → IsOk result }
{
    if trie.len() > u32::MAX as usize {
        return Err(BuildError::Full);
    }
    keys_stand_at_their_encodings(trie);
    let alloc = trie.allocator();
    let Ok(mut parents) = Vec::with_capacity(alloc, trie.len()) else {
        return Err(BuildError::Memory);
    };
    let mut walk = trie.cursor();
    let mut codes = EncodedKeys::new(alloc);
    loop {
        let key = match walk.next() {
            Ok(Some((key, _))) => key,
            Ok(None) => break,
            Err(_) => return Err(BuildError::Memory),
        };
        let Ok(list) = Encoding::of(alloc, key) else {
            return Err(BuildError::Memory);
        };
        let Ok(()) = push_linked(&mut codes, &mut parents, &list.as_slice()) else {
            return Err(BuildError::Memory);
        };
    }
    match codes.finish(alloc) {
        Ok(()) => Ok((codes, parents)),
        Err(_) => Err(BuildError::Memory),
    }
}

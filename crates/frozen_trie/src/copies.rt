//! A frozen copy of a trie that stays.
ghost use Rattle.std.specs.Prelude.{◌≡◌, ◌≤◌, ◌^◌, [], IfOk, IsOk};
ghost use Rattle.std.specs.FinMap as map;
ghost use Rattle.nibble_map.specs.Copies.{IsMapCopy, IsPairClone};
ghost use Rattle.masked_tree.specs.Same.{AreEntryCopies};
ghost use Rattle.radix_trie.specs.Keys.{IsKeyed};
ghost use Rattle.radix_trie.specs.Views.{pairs_below};
ghost use Rattle.frozen_trie.specs.Frozen.{coded_pairs};

use crate::freezing::codes_and_links;
use crate::frozen::FrozenTrie;
use radix_keys::{AsNibbles, Memory, TrieKey};
use radix_trie::{
    BuildError, Trie, TrieCommon, keys_stand_at_their_encodings, split_part_goes_back,
};

/// A frozen trie with the same encodings, each with a clone of its key and of its value, in linear
/// time. The trie stays as it is.
///
/// Clones of keys have to keep their encodings.
///
/// # Errors
///
/// The trie holds 2^32 pairs or more. An allocation fails, as by `freeze`, or in a clone of a key
/// or a value. Of no pair the call never fails.
pub fn frozen_copy<K: AsNibbles + Clone, V: Clone>(
    trie: &Trie<K, V>,
) -> Result<FrozenTrie<K, V>, BuildError>
    requires same_encoding { (key copy : K) → K.is_clone key copy → K.encoding copy
        ≡ K.encoding key }
    ensures copy { IfOk result
        (λ copy. IsMapCopy (IsPairClone K.is_clone V.is_clone) trie.now copy) }
    ensures keyed { IfOk result (λ copy.
        ((key clone : K) → K.is_clone key clone → K.is_value key → K.is_value clone)
        → IsKeyed K.encoding K.is_value trie.now → IsKeyed K.encoding K.is_value copy) }
    ensures full { result ≡ Err BuildError.Full → 2 ^ 32 ≤ map.len trie.now }
    ensures none { map.len trie.now ≡ 0 → IsOk result }
{
    keys_stand_at_their_encodings(trie);
    split_part_goes_back(trie);
    let (codes, parents) = codes_and_links(trie)?;
    match cloned_pairs(trie) {
        Ok(pairs) => Ok(FrozenTrie::from_parts(codes, pairs, parents, trie.allocator())),
        Err(Memory) => Err(BuildError::Memory),
    }
}

/// Clones of a trie's pairs, in the order of their encodings.
fn cloned_pairs<K: TrieKey + Clone, V: Clone>(trie: &Trie<K, V>) -> Result<Vec<(K, V)>, Memory>
    requires same_encoding { (key copy : K) → K.is_clone key copy → K.encoding copy
        ≡ K.encoding key }
    ensures copies { IfOk result (λ pairs. AreEntryCopies (IsPairClone K.is_clone V.is_clone)
        (coded_pairs K.encoding (pairs_below trie.now [])) (coded_pairs K.encoding pairs.items)) }
    ensures none { map.len trie.now ≡ 0 → IsOk result }
{
    if trie.is_empty() {
        return Ok(Vec::new(trie.allocator()));
    }
    let mut pairs = Vec::with_capacity(trie.allocator(), trie.len())?;
    let mut walk = trie.cursor();
    while let Some((key, value)) = walk.next()? {
        let pair = (key.clone()?, value.clone()?);
        pairs.push(pair)?;
    }
    Ok(pairs)
}

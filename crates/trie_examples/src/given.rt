//! What callers show of the pairs that a call gives, by naming one law. Those over `PrefixMap` are
//! proved once, and run on a trie and on what it is frozen into.
ghost use Rattle.std.specs.Prelude.{[], ◌≡◌, Contains, IfOk, None, Some, map as each, option_copied, true};
ghost use Rattle.nibble_map.specs.Lists.{IsBefore, IsPrefix};
ghost use Rattle.radix_trie.specs.Keys.{IsKeyed};
ghost use Rattle.radix_trie.specs.Views.{encoded_bound, is_within};
ghost use Rattle.radix_trie.specs.Walks.{deref_pairs};
ghost use Rattle.keyed_maps.specs.KeyedMaps.{keyed_map};
ghost use Rattle.prefix_maps.specs.Calls.{lent_pair};

use keyed_maps::{
    keys_of_pages_are_given, longest_match_is_given, pairs_above_are_given, pairs_below_are_given,
    pairs_within_are_given,
};
use prefix_maps::{PrefixMap, RangeMap, first_below, lookup};
use radix_trie::{Memory, Trie, TrieKey};
use std::alloc::Global;
use std::ops::{Bound, RangeBounds};

/// The first pairs below a key: their keys begin so.
fn first_page<'a, Q, M: PrefixMap<'a, Q>>(
    alloc: Global,
    map: M,
    key: &Q,
    most: usize,
) -> Result<Vec<(M::Key, &'a M::Value)>, Memory>
    ensures { IfOk result (λ page. (p : M.Stored × M.Value)
        → Contains (each (lent_pair M.stored_key) page.items) p
        → IsPrefix (M.list key.now) (M.encoding p.0)) }
{
    pairs_below_are_given(map, key, most);
    first_below(alloc, map, key, most)
}

/// The next ones of a trie: their keys come after the last one.
fn next_page<'a, K: TrieKey, V, Q: TrieKey>(
    trie: &'a Trie<K, V>,
    key: &Q,
    last: &K,
    most: usize,
) -> Result<Vec<(&'a K, &'a V)>, Memory>
    ensures { IfOk result (λ page. IsKeyed K.encoding K.is_value trie.now
        → (p : K × V) → Contains (deref_pairs page.items) p
        → IsBefore (K.encoding last.now) (K.encoding p.0)) }
{
    keys_of_pages_are_given::<K, V>();
    Ok(trie.first_after(key, last, most)?)
}

/// The pairs at and above a key: none that is stored is missed.
fn inherited_from<'a, Q, M: PrefixMap<'a, Q>>(map: M, key: &Q) -> Result<M::Walk, Memory>
    ensures { IfOk result (λ walk. (k : M.Stored) (v : M.Value)
        → keyed_map M.encoding (M.map map) k ≡ Some v
        → IsPrefix (M.encoding k) (M.list key.now)
        → (j : M.Stored) × (M.encoding j ≡ M.encoding k) × Contains (M.left walk) (j, v)) }
{
    pairs_above_are_given(map, key);
    let walk = map.common_prefixes(key)?;
    Ok(walk)
}

/// The pairs of a range: each is within it.
fn in_range<'a, Q, M: RangeMap<'a, Q>, R: RangeBounds<Q>>(
    map: M,
    range: R,
) -> Result<M::Walk, Memory>
    ensures { R.has_bounds range → IfOk result (λ walk. (p : M.Stored × M.Value)
        → Contains (M.left walk) p → is_within (encoded_bound M.list (R.start_bound range))
        (encoded_bound M.list (R.end_bound range)) (M.encoding p.0) ≡ true) }
{
    pairs_within_are_given::<Q, M, R>(map, &range);
    map.range(range)
}

/// The value that a key inherits: None where no stored key is a prefix of it.
fn inherited<'a, Q, M: PrefixMap<'a, Q>>(map: M, key: &Q) -> Result<Option<&'a M::Value>, Memory>
    ensures { IfOk result (λ found. option_copied found ≡ None → (k : M.Stored)
        → IsPrefix (M.encoding k) (M.list key.now)
        → keyed_map M.encoding (M.map map) k ≡ None) }
{
    longest_match_is_given(map, key);
    lookup(map, key)
}

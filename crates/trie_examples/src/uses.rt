//! Three uses of a trie: the longest stored prefix of an address, the words that a beginning may
//! become, and a setting that a path inherits. What each answers is proved of it.
ghost use Rattle.std.specs.Prelude.{◌≡◌, ◌⊎◌, ℕ, List, IfOk, IsOk, None, Some, map};
ghost use Rattle.radix_trie.specs.Lists.{IsPrefix};
ghost use Rattle.radix_trie.specs.Views.{pairs_below};
ghost use Rattle.keyed_maps.specs.KeyedMaps.{keyed_map};

use keyed_maps::keyed_maps_follow_nearest;
use radix_trie::iter::Values;
use radix_trie::{Bits, Memory, Trie, TrieCommon, TrieKey};
use std::alloc::Global;

/// Where the longest stored prefix of an address leads: the network of which each other stored one
/// that begins the address is a prefix.
pub(crate) fn next_hop<V: Copy>(table: &Trie<Bits, V>, address: &Bits) -> Result<Option<V>, Memory>
    ensures hop { IfOk result (λ hop. (v : V) → hop ≡ Some v
        → (network : List ℕ) × IsPrefix network address.now
        × (keyed_map ⟦<Bits as TrieKey>⟧.encoding table.now network ≡ Some v)
        × ((other : List ℕ) (w : V) → IsPrefix other address.now
        → keyed_map ⟦<Bits as TrieKey>⟧.encoding table.now other ≡ Some w
        → IsPrefix other network)) }
    ensures none { IfOk result (λ hop. hop ≡ None
        → (network : List ℕ) → IsPrefix network address.now
        → keyed_map ⟦<Bits as TrieKey>⟧.encoding table.now network ≡ None) }
{
    keyed_maps_follow_nearest(table);
    Ok(table.get_ancestor_value(address)?.copied())
}

/// The values of all words that begin so, in the words' order.
fn completions<K: TrieKey, V: Copy, Q: TrieKey>(
    alloc: Global,
    words: &Trie<K, V>,
    beginning: &Q,
) -> Result<Vec<V>, Memory>
    ensures { IfOk result
        (λ all. all.items ≡ map (λ p. p.1) (pairs_below words.now (Q.encoding beginning.now))) }
{
    match words.get_raw_descendant(beginning)? {
        Some(view) => collected(alloc, TrieCommon::values(&view)?),
        None => Ok(Vec::new(alloc)),
    }
}

/// The values that a walk gives.
fn collected<K, V: Copy>(alloc: Global, values: Values<'_, K, V>) -> Result<Vec<V>, Memory>
    ensures { IfOk result (λ all. all.items ≡ values.entry) }
{
    Ok(values.copied().collect(alloc)?)
}

/// The setting at the nearest stored path at or above a path, or the default where none is stored.
fn inherited<K: TrieKey, V: Copy, Q: TrieKey>(
    settings: &Trie<K, V>,
    path: &Q,
    default: V,
) -> Result<V, Memory>
    ensures nearest { IfOk result (λ v. ((k : K) × IsPrefix (K.encoding k) (Q.encoding path.now)
        × (keyed_map K.encoding settings.now k ≡ Some v)
        × ((j : K) (w : V) → IsPrefix (K.encoding j) (Q.encoding path.now)
        → keyed_map K.encoding settings.now j ≡ Some w
        → IsPrefix (K.encoding j) (K.encoding k)))
        ⊎ ((v ≡ default) × ((k : K) → IsPrefix (K.encoding k) (Q.encoding path.now)
        → keyed_map K.encoding settings.now k ≡ None))) }
    ensures inline { Q.is_inline path.now → IsOk result }
{
    keyed_maps_follow_nearest(settings);
    Ok(
        settings
            .get_ancestor_value(path)?
            .copied()
            .unwrap_or(default),
    )
}

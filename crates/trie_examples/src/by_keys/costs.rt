//! A caller that counts what an insertion costs.
ghost use Rattle.std.specs.Prelude.{◌≡◌, ◌+◌, ◌≤◌, ℕ, Some, IfOk, OnErr, OnOk, length};
ghost use Rattle.nibble_map.specs.Lists.{Counts};
ghost use Rattle.nibble_map.specs.Maps.{IsPoint, IsSomePrefix};
ghost use Rattle.keyed_maps.specs.KeyedMaps.{keyed_map};

use keyed_maps::{edits_make_few_nibbles, edits_make_few_nodes, keyed_maps_follow_edits};
use radix_trie::{Trie, TrieError, TrieKey};

/// Stores a value, and returns how many nodes and how many nibbles of fragments the trie has more.
///
/// # Errors
///
/// Those of `Trie::insert`.
fn insert_measured<K: TrieKey + Drop, V: Drop>(
    trie: &mut Trie<K, V>,
    key: K,
    value: V,
) -> Result<(u128, u128), TrieError>
    ensures stored { OnOk result (keyed_map K.encoding trie.new key ≡ Some value) }
    ensures unchanged { OnErr result (trie.new ≡ trie.old) }
    ensures more_nodes { IfOk result (λ more. (n : ℕ) → Counts (IsPoint trie.old) n
        → Counts (IsPoint trie.new) (n + more.0)) }
    ensures nodes { IfOk result (λ more. more.0 ≤ 2) }
    ensures more_nibbles { IfOk result (λ more. (n : ℕ) → Counts (IsSomePrefix trie.old) n
        → Counts (IsSomePrefix trie.new) (n + more.1)) }
    ensures nibbles { IfOk result (λ more. more.1 ≤ length (K.encoding key)) }
{
    keyed_maps_follow_edits::<K, V>();
    edits_make_few_nodes::<K, V>();
    edits_make_few_nibbles::<K, V>();
    let (nodes, nibbles) = trie.footprint();
    let _ = trie.insert(key, value)?;
    let (nodes_now, nibbles_now) = trie.footprint();
    Ok((nodes_now - nodes, nibbles_now - nibbles))
}

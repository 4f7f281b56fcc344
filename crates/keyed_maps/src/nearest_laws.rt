//! What the nearest stored prefix is by keys.
ghost use Rattle.std.specs.Prelude.{◌≡◌, ℕ, List, None, Some};
ghost use Rattle.nibble_map.specs.Lists.{IsPrefix};
ghost use Rattle.radix_trie.specs.Views.{IsValueAbove};
ghost use Rattle.keyed_maps.specs.KeyedMaps.{keyed_map};

use radix_trie::{Trie, TrieKey, keys_stand_at_their_encodings};

/// The value that is nearest to a list, as `Trie::get_ancestor_value` returns it, is that of a key
/// whose encoding the list begins with; the encoding of each other such key with a value is a
/// prefix of its encoding. If there is none, no such key has a value.
///
/// # Examples
///
/// ```
/// # use nifazombi::{keyed_maps::keyed_maps_follow_nearest, radix_trie::{Bits, Memory, Trie}};
/// # fn next_hop<V: Copy>(table: &Trie<Bits, V>, address: &Bits) -> Result<Option<V>, Memory> {
/// keyed_maps_follow_nearest(table);
/// Ok(table.get_ancestor_value(address)?.copied())
/// # }
/// ```
///
/// `next_hop` in `crates/trie_examples/src/uses.rt` proves that the longest network decides.
pub fn keyed_maps_follow_nearest<K: TrieKey, V>(trie: &Trie<K, V>)
    ensures get_nearest { (e : List ℕ) (v : V) → IsValueAbove trie.now e (Some v)
        → (k : K) × IsPrefix (K.encoding k) e × (keyed_map K.encoding trie.now k ≡ Some v)
        × ((j : K) (w : V) → IsPrefix (K.encoding j) e
        → keyed_map K.encoding trie.now j ≡ Some w → IsPrefix (K.encoding j) (K.encoding k)) }
    ensures nearest_none { (e : List ℕ) → IsValueAbove trie.now e None
        → (k : K) → IsPrefix (K.encoding k) e → keyed_map K.encoding trie.now k ≡ None }
{
    keys_stand_at_their_encodings(trie);
}

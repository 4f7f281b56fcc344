//! A caller that compares two tries.
ghost use Rattle.std.specs.Prelude.{◌≡◌, IsTrue};
ghost use Rattle.radix_trie.specs.Keys.{IsKeyed};
ghost use Rattle.keyed_maps.specs.KeyedMaps.{keyed_map};

use keyed_maps::alike_keyed_maps_are_same;
use radix_trie::{Trie, TrieKey};

/// Compares two tries that answer each key alike: they are equal.
fn compare_alike<K: TrieKey, V: Eq>(first: &Trie<K, V>, second: &Trie<K, V>) -> bool
    requires keyed { IsKeyed K.encoding K.is_value first.now }
    requires other_keyed { IsKeyed K.encoding K.is_value second.now }
    requires alike { (k : K) → K.is_value k
        → keyed_map K.encoding first.now k ≡ keyed_map K.encoding second.now k }
    ensures { IsTrue result }
{
    alike_keyed_maps_are_same::<K, V>();
    *first == *second
}

//! Leases of addresses, each with the time at which it ends: those of one network that are over are
//! removed.
ghost use Rattle.std.specs.Prelude.{◌≡◌, ◌<◌, ◌≤◌, ◌↔◌, ℕ, None, Some, IsTrue, OnOk};
ghost use Rattle.radix_trie.specs.Lists.{IsPrefix};
ghost use Rattle.keyed_maps.specs.KeyedMaps.{keyed_map};

use keyed_maps::{keyed_maps_follow_parts, keyed_maps_follow_retain};
use radix_trie::{Memory, Trie, TrieKey};

/// Removes the leases at and below a key that are over at a time: that end then, or have ended
/// before. Where an allocation fails, some of these may be left.
fn remove_ended<K: TrieKey + Drop, Q: TrieKey>(
    leases: &mut Trie<K, u64>,
    key: &Q,
    time: u64,
) -> Result<(), Memory>
    ensures over { OnOk result ((k : K) (end : ℕ) → IsPrefix (Q.encoding key.now) (K.encoding k)
        → keyed_map K.encoding leases.old k ≡ Some end → end ≤ time
        → keyed_map K.encoding leases.new k ≡ None) }
    ensures running { (k : K) (end : ℕ) → IsPrefix (Q.encoding key.now) (K.encoding k)
        → keyed_map K.encoding leases.old k ≡ Some end → time < end
        → keyed_map K.encoding leases.new k ≡ Some end }
    ensures none { (k : K) → IsPrefix (Q.encoding key.now) (K.encoding k)
        → keyed_map K.encoding leases.old k ≡ None → keyed_map K.encoding leases.new k ≡ None }
    ensures elsewhere { (k : K) → (IsPrefix (Q.encoding key.now) (K.encoding k) → ⊥)
        → keyed_map K.encoding leases.new k ≡ keyed_map K.encoding leases.old k }
{
    let runs = |_: &K, end: &u64| -> bool
        ensures { IsTrue result ↔ (time < end.now) }
    { *end > time };
    keyed_maps_follow_parts::<K, u64>();
    keyed_maps_follow_retain::<K, u64, _>(&runs);
    leases.retain_below(key, runs)
}

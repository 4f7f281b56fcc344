//! Callers that drop values by a test, and copy them.
ghost use Rattle.std.specs.Prelude.{◌≡◌, ◌↔◌, ◌≤◌, ◌<◌, ℕ, IfOk, IsTrue, OnOk, None, Some};
ghost use Rattle.keyed_maps.specs.KeyedMaps.{keyed_map};

use keyed_maps::{keyed_maps_follow_clones, keyed_maps_follow_retain};
use radix_trie::{Memory, Trie, TrieKey};

/// Removes the keys whose count is less than a number. Where an allocation fails, some of these may
/// be left.
///
/// # Errors
///
/// Those of `Trie::retain`.
fn forget_rare<K: TrieKey + Drop>(counts: &mut Trie<K, u64>, least: u64) -> Result<(), Memory>
    ensures kept { (k : K) (n : ℕ) → keyed_map K.encoding counts.old k ≡ Some n → least ≤ n
        → keyed_map K.encoding counts.new k ≡ Some n }
    ensures gone { OnOk result ((k : K) (n : ℕ) → keyed_map K.encoding counts.old k ≡ Some n
        → n < least → keyed_map K.encoding counts.new k ≡ None) }
{
    let keep = |_: &K, n: &u64| -> bool
        ensures { IsTrue result ↔ (least ≤ n.now) }
    { *n >= least };
    keyed_maps_follow_retain::<K, u64, _>(&keep);
    counts.retain(keep)
}

/// A copy of counts, in which each key has the count that it has in these.
///
/// # Errors
///
/// Those of `Trie::clone`.
fn copy_counts<K: TrieKey + Clone>(counts: &Trie<K, u64>) -> Result<Trie<K, u64>, Memory>
    requires same_encoding { (key copy : K) → K.is_clone key copy
        → K.encoding copy ≡ K.encoding key }
    ensures { IfOk result (λ copy. (k : K)
        → keyed_map K.encoding copy k ≡ keyed_map K.encoding counts.now k) }
{
    keyed_maps_follow_clones::<K, u64>();
    Ok(counts.clone()?)
}

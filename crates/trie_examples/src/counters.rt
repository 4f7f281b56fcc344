//! A counter for each word.
ghost use Rattle.std.specs.Option.{unwrap_or};
ghost use Rattle.std.specs.Prelude.{◌≡◌, ◌+◌, ◌<◌, ◌^◌, OnOk, OnErr, false};
ghost use Rattle.keyed_maps.specs.KeyedMaps.{keyed_map};

use keyed_maps::{keyed_maps_follow_edits, keyed_maps_follow_values};
use radix_trie::{Trie, TrieError, TrieKey};

/// Counts a word: one more of it, and no more of any other. A word that isn't stored has the count
/// 0.
fn count<K: TrieKey + Drop>(counts: &mut Trie<K, u64>, word: K) -> Result<(), TrieError>
    requires room { unwrap_or (keyed_map K.encoding counts.old word) 0 + 1 < 2 ^ 64 }
    ensures one_more { OnOk result (unwrap_or (keyed_map K.encoding counts.new word) 0
        ≡ unwrap_or (keyed_map K.encoding counts.old word) 0 + 1) }
    ensures others { OnOk result ((other : K) → K.is_value other → K.eq word other ≡ false
        → keyed_map K.encoding counts.new other ≡ keyed_map K.encoding counts.old other) }
    ensures unchanged { OnErr result (counts.new ≡ counts.old) }
{
    keyed_maps_follow_edits::<K, u64>();
    keyed_maps_follow_values::<K, u64>();
    counts.map_with_default(
        word,
        |n: &mut u64|
            requires { n.old + 1 < 2 ^ 64 }
            ensures { n.new ≡ n.old + 1 }
        { *n += 1 },
        1,
    )?;
    Ok(())
}

//! A count for each word, by entries: the word is encoded once for all that is done at it.
ghost use Rattle.std.specs.Option.{unwrap_or};
ghost use Rattle.std.specs.Prelude.{◌≡◌, ◌+◌, ◌-◌, ◌<◌, ◌^◌, OnOk, OnErr, false};
ghost use Rattle.keyed_maps.specs.KeyedMaps.{keyed_map};

use keyed_maps::{keyed_maps_follow_edits, keyed_maps_follow_values};
use radix_trie::{Trie, TrieError, TrieKey};

/// Counts a word: one more of it, and no more of any other. A word that isn't stored has the count
/// 0.
fn count<K: TrieKey + Drop>(counts: &mut Trie<K, u64>, word: K) -> Result<(), TrieError>
    requires room { unwrap_or (keyed_map K.encoding counts.old word) 0 + 1 < 2 ^ 64 }
    ensures one_more { OnOk result
        (unwrap_or (keyed_map K.encoding counts.new word) 0
        ≡ unwrap_or (keyed_map K.encoding counts.old word) 0 + 1) }
    ensures others { OnOk result ((other : K) → K.is_value other → K.eq word other ≡ false
        → keyed_map K.encoding counts.new other ≡ keyed_map K.encoding counts.old other) }
    ensures unchanged { OnErr result (counts.new ≡ counts.old) }
{
    keyed_maps_follow_values::<K, u64>();
    *counts.entry(word)?.or_insert(0)? += 1;
    Ok(())
}

/// Takes one of a word's count: one less of it, or none where there was one, and then it isn't
/// stored. A word with the count 0 stays so.
fn discount<K: TrieKey + Drop>(counts: &mut Trie<K, u64>, word: K) -> Result<(), TrieError>
    ensures one_less { OnOk result
        (unwrap_or (keyed_map K.encoding counts.new word) 0
        ≡ unwrap_or (keyed_map K.encoding counts.old word) 0 - 1) }
    ensures others { OnOk result ((other : K) → K.is_value other → K.eq word other ≡ false
        → keyed_map K.encoding counts.new other ≡ keyed_map K.encoding counts.old other) }
    ensures unchanged { OnErr result (counts.new ≡ counts.old) }
{
    keyed_maps_follow_edits::<K, u64>();
    let entry = counts.entry(word)?;
    match entry.get().copied() {
        None => Ok(()),
        Some(n) if n > 1 => {
            entry.insert(n - 1)?;
            Ok(())
        }
        Some(_) => {
            entry.remove()?;
            Ok(())
        }
    }
}

//! Callers that store and remove pairs.
ghost use Rattle.std.specs.Prelude.{◌≡◌, Some, None, OnOk, false};
ghost use Rattle.keyed_maps.specs.KeyedMaps.{keyed_insert, keyed_map};

use keyed_maps::{
    edits_by_key_compose, equal_keys_are_encoded_alike, equal_keys_have_one_value,
    keyed_maps_follow_edits,
};
use radix_trie::{Trie, TrieError, TrieKey};

/// Stores two values in two tries, in either order: if the tries were equal and the keys aren't,
/// the tries are equal.
///
/// # Errors
///
/// Those of `Trie::insert`.
fn insert_in_either_order<K: TrieKey + Copy + Drop, V: Copy + Drop>(
    first: &mut Trie<K, V>,
    second: &mut Trie<K, V>,
    one: (K, V),
    other: (K, V),
) -> Result<(), TrieError>
    ensures { OnOk result (first.old ≡ second.old → K.eq one.0 other.0 ≡ false
        → first.new ≡ second.new) }
{
    edits_by_key_compose::<K, V>();
    let _ = first.insert(one.0, one.1)?;
    let _ = first.insert(other.0, other.1)?;
    let _ = second.insert(other.0, other.1)?;
    let _ = second.insert(one.0, one.1)?;
    Ok(())
}

/// Moves the value of a key to another one. Where there is none, nothing changes.
///
/// # Errors
///
/// Those of `Trie::get`, `Trie::insert` and `Trie::remove`. The value may stand at both keys then.
fn move_value<K: TrieKey + Drop, V: Copy + Drop>(
    trie: &mut Trie<K, V>,
    from: &K,
    to: K,
) -> Result<bool, TrieError>
    ensures moved { OnOk result ((v : V) → keyed_map K.encoding trie.old from.now ≡ Some v
        → K.eq from.now to ≡ false → keyed_map K.encoding trie.new to ≡ Some v) }
    ensures gone { OnOk result (keyed_map K.encoding trie.new from.now ≡ None) }
    ensures others { OnOk result ((j : K) → K.is_value j → K.eq from.now j ≡ false
        → K.eq to j ≡ false
        → keyed_map K.encoding trie.new j ≡ keyed_map K.encoding trie.old j) }
{
    keyed_maps_follow_edits::<K, V>();
    let Some(value) = trie.get(from)?.copied() else {
        return Ok(false);
    };
    let _ = trie.insert(to, value)?;
    let _ = trie.remove(from)?;
    Ok(true)
}

/// Stores a value by a text: the map by texts is what it was, with this value at the text.
///
/// # Errors
///
/// Those of `Trie::insert`.
fn insert_text<V: Drop>(
    texts: &mut Trie<String, V>,
    text: String,
    value: V,
) -> Result<(), TrieError>
    ensures { OnOk result ((j : _)
        → keyed_map ⟦<String as TrieKey>⟧.encoding texts.new j
        ≡ keyed_insert ⟦<String as PartialEq>⟧.eq
        (keyed_map ⟦<String as TrieKey>⟧.encoding texts.old) text value j) }
{
    equal_keys_have_one_value::<String, V>();
    equal_keys_are_encoded_alike::<String>();
    let _ = texts.insert(text, value)?;
    Ok(())
}

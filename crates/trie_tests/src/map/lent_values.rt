//! Values that are written in their places.
ghost use Rattle.std.specs.Prelude.{◌≡◌, OnErr, OnOk};
ghost use Rattle.radix_trie.specs.Maps.{with_value};
ghost use Rattle.radix_trie.specs.Views.{IsWrittenAbove, with_value_or};

use crate::samples::texts;
use radix_trie::{FindError, InsertError, Nibblet, Trie, TrieError, TrieKey};

/// Writes the value at a key.
fn write<K: TrieKey, V: Drop>(trie: &mut Trie<K, V>, key: &K, value: V) -> Result<(), FindError>
    ensures written { OnOk result (trie.new ≡ with_value trie.old (K.encoding key.now) value) }
    ensures unchanged { OnErr result (trie.new ≡ trie.old) }
{
    let place = trie.find_mut(key)?;
    *place = value;
    Ok(())
}

/// Writes the value at a list of nibbles, where there is one.
fn write_at<K: TrieKey, V: Drop>(trie: &mut Trie<K, V>, list: &Nibblet, value: V)
    ensures { trie.new ≡ with_value trie.old list.now value }
{
    if let Some(place) = trie.at_mut(list) {
        *place = value;
    }
}

/// Writes the value at the longest stored list that is a prefix of a key's encoding.
fn write_above<K: TrieKey, V: Drop>(
    trie: &mut Trie<K, V>,
    key: &K,
    value: V,
) -> Result<(), FindError>
    ensures written { OnOk result
        (IsWrittenAbove trie.old (K.encoding key.now) value trie.new) }
    ensures unchanged { OnErr result (trie.new ≡ trie.old) }
{
    let place = trie.find_ancestor_mut(key)?;
    *place = value;
    Ok(())
}

/// Writes a value at a key, whose stored key stays, if there is one.
fn write_or_store<K: TrieKey + Drop, V: Drop>(
    trie: &mut Trie<K, V>,
    key: K,
    default: V,
    value: V,
) -> Result<(), InsertError<K, V>>
    ensures written { OnOk result
        (trie.new ≡ with_value_or trie.old (K.encoding key) key value) }
    ensures unchanged { OnErr result (trie.new ≡ trie.old) }
{
    let place = trie.get_or_insert(key, default)?;
    *place = value;
    Ok(())
}

#[test]
fn values_are_written_in_their_places(rt: HostRuntime) -> Result<(), TrieError> {
    let mut trie = texts(rt.alloc(), &[("tea", 1), ("team", 2)])?;
    write(&mut trie, &"tea", 3)?;
    write_at(&mut trie, &"team".encode(rt.alloc())?, 4);
    write_above(&mut trie, &"teas", 5)?;
    write_or_store(&mut trie, "ten", 0, 6)?;
    assert!(rt; trie == texts(rt.alloc(), &[("tea", 5), ("team", 4), ("ten", 6)])?);
    Ok(())
}

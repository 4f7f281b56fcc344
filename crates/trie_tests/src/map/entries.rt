//! Entries: a key's place in a trie, by callers with contracts of their own.
ghost use Rattle.std.specs.Prelude.{◌≡◌, false, IsTrue, IfOk, OnOk, OnErr};
ghost use Rattle.radix_trie.specs.Maps.{with_value};
ghost use Rattle.radix_trie.specs.Values.{IsFilled};

use crate::samples::texts;
use radix_trie::{Trie, TrieError, TrieKey};

/// Stores the pair where nothing is stored at its key. Whether it is stored so.
fn stored_if_vacant<K: TrieKey + Drop, V: Drop>(
    trie: &mut Trie<K, V>,
    key: K,
    value: V,
) -> Result<bool, TrieError>
    ensures filled { OnOk result (IsFilled trie.old (K.encoding key) (key, value) trie.new) }
    ensures unchanged { OnErr result (trie.new ≡ trie.old) }
{
    let entry = trie.entry(key)?;
    if entry.is_occupied() {
        return Ok(false);
    }
    entry.insert(value)?;
    Ok(true)
}

/// Writes the value at a key, where one is stored there. Whether it is written so.
fn written_if_stored<K: TrieKey + Drop, V: Drop>(
    trie: &mut Trie<K, V>,
    key: K,
    value: V,
) -> Result<bool, TrieError>
    ensures written { IfOk result (λ was. IsTrue was
        → (trie.new ≡ with_value trie.old (K.encoding key) value)) }
    ensures absent { IfOk result (λ was. was ≡ false → (trie.new ≡ trie.old)) }
    ensures unchanged { OnErr result (trie.new ≡ trie.old) }
{
    let mut entry = trie.entry(key)?;
    if let Some(found) = entry.get_mut() {
        *found = value;
        return Ok(true);
    }
    Ok(false)
}

#[test]
fn only_vacant_places_are_filled(rt: HostRuntime) -> Result<(), TrieError> {
    let mut trie = texts(rt.alloc(), &[("tea", 1)])?;
    for (key, value, wanted) in [("ten", 2, true), ("tea", 3, false)] {
        assert!(rt; stored_if_vacant(&mut trie, key, value)? == wanted);
    }
    assert!(rt; trie == texts(rt.alloc(), &[("tea", 1), ("ten", 2)])?);
    Ok(())
}

/// A default is made by a closure where nothing is stored, and there alone.
#[test]
fn defaults_are_made_by_entries(rt: HostRuntime) -> Result<(), TrieError> {
    let mut trie = texts(rt.alloc(), &[("tea", 1)])?;
    let mut made = false;
    *trie.entry("tea")?.or_insert_with(|| {
        made = true;
        7
    })? = 8;
    assert!(rt; !made && trie.get(&"tea")? == Some(&8));
    let value = *trie.entry("ten")?.or_insert_with(|| {
        made = true;
        7
    })?;
    assert!(rt; made && value == 7);
    assert!(rt; written_if_stored(&mut trie, "ten", 9)? && trie.get(&"ten")? == Some(&9));
    assert!(rt; !written_if_stored(&mut trie, "toe", 9)? && trie.len() == 2);
    Ok(())
}

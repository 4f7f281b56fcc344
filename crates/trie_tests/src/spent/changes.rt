//! What a caller stores and writes through a view for writing.
ghost use Rattle.std.specs.FinMap as map;
ghost use Rattle.std.specs.Prelude.{◌≡◌, IfOk, OnOk, OnErr, IsTrue, IsFalse};
ghost use Rattle.radix_trie.specs.Maps.{with_value};

use crate::samples::texts;
use radix_trie::{InsertError, InsertWhy, OpenError, Trie, TrieError, TrieKey};

/// Stores a pair through a view at a key. False: no point stands there.
fn put_within<K: TrieKey + Drop, V: Drop>(
    trie: &mut Trie<K, V>,
    at: &K,
    key: K,
    value: V,
) -> Result<bool, InsertError<K, V>>
    ensures opened { IfOk result
        (λ b. IsTrue b → trie.new ≡ map.insert trie.old (K.encoding key) (key, value)) }
    ensures closed { IfOk result (λ b. IsFalse b → trie.new ≡ trie.old) }
    ensures unchanged { OnErr result (trie.new ≡ trie.old) }
{
    match trie.open_mut(at) {
        Ok(mut view) => match view.insert(key, value) {
            Ok(_) => Ok(true),
            Err(error) => Err(error),
        },
        Err(OpenError::Closed) => Ok(false),
        Err(OpenError::Memory) => Err(InsertError {
            why: InsertWhy::Memory,
            key,
            value,
        }),
    }
}

/// Writes the value at a key through a view.
fn write_within<K: TrieKey, V: Drop>(
    trie: &mut Trie<K, V>,
    at: &K,
    value: V,
) -> Result<(), OpenError>
    ensures written { OnOk result (trie.new ≡ with_value trie.old (K.encoding at.now) value) }
    ensures unchanged { OnErr result (trie.new ≡ trie.old) }
{
    match trie.open_mut(at) {
        Ok(mut view) => {
            if let Some(place) = view.value_mut() {
                *place = value;
            }
            Ok(())
        }
        Err(error) => Err(error),
    }
}

#[test]
fn pairs_are_stored_and_written_through_views(rt: HostRuntime) -> Result<(), TrieError> {
    let mut trie = texts(rt.alloc(), &[("tea", 1)])?;
    assert!(rt; put_within(&mut trie, &"tea", "team", 2)?);
    assert!(rt; !put_within(&mut trie, &"x", "xy", 3)?);
    write_within(&mut trie, &"tea", 4)?;
    assert!(rt; trie == texts(rt.alloc(), &[("tea", 4), ("team", 2)])?);
    Ok(())
}

//! A change that is written once, for tries and for views for writing.
ghost use Rattle.std.specs.FinMap as map;
ghost use Rattle.std.specs.Prelude.{◌≡◌, true, false, None, Ok, OnErr};
ghost use Rattle.radix_trie.specs.Maps.{IsStored};

use radix_trie::{Trie, TrieEdit, TrieError, TrieKey};

/// Stores the pair, where nothing is stored at the key. Whether it was stored; else it is dropped.
fn stored_once<K: TrieKey + Drop, V: Drop, T: TrieEdit<K, V>>(
    edit: &mut T,
    key: K,
    value: V,
) -> Result<bool, TrieError>
    ensures stored { result ≡ Ok true
        → (map.get (T.map edit.old) (K.encoding key) ≡ None)
        × (T.map edit.new ≡ map.insert (T.map edit.old) (K.encoding key) (key, value)) }
    ensures kept { result ≡ Ok false
        → IsStored (T.map edit.old) (K.encoding key) × (T.map edit.new ≡ T.map edit.old) }
    ensures unchanged { OnErr result (T.map edit.new ≡ T.map edit.old) }
{
    if let Some(_) = edit.get(&key)? {
        return Ok(false);
    }
    let _ = edit.insert(key, value)?;
    Ok(true)
}

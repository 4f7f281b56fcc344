//! The trie that a view for writing hands back where it is spent.
ghost use Rattle.std.specs.FinMap as map;
ghost use Rattle.std.specs.Prelude.{◌≡◌, IfOk, OnOk, OnErr};

use crate::samples::texts;
use radix_trie::{InsertError, InsertWhy, OpenError, Trie, TrieCommon, TrieError, TrieKey};

/// Stores a pair through a view at a key, and counts all pairs of the trie that the view hands
/// back.
fn stored_and_counted<K: TrieKey + Drop, V: Drop>(
    trie: &mut Trie<K, V>,
    at: &K,
    key: K,
    value: V,
) -> Result<usize, InsertError<K, V>>
    ensures count { IfOk result (λ n. n ≡ map.len trie.new) }
    ensures stored { OnOk result (trie.new ≡ map.insert trie.old (K.encoding key) (key, value)) }
    ensures unchanged { OnErr result (trie.new ≡ trie.old) }
{
    match trie.open_mut(at) {
        Ok(mut view) => match view.insert(key, value) {
            Ok(_) => {
                let trie = view.into_trie();
                let count = trie.len();
                // A last use beyond the shared one, so that the proof follows the reference to its
                // end.
                let _trie = trie;
                Ok(count)
            }
            Err(error) => Err(error),
        },
        Err(_) => Err(InsertError {
            why: InsertWhy::Memory,
            key,
            value,
        }),
    }
}

/// How many keys the trie that a view hands back is walked over. The trie stays as it is.
fn keys_walked<K: TrieKey, V>(trie: &mut Trie<K, V>, at: &K) -> Result<usize, OpenError>
    ensures unchanged { trie.new ≡ trie.old }
{
    match trie.open_mut(at) {
        Ok(view) => {
            let trie = view.into_trie();
            let walked = match TrieCommon::keys(&*trie) {
                Ok(keys) => Ok(keys.count()),
                Err(_) => Err(OpenError::Memory),
            };
            let _trie = trie;
            walked
        }
        Err(error) => Err(error),
    }
}

#[test]
fn tries_are_handed_back(rt: HostRuntime) -> Result<(), TrieError> {
    let mut trie = texts(rt.alloc(), &[("tea", 1), ("toe", 2)])?;
    assert!(rt; stored_and_counted(&mut trie, &"tea", "team", 3)? == 3);
    assert!(rt; keys_walked(&mut trie, &"toe")? == 3);
    Ok(())
}

//! The pairs at and below a view for writing, counted where it is spent.
ghost use Rattle.std.specs.FinMap as map;
ghost use Rattle.std.specs.Prelude.{◌≡◌, IfOk};
ghost use Rattle.radix_trie.specs.Maps.{below};

use radix_trie::{OpenError, Trie, TrieCommon, TrieError, TrieKey};

/// How many pairs are at and below a key's encoding. The view is spent, and the trie stays as it
/// is.
fn counted<K: TrieKey, V>(trie: &mut Trie<K, V>, at: &K) -> Result<usize, OpenError>
    ensures count { IfOk result (λ n. n ≡ map.len (below trie.old (K.encoding at.now))) }
    ensures unchanged { trie.new ≡ trie.old }
{
    match trie.open_mut(at) {
        Ok(view) => Ok(view.len()),
        Err(error) => Err(error),
    }
}

/// A query of another type opens the view of a trie whose keys are owned.
#[test]
fn owned_keys(rt: HostRuntime) -> Result<(), TrieError> {
    let mut trie: Trie<String, u64> = Trie::new(rt.alloc());
    for (key, value) in [("/boot", 1), ("/boot/lol", 2), ("/bleh", 3)] {
        trie.insert(String::from_str(rt.alloc(), key)?, value)?;
    }
    let view = trie.open_mut(&"/boot")?;
    assert!(rt; TrieCommon::value(&view) == Some(&1));
    assert!(rt; view.len() == 2);
    assert!(rt; counted(&mut trie, &String::from_str(rt.alloc(), "/boot")?)? == 2);
    Ok(())
}

//! Children and walks that a view for writing is spent for: they last as long as the trie's borrow.
ghost use Rattle.std.specs.Prelude.{IfOk};
ghost use Rattle.radix_trie.specs.MapQueries.{AreChildren};
ghost use Rattle.radix_trie.specs.Views.{paths_of};

use crate::samples::{SAMPLE, Texts, texts};
use radix_trie::iter::{Children, Keys, Values};
use radix_trie::{OpenError, Trie, TrieCommon, TrieError, TrieKey};

/// The children of the point at a key's encoding, which outlive the view.
fn children_at<'t, K: TrieKey, V, Q: TrieKey>(
    trie: &'t mut Trie<K, V>,
    at: &Q,
) -> Result<Children<'t, K, V>, OpenError>
    ensures children { IfOk result
        (λ children. AreChildren trie.entry.now (Q.encoding at.now) (paths_of children)) }
{
    match trie.open_mut(at) {
        Ok(view) => match view.into_children() {
            Ok(children) => Ok(children),
            Err(_) => Err(OpenError::Memory),
        },
        Err(error) => Err(error),
    }
}

/// The keys below a view, which outlive it.
fn keys_at<'t>(
    trie: &'t mut Texts,
    at: &'static str,
) -> Result<Keys<'t, &'static str, u64>, OpenError> {
    match trie.open_mut(&at) {
        Ok(view) => match TrieCommon::keys(view) {
            Ok(keys) => Ok(keys),
            Err(_) => Err(OpenError::Memory),
        },
        Err(error) => Err(error),
    }
}

/// The values below a view, which outlive it.
fn values_at<'t>(
    trie: &'t mut Texts,
    at: &'static str,
) -> Result<Values<'t, &'static str, u64>, OpenError> {
    match trie.open_mut(&at) {
        Ok(view) => match TrieCommon::values(view) {
            Ok(values) => Ok(values),
            Err(_) => Err(OpenError::Memory),
        },
        Err(error) => Err(error),
    }
}

/// The value at a view, which is written there and outlives it.
fn written_at<'t>(
    trie: &'t mut Texts,
    at: &'static str,
    value: u64,
) -> Result<Option<&'t u64>, OpenError> {
    match trie.open_mut(&at) {
        Ok(mut view) => {
            if let Some(place) = view.value_mut() {
                *place = value;
            }
            Ok(TrieCommon::value(view))
        }
        Err(error) => Err(error),
    }
}

/// The keys, the values and the children below a view outlive it, and so does its own value.
#[test]
fn walks_outlive_the_view(rt: HostRuntime) -> Result<(), TrieError> {
    let mut trie = texts(rt.alloc(), SAMPLE)?;
    let keys: Vec<&'static str> = keys_at(&mut trie, "ab")?.copied().collect(rt.alloc())?;
    assert!(rt; keys.as_slice() == ["ab", "abcd", "abcdef", "abcdefgh"].as_slice());
    let values: Vec<u64> = values_at(&mut trie, "ab")?.copied().collect(rt.alloc())?;
    assert!(rt; values.as_slice() == [16, 17, 18, 19].as_slice());
    assert!(rt; written_at(&mut trie, "ab", 999)? == Some(&999));
    let mut children = children_at(&mut trie, &"abcd")?;
    assert!(rt; children.next().is_some() && children.next().is_none());
    Ok(())
}

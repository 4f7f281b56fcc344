//! Views for reading: what they hand out outlives them.

use crate::samples::{SAMPLE, Texts, texts};
use radix_trie::iter::Children;
use radix_trie::{Memory, SubTrieError, TrieCommon};

/// The value at the view of a key, which lasts longer than the view.
fn value_of<'t>(trie: &'t Texts, key: &'static str) -> Option<&'t u64> {
    match trie.subtrie(&key) {
        Ok(Some(view)) => TrieCommon::value(&view),
        _ => None,
    }
}

/// The children of the point at a key, which outlive the view.
fn children_of<'t>(
    trie: &'t Texts,
    key: &'static str,
) -> Result<Option<Children<'t, &'static str, u64>>, Memory> {
    match trie.subtrie(&key)? {
        Some(view) => Ok(Some(view.children()?)),
        None => Ok(None),
    }
}

/// A value outlives its view, and so does a child, which answers for the keys below it alone.
#[test]
fn values_and_children_outlive_their_views(rt: HostRuntime) -> Result<(), Memory> {
    let trie = texts(rt.alloc(), SAMPLE)?;
    assert!(rt; value_of(&trie, "ab") == Some(&16));
    let Some(mut children) = children_of(&trie, "abcd")? else {
        return Err(Memory);
    };
    let (child, other) = (children.next(), children.next());
    let Some(child) = child else {
        return Err(Memory);
    };
    let found = (
        child.get(&"abcdef"),
        child.get(&"abcdefgh"),
        child.get(&"abcd"),
    );
    assert!(rt; found == (Ok(Some(&18)), Ok(Some(&19)), Err(SubTrieError::Outside)));
    assert!(rt; other.is_none());
    Ok(())
}

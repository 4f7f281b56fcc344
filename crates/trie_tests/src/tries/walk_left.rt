//! A walk that is left before its end.

use crate::samples::{SAMPLE, Texts, texts};
use radix_trie::{Memory, TrieCommon};

/// Whether these are the walk's first two pairs. The walk is dropped then.
fn begins(trie: &Texts) -> Result<bool, Memory> {
    let mut walk = TrieCommon::iter(trie)?;
    Ok(walk.next() == Some((&"a", &15)) && walk.next() == Some((&"ab", &16)))
}

/// A walk over the sample is left after two pairs, and the trie takes another one.
#[test]
fn left_after_two_pairs(rt: HostRuntime) -> Result<(), Memory> {
    let mut trie = texts(rt.alloc(), SAMPLE)?;
    assert!(rt; begins(&trie)?);
    assert!(rt; matches!(trie.insert("b", 1), Ok(None)));
    assert!(rt; trie.len() == 8);
    Ok(())
}

//! The value at a list that is known to be stored.

use crate::samples::texts;
use radix_trie::{Memory, TrieKey};

#[test]
fn stored_lists_are_indexed(rt: HostRuntime) -> Result<(), Memory> {
    let words = texts(rt.alloc(), &[("team", 3), ("inn", 5)])?;
    let list = "team".encode(rt.alloc())?;
    assert!(rt; words.contains(&list));
    assert!(rt; words[&list] == 3);
    Ok(())
}

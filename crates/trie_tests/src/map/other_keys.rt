//! Keys of other types, and queries by them.

use crate::samples::texts;
use radix_trie::{Memory, Trie, TrieCommon, TrieError};
use std::process::Abort;

/// Folders, by names that are owned.
type Folders = Trie<String, u64>;

/// Names, and the values that each finds among `/boot` 1, `/boot/lol` 2 and `/bleh` 3: by `get` and
/// at `subtrie`, at `get_ancestor` and by `get_ancestor_value`, at `get_raw_ancestor` and at
/// `get_raw_descendant`.
const ROWS: &'static str = "\
/boot 1 1 1 1 1 1
/boot/lo none none 1 1 1 2
/boot/lolo none none 2 2 2 none
/b none none none none none none
/bl none none none none none 3
";

/// The values that a text finds.
fn found(trie: &Folders, key: &str) -> Result<[Option<u64>; 6], Memory> {
    let view = trie.subtrie(&key)?.and_then(|view| view.value());
    let above = trie.get_ancestor(&key)?.and_then(|view| view.value());
    let below = trie.get_raw_descendant(&key)?.and_then(|view| view.value());
    Ok([
        trie.get(&key)?.copied(),
        view.copied(),
        above.copied(),
        trie.get_ancestor_value(&key)?.copied(),
        trie.get_raw_ancestor(&key)?.value().copied(),
        below.copied(),
    ])
}

/// Whether a row says what its name finds.
fn is_right(trie: &Folders, row: &str) -> Option<bool> {
    let (key, wanted) = row.split_once(' ')?;
    let mut words = wanted.split(' ');
    for value in found(trie, key).ok()? {
        if words.next()?.parse().ok() != value {
            return Some(false);
        }
    }
    Some(true)
}

/// Keys that own their texts are found, lent and removed by borrowed ones, and found by bytes.
fn check_borrowed(rt: &impl Abort, trie: &mut Folders) -> Result<(), Memory> {
    let bytes: &[u8] = b"/boot/lol";
    assert!(rt; trie.get(&bytes)? == Some(&2));
    assert!(rt;
        trie.get_mut(&"/boot/lol")?
            .is_some_and(|number| *number == 2)
    );
    assert!(rt; trie.remove(&"/boot/lol")? == Some(2));
    assert!(rt; trie.get_mut(&"/boot/lol")?.is_none());
    Ok(())
}

/// A query of another type finds the pair that its encoding has; so does a number.
#[test]
fn queries_of_other_types(rt: HostRuntime) -> Result<(), TrieError> {
    let mut trie: Folders = Trie::new(rt.alloc());
    for (key, value) in [("/boot", 1), ("/boot/lol", 2), ("/bleh", 3)] {
        trie.insert(String::from_str(rt.alloc(), key)?, value)?;
    }
    for row in ROWS.lines() {
        assert!(rt; is_right(&trie, row) == Some(true), "{row}");
    }
    check_borrowed(&rt, &mut trie)?;
    let trie = texts(rt.alloc(), &[("a", 1)])?;
    assert!(rt; trie.get(&0x61u8)? == Some(&1));
    Ok(())
}

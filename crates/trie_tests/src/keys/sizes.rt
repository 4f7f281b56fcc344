//! Sizes past those that need no memory: many children, long keys, deep and large tries, long lists
//! of commands.

use radix_trie::{Command, Memory, Reply, Trie, TrieCommon, TrieKey, ViewCommand, run};
use std::alloc::{AllocError, Global};
use std::process::Abort;
use std::test::Fail;

/// Tries of bytes, each key with its count of bytes.
type Lengths = Trie<&'static [u8], usize>;

/// The longest key. The others are its beginnings.
const LETTERS: &'static [u8] = &[b'a'; 100];

/// A trie of all beginnings, the empty one too.
fn nested(rt: &impl Abort, alloc: Global) -> Lengths {
    let mut trie = Trie::new(alloc);
    for length in 0..101 {
        assert_eq!(rt; trie.insert(&LETTERS[..length], length).ok(), Some(None));
    }
    trie
}

/// Each beginning is found by each way of looking.
fn find_nested(rt: &impl Abort, trie: &Lengths) -> Result<(), Memory> {
    for length in 0..101 {
        let key: &[u8] = &LETTERS[..length];
        assert_eq!(rt; trie.get(&key)?.copied(), Some(length));
        assert_eq!(rt; trie.get_counted(&key)?, (Some(&length), 2 * length));
        assert_eq!(rt; trie.get_ancestor_value(&key)?.copied(), Some(length));
        assert_eq!(rt; trie.get_raw_ancestor(&key)?.path().len(), 2 * length);
    }
    Ok(())
}

/// Each beginning has a view for reading, with all that is below.
fn view_nested(rt: &impl Abort, trie: &Lengths) -> Result<(), Memory> {
    for length in 0..101 {
        let key: &[u8] = &LETTERS[..length];
        match trie.subtrie(&key)? {
            Some(view) => {
                assert_eq!(rt; view.get(&key).ok(), Some(Some(&length)));
                assert_eq!(rt; TrieCommon::len(&view), 101 - length);
                assert_eq!(rt; TrieCommon::is_leaf(&view), length == 100);
            }
            None => assert!(rt; false),
        }
    }
    Ok(())
}

/// Each beginning is taken out and stored again by a view for writing.
fn write_nested(rt: &impl Abort, trie: &mut Lengths) {
    for length in 0..101 {
        let key: &[u8] = &LETTERS[..length];
        match trie.open_mut(&key) {
            Ok(mut view) => {
                assert_eq!(rt; view.remove(&key), Ok(Some(length)));
                assert_eq!(rt; view.get(&key), Ok(None));
                assert_eq!(rt; view.insert(key, length).ok(), Some(None));
            }
            Err(_) => assert!(rt; false),
        }
    }
}

/// The walk has the beginnings in order, from so many bytes on.
fn walk_nested(rt: &impl Abort, trie: &Lengths, shortest: usize) -> Result<(), Memory> {
    let mut next = shortest;
    for (key, length) in TrieCommon::iter(trie)? {
        assert_eq!(rt; key.len(), next);
        assert_eq!(rt; *length, next);
        next = next.wrapping_add(1);
    }
    assert_eq!(rt; next, 101);
    Ok(())
}

/// Each beginning is taken out, the shortest first, so that each fragment grows by the one above
/// it.
fn take_nested(rt: &impl Abort, trie: &mut Lengths) -> Result<(), Memory> {
    for length in 0..101 {
        let key: &[u8] = &LETTERS[..length];
        assert_eq!(rt; trie.remove(&key)?, Some(length));
    }
    Ok(())
}

/// Keys of each length up to 100 bytes, each the beginning of the next one: the tree is as high as
/// there are keys.
#[test]
fn keys_of_each_length(rt: HostRuntime) -> Result<(), Memory> {
    let mut trie = nested(&rt, rt.alloc());
    assert_eq!(rt; trie.len(), 101);
    assert_eq!(rt; trie.footprint(), (101, 200));
    find_nested(&rt, &trie)?;
    view_nested(&rt, &trie)?;
    write_nested(&rt, &mut trie);
    walk_nested(&rt, &trie, 0)?;
    assert_eq!(rt; trie.check_integrity()?, true);
    assert!(rt; trie.clone()? == trie);
    take_nested(&rt, &mut trie)?;
    assert_eq!(rt; trie.footprint(), (1, 0));
    Ok(())
}

/// Long keys have their bytes.
#[test]
fn bytes_of_long_keys(rt: HostRuntime) {
    for length in 0..101 {
        let key: &[u8] = &LETTERS[..length];
        let bytes = key.encode_bytes(rt.alloc());
        assert!(rt; bytes.is_ok_and(|bytes| bytes.as_slice() == key));
    }
}

/// Stores the numbers below a bound as their own values.
fn insert_below(rt: &impl Abort, trie: &mut Trie<u16, u16>, bound: u16) {
    for key in 0..bound {
        assert_eq!(rt; trie.insert(key, key).ok(), Some(None));
    }
}

/// Finds the numbers below a bound, and takes them out.
fn take_below(rt: &impl Abort, trie: &mut Trie<u16, u16>, bound: u16) -> Result<(), Memory> {
    for key in 0..bound {
        assert_eq!(rt; trie.get(&key)?.copied(), Some(key));
        assert_eq!(rt; trie.remove(&key)?, Some(key));
        assert_eq!(rt; trie.get(&key)?, None);
    }
    Ok(())
}

/// Ten thousand pairs.
#[test]
fn many_pairs(rt: HostRuntime) -> Result<(), Memory> {
    let mut trie = Trie::new(rt.alloc());
    insert_below(&rt, &mut trie, 10_000);
    assert_eq!(rt; trie.len(), 10_000);
    assert_eq!(rt; trie.check_integrity()?, true);
    assert!(rt; trie.clone()? == trie);
    take_below(&rt, &mut trie, 10_000)?;
    assert_eq!(rt; trie.footprint(), (1, 0));
    Ok(())
}

/// A hundred insertions, as commands in a view.
fn insertions(alloc: Global) -> Result<Vec<ViewCommand<&'static [u8], usize>>, AllocError> {
    let mut commands = Vec::new(alloc);
    for length in 1..101 {
        commands.push(ViewCommand::Insert(&LETTERS[..length], length))?;
    }
    Ok(commands)
}

/// A view takes a hundred commands, and answers each.
#[test]
fn hundred_commands_in_a_view(rt: HostRuntime) -> Result<(), Fail> {
    let mut trie: Lengths = Trie::new(rt.alloc());
    let list = insertions(rt.alloc())?;
    let replies = run(
        &mut trie,
        vec![in rt.alloc(); Command::Within(&LETTERS[..0], list)]?,
    )?;
    assert_eq!(rt; replies.len(), 1);
    match &replies[0] {
        Reply::Replies(inner) => {
            assert_eq!(rt; inner.len(), 100);
            for reply in inner {
                assert!(rt; matches!(reply, Reply::Old(None)));
            }
        }
        _ => assert!(rt; false),
    }
    walk_nested(&rt, &trie, 1)?;
    Ok(())
}

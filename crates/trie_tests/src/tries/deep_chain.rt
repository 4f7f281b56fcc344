//! A thousand texts, each the beginning of the next one.

use crate::samples::{Texts, texts};
use radix_trie::{Command, Memory, Reply, Trie, TrieCommon, run, to_value};
use serde_json::Value;
use std::alloc::{AllocError, Global};
use std::process::Abort;
use std::test::Fail;

/// The longest text. The others are its beginnings.
const LETTERS: &'static [u8] = &[b'a'; 1000];

/// The texts of one letter to a thousand, each with its count of letters.
fn pairs(alloc: Global) -> Result<Vec<(&'static str, u64)>, AllocError> {
    let mut pairs = Vec::new(alloc);
    for count in 1..1001 {
        if let Ok(text) = str::from_utf8(&LETTERS[..count]) {
            pairs.push((text, count as u64))?;
        }
    }
    Ok(pairs)
}

/// The longest text is found by its thousand bytes, and it is the nearest one above a text that
/// goes on by b.
fn check_longest(rt: &impl Abort, alloc: Global, trie: &Texts) -> Result<(), Memory> {
    let mut longer = String::new(alloc);
    for _ in 0..1000 {
        longer.push('a')?;
    }
    assert!(rt; trie.get_counted(&longer)? == (Some(&1000), 2000));
    longer.push('b')?;
    assert!(rt; trie.get_ancestor_value(&longer)? == Some(&1000));
    Ok(())
}

/// The walk's values are the numbers from 1 to 1,000, as they rise.
fn check_walk(rt: &impl Abort, trie: &Texts) -> Result<(), Memory> {
    let mut values = TrieCommon::values(trie)?;
    for value in 1..1001u64 {
        assert!(rt; values.next() == Some(&value));
    }
    assert!(rt; values.next().is_none());
    Ok(())
}

/// The texts with odd counts go.
fn take_odd(rt: &impl Abort, trie: &mut Texts, pairs: &[(&'static str, u64)]) {
    for (text, count) in pairs {
        if *count % 2 == 1 {
            assert!(rt; trie.remove(text) == Ok(Some(*count)));
        }
    }
}

#[test]
fn thousand_texts(rt: HostRuntime) -> Result<(), Memory> {
    let pairs = pairs(rt.alloc())?;
    let mut trie = texts(rt.alloc(), pairs.as_slice())?;
    assert!(rt; trie.footprint() == (1001, 2000));
    check_longest(&rt, rt.alloc(), &trie)?;
    check_walk(&rt, &trie)?;
    assert!(rt; trie.clone()? == trie);
    take_odd(&rt, &mut trie, pairs.as_slice());
    assert!(rt; trie.len() == 500 && trie.footprint() == (501, 2000));
    Ok(())
}

/// The insertions of the pairs, as commands.
fn insertions(
    alloc: Global,
    pairs: &[(&'static str, u64)],
) -> Result<Vec<Command<&'static str, u64>>, AllocError> {
    let mut commands = Vec::new(alloc);
    for (text, count) in pairs {
        commands.push(Command::Insert(*text, *count))?;
    }
    Ok(commands)
}

/// The same pairs by commands: each is new.
#[test]
fn thousand_commands(rt: HostRuntime) -> Result<(), Memory> {
    let pairs = pairs(rt.alloc())?;
    let commands = insertions(rt.alloc(), pairs.as_slice())?;
    let mut trie: Texts = Trie::new(rt.alloc());
    let replies = run(&mut trie, commands)?;
    assert!(rt; replies.len() == 1000);
    for reply in &replies {
        assert!(rt; matches!(reply, Reply::Old(None)));
    }
    assert!(rt; trie == texts(rt.alloc(), pairs.as_slice())?);
    Ok(())
}

/// The trie of the texts, with JSON numbers.
fn numbers(alloc: Global) -> Result<Trie<String, Value>, Fail> {
    let mut trie = Trie::new(alloc);
    let mut text = String::new(alloc);
    for count in 1..1001u64 {
        text.push('a')?;
        let inserted = trie.insert(text.clone()?, Value::from(count));
        if inserted.is_err() {
            return Err(AllocError.into());
        }
    }
    Ok(trie)
}

/// The same texts as the members of an object.
#[test]
fn thousand_members(rt: HostRuntime) -> Result<(), Fail> {
    let value = to_value(rt.alloc(), &numbers(rt.alloc())?)?;
    assert!(rt;
        value
            .as_object()
            .is_some_and(|members| members.len() == 1000)
    );
    Ok(())
}

//! Many pairs below one prefix: they go, or become a trie of their own.

use radix_trie::{Memory, Trie};
use std::process::Abort;

/// Puts the numbers below this one into a trie that has none of them, each under itself.
fn put_numbers(rt: &impl Abort, trie: &mut Trie<u16, u64>, end: u16) {
    for number in 0..end {
        assert!(rt; matches!(trie.insert(number, number as u64), Ok(None)));
    }
}

/// Whether these are so many numbers in order from one on, each under itself.
fn are_numbers(gone: &[(u16, u64)], first: u16, count: usize) -> bool {
    let mut wanted = first;
    for (key, value) in gone {
        if *key != wanted || *value != wanted as u64 {
            return false;
        }
        wanted = wanted.saturating_add(1);
    }
    gone.len() == count
}

/// The numbers from 1024 to 1279 share their first byte, and go in order.
fn check_byte(rt: &impl Abort, trie: &mut Trie<u16, u64>) -> Result<(), Memory> {
    let gone = trie.remove_prefix(&4u8)?;
    assert!(rt; are_numbers(gone.as_slice(), 1024, 256));
    assert!(rt; (trie.get(&1023u16)?, trie.get(&1024u16)?) == (Some(&1023), None));
    assert!(rt; trie.len() == 1744 && trie.check_integrity()?);
    Ok(())
}

/// All of them, so many, go below the empty prefix.
fn check_all(rt: &impl Abort, trie: &mut Trie<u16, u64>, count: usize) -> Result<(), Memory> {
    let gone = trie.remove_prefix(&"")?;
    assert!(rt; are_numbers(gone.as_slice(), 0, count));
    assert!(rt; trie.is_empty() && trie.footprint() == (1, 0));
    Ok(())
}

/// Half of some numbers is split off, and comes back.
fn check_halves(rt: &impl Abort, trie: &mut Trie<u16, u64>) -> Result<(), Memory> {
    let part = trie.split_off_prefix(&1u8)?;
    assert!(rt; part.len() == 256 && trie.len() == 256);
    assert!(rt; (part.get(&300u16)?, part.get(&200u16)?) == (Some(&300), None));
    assert!(rt; (trie.get(&300u16)?, trie.get(&200u16)?) == (None, Some(&200)));
    let Ok(pairs) = part.into_pairs() else {
        return Err(Memory);
    };
    assert!(rt; trie.extend(pairs.into_iter()).is_ok());
    assert!(rt; trie.len() == 512 && trie.check_integrity()?);
    Ok(())
}

/// All of them below the empty prefix, over and over; half of them; and those of a byte.
#[test]
fn numbers_go_and_come_back(rt: HostRuntime) -> Result<(), Memory> {
    let mut trie = Trie::new(rt.alloc());
    for _ in 0..2 {
        put_numbers(&rt, &mut trie, 2000);
        check_all(&rt, &mut trie, 2000)?;
    }
    put_numbers(&rt, &mut trie, 512);
    check_halves(&rt, &mut trie)?;
    check_all(&rt, &mut trie, 512)?;
    put_numbers(&rt, &mut trie, 2000);
    check_byte(&rt, &mut trie)
}

//! Changes of all values.

use crate::pairs::IN_ORDER;
use crate::samples::{SAMPLE, Texts, texts};
use radix_trie::{Memory, TrieCommon};
use std::process::Abort;

/// The trie has the sample's texts, each with so many times its number and one more.
fn check_multiplied(rt: &impl Abort, trie: &Texts, times: u64, more: u64) -> Result<(), Memory> {
    let mut pairs = IN_ORDER.iter();
    for (key, value) in TrieCommon::iter(trie)? {
        let Some((wanted, number)) = pairs.next() else {
            return Err(Memory);
        };
        assert!(rt; *key == *wanted);
        assert!(rt;
            *value == number.wrapping_mul(times).wrapping_add(more),
            "{key}"
        );
    }
    assert!(rt; pairs.next().is_none());
    assert!(rt; trie.footprint() == (10, 38) && trie.check_integrity()?);
    Ok(())
}

/// Closures are called over and over, also one that holds a number.
#[test]
fn each_value_is_doubled_and_raised_twice(rt: HostRuntime) -> Result<(), Memory> {
    let mut trie = texts(rt.alloc(), SAMPLE)?;
    trie.for_each_mut(|_, value| *value = value.wrapping_mul(2));
    check_multiplied(&rt, &trie, 2, 0)?;
    let added = 5u64;
    for _ in 0..2 {
        trie.for_each_mut(|_, value| *value = value.wrapping_add(added));
    }
    check_multiplied(&rt, &trie, 2, 10)
}

//! Searches that go on from where they are.

use crate::samples::{SAMPLE, Texts, list, texts};
use radix_trie::{Descent, Memory};
use std::alloc::Global;

/// Lists of nibbles, one after another; whether no text of the sample begins with them; and the
/// number of the text that they are.
const DESCENTS: &'static [(&'static [&'static [u8]], bool, Option<u64>)] = &[
    (&[], false, None),
    (&[&[]], false, None),
    (&[&[6, 1]], false, Some(15)),
    (&[&[6], &[1, 6], &[2]], false, Some(16)),
    (&[&[6, 1], &[6]], false, None),
    (&[&[6, 1], &[6, 2, 6], &[], &[3, 6, 4]], false, Some(17)),
    (
        &[&[6, 1, 6, 2, 6, 3], &[6, 4, 6, 5, 6, 6, 6, 7, 6, 8]],
        false,
        Some(19),
    ),
    (&[&[6, 1, 6, 2, 6, 3, 6, 4, 6, 5], &[6]], false, None),
    (&[&[6, 1, 6, 2, 6, 3, 6, 4, 6, 5], &[6, 7]], true, None),
    (
        &[&[6, 1, 6, 2, 6, 3, 6, 4, 6, 5, 6, 6, 6, 7], &[6, 8, 0]],
        true,
        None,
    ),
    (
        &[&[6, 2, 6], &[3, 6, 4, 6], &[5, 6, 6, 6, 7, 6, 8]],
        false,
        Some(29),
    ),
    (&[&[6, 2, 6], &[4], &[]], true, None),
    (&[&[7], &[1]], true, None),
];

/// The descent that goes on by the lists.
fn after<'a>(
    alloc: Global,
    trie: &'a Texts,
    lists: &[&[u8]],
) -> Result<Descent<'a, &'static str, u64>, Memory> {
    let mut at = trie.descent();
    for nibbles in lists {
        let next = at.below(&list(alloc, nibbles)?);
        at = next;
    }
    Ok(at)
}

#[test]
fn descents_tell_what_stands_there(rt: HostRuntime) -> Result<(), Memory> {
    let trie = texts(rt.alloc(), SAMPLE)?;
    for (lists, is_empty, number) in DESCENTS {
        let at = after(rt.alloc(), &trie, lists)?;
        let found = (at.is_empty(), at.get_key_value().map(|pair| *pair.1));
        assert!(rt; found == (*is_empty, *number));
    }
    Ok(())
}

/// What a descent hands out outlives it, and it may be gone on from several ways.
#[test]
fn pairs_outlive_their_descents(rt: HostRuntime) -> Result<(), Memory> {
    let trie = texts(rt.alloc(), SAMPLE)?;
    let (one, other) = {
        let at = after(rt.alloc(), &trie, &[&[6, 1, 6]])?;
        let one = at.below(&list(rt.alloc(), &[2])?);
        let other = at.below(&list(rt.alloc(), &[3, 6, 2, 6, 4, 6, 5, 6, 6])?);
        (one.get_key_value(), other.get_key_value())
    };
    assert!(rt; one == Some((&"ab", &16)) && other == Some((&"acbdef", &30)));
    Ok(())
}

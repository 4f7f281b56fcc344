//! Two tries side by side.

use crate::samples::texts;
use radix_trie::iter::{Combination, Operation};
use radix_trie::{Memory, TrieError};
use std::process::Abort;

/// The walk gives these pairs, and then none.
fn check_pairs(
    rt: &impl Abort,
    walk: Combination<'_, &'static str, u64>,
    pairs: &[(&'static str, u64)],
) -> Result<(), Memory> {
    let mut walk = walk;
    for (key, value) in pairs {
        assert!(rt; walk.next()? == Some((key, value)), "{key}");
    }
    assert!(rt; walk.next()?.is_none());
    assert!(rt; walk.next()?.is_none());
    Ok(())
}

/// Of a key of both the first trie's pair is given, also where a path ends within a fragment of the
/// other trie.
#[test]
fn first_pair_is_given(rt: HostRuntime) -> Result<(), TrieError> {
    const ROWS: &'static [(Operation, &'static [(&'static str, u64)])] = &[
        (
            Operation::Union,
            &[
                ("inn", 4),
                ("tea", 1),
                ("team", 2),
                ("teams", 6),
                ("ten", 3),
            ],
        ),
        (Operation::Intersection, &[("tea", 1)]),
        (Operation::Difference, &[("team", 2), ("ten", 3)]),
        (
            Operation::SymmetricDifference,
            &[("inn", 4), ("team", 2), ("teams", 6), ("ten", 3)],
        ),
    ];
    let first = texts(rt.alloc(), &[("tea", 1), ("team", 2), ("ten", 3)])?;
    let second = texts(rt.alloc(), &[("inn", 4), ("tea", 5), ("teams", 6)])?;
    for (operation, pairs) in ROWS {
        check_pairs(&rt, Combination::new(&first, &second, *operation)?, pairs)?;
    }
    Ok(())
}

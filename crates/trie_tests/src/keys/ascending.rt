//! Signed keys in ascending order, and the trie of them that a trie of plain signed keys becomes.

use crate::fussy::Fussy;
use radix_trie::{Ascending, Memory, Trie, TrieCommon};
use std::alloc::Global;

/// The keys of the sample, with their values.
const SAMPLE: &'static [(i8, u64)] = &[(-2, 5), (-1, 6), (0, 7), (1, 8)];

/// The trie of the plain keys.
fn plain(alloc: Global) -> Trie<i8, u64> {
    let mut trie = Trie::new(alloc);
    for &(key, value) in SAMPLE {
        let _ = trie.insert(key, value);
    }
    trie
}

/// Their wrappers are walked as the numbers rise, and an unsigned key finds the pair whose encoding
/// has its bytes.
#[test]
fn moved_keys(rt: HostRuntime) -> Result<(), Memory> {
    const UNSIGNED: &'static [(u8, Option<u64>)] = &[
        (0x7e, Some(5)),
        (0x7f, Some(6)),
        (0x80, Some(7)),
        (0x81, Some(8)),
        (0xff, None),
    ];
    let moved = plain(rt.alloc()).to_ascending()?;
    let pairs = TrieCommon::iter(&moved)?.map(|(key, value)| (key.value(), *value));
    let pairs: Vec<(i8, u64)> = pairs.collect(rt.alloc())?;
    assert!(rt; pairs.as_slice() == SAMPLE && moved.footprint() == (7, 6));
    assert!(rt; moved.check_integrity()?);
    for (key, wanted) in UNSIGNED {
        assert!(rt; moved.get(key)?.copied() == *wanted);
    }
    assert!(rt; (moved.get(&Ascending::from(-1i8))?, moved.get(&-1i8)?) == (Some(&6), None));
    Ok(())
}

/// The bounds of the type, and the numbers round 0, in the order of numbers.
#[test]
fn walk_from_bound_to_bound(rt: HostRuntime) -> Result<(), Memory> {
    let mut trie: Trie<Ascending<i64>, u64> = Trie::new(rt.alloc());
    for key in [0i64, i64::MAX, -1, 1, i64::MIN] {
        assert!(rt; matches!(trie.insert(Ascending::from(key), 0), Ok(None)));
    }
    let keys = TrieCommon::keys(&trie)?.map(|key| key.value());
    let keys: Vec<i64> = keys.collect(rt.alloc())?;
    assert!(rt; keys.as_slice() == [i64::MIN, -1, 0, 1, i64::MAX].as_slice());
    Ok(())
}

/// The trie without pairs, and the trie of one.
#[test]
fn small_tries(rt: HostRuntime) -> Result<(), Memory> {
    let mut trie: Trie<isize, u64> = Trie::new(rt.alloc());
    let moved = trie.to_ascending()?;
    assert!(rt; (moved.len(), moved.footprint()) == (0, (1, 0)));
    assert!(rt; matches!(trie.insert(-1, 9), Ok(None)));
    let moved = trie.to_ascending()?;
    assert!(rt; moved.get(&0x7fff_ffff_ffff_ffffu64)? == Some(&9));
    assert!(rt; moved.footprint() == (2, 16));
    Ok(())
}

/// A value whose clone fails: what was built is dropped, and the trie stays as it was.
#[test]
fn refused_clone(rt: HostRuntime) {
    let mut trie: Trie<i8, Fussy> = Trie::new(rt.alloc());
    for (key, number) in [(-1i8, 6u64), (0, 18), (1, 8)] {
        let _ = trie.insert(key, Fussy { number });
    }
    assert!(rt; trie.to_ascending().is_err());
    assert_eq!(rt; trie.len(), 3);
    assert_eq!(rt; trie.get(&0i8).ok().flatten().map(|v| v.number), Some(18));
    assert_eq!(rt;
        trie.remove(&0i8).ok().flatten().map(|v| v.number),
        Some(18)
    );
    assert!(rt; trie.to_ascending().is_ok_and(|moved| moved.len() == 2));
}

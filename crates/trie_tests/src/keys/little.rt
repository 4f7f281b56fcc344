//! A walk over little-endian keys.

use radix_trie::{LittleEndian, Memory, Trie, TrieCommon};

/// Little-endian keys stand in the order of their lowest bytes.
#[test]
fn walk_over_little_endian_keys(rt: HostRuntime) -> Result<(), Memory> {
    const KEYS: &'static [u16] = &[256, 2];
    let mut trie: Trie<LittleEndian<u16>, u64> = Trie::new(rt.alloc());
    for key in KEYS {
        assert!(rt; matches!(trie.insert(LittleEndian::from(*key), 0), Ok(None)));
    }
    assert!(rt; trie.footprint() == (4, 7));
    let keys = TrieCommon::keys(&trie)?.map(|key| key.value());
    let keys: Vec<u16> = keys.collect(rt.alloc())?;
    assert!(rt; keys.as_slice() == KEYS);
    Ok(())
}

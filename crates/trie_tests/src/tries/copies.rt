//! Clones that fail.

use crate::fussy::Fussy;
use crate::pairs::IN_ORDER;
use radix_trie::{Memory, Trie};
use std::alloc::Global;

/// The sample with such values. The fourth value of its walk is 18.
fn fussy_sample(alloc: Global) -> Result<Trie<&'static str, Fussy>, Memory> {
    let mut trie = Trie::new(alloc);
    for (key, number) in IN_ORDER {
        if trie.insert(*key, Fussy { number: *number }).is_err() {
            return Err(Memory);
        }
    }
    Ok(trie)
}

/// A clone whose fourth value's own clone fails: it fails too, and the trie is as before.
#[test]
fn refused_value(rt: HostRuntime) -> Result<(), Memory> {
    let trie = fussy_sample(rt.alloc())?;
    assert!(rt; trie.clone().is_err());
    assert!(rt; trie.len() == 7);
    assert!(rt; trie.footprint() == (10, 38));
    for (key, number) in IN_ORDER {
        let found = trie.get(key)?;
        assert!(rt; found.is_some_and(|value| value.number == *number), "{key}");
    }
    Ok(())
}

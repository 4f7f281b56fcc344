//! The texts of failures.

use radix_keys::{BytesError, Memory};
use radix_trie::{Refused, TrieError};
use std::test::Fail;

#[test]
fn refusals_are_written(rt: HostRuntime) -> Result<(), Fail> {
    let refused = Refused {
        why: Memory,
        back: 5u8,
    };
    let memory = BytesError::Memory;
    let text = format!(in rt.alloc();
        "{}, {memory}, {refused}, {refused:?}, {}",
        Memory,
        BytesError::Odd
    )?;
    assert!(rt;
        text.as_str()
            == "out of memory, out of memory, out of memory, out of memory, the key has an odd count of nibbles"
    );
    assert!(rt; TrieError::from(refused) == TrieError::Memory);
    Ok(())
}

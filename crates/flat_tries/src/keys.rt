//! Keys that are made again of the bytes of their encodings.
ghost use Rattle.std.specs.Prelude.{◌≡◌, ◌≢◌, IfNone, IfOk, IfSome};
ghost use Rattle.nibble_map.specs.Nibbles.{nibbles};

use frozen_trie::FileItem;
use radix_keys::{Memory, TrieKey};
use std::alloc::Global;

mod numbers;

/// A key that is made again of the bytes of its encoding.
pub trait ImageKey: TrieKey + Drop {
    /// The key whose encoding has these bytes, two nibbles to a byte and the first in the high
    /// half, or None only where no key of the type has this encoding.
    ///
    /// # Errors
    ///
    /// An allocation fails.
    fn of_image(bytes: &[u8], alloc: Global) -> Result<Option<Self>, Memory>
        ensures encoded { IfOk result
            (λ found. IfSome found (λ key. nibbles bytes.now ≡ Self.encoding key)) }
        ensures malformed { IfOk result (λ found. IfNone found
            ((key : Self) → Self.is_value key → nibbles bytes.now ≢ Self.encoding key)) };
}

impl ImageKey for String {
    fn of_image(bytes: &[u8], alloc: Global) -> Result<Option<String>, Memory> {
        String::of_file(bytes, alloc)
    }
}

impl ImageKey for Vec<u8> {
    fn of_image(bytes: &[u8], alloc: Global) -> Result<Option<Vec<u8>>, Memory> {
        match Vec::from_slice(alloc, bytes) {
            Ok(items) => Ok(Some(items)),
            Err(_) => Err(Memory),
        }
    }
}

//! Lists of nibbles, read as hexadecimal digits.

use radix_keys::{Nibblet, TrieKey};
use std::alloc::Global;

const DIGITS: &[u8] = b"0123456789abcdef";

/// Whether the list is what these hexadecimal digits say.
pub(crate) fn reads(list: &Nibblet, digits: &str) -> bool {
    let digits = digits.as_bytes();
    if list.len() != digits.len() {
        return false;
    }
    for i in 0..digits.len() {
        if DIGITS[list.get(i) as usize] != digits[i] {
            return false;
        }
    }
    true
}

/// Whether the key's encoding is what these hexadecimal digits say.
pub(crate) fn encodes<K: TrieKey>(alloc: Global, key: &K, digits: &str) -> bool {
    key.encode(alloc).is_ok_and(|l| reads(&l, digits))
}

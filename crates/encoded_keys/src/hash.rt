//! Hashes of lists of nibbles.
ghost use Rattle.std.specs.Prelude.{◌≡◌, ◌+◌, ◌<◌, ◌≤◌, length};
ghost use Rattle.encoded_keys.specs.Index.{hash_of_bytes, hash_of_list, mixed_with, number_in, word_in};

use radix_keys::NibbleSlice;

/// 2^64 divided by the golden ratio: an odd number whose bits have no pattern.
const FACTOR: u64 = 0x9e37_79b9_7f4a_7c15;

/// The hash of a list, in a multiplication for each eight bytes and one more.
pub(crate) fn hash_of(list: &NibbleSlice<'_>) -> u64
    ensures { result ≡ hash_of_list list.now }
{
    let (bytes, _) = list.as_packed();
    hash_bytes(bytes).wrapping_mul(FACTOR)
}

/// The hash of bytes before its last multiplication.
fn hash_bytes(bytes: &[u8]) -> u64
    ensures { result ≡ hash_of_bytes bytes.now }
{
    let count = bytes.len();
    let mut hash = count as u64;
    if count < 8 {
        return mixed(hash, number(bytes));
    }
    for i in 0..(count - 1) / 8 {
        hash = mixed(hash, word(bytes, 8 * i));
    }
    mixed(hash, word(bytes, count - 8))
}

/// A hash and one word more. The upper half goes into the lower one, which a product's upper half
/// doesn't reach.
fn mixed(hash: u64, word: u64) -> u64
    ensures { result ≡ mixed_with hash word }
{
    let product = (hash ^ word).wrapping_mul(FACTOR);
    product ^ (product >> 32)
}

/// The eight bytes from a place on as a number.
fn word(bytes: &[u8], at: usize) -> u64
    requires { at + 8 ≤ length bytes.now }
    ensures { result ≡ word_in bytes.now at }
{
    u64::from_le_bytes([
        bytes[at],
        bytes[at + 1],
        bytes[at + 2],
        bytes[at + 3],
        bytes[at + 4],
        bytes[at + 5],
        bytes[at + 6],
        bytes[at + 7],
    ])
}

/// Fewer bytes as a number.
fn number(bytes: &[u8]) -> u64
    ensures { result ≡ number_in bytes.now (length bytes.now) }
{
    let mut number = 0u64;
    for i in 0..bytes.len() {
        number = number.wrapping_mul(256).wrapping_add(u64::from(bytes[i]));
    }
    number
}

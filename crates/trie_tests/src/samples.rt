//! What tests and examples share: small tries of texts, and lists of nibbles.

ghost use Rattle.std.specs.Prelude.{◌≡◌, ◌≤◌, ◌<◌, All, IfOk, IsOk, length};
ghost use Rattle.radix_trie.specs.Building.{pairs_in_order};

use radix_trie::{Memory, Nibblet, Trie, TrieKey};
use std::alloc::Global;

/// A trie of texts, each with a number.
pub type Texts = Trie<&'static str, u64>;

/// The sample's pairs, in the order in which they are inserted.
pub const SAMPLE: &'static [(&'static str, u64)] = &[
    ("abcdefgh", 19),
    ("abcdef", 18),
    ("abcd", 17),
    ("ab", 16),
    ("a", 15),
    ("acbdef", 30),
    ("bcdefgh", 29),
];

/// The trie of the pairs, inserted in order. The one failure is that of memory.
pub fn texts(alloc: Global, pairs: &[(&'static str, u64)]) -> Result<Texts, Memory>
    ensures { IfOk result (λ trie. trie
        ≡ pairs_in_order ⟦<&'static str as TrieKey>⟧.encoding pairs.now) }
{
    match Trie::from_iter(alloc, pairs.iter().copied()) {
        Ok(trie) => Ok(trie),
        Err(_) => Err(Memory),
    }
}

/// The list of the nibbles. It fails where memory is, and where one of the numbers is above
/// 15.
pub fn list(alloc: Global, nibbles: &[u8]) -> Result<Nibblet, Memory>
    ensures list { IfOk result (λ list. list ≡ nibbles.now) }
    ensures inline { All (λ n. n < 16) nibbles.now → length nibbles.now ≤ 32 → IsOk result }
{
    let mut list = Nibblet::new(alloc);
    for nibble in nibbles {
        if *nibble > 15 {
            return Err(Memory);
        }
        list.push(*nibble)?;
    }
    Ok(list)
}

//! Encodings of keys, packed in order: searched by the numbers of their first nibbles, by blocks
//! and levels where they are alike, and by an index of hashes; and the link from each to its
//! longest stored prefix. The items are public for `frozen_trie` alone.
#![tactic(auto)]

mod hash;
mod heads;
pub mod keys;
pub mod linked;
pub mod search;
pub mod slices;

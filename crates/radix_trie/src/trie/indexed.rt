//! The value at a list of nibbles that a caller knows to be stored, as `trie[&list]`.
ghost use Rattle.std.specs.Prelude.{◌≡◌, Some};
ghost use Rattle.nibble_map.specs.Maps.{IsStored, value_at};

use crate::trie::Trie;
use radix_keys::{Nibblet, TrieKey};
use std::ops::Index;

/// The value at a list of nibbles, at which a pair is stored. It allocates nothing.
impl<'l, K: TrieKey, V> Index<&'l Nibblet> for Trie<K, V> {
    type Output = V;

    ghost can_index = { λ trie list. IsStored trie list.now };

    ghost index_gives = { λ trie list value. value_at trie list.now ≡ Some value };

    fn index(&self, list: &'l Nibblet) -> &V {
        self.at(list).unwrap()
    }
}

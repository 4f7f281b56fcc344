//! How a trie and its views are written for a reader of logs: as a map, its pairs in the order of
//! their encodings.

use crate::locus::Locus;
use crate::trie::Trie;
use crate::view::subtrie::SubTrie;
use crate::view::subtrie_mut::SubTrieMut;
use radix_keys::TrieKey;
use std::fmt;

/// The map of the keys and values, in the order of a walk. It allocates nothing, so no pair is left
/// out for want of it; it goes down by recursion.
impl<K: TrieKey + fmt::Debug, V: fmt::Debug> fmt::Debug for Trie<K, V> {
    fn fmt<W: fmt::Write>(&self, f: &mut fmt::Formatter<W>) -> fmt::Result {
        Locus::find(self, self.top()).write(f)
    }
}

/// The map of the keys and values at and below the view's path, as `Debug` of a trie writes it.
impl<K: TrieKey + fmt::Debug, V: fmt::Debug> fmt::Debug for SubTrie<'_, K, V> {
    fn fmt<W: fmt::Write>(&self, f: &mut fmt::Formatter<W>) -> fmt::Result {
        self.locus().write(f)
    }
}

/// The map of the keys and values at and below the view's path, as `Debug` of a trie writes it.
impl<K: TrieKey + fmt::Debug, V: fmt::Debug> fmt::Debug for SubTrieMut<'_, K, V> {
    fn fmt<W: fmt::Write>(&self, f: &mut fmt::Formatter<W>) -> fmt::Result {
        Locus::find(self.trie, &self.path).write(f)
    }
}

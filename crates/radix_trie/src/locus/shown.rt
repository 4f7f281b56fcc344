//! What is written of the pairs at and below a place.

use crate::locus::Locus;
use radix_keys::TrieKey;
use radix_nodes::trie_node::TrieNode;
use std::fmt;

/// Writes the pairs at and below a node, its own first.
fn write_pairs<K: fmt::Debug, V: fmt::Debug, W: fmt::Write>(
    node: &TrieNode<K, V>,
    map: &mut fmt::DebugMap<'_, W>,
) {
    if let Some(pair) = node.pair() {
        let _ = map.entry(&pair.key, &pair.value);
    }
    for child in &node.children {
        write_pairs(child, map);
    }
}

impl<K: fmt::Debug, V: fmt::Debug> Locus<'_, K, V> {
    /// Writes the pairs at and below the path as a map. It allocates nothing.
    pub(crate) fn write<W: fmt::Write>(&self, f: &mut fmt::Formatter<W>) -> fmt::Result {
        let mut map = f.debug_map();
        if let Some((node, _)) = self.found {
            write_pairs(node, &mut map);
        }
        map.finish()
    }
}

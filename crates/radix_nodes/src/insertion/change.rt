//! What an insertion reports.
use crate::trie_node::KeyValue;

/// The pair that an insertion replaced, if any, and how many nodes and nibbles of fragments it
/// added.
#[derive(Drop)]
pub struct Change<K, V> {
    pub was: Option<KeyValue<K, V>>,
    pub nodes: usize,
    pub nibbles: usize,
}

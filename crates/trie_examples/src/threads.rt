//! What may be sent to another thread, and shared by several: a trie, its views and walks, a set
//! and a frozen trie, if its keys and values may.

use frozen_trie::FrozenTrie;
use radix_trie::iter::Cursor;
use radix_trie::{Descent, Entry, SubTrie, SubTrieMut, Trie, TrieKey};
use trie_set::TrieSet;

fn crosses<T: Send + Sync>(_value: &T) {}

/// That this is checked for all types of keys and values is the example.
pub fn cross_threads<K: TrieKey + Send + Sync, V: Send + Sync>(
    trie: &Trie<K, V>,
    view: &SubTrie<'_, K, V>,
    write_view: &SubTrieMut<'_, K, V>,
    descent: &Descent<'_, K, V>,
    walk: &Cursor<'_, K, V>,
    entry: &Entry<'_, K, V>,
    set: &TrieSet<K>,
    frozen: &FrozenTrie<K, V>,
) {
    crosses(trie);
    crosses(view);
    crosses(write_view);
    crosses(descent);
    crosses(walk);
    crosses(entry);
    crosses(set);
    crosses(frozen);
}

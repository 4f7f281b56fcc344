//! Tries with the same stored lists have one tree.
ghost use Rattle.std.specs.Prelude.{◌↔◌, ◌≡◌, ℕ, List, true};
ghost use Rattle.radix_trie.specs.Maps.{IsStored};

use radix_trie::{Trie, TrieKey, equal_lists_have_one_tree};

/// Whether two tries have as many nodes and as many nibbles in them: so they have where they store
/// the same lists, whatever was inserted and removed before.
fn have_one_footprint<K: TrieKey, V, L: TrieKey, W>(a: &Trie<K, V>, b: &Trie<L, W>) -> bool
    requires { (e : List ℕ) → IsStored a.now e ↔ IsStored b.now e }
    ensures { result ≡ true }
{
    equal_lists_have_one_tree::<(K, V), (L, W)>();
    let (nodes, nibbles) = a.footprint();
    let (others, other_nibbles) = b.footprint();
    nodes == others && nibbles == other_nibbles
}

//! The places of a trie's paths.
ghost use Rattle.std.specs.Prelude.{◌≡◌};
ghost use Rattle.radix_nodes.specs.Nodes.{tree_of};
ghost use Rattle.radix_trie.specs.Loci.{IsNodeOf, IsLocusIn};

use crate::locus::Locus;
use crate::trie::Trie;
use radix_keys::{Nibblet, TrieKey};
use radix_nodes::search::queries::shortest;
use radix_nodes::trie_node::TrieNode;

impl<'a, K: TrieKey, V> Locus<'a, K, V> {
    /// The locus of any path.
    pub(crate) fn find(trie: &'a Trie<K, V>, path: &Nibblet) -> Locus<'a, K, V>
        ensures { IsLocusIn K.encoding trie.now path.now result }
    {
        // All pairs are within `usize`.
        let _pairs = trie.len();
        Locus {
            alloc: trie.allocator(),
            found: shortest(trie.root(), path, 0),
        }
    }

    /// The locus of a point, at its node.
    pub(crate) fn at(
        trie: &'a Trie<K, V>,
        node: &'a TrieNode<K, V>,
        path: &Nibblet,
    ) -> Locus<'a, K, V>
        requires { IsNodeOf K.encoding trie.now path.now (tree_of node.now) }
        ensures { IsLocusIn K.encoding trie.now path.now result }
    {
        // All pairs are within `usize`.
        let _pairs = trie.len();
        Locus {
            alloc: trie.allocator(),
            found: Some((node, node.fragment.len())),
        }
    }
}

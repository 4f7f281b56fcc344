//! Nodes taken apart.
ghost use Rattle.std.specs.Prelude.{◌≡◌};
ghost use Rattle.radix_nodes.specs.Nodes.{out_of};

use crate::trie_node::{KeyValue, TrieNode};
use radix_keys::Nibblet;

/// What a node is made of.
#[derive(Drop)]
pub struct Parts<K, V> {
    pub fragment: Nibblet,
    pub pair: Option<Box<KeyValue<K, V>>>,
    pub mask: u16,
    pub children: Vec<Box<TrieNode<K, V>>>,
}

impl<K, V> TrieNode<K, V> {
    /// The node's fields.
    pub fn into_parts(self) -> Parts<K, V>
        ensures fragment { result.fragment ≡ (out_of self).fragment }
        ensures pair { result.pair ≡ (out_of self).pair }
        ensures mask { result.mask ≡ (out_of self).mask }
        ensures children { result.children ≡ (out_of self).children }
    {
        let TrieNode {
            fragment,
            pair,
            mask,
            children,
        } = self;
        Parts {
            fragment,
            pair,
            mask,
            children,
        }
    }
}

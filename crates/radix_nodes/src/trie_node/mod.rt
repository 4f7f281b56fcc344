//! Nodes.
ghost use Rattle.std.specs.Prelude.{◌≡◌, ◌<◌, IsSome, None, MatchBool, option_copied, option_map, vec_len};
ghost use Rattle.masked_tree.specs.Edits.{empty};
ghost use Rattle.radix_nodes.specs.Nodes.{tree_of, out_of, unboxed};
ghost use Rattle.radix_nodes.specs.Pairs.{pair_of};

pub mod links;
pub mod mask;
pub mod parts;

use radix_keys::Nibblet;
use std::alloc::Global;
use std::mem;

/// A key and the value that stands at its list of nibbles.
#[derive(Drop)]
pub struct KeyValue<K, V> {
    pub key: K,
    pub value: V,
}

/// A node of the trie. Its path is the fragments from the root down to it, joined. Bit n of the
/// mask is set exactly where the fragment of a child begins with the nibble n, and the children
/// rise by that nibble, so the child for n stands at the count of set bits below bit n.
pub struct TrieNode<K, V> {
    pub fragment: Nibblet,
    pub pair: Option<Box<KeyValue<K, V>>>,
    pub mask: u16,
    pub children: Vec<Box<TrieNode<K, V>>>,
}

impl<K, V> TrieNode<K, V> {
    /// A node with an empty fragment, no pair and no child.
    #[tactic(auto, using(crate::proofs::NodeLemmas::Nodes::new_is))]
    pub fn new(alloc: Global) -> TrieNode<K, V>
        ensures { tree_of result ≡ empty }
    {
        TrieNode {
            fragment: Nibblet::new(alloc),
            pair: None,
            mask: 0,
            children: Vec::new(alloc),
        }
    }

    /// The pair that stands at the node's path, if there is one.
    pub fn pair(&self) -> Option<&KeyValue<K, V>>
        ensures { option_map (λ p. pair_of p.now) result
            ≡ option_map pair_of (tree_of self.now).pair }
    {
        self.pair.as_deref()
    }

    /// The value of that pair.
    pub fn value(&self) -> Option<&V>
        ensures { option_copied result ≡ option_map (λ p. p.value) (tree_of self.now).pair }
    {
        match self.pair() {
            Some(pair) => Some(&pair.value),
            None => None,
        }
    }
}

// No recursion and no allocation: the node at the top and one below it change places until all are
// gone. A child is linked only where another was taken out. Nothing reads the masks any more.
impl<K: Drop, V: Drop> Drop for TrieNode<K, V> {
    fn drop(mut self) {
        loop {
            let TrieNode {
                fragment,
                pair,
                mask,
                mut children,
            } = self;
            match children.pop() {
                None => return,
                Some(mut below) => {
                    if children.is_empty() {
                        self = Box::into_inner(below);
                    } else {
                        match below.children.pop() {
                            None => {
                                let _leaf = Box::into_inner(below).into_parts();
                                self = TrieNode {
                                    fragment,
                                    pair,
                                    mask,
                                    children,
                                };
                            }
                            Some(next) => {
                                children.push(next).unwrap();
                                let top = TrieNode {
                                    fragment,
                                    pair,
                                    mask,
                                    children,
                                };
                                let mut turned = mem::replace(&mut *below, top);
                                turned.children.insert(0, below).unwrap();
                                self = turned;
                            }
                        }
                    }
                }
            }
        }
    }
}

/// Whether the node has a pair.
pub fn has_pair<K, V>(node: &TrieNode<K, V>) -> bool
    ensures { MatchBool result (IsSome (unboxed (out_of node.now).pair))
        (unboxed (out_of node.now).pair ≡ None) }
{
    match &node.pair {
        Some(_) => true,
        None => false,
    }
}

/// Whether the node has no child.
pub fn is_end<K, V>(node: &TrieNode<K, V>) -> bool
    ensures { MatchBool result (vec_len (out_of node.now).children ≡ 0)
        (0 < vec_len (out_of node.now).children) }
{
    node.children.len() == 0
}

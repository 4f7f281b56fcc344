//! The node at which two bounds part.
ghost use Rattle.std.specs.Prelude.{◌≡◌, ◌++◌, None, ⊤};
ghost use Rattle.std.specs.Range.Bound.{MatchBound};
ghost use Rattle.masked_tree.specs.Tree.{IsFullBelow, IsTreePlaced, plain};
ghost use Rattle.nibble_map.specs.Trees.{IsFull};
ghost use Rattle.radix_nodes.specs.Nodes.{children_of, tree_of};
ghost use Rattle.radix_trie.specs.Walks.{LeadsOn, ReachesDown, bound_behind, bound_now, left_of, pairs_of_span, way_high, way_low};

use crate::iter::rows::Frame;
use crate::iter::span::cuts::{cut, own_within};
use radix_keys::Nibblet;
use radix_nodes::trie_node::TrieNode;
use std::ops::Bound;

/// What stands within two bounds, at and below the node at which they part.
#[derive(Drop)]
pub(super) struct Parting<'a, K, V> {
    /// The child that the lower bound goes on to, and how many nibbles lie behind it.
    pub(super) low: Option<(&'a TrieNode<K, V>, usize)>,
    /// The node's own pair, if it counts, and the children between the bounds.
    pub(super) rest: Frame<'a, K, V>,
    /// The child that the upper bound goes on to, and how many nibbles lie behind it.
    pub(super) high: Option<(&'a TrieNode<K, V>, usize)>,
}

/// Goes down from a node, as long as two bounds go on to the same child, to where they part.
pub(super) fn part<'a, K, V>(
    node: &'a TrieNode<K, V>,
    low: Bound<&Nibblet>,
    high: Bound<&Nibblet>,
    depth: usize,
) -> Parting<'a, K, V>
    requires low { ReachesDown depth (bound_now low) }
    requires high { ReachesDown depth (bound_now high) }
    requires placed { IsTreePlaced (tree_of node.now) }
    requires full { IsFullBelow (tree_of node.now) }
    ensures pairs { pairs_of_span (bound_behind depth (bound_now low.entry))
        (bound_behind depth (bound_now high.entry)) (tree_of node.now)
        ≡ way_low (bound_now low.entry) result.low
        ++ (left_of result.rest ++ way_high (bound_now high.entry) result.high) }
    ensures row { IsFull (plain (children_of result.rest.row.now)) }
    ensures low { LeadsOn (bound_now low.entry) (tree_of node.now) result.low }
    ensures high { LeadsOn (bound_now high.entry) (tree_of node.now) result.high }
    ensures low_open { MatchBound (bound_now low.entry) (λ _. ⊤) (λ _. ⊤) (result.low ≡ None) }
    ensures high_open { MatchBound (bound_now high.entry) (λ _. ⊤) (λ _. ⊤) (result.high ≡ None) }
{
    let mut at = node;
    let mut done = depth;
    loop {
        let (from, first, below) = cut(at, low, done, 0);
        let (to, last, above) = cut(at, high, done, at.children.len());
        if first <= to {
            return Parting {
                low: below,
                rest: Frame {
                    own: own_within(at, low, high, done),
                    row: &at.children[first..to],
                },
                high: above,
            };
        }
        match below {
            Some((child, next)) if from < last => {
                at = child;
                done = next;
            }
            _ => {
                return Parting {
                    low: None,
                    rest: Frame {
                        own: None,
                        row: &[],
                    },
                    high: None,
                };
            }
        }
    }
}

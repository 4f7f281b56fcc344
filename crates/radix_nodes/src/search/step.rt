//! A step down to a child.
ghost use Rattle.std.specs.Prelude.{◌≡◌, ◌+◌, ◌<◌, ◌≤◌, ◌^◌, drop, length, slice_index, MatchOption};
ghost use Rattle.nibble_map.specs.Trees.{first};
ghost use Rattle.masked_tree.specs.Agreement.{Agrees};
ghost use Rattle.masked_tree.specs.Mask.{bit_of};
ghost use Rattle.masked_tree.specs.Tree.{IsTreePlaced, firsts};
ghost use Rattle.masked_tree.specs.Paths.{IsStuck};
ghost use Rattle.radix_nodes.specs.Nodes.{tree_of, IsMet, IsStep};

use crate::search::compare::{Agreement, compare};
use crate::trie_node::TrieNode;
use crate::trie_node::mask::child_index;
use radix_keys::Nibblet;

/// How far a fragment that begins with the list's next nibble agrees with the list from `depth` on.
/// A fragment of one nibble isn't looked at again, and counts as compared.
pub fn agreed(fragment: &Nibblet, list: &Nibblet, depth: usize) -> Agreement
    requires depth { depth < length list.now }
    requires start { first fragment.now ≡ slice_index list.now depth }
    ensures agrees { Agrees fragment.now (drop depth list.now) result.same result.compared }
    ensures fits { depth + result.same < 2 ^ 64 }
{
    if fragment.len() == 1 {
        // The list's nibbles can be counted.
        let _nibbles = list.len();
        return Agreement {
            same: 1,
            compared: 1,
        };
    }
    compare(fragment, list, depth)
}

/// The child that begins with the list's next nibble, and how far its fragment agrees with the list
/// from `depth` on.
pub fn meet<K, V>(node: &TrieNode<K, V>, list: &Nibblet, depth: usize) -> Option<(usize, Agreement)>
    requires depth { depth < length list.now }
    requires placed { IsTreePlaced (tree_of node.now) }
    ensures { MatchOption result
        (bit_of (slice_index list.now depth) (firsts (tree_of node.now).children) ≡ 0)
        (λ met. IsMet node.now list.now depth met.0 met.1) }
{
    match child_index(node.mask, list.get(depth)) {
        Ok(i) => {
            let agreement = agreed(&node.children[i].fragment, list, depth);
            Some((i, agreement))
        }
        Err(_) => None,
    }
}

/// The child that the list goes on to, and how many nibbles lie behind it then. None: no node below
/// has a path that the list goes on from.
pub fn step<K, V>(node: &TrieNode<K, V>, list: &Nibblet, depth: usize) -> Option<(usize, usize)>
    requires depth { depth ≤ length list.now }
    requires placed { IsTreePlaced (tree_of node.now) }
    ensures { MatchOption result (IsStuck (tree_of node.now) (drop depth list.now))
        (λ s. IsStep node.now list.now depth s.0 s.1) }
{
    if depth == list.len() {
        return None;
    }
    match meet(node, list, depth) {
        Some((i, agreement)) => {
            if agreement.same == node.children[i].fragment.len() {
                Some((i, depth + agreement.same))
            } else {
                None
            }
        }
        None => None,
    }
}

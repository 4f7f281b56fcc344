//! The check of nodes, most of them broken.
ghost use Rattle.std.specs.Prelude.{◌≤◌, ◌+◌, length, IfOk};
ghost use Rattle.radix_nodes.specs.Soundness.{pair_count_of, pair_count_of_all};

use crate::samples::list;
use radix_keys::{Memory, Nibblet};
use radix_nodes::trie_node::{KeyValue, TrieNode};
use std::alloc::Global;

type Node = TrieNode<Nibblet, ()>;

/// A node.
#[tactic(auto, using(crate::proofs::Counts::pairs_rolled))]
fn node(
    alloc: Global,
    fragment: &[u8],
    key: Option<&[u8]>,
    mask: u16,
    children: Vec<Box<Node>>,
) -> Result<Node, Memory>
    ensures { IfOk result (λ n. pair_count_of n ≤ pair_count_of_all children.items + 1) }
{
    let fragment = list(alloc, fragment)?;
    let pair = match key {
        Some(key) => {
            let key = list(alloc, key)?;
            Some(Box::new(alloc, KeyValue { key, value: () })?)
        }
        None => None,
    };
    Ok(TrieNode {
        fragment,
        pair,
        mask,
        children,
    })
}

/// Nodes without children, each with a fragment and a key.
#[tactic(auto, using(crate::proofs::Counts::pairs_pushed, crate::proofs::Counts::pairs_none))]
fn leaves(alloc: Global, leaves: &[(&[u8], &[u8])]) -> Result<Vec<Box<Node>>, Memory>
    ensures { IfOk result (λ bs. pair_count_of_all bs.items ≤ length leaves.now) }
{
    let mut made = Vec::new(alloc);
    for (fragment, key) in leaves {
        let leaf = node(alloc, fragment, Some(*key), 0, Vec::new(alloc))?;
        made.push(Box::new(alloc, leaf)?)?;
    }
    Ok(made)
}

/// What the check says of a node at a path.
#[tactic(auto, using(radix_nodes::proofs::CheckerLemmas::Nodes::pairs_at))]
fn checked(
    alloc: Global,
    path: &[u8],
    fragment: &[u8],
    key: Option<&[u8]>,
    mask: u16,
    children: &[(&[u8], &[u8])],
) -> Result<(bool, usize), Memory>
    requires { length children.now ≤ 16 }
{
    let prefix = list(alloc, path)?;
    let node = node(alloc, fragment, key, mask, leaves(alloc, children)?)?;
    node.check_integrity_recursive(alloc, &prefix)
}

/// A path, the fragment, key and mask of a node at it, and its children.
type Row = (
    &'static [u8],
    &'static [u8],
    Option<&'static [u8]>,
    u16,
    &'static [(&'static [u8], &'static [u8])],
);

/// Idle nodes; roots that may have no pair; a key of another place; children out of place.
const ROWS: &'static [(Row, (bool, usize))] = &[
    ((&[], &[6], None, 0x0002, &[(&[1], &[6, 1])]), (false, 0)),
    ((&[], &[6], None, 0x0000, &[]), (false, 0)),
    ((&[6], &[], Some(&[6]), 0x0000, &[]), (false, 0)),
    ((&[], &[], None, 0x0040, &[(&[6, 1], &[6, 1])]), (true, 1)),
    ((&[], &[], None, 0x0000, &[]), (true, 0)),
    ((&[], &[6], Some(&[7]), 0x0000, &[]), (false, 0)),
    ((&[], &[], None, 0x0004, &[(&[1], &[1])]), (false, 0)),
    (
        (&[], &[], None, 0x000e, &[(&[1], &[1]), (&[2], &[2])]),
        (false, 0),
    ),
    (
        (&[], &[], None, 0x0007, &[(&[1], &[1]), (&[2], &[2])]),
        (false, 0),
    ),
    (
        (&[], &[], None, 0x0006, &[(&[2], &[2]), (&[1], &[1])]),
        (false, 0),
    ),
    (
        (&[], &[], None, 0x0006, &[(&[1], &[1]), (&[2], &[2])]),
        (true, 2),
    ),
];

#[test]
fn nodes_are_checked(rt: HostRuntime) {
    for ((path, fragment, key, mask, children), wanted) in ROWS {
        if children.len() <= 16 {
            let found = checked(rt.alloc(), path, fragment, *key, *mask, children);
            assert!(rt; found == Ok(*wanted));
        }
    }
}

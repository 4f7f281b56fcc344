//! A long way down: lists each of which is the one before and one nibble more.
ghost use Rattle.masked_tree.specs.Tree.{IsTreePlaced};
ghost use Rattle.radix_nodes.specs.Nodes.{tree_of};

use radix_keys::{Memory, Nibblet};
use radix_nodes::insertion::insert::insert;
use radix_nodes::removal::remove::remove_root;
use radix_nodes::search::find::find;
use radix_nodes::trie_node::{KeyValue, TrieNode};
use radix_nodes::whole::size::height;
use std::alloc::Global;
use std::process::Abort;
use std::test::Fail;

/// A node whose key says how many nibbles its list has.
type Node = TrieNode<usize, ()>;

/// How many nibbles the longest list has.
const LONGEST: usize = 1000;

/// The list of so many ones.
fn ones(alloc: Global, length: usize) -> Result<Nibblet, Memory> {
    let mut list = Nibblet::new(alloc);
    for _ in 0..length {
        list.push(1)?;
    }
    Ok(list)
}

/// Puts all lists, the shortest first: each comes with one node and one nibble.
#[tactic(auto, using(radix_nodes::proofs::EditLemmas::Placed::edit_placed))]
fn put_all(rt: &impl Abort, root: &mut Node, alloc: Global) -> Result<(), Memory>
    requires { IsTreePlaced (tree_of root.old) }
    ensures { IsTreePlaced (tree_of root.new) }
{
    for key in 1..LONGEST + 1 {
        let list = ones(alloc, key)?;
        match insert(root, alloc, &list, 0, KeyValue { key, value: () }) {
            Ok(change) => {
                assert!(rt; change.was.is_none());
                assert_eq!(rt; (change.nodes, change.nibbles), (1, 1));
            }
            Err(_) => return Err(Memory),
        }
    }
    Ok(())
}

/// Finds each list.
fn find_all(rt: &impl Abort, root: &Node, alloc: Global) -> Result<(), Memory>
    requires { IsTreePlaced (tree_of root.now) }
{
    for key in 1..LONGEST + 1 {
        let list = ones(alloc, key)?;
        let found = find(root, &list, 0).and_then(|node| node.pair.as_ref());
        assert!(rt; found.is_some_and(|pair| pair.key == key));
    }
    Ok(())
}

/// Takes a list, which goes with one node and so many nibbles.
#[tactic(auto, using(crate::proofs::Placed::root_placed))]
fn take_one(
    rt: &impl Abort,
    root: &mut Node,
    alloc: Global,
    key: usize,
    nibbles: usize,
) -> Result<(), Memory>
    requires { IsTreePlaced (tree_of root.old) }
    ensures { IsTreePlaced (tree_of root.new) }
{
    let list = ones(alloc, key)?;
    match remove_root(root, &list)? {
        Some(taken) => {
            assert_eq!(rt; taken.pair.key, key);
            assert_eq!(rt; (taken.nodes, taken.nibbles), (1, nibbles));
        }
        None => assert!(rt; false),
    }
    Ok(())
}

/// Takes all lists, the longest first: each is a leaf's.
fn take_from_the_end(rt: &impl Abort, root: &mut Node, alloc: Global) -> Result<(), Memory>
    requires { IsTreePlaced (tree_of root.old) }
    ensures { IsTreePlaced (tree_of root.new) }
{
    for shorter in 0..LONGEST {
        take_one(rt, root, alloc, LONGEST - shorter, 1)?;
    }
    Ok(())
}

/// Takes all lists, the shortest first: the node below takes each one's nibbles on.
fn take_from_the_top(rt: &impl Abort, root: &mut Node, alloc: Global) -> Result<(), Memory>
    requires { IsTreePlaced (tree_of root.old) }
    ensures { IsTreePlaced (tree_of root.new) }
{
    for key in 1..LONGEST {
        take_one(rt, root, alloc, key, 0)?;
    }
    take_one(rt, root, alloc, LONGEST, LONGEST)
}

#[test]
fn thousand_nested_lists(rt: HostRuntime) -> Result<(), Fail> {
    let a = rt.alloc();
    let mut root: Node = TrieNode::new(a);
    put_all(&rt, &mut root, a)?;
    assert_eq!(rt; height(&root), Some(LONGEST + 1));
    find_all(&rt, &root, a)?;
    take_from_the_end(&rt, &mut root, a)?;
    assert_eq!(rt; height(&root), Some(1));
    put_all(&rt, &mut root, a)?;
    take_from_the_top(&rt, &mut root, a)?;
    assert_eq!(rt; height(&root), Some(1));
    put_all(&rt, &mut root, a)?;
    Ok(())
}

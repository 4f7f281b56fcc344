//! The branch of a root that has no pair and one child is grafted into another tree, or stays where
//! it is.
ghost use Rattle.std.specs.Prelude.{◌≡◌, ◌<◌, [], length, vec_len};
ghost use Rattle.nibble_map.specs.Trees.{first};
ghost use Rattle.masked_tree.specs.Edits.{with_fragment, with_new_child};
ghost use Rattle.masked_tree.specs.Tree.{IsTreePlaced, IsFullBelow};
ghost use Rattle.radix_nodes.specs.Nodes.{tree_of, fragment_of, out_of, HasRoom};
ghost use Rattle.radix_nodes.specs.Grafts.{GraftRootOutcome};

use crate::insertion::graft::{Grafted, Ungrafted, graft, refitted};
use crate::trie_node::TrieNode;
use crate::trie_node::links::{link, unlink};
use radix_keys::Nibblet;
use std::alloc::Global;
use std::mem;

/// Why a branch stays where it is.
#[derive(Clone, Copy)]
pub enum Ungraftable {
    /// A node stands at or below its path in the other tree.
    Occupied,
    /// An allocation failed.
    Memory,
}

// The fragment of the node, to which an empty one is left.
fn take_fragment<K, V>(node: &mut TrieNode<K, V>, alloc: Global) -> Nibblet
    ensures fragment { result ≡ fragment_of node.old }
    ensures tree { tree_of node.new ≡ with_fragment [] (tree_of node.old) }
{
    mem::replace(&mut node.fragment, Nibblet::new(alloc))
}

// Puts the branch back as the first child, with its fragment.
fn put_back<K, V>(root: &mut TrieNode<K, V>, fragment: Nibblet, branch: Box<TrieNode<K, V>>)
    requires room { HasRoom 1 root.old }
    requires some { 0 < length fragment }
    ensures { tree_of root.new ≡ with_new_child 0 (first fragment)
        (with_fragment fragment (tree_of branch.value)) (tree_of root.old) }
{
    let nibble = fragment.get(0);
    link(root, 0, refitted(branch, fragment), nibble);
}

/// Grafts the one child of `part` into the tree below `root`, at that child's path. It fails as
/// `graft` does, and both trees are as before then.
pub fn graft_root<K: Drop, V: Drop>(
    root: &mut TrieNode<K, V>,
    alloc: Global,
    part: &mut TrieNode<K, V>,
) -> Result<Grafted, Ungraftable>
    requires placed { IsTreePlaced (tree_of root.old) }
    requires top { fragment_of part.old ≡ [] }
    requires one { vec_len (out_of part.old).children ≡ 1 }
    requires below { IsTreePlaced (tree_of part.old) }
    requires full { IsFullBelow (tree_of part.old) }
    ensures { GraftRootOutcome result (fragment_of root.old) (tree_of part.old) (tree_of part.new)
        (tree_of root.old) (tree_of root.new) }
{
    let mut branch = unlink(part, 0);
    let list = take_fragment(&mut branch, alloc);
    match graft(root, alloc, &list, 0, branch) {
        Ok(grafted) => Ok(grafted),
        Err(Ungrafted::Occupied(branch)) => {
            put_back(part, list, branch);
            Err(Ungraftable::Occupied)
        }
        Err(Ungrafted::Memory(branch)) => {
            put_back(part, list, branch);
            Err(Ungraftable::Memory)
        }
    }
}

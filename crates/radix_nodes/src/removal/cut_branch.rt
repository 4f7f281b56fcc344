//! The branch at and below a path is cut off. What may fail comes first, so a failure leaves the
//! tree as it was.
ghost use Rattle.std.specs.Prelude.{◌≡◌, ◌≢◌, ◌<◌, ◌++◌, [], length, drop, None};
ghost use Rattle.masked_tree.specs.Tree.{IsTreePlaced};
ghost use Rattle.radix_nodes.specs.Nodes.{tree_of, fragment_of, returned};
ghost use Rattle.radix_nodes.specs.Prunes.{BranchOutcome, BranchRootOutcome};

use crate::removal::by_reference::result_of;
use crate::removal::cut_child::{Branch, cut_child, cut_root_child};
use crate::search::step::meet;
use crate::trie_node::TrieNode;
use radix_keys::{Memory, Nibblet};

// Cuts off, into `branch`, what stands at and below the list's place, which lies below a node that
// stands at `depth` and isn't the root.
fn cut_below<K: Drop, V: Drop>(
    node: &mut TrieNode<K, V>,
    list: &Nibblet,
    depth: usize,
    branch: &mut Option<Branch<K, V>>,
) -> Result<(), Memory>
    requires depth { depth < length list.now }
    requires placed { IsTreePlaced (tree_of node.old) }
    requires some { fragment_of node.old ≢ [] }
    requires none { branch.old ≡ None }
    ensures { BranchOutcome (returned result branch.new)
        (fragment_of node.old ++ drop depth list.now)
        (tree_of node.old) (tree_of node.new) }
{
    match meet(node, list, depth) {
        Some((i, agreement)) => {
            let next = depth + agreement.same;
            if next == list.len() {
                match cut_child(node, i) {
                    Ok(cut) => {
                        *branch = Some(cut);
                        Ok(())
                    }
                    Err(e) => Err(e),
                }
            } else if agreement.same == node.children[i].fragment.len() {
                cut_below(&mut node.children[i], list, next, branch)
            } else {
                Ok(())
            }
        }
        None => Ok(()),
    }
}

/// Cuts off what stands at and below the list's place, which lies below the root.
pub fn cut_branch<K: Drop, V: Drop>(
    root: &mut TrieNode<K, V>,
    list: &Nibblet,
) -> Result<Option<Branch<K, V>>, Memory>
    requires some { 0 < length list.now }
    requires placed { IsTreePlaced (tree_of root.old) }
    ensures { BranchRootOutcome result (fragment_of root.old ++ list.now)
        (tree_of root.old) (tree_of root.new) }
{
    match meet(root, list, 0) {
        Some((i, agreement)) => {
            if agreement.same == list.len() {
                Ok(Some(cut_root_child(root, i)))
            } else if agreement.same == root.children[i].fragment.len() {
                let mut branch = None;
                let same = agreement.same;
                let told = cut_below(&mut root.children[i], list, same, &mut branch);
                result_of(told, branch)
            } else {
                Ok(None)
            }
        }
        None => Ok(None),
    }
}

//! A branch that was cut off becomes a tree of its own.
ghost use Rattle.std.specs.Prelude.{◌≡◌};
ghost use Rattle.masked_tree.specs.Edits.{lowered};
ghost use Rattle.radix_nodes.specs.Nodes.{tree_of, fragment_of, IsUpper};
ghost use Rattle.radix_nodes.specs.Prunes.{branch_of};

use crate::removal::cut_child::Branch;
use crate::trie_node::TrieNode;
use crate::trie_node::links::lower;
use radix_keys::Nibblet;

/// The tree whose root has the branch as its one child, with `path` as its fragment. No memory is
/// allocated.
pub fn rooted<K: Drop, V: Drop>(
    branch: Branch<K, V>,
    root: Box<TrieNode<K, V>>,
    path: Nibblet,
) -> TrieNode<K, V>
    requires { IsUpper (fragment_of root.value) path root.value }
    ensures { tree_of result ≡ lowered (fragment_of root.value) path (branch_of branch) }
{
    let Branch { mut top, nodes: _ } = branch;
    lower(&mut top, root, path);
    Box::into_inner(top)
}

//! The rows that a walk has left, and its steps.
ghost use Rattle.std.specs.Prelude.{◌≡◌, ◌<◌, ◌≤◌, ◌∷◌, [], ◌++◌, IsOk, IfOk, length, option_copied, option_map, vec_capacity, vec_len};
ghost use Rattle.masked_tree.specs.Sizes.{levels};
ghost use Rattle.radix_nodes.specs.Nodes.{children_of, out_of, tree_of};
ghost use Rattle.radix_nodes.specs.Pairs.{pair_of, pairs_in, pairs_in_all};
ghost use Rattle.radix_trie.specs.Walks.{deref_pair, left_rows, rows_at, stacked};

use radix_keys::Memory;
use radix_nodes::trie_node::{KeyValue, TrieNode};
use radix_nodes::whole::size::height;

/// What a walk has left of a node: its own pair, and some of its children side by side. In order
/// the pair comes before them.
#[derive(Drop)]
pub(crate) struct Frame<'a, K, V> {
    /// The node's own pair, if it is left.
    pub(crate) own: Option<&'a KeyValue<K, V>>,
    /// The children that are left.
    pub(crate) row: &'a [Box<TrieNode<K, V>>],
}

/// What comes next of a walk at a node: its own pair, and then its children or, where it has none,
/// the nodes beside it. Those beside a node with children are put on the stack, which has room for
/// them.
pub(super) fn enter<'a, K, V>(
    stack: &mut Vec<Frame<'a, K, V>>,
    node: &'a TrieNode<K, V>,
    others: &'a [Box<TrieNode<K, V>>],
) -> Frame<'a, K, V>
    requires room { 0 < vec_len (out_of node.now).children → 0 < length others.now
        → vec_len stack.old < vec_capacity stack.old }
    ensures pairs { stacked (stack.new.items ++ result ∷ [])
        ≡ pairs_in (tree_of node.now)
        ++ (pairs_in_all (children_of others.now) ++ stacked stack.old.items) }
    ensures rows { left_rows (stack.new.items ++ result ∷ [])
        ≡ rows_at (left_rows stack.old.items) (tree_of node.now).children
        (children_of others.now) }
    ensures capacity { vec_capacity stack.new ≡ vec_capacity stack.old }
{
    let own = node.pair();
    if node.children.is_empty() {
        return Frame { own, row: others };
    }
    if !others.is_empty() {
        stack.push_reserved(Frame {
            own: None,
            row: others,
        });
    }
    Frame {
        own,
        row: &node.children,
    }
}

/// The nodes on the longest way down from a row. `Memory` if they are more than `usize::MAX`.
pub(super) fn row_height<K, V>(row: &[Box<TrieNode<K, V>>]) -> Result<usize, Memory>
    ensures count { IfOk result (λ h. h ≡ levels (children_of row.now)) }
    ensures low { levels (children_of row.now) ≤ 1 → IsOk result }
{
    let mut most = 0;
    for node in row {
        let Some(tall) = height(node) else {
            return Err(Memory);
        };
        if most < tall {
            most = tall;
        }
    }
    Ok(most)
}

/// The key and the value.
pub(super) fn parts<K, V>(pair: &KeyValue<K, V>) -> (&K, &V)
    ensures { deref_pair result ≡ (pair.now.key, pair.now.value) }
{
    (&pair.key, &pair.value)
}

/// The key and the value, if there is a pair.
pub(crate) fn key_value_of<K, V>(pair: Option<&KeyValue<K, V>>) -> Option<(&K, &V)>
    ensures { option_map deref_pair result ≡ option_map (λ p. pair_of p.now) pair.entry }
{
    match pair {
        Some(pair) => Some(parts(pair)),
        None => None,
    }
}

/// The key, if there is a pair.
pub(crate) fn key_of<K, V>(pair: Option<&KeyValue<K, V>>) -> Option<&K>
    ensures { option_copied result
        ≡ option_map (λ p. p.0) (option_map (λ p. pair_of p.now) pair.entry) }
{
    match pair {
        Some(pair) => Some(&pair.key),
        None => None,
    }
}

/// The value, if there is a pair.
pub(crate) fn value_of<K, V>(pair: Option<&KeyValue<K, V>>) -> Option<&V>
    ensures { option_copied result
        ≡ option_map (λ p. p.1) (option_map (λ p. pair_of p.now) pair.entry) }
{
    match pair {
        Some(pair) => Some(&pair.value),
        None => None,
    }
}

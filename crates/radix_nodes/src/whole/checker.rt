//! The check of nodes, broken ones too.
ghost use Rattle.std.specs.Prelude.{◌≡◌, ◌<◌, ◌^◌, ◌↔◌, length, cond, IfOk, IsTrue, vec_len};
ghost use Rattle.masked_tree.specs.Tree.{entries_at};
ghost use Rattle.radix_nodes.specs.Nodes.{tree_of, out_of, unboxed};
ghost use Rattle.radix_nodes.specs.Soundness.{IsSoundAt, key_test, form_test, test_of, pair_count_of};

use crate::fragments::joined;
use crate::trie_node::{TrieNode, has_pair};
use radix_keys::{Memory, Nibblet, TrieKey};
use std::alloc::Global;

impl<K: TrieKey, V> TrieNode<K, V> {
    /// Whether the node is canonical below `prefix`, and how many pairs stand at and below it if
    /// so; else 0.
    pub fn check_integrity_recursive(
        &self,
        alloc: Global,
        prefix: &Nibblet,
    ) -> Result<(bool, usize), Memory>
        requires { length (entries_at prefix.now (tree_of self.now)) < 2 ^ 64 }
        ensures sound { IfOk result
            (λ r. IsTrue r.0 ↔ IsSoundAt K.encoding prefix.now (tree_of self.now)) }
        ensures count { IfOk result
            (λ r. r.1 ≡ cond r.0 (length (entries_at prefix.now (tree_of self.now))) 0) }
    {
        test(self, alloc, prefix)
    }
}

// Whether the key of the node's pair is encoded as the path.
fn has_key<K: TrieKey, V>(
    node: &TrieNode<K, V>,
    alloc: Global,
    path: &Nibblet,
) -> Result<bool, Memory>
    ensures { IfOk result
        (λ b. b ≡ key_test K.encoding path.now (unboxed (out_of node.now).pair)) }
{
    match &node.pair {
        Some(pair) => {
            let encoding = pair.key.encode(alloc)?;
            Ok(encoding == *path)
        }
        None => Ok(true),
    }
}

// Whether the node may be left at the path with what it has.
#[tactic(auto, using(crate::proofs::CheckerLemmas::Nodes::unboxed_some))]
fn has_form<K, V>(node: &TrieNode<K, V>, path: &Nibblet) -> bool
    ensures { result
        ≡ form_test path.now (out_of node.now).fragment (unboxed (out_of node.now).pair)
        (vec_len (out_of node.now).children) }
{
    path.is_empty()
        || (!node.fragment.is_empty() && (node.pair.is_some() || node.children.len() > 1))
}

// The check as a test.
fn test<K: TrieKey, V>(
    node: &TrieNode<K, V>,
    alloc: Global,
    prefix: &Nibblet,
) -> Result<(bool, usize), Memory>
    requires { pair_count_of node.now < 2 ^ 64 }
    ensures sound { IfOk result (λ r. r.0 ≡ test_of K.encoding prefix.now node.now) }
    ensures count { IfOk result (λ r. r.1 ≡ cond r.0 (pair_count_of node.now) 0) }
{
    let path = joined(prefix, &node.fragment)?;
    if !has_key(node, alloc, &path)? {
        return Ok((false, 0));
    }
    if !has_form(node, &path) {
        return Ok((false, 0));
    }
    let mut count: usize = if has_pair(node) { 1 } else { 0 };
    let mut low: u8 = 0;
    let mut seen: u16 = 0;
    for child in &node.children {
        if child.fragment.len() == 0 {
            return Ok((false, 0));
        }
        let nibble = child.fragment.get(0);
        if nibble < low {
            return Ok((false, 0));
        }
        let (sound, size) = test(child, alloc, &path)?;
        if !sound {
            return Ok((false, 0));
        }
        count += size;
        low = nibble + 1;
        seen |= 1 << nibble;
    }
    if seen != node.mask {
        return Ok((false, 0));
    }
    Ok((true, count))
}

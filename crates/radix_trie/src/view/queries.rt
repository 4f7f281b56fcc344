//! The views of a trie at points, at the nearest points to a key, and at the children of its path.
ghost use Rattle.std.specs.Prelude.{◌≡◌, ◌≤◌, ℕ, List, [], Some, IsOk, IfOk, IfSome, MatchOption, length, option_map, take};
ghost use Rattle.nibble_map.specs.Lists.{Each};
ghost use Rattle.nibble_map.specs.MapQueries.{AreChildren, IsAncestor, IsChild, IsRawAncestor, IsRawDescendant};
ghost use Rattle.nibble_map.specs.Maps.{IsPoint};
ghost use Rattle.nibble_map.specs.Nibbles.{IsShort};
ghost use Rattle.radix_nodes.specs.Nodes.{tree_of};
ghost use Rattle.radix_trie.specs.Loci.{IsNodeOf};
ghost use Rattle.radix_trie.specs.Views.{paths_of};

use crate::locus::Locus;
use crate::trie::Trie;
use crate::view::children::Children;
use crate::view::subtrie::SubTrie;
use radix_keys::{Memory, Nibblet, TrieKey};
use radix_nodes::search::queries::{deepest, deepest_pair};
use radix_nodes::trie_node::TrieNode;

impl<K: TrieKey, V> Trie<K, V> {
    /// The view at the key's encoding, or None where no point stands there.
    ///
    /// # Errors
    ///
    /// `Memory`: the path's allocation fails; an inline key needs none.
    pub fn subtrie<Q: TrieKey>(&self, key: &Q) -> Result<Option<SubTrie<'_, K, V>>, Memory>
        ensures point { IfOk result
            (λ o. MatchOption o (IsPoint self.now (Q.encoding key.now) → ⊥)
            (λ _. IsPoint self.now (Q.encoding key.now))) }
        ensures path { IfOk result (λ o. IfSome o (λ view. view.path ≡ Q.encoding key.now)) }
        ensures same_map { IfOk result (λ o. IfSome o (λ view. view.map ≡ self.now)) }
        ensures inline { Q.is_inline key.now → IsOk result }
    {
        let path = key.encode(self.allocator())?;
        let Some(node) = self.node_at(&path) else {
            return Ok(None);
        };
        Ok(Some(SubTrie::new(self, node, path)))
    }

    /// The view at the longest stored list that is a prefix of the key's encoding, or None where
    /// there is none.
    ///
    /// # Errors
    ///
    /// `Memory`: the encoding's allocation fails; an inline key needs none. The view's path is the
    /// encoding cut short.
    ///
    /// # Examples
    ///
    /// ```
    /// # use nifazombi::{radix_trie::{Bits, Trie, TrieCommon}, rattle_std::alloc::Global};
    /// let mut table = Trie::new(Global);
    /// table.insert(Bits::first_of_u32(Global, 0x0a00_0000, 8)?, 1)?;
    /// let bits = Bits::first_of_u32(Global, 0x0a01_0203, 32)?;
    /// let view = table.get_ancestor(&bits)?.expect("a network holds the address");
    /// assert!(view.path().len() == 8 && view.value() == Some(&1));
    /// # Ok::<(), Box<dyn std::error::Error>>(())
    /// ```
    ///
    /// `route` in `crates/trie_examples/src/answers.rt` proves that it finds the longest network.
    pub fn get_ancestor<Q: TrieKey>(&self, key: &Q) -> Result<Option<SubTrie<'_, K, V>>, Memory>
        ensures nearest { IfOk result
            (λ o. IsAncestor self.now (Q.encoding key.now) (option_map (λ view. view.path) o)) }
        ensures same_map { IfOk result (λ o. IfSome o (λ view. view.map ≡ self.now)) }
        ensures inline { Q.is_inline key.now → IsOk result }
    {
        let list = key.encode(self.allocator())?;
        let Some((node, depth)) = deepest_pair(self.root(), &list, 0) else {
            return Ok(None);
        };
        Ok(Some(self.view_within(node, list, depth)))
    }

    /// The view at the longest point that is a prefix of the key's encoding. There is always one,
    /// the empty list at least.
    ///
    /// # Errors
    ///
    /// `Memory`: the encoding's allocation fails; an inline key needs none. The view's path is the
    /// encoding cut short.
    pub fn get_raw_ancestor<Q: TrieKey>(&self, key: &Q) -> Result<SubTrie<'_, K, V>, Memory>
        ensures nearest { IfOk result
            (λ view. IsRawAncestor self.now (Q.encoding key.now) view.path) }
        ensures same_map { IfOk result (λ view. view.map ≡ self.now) }
        ensures inline { Q.is_inline key.now → IsOk result }
    {
        let list = key.encode(self.allocator())?;
        let (node, depth) = deepest(self.root(), &list, 0);
        Ok(self.view_within(node, list, depth))
    }

    /// The view at the node that stands after the first nibbles of a list, so many of them.
    fn view_within<'a>(
        &'a self,
        node: &'a TrieNode<K, V>,
        list: Nibblet,
        depth: usize,
    ) -> SubTrie<'a, K, V>
        requires within { depth ≤ length list }
        requires node { IsNodeOf K.encoding self.now (take depth list) (tree_of node.now) }
        ensures path { result.path ≡ take depth list }
        ensures same_map { result.map ≡ self.now }
    {
        let mut path = list;
        path.truncate(depth);
        SubTrie::new(self, node, path)
    }

    /// The view at the shortest point that the key's encoding is a prefix of, or None where there
    /// is none.
    ///
    /// # Errors
    ///
    /// `Memory`: an allocation fails, for the encoding or the view's path. An inline key needs none
    /// where the result is None or its path has at most 32 nibbles.
    ///
    /// # Examples
    ///
    /// ```
    /// # use nifazombi::{radix_trie::prelude::*, rattle_std::alloc::Global};
    /// let words = Trie::from_iter(Global, [("tea", 1), ("team", 2), ("inn", 3)].into_iter())?;
    /// let view = words.get_raw_descendant(&"te")?.expect("two words begin so");
    /// assert!(view.values()?.eq(&[1, 2]));
    /// # Ok::<(), Box<dyn std::error::Error>>(())
    /// ```
    ///
    /// `completions` in `crates/trie_examples/src/uses.rt` proves that no such word is missed.
    pub fn get_raw_descendant<Q: TrieKey>(
        &self,
        key: &Q,
    ) -> Result<Option<SubTrie<'_, K, V>>, Memory>
        ensures nearest { IfOk result
            (λ o. IsRawDescendant self.now (Q.encoding key.now)
            (option_map (λ view. view.path) o)) }
        ensures same_map { IfOk result (λ o. IfSome o (λ view. view.map ≡ self.now)) }
        ensures short { Q.is_inline key.now
            → ((p : List ℕ) → IsRawDescendant self.now (Q.encoding key.now) (Some p)
            → IsShort p)
            → IsOk result }
    {
        let list = key.encode(self.allocator())?;
        match Locus::find(self, &list).nearest(&list)? {
            Some((node, path)) => Ok(Some(SubTrie::new(self, node, path))),
            None => Ok(None),
        }
    }

    /// For each nibble in rising order, the view at the shortest point that begins with it, with
    /// its whole path.
    ///
    /// # Errors
    ///
    /// `Memory`: an allocation fails, for the paths; those of up to 32 nibbles need none.
    pub fn children(&self) -> Result<Children<'_, K, V>, Memory>
        ensures children { IfOk result (λ children. AreChildren self.now [] (paths_of children)) }
        ensures same_map { IfOk result (λ children. Each (λ c. c.map ≡ self.now) children) }
        ensures short { ((q : List ℕ) → IsChild self.now [] q → IsShort q) → IsOk result }
    {
        let top = self.top();
        Locus::find(self, top).children(self, top)
    }
}

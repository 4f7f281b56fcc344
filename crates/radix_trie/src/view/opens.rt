//! What opens a view for writing.
ghost use Rattle.std.specs.Borrow.{sem};
ghost use Rattle.std.specs.Prelude.{◌≡◌, IsOk, IfOk, IfErr, IfSome, MatchOption};
ghost use Rattle.nibble_map.specs.MapQueries.{IsFragment};
ghost use Rattle.nibble_map.specs.Maps.{IsPoint};
ghost use Rattle.radix_nodes.specs.Nodes.{fragment_of, tree_of};
ghost use Rattle.radix_trie.specs.Lends.{closed_as_none, rests_if_err, rests_if_none};
ghost use Rattle.radix_trie.specs.Loci.{IsNodeOf};
ghost use Rattle.radix_trie.specs.WriteViews.{map_behind, path_of, prefix_of, lender_of};

use crate::error::OpenError;
use crate::trie::Trie;
use crate::view::subtrie_mut::SubTrieMut;
use radix_keys::{Memory, Nibblet, TrieKey};
use radix_nodes::search::find::find;
use radix_nodes::trie_node::TrieNode;

impl<K: TrieKey, V> Trie<K, V> {
    /// The node of the point at a list, if one stands there.
    pub(crate) fn node_at(&self, list: &Nibblet) -> Option<&TrieNode<K, V>>
        ensures point { MatchOption result (IsPoint self.now list.now → ⊥)
            (λ _. IsPoint self.now list.now) }
        ensures node { IfSome result
            (λ node. IsNodeOf K.encoding self.now list.now (tree_of node.now)) }
        ensures fragment { IfSome result
            (λ node. IsFragment self.now list.now (fragment_of node.now)) }
    {
        find(self.root(), list, 0)
    }

    /// The key's encoding and the fragment of the point there, if one stands there.
    ///
    /// It fails only if an allocation for the two fails; an inline key needs none.
    fn locus_of<Q: TrieKey>(&self, key: &Q) -> Result<Option<(Nibblet, Nibblet)>, Memory>
        ensures point { IfOk result
            (λ o. MatchOption o (IsPoint self.now (Q.encoding key.now) → ⊥)
            (λ _. IsPoint self.now (Q.encoding key.now))) }
        ensures path { IfOk result (λ o. IfSome o (λ locus. locus.0 ≡ Q.encoding key.now)) }
        ensures fragment { IfOk result
            (λ o. IfSome o (λ locus. IsFragment self.now (Q.encoding key.now) locus.1)) }
        ensures inline { Q.is_inline key.now → IsOk result }
    {
        let path = key.encode(self.allocator())?;
        let Some(node) = self.node_at(&path) else {
            return Ok(None);
        };
        let fragment = node.fragment.clone()?;
        Ok(Some((path, fragment)))
    }

    /// The view for writing at the key's encoding. A caller's proof learns from this call what the
    /// trie ends as.
    ///
    /// # Errors
    ///
    /// `Closed`: no point stands there. `Memory`: an allocation fails, for the path or the fragment
    /// that the view keeps; an inline key needs none. On failure the trie is as before.
    ///
    /// # Examples
    ///
    /// ```
    /// # use nifazombi::{radix_trie::prelude::*, rattle_std::alloc::Global};
    /// let mut names = Trie::new(Global);
    /// names.insert("tea", 1)?;
    /// let mut view = names.open_mut(&"tea")?;
    /// assert!(matches!(view.insert("team", 2), Ok(None)) && view.insert("inn", 3).is_err());
    /// assert!(names.get(&"team")? == Some(&2) && names.len() == 2);
    /// # Ok::<(), Box<dyn std::error::Error>>(())
    /// ```
    pub fn open_mut<Q: TrieKey>(&mut self, key: &Q) -> Result<SubTrieMut<'_, K, V>, OpenError>
        ensures* rests { sem 𝓛
            (rests_if_err K.row V.row K.TrieKey.own K.PartialEq.own self.entry result) }
        ensures map { IfOk result (λ view. map_behind view ≡ self.old) }
        ensures path { IfOk result (λ view. path_of view ≡ Q.encoding key.now) }
        ensures prefix { IfOk result
            (λ view. IsFragment self.old (Q.encoding key.now) (prefix_of view)) }
        ensures same_reference { IfOk result (λ view. lender_of view ≡ self.entry.ghost_name) }
        ensures point { IsOk result → IsPoint self.old (Q.encoding key.now) }
        ensures closed { IfErr result (λ e. e ≡ OpenError.Closed
            → IsPoint self.old (Q.encoding key.now) → ⊥) }
        ensures inline { Q.is_inline key.now → IfErr result (λ e. e ≡ OpenError.Closed) }
    {
        match self.locus_of(key) {
            Ok(Some((path, prefix))) => Ok(SubTrieMut::at(self, path, prefix)),
            Ok(None) => Err(OpenError::Closed),
            Err(_) => Err(OpenError::Memory),
        }
    }

    /// The view for writing at the key's encoding, or None where no point stands there.
    ///
    /// The trie ends as the view leaves it. A caller's proof learns that from `open_mut` alone.
    ///
    /// # Errors
    ///
    /// `Memory`: an allocation fails, for the path or the fragment that the view keeps; an inline
    /// key needs none. On failure the trie is as before.
    pub fn subtrie_mut<Q: TrieKey>(
        &mut self,
        key: &Q,
    ) -> Result<Option<SubTrieMut<'_, K, V>>, Memory>
        ensures* rests { sem 𝓛
            (rests_if_none K.row V.row K.TrieKey.own K.PartialEq.own self.entry result) }
        ensures map { IfOk result (λ o. IfSome o (λ view. map_behind view ≡ self.old)) }
        ensures path { IfOk result (λ o. IfSome o (λ view. path_of view ≡ Q.encoding key.now)) }
        ensures prefix { IfOk result
            (λ o. IfSome o (λ view. IsFragment self.old (Q.encoding key.now) (prefix_of view))) }
        ensures same_reference { IfOk result
            (λ o. IfSome o (λ view. lender_of view ≡ self.entry.ghost_name)) }
        ensures point { IfOk result
            (λ o. MatchOption o (IsPoint self.old (Q.encoding key.now) → ⊥)
            (λ _. IsPoint self.old (Q.encoding key.now))) }
        ensures inline { Q.is_inline key.now → IsOk result }
    {
        closed_as_none(self.open_mut(key))
    }
}

/// The same result, in which None says what `Closed` says.
fn closed_as_none<'a, K: TrieKey, V>(
    opened: Result<SubTrieMut<'a, K, V>, OpenError>,
) -> Result<Option<SubTrieMut<'a, K, V>>, Memory>
    ensures same { result ≡ closed_as_none opened.entry }
{
    match opened {
        Ok(view) => Ok(Some(view)),
        Err(OpenError::Memory) => Err(Memory),
        Err(OpenError::Closed) => Ok(None),
    }
}

//! Views for reading.
ghost use Rattle.std.specs.Prelude.{◌≡◌, ◌≢◌, ℕ, List, Err, IfOk, IfSome, IsOk, MatchOption, OnOk, option_copied, option_map, take};
ghost use Rattle.std.specs.FinMap as map;
ghost use Rattle.nibble_map.specs.Lists.{Each, IsPrefix};
ghost use Rattle.nibble_map.specs.MapQueries.{AreChildren, IsFragment, IsChild};
ghost use Rattle.nibble_map.specs.Maps.{IsPoint, below, value_at};
ghost use Rattle.nibble_map.specs.Nibbles.{IsShort};
ghost use Rattle.radix_nodes.specs.Nodes.{tree_of};
ghost use Rattle.radix_nodes.specs.Pairs.{pair_of};
ghost use Rattle.radix_trie.specs.Loci.{IsLocusIn};
ghost use Rattle.radix_trie.specs.Views.{pairs_below, paths_of};
ghost use Rattle.radix_trie.specs.Walks.{deref_pairs};

use crate::error::{SubTrieError, SubTrieResult};
use crate::locus::Locus;
use crate::trie::Trie;
use crate::view::children::Children;
use crate::view::inside::inside;
use radix_keys::{Memory, Nibblet, TrieKey};
use radix_nodes::search::find::find;
use radix_nodes::trie_node::{KeyValue, TrieNode};
use std::alloc::Global;
use std::marker::Model;

/// A view for reading: a point of a trie, which doesn't change while the view lives.
///
/// A contract sees it as the map of the whole trie and the view's path in it.
#[derive(Drop)]
pub struct SubTrie<'a, K: TrieKey, V> {
    trie: &'a Trie<K, V>,
    /// The node at the path.
    node: &'a TrieNode<K, V>,
    path: Nibblet,
}

impl<'a, K: TrieKey, V> Model for SubTrie<'a, K, V> {
    ghost use Rattle.radix_trie.specs.Views.{ReadView, read_view_code};

    ghost Value = { ReadView K V };

    ghost coded = { read_view_code K.code V.code };

    ghost use Rattle.radix_nodes.specs.Nodes.{tree_of};
    ghost use Rattle.radix_trie.specs.Loci.{IsNodeOf};

    ghost view = { λ s. record { map = s.trie.now; path = s.path } };

    ghost invariant = { λ s. IsNodeOf K.encoding s.trie.now s.path (tree_of s.node.now) };
}

impl<'a, K: TrieKey, V> SubTrie<'a, K, V> {
    ghost use Rattle.radix_trie.specs.Loci.{IsNodeOf};

    /// The view at a node of the trie.
    pub(crate) fn new(
        trie: &'a Trie<K, V>,
        node: &'a TrieNode<K, V>,
        path: Nibblet,
    ) -> SubTrie<'a, K, V>
        requires { IsNodeOf K.encoding trie.now path (tree_of node.now) }
        ensures map { result.map ≡ trie.now }
        ensures path { result.path ≡ path }
    {
        SubTrie { trie, node, path }
    }

    /// The whole path, of which the last part is the view's fragment.
    pub fn path(&self) -> &Nibblet
        ensures { result.now ≡ self.now.path }
    {
        &self.path
    }

    /// The value that is stored at the key's encoding, if there is one.
    ///
    /// # Errors
    ///
    /// `Outside`: the view's path isn't a prefix of the encoding. `Memory`: the encoding's
    /// allocation fails; an inline key needs none.
    pub fn get<Q: TrieKey>(&self, key: &Q) -> SubTrieResult<&V>
        ensures value { IfOk result
            (λ found. option_copied found ≡ value_at self.now.map (Q.encoding key.now)) }
        ensures inside { OnOk result (IsPrefix self.now.path (Q.encoding key.now)) }
        ensures outside { result ≡ Err SubTrieError.Outside
            → IsPrefix self.now.path (Q.encoding key.now) → ⊥ }
        ensures inline { Q.is_inline key.now → result ≢ Err SubTrieError.Memory }
    {
        let list = inside(&self.path, key, self.trie.allocator())?;
        match self.pair_at(&list) {
            Some(pair) => Ok(Some(&pair.value)),
            None => Ok(None),
        }
    }

    /// The pair at a list that the path begins. The lookup goes on from the view's node.
    fn pair_at(&self, list: &Nibblet) -> Option<&'a KeyValue<K, V>>
        requires { IsPrefix self.now.path list.now }
        ensures { option_map (λ p. pair_of p.now) result ≡ map.get self.now.map list.now }
    {
        match find(self.node, list, self.path.len()) {
            Some(node) => node.pair(),
            None => None,
        }
    }

    /// The view at the key's encoding, or None where no point stands there. It lives as long as
    /// the trie's borrow.
    ///
    /// # Errors
    ///
    /// Those of `get`.
    pub fn subtrie<Q: TrieKey>(&self, key: &Q) -> SubTrieResult<SubTrie<'a, K, V>>
        ensures point { IfOk result
            (λ o. MatchOption o (IsPoint self.now.map (Q.encoding key.now) → ⊥)
            (λ _. IsPoint self.now.map (Q.encoding key.now))) }
        ensures path { IfOk result (λ o. IfSome o (λ view. view.path ≡ Q.encoding key.now)) }
        ensures same_map { IfOk result (λ o. IfSome o (λ view. view.map ≡ self.now.map)) }
        ensures inside { OnOk result (IsPrefix self.now.path (Q.encoding key.now)) }
        ensures outside { result ≡ Err SubTrieError.Outside
            → IsPrefix self.now.path (Q.encoding key.now) → ⊥ }
        ensures inline { Q.is_inline key.now → result ≢ Err SubTrieError.Memory }
    {
        let path = inside(&self.path, key, self.trie.allocator())?;
        match self.trie.node_at(&path) {
            Some(node) => Ok(Some(SubTrie::new(self.trie, node, path))),
            None => Ok(None),
        }
    }

    /// The count of pairs at and below the key. They are counted, so the time grows with
    /// their number.
    ///
    /// # Errors
    ///
    /// Those of `get`.
    pub fn count_below<Q: TrieKey>(&self, key: &Q) -> Result<usize, SubTrieError>
        ensures count { IfOk result
            (λ count. count ≡ map.len (below self.now.map (Q.encoding key.now))) }
        ensures inside { OnOk result (IsPrefix self.now.path (Q.encoding key.now)) }
        ensures outside { result ≡ Err SubTrieError.Outside
            → IsPrefix self.now.path (Q.encoding key.now) → ⊥ }
        ensures inline { Q.is_inline key.now → result ≢ Err SubTrieError.Memory }
    {
        let list = inside(&self.path, key, self.trie.allocator())?;
        Ok(Locus::find(self.trie, &list).len())
    }

    /// The first pairs at and below the key, as `Trie::first_below` returns them. They live
    /// as long as the trie's borrow.
    ///
    /// # Errors
    ///
    /// Those of `get`, and `Memory`: the allocation of the list of pairs fails.
    pub fn first_below<Q: TrieKey>(
        &self,
        key: &Q,
        most: usize,
    ) -> Result<Vec<(&'a K, &'a V)>, SubTrieError>
        ensures pairs { IfOk result (λ list. deref_pairs list.items
            ≡ take most (pairs_below self.now.map (Q.encoding key.now))) }
        ensures inside { OnOk result (IsPrefix self.now.path (Q.encoding key.now)) }
        ensures outside { result ≡ Err SubTrieError.Outside
            → IsPrefix self.now.path (Q.encoding key.now) → ⊥ }
        ensures inline_no_page { Q.is_inline key.now → most ≡ 0
            → result ≢ Err SubTrieError.Memory }
        ensures inline_none { Q.is_inline key.now
            → map.len (below self.now.map (Q.encoding key.now)) ≡ 0
            → result ≢ Err SubTrieError.Memory }
    {
        let list = inside(&self.path, key, self.trie.allocator())?;
        Ok(self.trie.page_below(&list, most)?)
    }

    /// For each nibble in rising order, the view at the shortest point that goes on from the path
    /// by it, with its whole path.
    ///
    /// # Errors
    ///
    /// `Memory`: an allocation fails, for the paths; those of up to 32 nibbles need none.
    pub fn children(&self) -> Result<Children<'a, K, V>, Memory>
        ensures children { IfOk result
            (λ children. AreChildren self.now.map self.now.path (paths_of children)) }
        ensures same_map { IfOk result (λ children. Each (λ c. c.map ≡ self.now.map) children) }
        ensures short { ((q : List ℕ) → IsChild self.now.map self.now.path q → IsShort q)
            → IsOk result }
    {
        self.locus().children(self.trie, &self.path)
    }

    /// The fragment of the view's point.
    pub(crate) fn fragment(&self) -> &Nibblet
        ensures { IsFragment self.now.map self.now.path result.now }
    {
        &self.node.fragment
    }

    /// The locus of the view's path.
    pub(crate) fn locus(&self) -> Locus<'a, K, V>
        ensures { IsLocusIn K.encoding self.now.map self.now.path result }
    {
        Locus::at(self.trie, self.node, &self.path)
    }

    /// The allocator of the trie.
    pub(crate) fn allocator(&self) -> Global {
        self.trie.allocator()
    }
}

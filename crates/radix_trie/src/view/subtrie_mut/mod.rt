//! Views for writing.
ghost use Rattle.std.specs.Borrow.{sem};
ghost use Rattle.std.specs.FinMap as map;
ghost use Rattle.std.specs.Option.{option_copied_mut};
ghost use Rattle.std.specs.Prelude.{◌≡◌, ◌≢◌, ℕ, List, IsOk, IfOk, OnOk, Err, option_copied};
ghost use Rattle.nibble_map.specs.Lists.{Each, IsPrefix};
ghost use Rattle.nibble_map.specs.MapQueries.{AreChildren, IsChild};
ghost use Rattle.nibble_map.specs.Maps.{below, value_at};
ghost use Rattle.nibble_map.specs.Nibbles.{IsShort};
ghost use Rattle.radix_trie.specs.Lends.{lends_behind, lends_own};
ghost use Rattle.radix_trie.specs.Loci.{IsLocusIn};
ghost use Rattle.radix_trie.specs.Views.{paths_of};
ghost use Rattle.radix_trie.specs.WriteViews.{map_behind, path_of, prefix_of, lender_of};

mod spent;

use crate::error::{SubTrieError, SubTrieResult};
use crate::locus::Locus;
use crate::trie::Trie;
use crate::view::children::Children;
use crate::view::inside::inside;
use radix_keys::{Memory, Nibblet, TrieKey};
use radix_nodes::trie_node::KeyValue;

/// The value that the trie behind a reference holds at a list, for writing.
fn value_behind<'s, 'a, K: TrieKey, V>(
    trie: &'s mut &'a mut Trie<K, V>,
    list: &'s Nibblet,
) -> Option<&'s mut V>
    ensures* writes_back { sem 𝓛
        (lends_behind K.row V.row K.TrieKey.own K.PartialEq.own trie.entry list.now result) }
    ensures value { option_copied_mut result ≡ value_at trie.old.now list.now }
{
    trie.at_mut(list)
}

// The parameter `P` lets a caller's proof follow the trie past the view's end; it is always
// `Nibblet`.
/// A view for writing: a trie, and a path in it, at which a point stood when the view was made.
///
/// Its calls are the trie's own, for the keys whose encodings the path is a prefix of. It stays
/// usable where its path is no longer a point, as after the removal of its own pair.
pub struct SubTrieMut<'a, K: TrieKey, V, P = Nibblet> {
    pub(crate) trie: &'a mut Trie<K, V>,
    pub(crate) path: P,
    pub(crate) prefix: P,
}

impl<K: TrieKey, V, P: Drop> Drop for SubTrieMut<'_, K, V, P> {
    /// Ends the view: the trie stays as the view leaves it.
    fn drop(self)
        ensures { self.exit.0.now ≡ self.entry.trie.now }
    {
        let SubTrieMut {
            trie: _,
            path: _,
            prefix: _,
        } = self;
    }
}

impl<'a, K: TrieKey, V> SubTrieMut<'a, K, V> {
    /// The view of a trie at a path, with the path's fragment.
    pub(crate) fn at(trie: &'a mut Trie<K, V>, path: Nibblet, prefix: Nibblet) -> Self
        ensures map { map_behind result ≡ trie.entry.now }
        ensures path { path_of result ≡ path }
        ensures prefix { prefix_of result ≡ prefix }
        ensures same_reference { lender_of result ≡ trie.entry.ghost_name }
    {
        SubTrieMut { trie, path, prefix }
    }

    /// The whole path.
    pub fn path(&self) -> &Nibblet
        ensures { result.now ≡ path_of self.now }
    {
        &self.path
    }

    /// The locus of the view's path.
    pub(crate) fn locus(&self) -> Locus<'_, K, V>
        ensures { IsLocusIn K.encoding (map_behind self.now) (path_of self.now) result }
    {
        Locus::find(self.trie, &self.path)
    }

    /// For each nibble in rising order, the view for reading at the shortest point that goes on
    /// from the path by it, with its whole path.
    ///
    /// # Errors
    ///
    /// `Memory`: an allocation fails, for the paths; those of up to 32 nibbles need none.
    pub fn children(&self) -> Result<Children<'_, K, V>, Memory>
        ensures children { IfOk result
            (λ children. AreChildren (map_behind self.now) (path_of self.now)
            (paths_of children)) }
        ensures same_map { IfOk result
            (λ children. Each (λ c. c.map ≡ map_behind self.now) children) }
        ensures short { ((q : List ℕ) → IsChild (map_behind self.now) (path_of self.now) q
            → IsShort q) → IsOk result }
    {
        self.locus().children(self.trie, &self.path)
    }

    /// The views that `children` returns, for as long as the trie's borrow. The view is spent.
    ///
    /// # Errors
    ///
    /// Those of `children`.
    pub fn into_children(self) -> Result<Children<'a, K, V>, Memory>
        ensures children { IfOk result (λ children.
            AreChildren (map_behind self.entry) (path_of self.entry) (paths_of children)) }
        ensures same_map { IfOk result (λ children.
            Each (λ c. c.map ≡ map_behind self.entry) children) }
        ensures short { ((q : List ℕ) → IsChild (map_behind self.entry) (path_of self.entry) q
            → IsShort q) → IsOk result }
    {
        let (trie, path) = self.into_parts();
        Locus::find(trie, &path).children(trie, &path)
    }

    /// The value at the path, for writing, if one is stored there. It allocates nothing.
    ///
    /// Once the value has been written, the view's map has it at the path, and all else is as
    /// before.
    pub fn value_mut(&mut self) -> Option<&mut V>
        ensures* writes_back { sem 𝓛
            (lends_own K.row V.row K.TrieKey.own K.PartialEq.own self.entry result) }
        ensures value { option_copied_mut result
            ≡ value_at (map_behind self.old) (path_of self.old) }
    {
        value_behind(&mut self.trie, &self.path)
    }

    /// The value that the trie holds at the key's encoding, if there is one.
    ///
    /// # Errors
    ///
    /// `Outside`: the view's path isn't a prefix of the encoding. `Memory`: the encoding's
    /// allocation fails; an inline key needs none.
    pub fn get<Q: TrieKey>(&self, key: &Q) -> SubTrieResult<&V>
        ensures value { IfOk result
            (λ found. option_copied found
            ≡ value_at (map_behind self.now) (Q.encoding key.now)) }
        ensures inside { OnOk result (IsPrefix (path_of self.now) (Q.encoding key.now)) }
        ensures outside { result ≡ Err SubTrieError.Outside
            → IsPrefix (path_of self.now) (Q.encoding key.now) → ⊥ }
        ensures inline { Q.is_inline key.now → result ≢ Err SubTrieError.Memory }
    {
        let list = inside(&self.path, key, self.trie.allocator())?;
        Ok(self.trie.at(&list))
    }

    /// The count of pairs at and below the key. They are counted, so the time grows with
    /// their number.
    ///
    /// # Errors
    ///
    /// Those of `get`.
    pub fn count_below<Q: TrieKey>(&self, key: &Q) -> Result<usize, SubTrieError>
        ensures count { IfOk result
            (λ count. count ≡ map.len (below (map_behind self.now) (Q.encoding key.now))) }
        ensures inside { OnOk result (IsPrefix (path_of self.now) (Q.encoding key.now)) }
        ensures outside { result ≡ Err SubTrieError.Outside
            → IsPrefix (path_of self.now) (Q.encoding key.now) → ⊥ }
        ensures inline { Q.is_inline key.now → result ≢ Err SubTrieError.Memory }
    {
        let list = inside(&self.path, key, self.trie.allocator())?;
        Ok(Locus::find(self.trie, &list).len())
    }
}

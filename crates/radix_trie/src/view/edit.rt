//! Changes within a view.
ghost use Rattle.std.specs.FinMap as map;
ghost use Rattle.std.specs.Prelude.{◌≡◌, IfOk, OnOk, IfErr, OnErr, Err};
ghost use Rattle.nibble_map.specs.Lists.{IsPrefix};
ghost use Rattle.nibble_map.specs.Maps.{value_at, without_below};
ghost use Rattle.radix_trie.specs.Refusals.{IsFullAt, RefusesBelow, RefusesInsert, RefusesRemove};
ghost use Rattle.radix_trie.specs.Views.{pairs_below};
ghost use Rattle.radix_trie.specs.WriteViews.{map_behind, path_of, SameView};

use crate::error::{InsertError, InsertWhy, SubTrieError, SubTrieResult};
use crate::trie::edit::{encoding_of, refused};
use crate::view::inside::{begins, inside};
use crate::view::subtrie_mut::SubTrieMut;
use radix_keys::TrieKey;
use radix_nodes::trie_node::KeyValue;

impl<'a, K: TrieKey + Drop, V: Drop> SubTrieMut<'a, K, V> {
    /// Stores the pair at the key's encoding, as `Trie::insert` does.
    ///
    /// # Errors
    ///
    /// Decided in this order. `Memory`: the encoding's allocation fails; an inline key needs none.
    /// `Outside`: the view's path isn't a prefix of the encoding. `Full`: `usize::MAX` pairs are
    /// stored, and the encoding isn't among them. `Memory`: an allocation for the change fails; a
    /// stored encoding needs none. On failure the trie is as before, and the error holds the key
    /// and value that were passed.
    pub fn insert(&mut self, key: K, value: V) -> Result<Option<V>, InsertError<K, V>>
        ensures same_view { SameView self.old self.new }
        ensures inside { OnOk result (IsPrefix (path_of self.old) (K.encoding key)
            × (IsFullAt (map_behind self.old) (K.encoding key) → ⊥)) }
        ensures old_value { IfOk result
            (λ old. old ≡ value_at (map_behind self.old) (K.encoding key)) }
        ensures stored { OnOk result
            (map_behind self.new
            ≡ map.insert (map_behind self.old) (K.encoding key) (key, value)) }
        ensures is_value { OnOk result (K.is_value key) }

        ensures handed_back { IfErr result (λ e. (e.key ≡ key) × (e.value ≡ value)) }
        ensures unchanged { OnErr result (map_behind self.new ≡ map_behind self.old) }
        ensures why { IfErr result (λ e.
            RefusesInsert (map_behind self.old) (K.encoding key)
            (IsPrefix (path_of self.old) (K.encoding key)) (K.is_inline key) e.why) }
    {
        let pair = KeyValue { key, value };
        let Ok(list) = encoding_of(self.trie.allocator(), &pair.key) else {
            return Err(refused(InsertWhy::Memory, pair));
        };
        if !begins(&self.path, &list) {
            return Err(refused(InsertWhy::Outside, pair));
        }
        self.trie.insert_at(&list, pair)
    }

    /// Removes all pairs at and below the key, as `Trie::remove_prefix` does.
    ///
    /// # Errors
    ///
    /// `Outside`: the view's path isn't a prefix of the key's encoding. Else those of
    /// `Trie::remove_prefix`. On failure the trie is as before.
    pub fn remove_prefix<Q: TrieKey>(&mut self, key: &Q) -> Result<Vec<(K, V)>, SubTrieError>
        ensures same_view { SameView self.old self.new }
        ensures inside { OnOk result (IsPrefix (path_of self.old) (Q.encoding key.now)) }
        ensures pairs { IfOk result (λ gone.
            gone.items ≡ pairs_below (map_behind self.old) (Q.encoding key.now)) }
        ensures removed { OnOk result
            (map_behind self.new ≡ without_below (map_behind self.old) (Q.encoding key.now)) }

        ensures unchanged { OnErr result (map_behind self.new ≡ map_behind self.old) }
        ensures why { IfErr result (λ e.
            RefusesBelow (map_behind self.old) (Q.encoding key.now)
            (IsPrefix (path_of self.old) (Q.encoding key.now)) (Q.is_inline key.now) e) }
    {
        let list = inside(&self.path, key, self.trie.allocator())?;
        Ok(self.trie.prune_at(&list)?)
    }

    /// Removes the pair at the key's encoding, as `Trie::remove` does.
    ///
    /// # Errors
    ///
    /// `Outside`: the view's path isn't a prefix of the encoding. `Memory`: an allocation fails,
    /// for the encoding or for joining two fragments. On failure the trie is as before.
    pub fn remove<Q: TrieKey>(&mut self, key: &Q) -> SubTrieResult<V>
        ensures same_view { SameView self.old self.new }
        ensures inside { OnOk result (IsPrefix (path_of self.old) (Q.encoding key.now)) }
        ensures old_value { IfOk result
            (λ old. old ≡ value_at (map_behind self.old) (Q.encoding key.now)) }
        ensures removed { OnOk result
            (map_behind self.new ≡ map.remove (map_behind self.old) (Q.encoding key.now)) }

        ensures unchanged { OnErr result (map_behind self.new ≡ map_behind self.old) }
        ensures why { IfErr result (λ e.
            RefusesRemove (map_behind self.old) (Q.encoding key.now)
            (IsPrefix (path_of self.old) (Q.encoding key.now)) (Q.is_inline key.now) e) }
    {
        let list = inside(&self.path, key, self.trie.allocator())?;
        match self.trie.take_at(&list) {
            Ok(old) => Ok(old),
            Err(_) => Err(SubTrieError::Memory),
        }
    }
}

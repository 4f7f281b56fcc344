//! Changes that tries and views for writing have in common.
ghost use Rattle.std.specs.FinMap as finite;
ghost use Rattle.std.specs.Prelude.{◌≡◌, ◌≢◌, ℕ, List, [], All, Err, IfErr, IfOk, IsOk, OnErr, OnOk, option_copied};
ghost use Rattle.nibble_map.specs.Lists.{IsPrefix};
ghost use Rattle.nibble_map.specs.Maps.{PairMap, below, value_at, without_below};
ghost use Rattle.radix_trie.specs.Keys.{IsKeyed};
ghost use Rattle.radix_trie.specs.Refusals.{IsFullAt, RefusesBelow, RefusesInsert, RefusesRemove};
ghost use Rattle.radix_trie.specs.Retains.{Retains, RetainsAtLeast, RetainsBefore, ReturnsAtPair, TakesPairAt};
ghost use Rattle.radix_trie.specs.Values.{ChangesEachPair, LeavesAtPair, TakesPairAtMut};
ghost use Rattle.radix_trie.specs.Views.{pairs_below};
ghost use Rattle.radix_trie.specs.WriteViews.{map_behind, path_of};

use crate::error::{InsertError, SubTrieError, SubTrieResult};
use crate::trie::Trie;
use crate::view::subtrie_mut::SubTrieMut;
use radix_keys::{Memory, Nibblet, TrieKey};

/// A trie or a view for writing: a function that changes either is written once for both.
///
/// A contract sees it as the map of the whole trie and a path, below which all calls stay. The path
/// of a trie is the empty list, so nothing lies outside it.
pub trait TrieEdit<K: TrieKey, V> {
    /// The map of the whole trie.
    ghost map: { Self → PairMap K V };

    /// The path.
    ghost path: { Self → List ℕ };

    /// The value that is stored at the key's encoding, if there is one.
    ///
    /// # Errors
    ///
    /// `Outside`: the path isn't a prefix of the encoding. `Memory`: the encoding's allocation
    /// fails; an inline key needs none.
    fn get<Q: TrieKey>(&self, key: &Q) -> SubTrieResult<&V>
        ensures value { IfOk result
            (λ found. option_copied found ≡ value_at (map self.now) (Q.encoding key.now)) }
        ensures inside { OnOk result (IsPrefix (path self.now) (Q.encoding key.now)) }
        ensures outside { result ≡ Err SubTrieError.Outside
            → IsPrefix (path self.now) (Q.encoding key.now) → ⊥ }
        ensures inline { Q.is_inline key.now → result ≢ Err SubTrieError.Memory };

    /// Stores the pair at the key's encoding, and returns the value that was stored there. A stored
    /// key is replaced by the new one too.
    ///
    /// # Errors
    ///
    /// Those of `SubTrieMut::insert`.
    fn insert(&mut self, key: K, value: V) -> Result<Option<V>, InsertError<K, V>>
        ensures same_path { path self.new ≡ path self.old }
        ensures inside { OnOk result (IsPrefix (path self.old) (K.encoding key)
            × (IsFullAt (map self.old) (K.encoding key) → ⊥)) }
        ensures old_value { IfOk result
            (λ old. old ≡ value_at (map self.old) (K.encoding key)) }
        ensures stored { OnOk result
            (map self.new ≡ finite.insert (map self.old) (K.encoding key) (key, value)) }
        ensures is_value { OnOk result (K.is_value key) }

        ensures handed_back { IfErr result (λ e. (e.key ≡ key) × (e.value ≡ value)) }
        ensures unchanged { OnErr result (map self.new ≡ map self.old) }
        ensures why { IfErr result (λ e. RefusesInsert (map self.old) (K.encoding key)
            (IsPrefix (path self.old) (K.encoding key)) (K.is_inline key) e.why) };

    /// Removes the pair at the key's encoding, and returns its value.
    ///
    /// # Errors
    ///
    /// Those of `SubTrieMut::remove`.
    fn remove<Q: TrieKey>(&mut self, key: &Q) -> SubTrieResult<V>
        ensures same_path { path self.new ≡ path self.old }
        ensures inside { OnOk result (IsPrefix (path self.old) (Q.encoding key.now)) }
        ensures old_value { IfOk result
            (λ old. old ≡ value_at (map self.old) (Q.encoding key.now)) }
        ensures removed { OnOk result
            (map self.new ≡ finite.remove (map self.old) (Q.encoding key.now)) }

        ensures unchanged { OnErr result (map self.new ≡ map self.old) }
        ensures why { IfErr result (λ e. RefusesRemove (map self.old) (Q.encoding key.now)
            (IsPrefix (path self.old) (Q.encoding key.now)) (Q.is_inline key.now) e) };

    /// Removes all pairs at and below the key, and returns them in the order of their
    /// encodings.
    ///
    /// # Errors
    ///
    /// Those of `SubTrieMut::remove_prefix`.
    fn remove_prefix<Q: TrieKey>(&mut self, key: &Q) -> Result<Vec<(K, V)>, SubTrieError>
        ensures same_path { path self.new ≡ path self.old }
        ensures inside { OnOk result (IsPrefix (path self.old) (Q.encoding key.now)) }
        ensures pairs { IfOk result
            (λ gone. gone.items ≡ pairs_below (map self.old) (Q.encoding key.now)) }
        ensures removed { OnOk result
            (map self.new ≡ without_below (map self.old) (Q.encoding key.now)) }

        ensures unchanged { OnErr result (map self.new ≡ map self.old) }
        ensures why { IfErr result (λ e. RefusesBelow (map self.old) (Q.encoding key.now)
            (IsPrefix (path self.old) (Q.encoding key.now)) (Q.is_inline key.now) e) };

    /// Changes each value at and below the path by one call of the closure with the pair's key. No
    /// memory is allocated.
    ///
    /// The closure has to be callable on each of these pairs.
    fn for_each_mut<F: Fn(&K, &mut V)>(&mut self, f: F)
        requires callable { All (TakesPairAtMut F.Fn f)
            (pairs_below (map self.old) (path self.old)) }
        ensures same_path { path self.new ≡ path self.old }
        ensures changed { ChangesEachPair (LeavesAtPair F.Fn f)
            (below (map self.old) (path self.old)) (below (map self.new) (path self.old)) }
        ensures elsewhere { without_below (map self.new) (path self.old)
            ≡ without_below (map self.old) (path self.old) }
        ensures keyed { IsKeyed K.encoding K.is_value (map self.old)
            → IsKeyed K.encoding K.is_value (map self.new) };

    /// Keeps, of the pairs at and below the path, those of which the closure returns true, and
    /// removes all others of these.
    ///
    /// The closure has to be callable on each of these pairs.
    ///
    /// # Errors
    ///
    /// Those of `Trie::retain`.
    fn retain<F: Fn(&K, &V) -> bool>(&mut self, keep: F) -> Result<(), Memory>
        requires callable { All (TakesPairAt F.Fn keep)
            (pairs_below (map self.old) (path self.old)) }
        ensures same_path { path self.new ≡ path self.old }
        ensures retained { OnOk result (Retains (ReturnsAtPair F.Fn keep)
            (below (map self.old) (path self.old)) (below (map self.new) (path self.old))) }
        ensures at_least { RetainsAtLeast (ReturnsAtPair F.Fn keep)
            (below (map self.old) (path self.old)) (below (map self.new) (path self.old)) }
        ensures stopped { OnErr result (RetainsBefore (ReturnsAtPair F.Fn keep)
            (below (map self.old) (path self.old)) (below (map self.new) (path self.old))) }
        ensures elsewhere { without_below (map self.new) (path self.old)
            ≡ without_below (map self.old) (path self.old) }
        ensures keyed { IsKeyed K.encoding K.is_value (map self.old)
            → IsKeyed K.encoding K.is_value (map self.new) }
        ensures none { finite.len (below (map self.old) (path self.old)) ≡ 0 → IsOk result };
}

impl<K: TrieKey + Drop, V: Drop> TrieEdit<K, V> for Trie<K, V> {
    ghost map = { λ t. t };

    ghost path = { λ t. [] };

    fn get<Q: TrieKey>(&self, key: &Q) -> SubTrieResult<&V> {
        Ok(self.get(key)?)
    }

    fn insert(&mut self, key: K, value: V) -> Result<Option<V>, InsertError<K, V>> {
        self.insert(key, value)
    }

    fn remove<Q: TrieKey>(&mut self, key: &Q) -> SubTrieResult<V> {
        Ok(self.remove(key)?)
    }

    fn remove_prefix<Q: TrieKey>(&mut self, key: &Q) -> Result<Vec<(K, V)>, SubTrieError> {
        Ok(self.remove_prefix(key)?)
    }

    fn for_each_mut<F: Fn(&K, &mut V)>(&mut self, f: F) {
        let whole = Nibblet::new(self.allocator());
        self.change_below(&whole, &f);
    }

    fn retain<F: Fn(&K, &V) -> bool>(&mut self, keep: F) -> Result<(), Memory> {
        let whole = Nibblet::new(self.allocator());
        self.retain_at(&whole, &keep)
    }
}

impl<'a, K: TrieKey + Drop, V: Drop> TrieEdit<K, V> for SubTrieMut<'a, K, V> {
    ghost map = { map_behind };

    ghost path = { path_of };

    fn get<Q: TrieKey>(&self, key: &Q) -> SubTrieResult<&V> {
        self.get(key)
    }

    fn insert(&mut self, key: K, value: V) -> Result<Option<V>, InsertError<K, V>> {
        self.insert(key, value)
    }

    fn remove<Q: TrieKey>(&mut self, key: &Q) -> SubTrieResult<V> {
        self.remove(key)
    }

    fn remove_prefix<Q: TrieKey>(&mut self, key: &Q) -> Result<Vec<(K, V)>, SubTrieError> {
        self.remove_prefix(key)
    }

    fn for_each_mut<F: Fn(&K, &mut V)>(&mut self, f: F) {
        self.for_each_mut(f);
    }

    fn retain<F: Fn(&K, &V) -> bool>(&mut self, keep: F) -> Result<(), Memory> {
        self.retain(keep)
    }
}

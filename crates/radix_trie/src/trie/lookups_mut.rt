//! Values for writing.
ghost use Rattle.std.specs.Borrow.{sem};
ghost use Rattle.std.specs.Option.{option_copied_mut};
ghost use Rattle.std.specs.Prelude.{◌≡◌, [], None, Some, IsOk, IfOk, IfErr};
ghost use Rattle.nibble_map.specs.MapQueries.{IsAncestor};
ghost use Rattle.nibble_map.specs.Maps.{value_at};
ghost use Rattle.radix_trie.specs.Lends.{absent_as_none, lends_above, lends_at, lends_found, lends_if_ok};
ghost use Rattle.radix_trie.specs.Views.{IsValueAbove};

use crate::error::FindError;
use crate::trie::Trie;
use radix_keys::{Memory, Nibblet, TrieKey};
use radix_nodes::search::queries::deepest_pair;

impl<K: TrieKey, V> Trie<K, V> {
    /// The value at the empty list, for writing, if one is stored there. It allocates nothing.
    pub fn value_mut(&mut self) -> Option<&mut V>
        ensures* writes_back { sem 𝓛
            (lends_at K.row V.row K.TrieKey.own K.PartialEq.own self.entry [] result) }
        ensures value { option_copied_mut result ≡ value_at self.old [] }
    {
        let top = Nibblet::new(self.allocator());
        self.at_mut(&top)
    }

    /// The value at the key's encoding, for writing. A caller's proof learns from this call what
    /// the trie ends as.
    ///
    /// # Errors
    ///
    /// `Absent`: no value is stored there. `Memory`: the encoding's allocation fails; an inline key
    /// needs none. On failure the trie is as before.
    pub fn find_mut<Q: TrieKey>(&mut self, key: &Q) -> Result<&mut V, FindError>
        ensures* writes_back { sem 𝓛
            (lends_if_ok K.row V.row K.TrieKey.own K.PartialEq.own self.entry
            (Q.encoding key.now) result) }
        ensures value { IfOk result (λ value. value_at self.old (Q.encoding key.now)
            ≡ Some value.now) }
        ensures absent { IfErr result (λ e. e ≡ FindError.Absent
            → value_at self.old (Q.encoding key.now) ≡ None) }
        ensures inline { Q.is_inline key.now → IfErr result (λ e. e ≡ FindError.Absent) }
    {
        let list = match key.encode(self.allocator()) {
            Ok(list) => list,
            Err(_) => return Err(FindError::Memory),
        };
        match self.at_mut(&list) {
            Some(value) => Ok(value),
            None => Err(FindError::Absent),
        }
    }

    /// The value at the longest stored list that is a prefix of the key's encoding, for writing. A
    /// caller's proof learns from this call what the trie ends as.
    ///
    /// # Errors
    ///
    /// `Absent`: there is no such list. `Memory`: the encoding's allocation fails; an inline key
    /// needs none. On failure the trie is as before.
    pub fn find_ancestor_mut<Q: TrieKey>(&mut self, key: &Q) -> Result<&mut V, FindError>
        ensures* writes_back { sem 𝓛
            (lends_above K.row V.row K.TrieKey.own K.PartialEq.own self.entry
            (Q.encoding key.now) result) }
        ensures value { IfOk result
            (λ value. IsValueAbove self.old (Q.encoding key.now) (Some value.now)) }
        ensures absent { IfErr result (λ e. e ≡ FindError.Absent
            → IsAncestor self.old (Q.encoding key.now) None) }
        ensures inline { Q.is_inline key.now → IfErr result (λ e. e ≡ FindError.Absent) }
    {
        let Ok(list) = key.encode(self.allocator()) else {
            return Err(FindError::Memory);
        };
        let Some(nearest) = self.stored_above(list) else {
            return Err(FindError::Absent);
        };
        match self.at_mut(&nearest) {
            Some(value) => Ok(value),
            None => unreachable!(),
        }
    }

    /// The longest stored list that is a prefix of a list, if there is one.
    fn stored_above(&self, list: Nibblet) -> Option<Nibblet>
        ensures { IsAncestor self.now list result }
    {
        let Some(found) = deepest_pair(self.root(), &list, 0) else {
            return None;
        };
        let mut nearest = list;
        nearest.truncate(found.1);
        Some(nearest)
    }

    /// The value at the key's encoding, for writing, or None where none is stored there.
    ///
    /// Once the value has been written, the trie has it there, and all else is as before. A
    /// caller's proof learns that from `find_mut` alone.
    ///
    /// # Errors
    ///
    /// `Memory`: the encoding's allocation fails; an inline key needs none. On failure the trie is
    /// as before.
    pub fn get_mut<Q: TrieKey>(&mut self, key: &Q) -> Result<Option<&mut V>, Memory>
        ensures* writes_back { sem 𝓛
            (lends_found K.row V.row K.TrieKey.own K.PartialEq.own self.entry
            (Q.encoding key.now) result) }
        ensures value { IfOk result (λ found. option_copied_mut found
            ≡ value_at self.old (Q.encoding key.now)) }
        ensures inline { Q.is_inline key.now → IsOk result }
    {
        absent_as_none(self.find_mut(key))
    }
}

/// The same result, in which None says what `Absent` says.
fn absent_as_none<'a, V>(found: Result<&'a mut V, FindError>) -> Result<Option<&'a mut V>, Memory>
    ensures same { result ≡ absent_as_none found.entry }
{
    match found {
        Ok(value) => Ok(Some(value)),
        Err(FindError::Memory) => Err(Memory),
        Err(FindError::Absent) => Ok(None),
    }
}

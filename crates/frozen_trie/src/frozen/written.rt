//! Values for writing. No pair moves, so what is written changes neither encodings nor links.
ghost use Rattle.std.specs.Borrow.{sem};
ghost use Rattle.std.specs.Option.{option_copied_mut};
ghost use Rattle.std.specs.Prelude.{◌≡◌, None, Some, IsOk, IfOk, IfErr};
ghost use Rattle.nibble_map.specs.Maps.{value_at};
ghost use Rattle.radix_trie.specs.Lends.{absent_as_none};
ghost use Rattle.frozen_trie.specs.Lends.{lends_second, lends_stored, lends_stored_found, lends_stored_if_ok};

use crate::frozen::FrozenTrie;
use encoded_keys::search::index_of;
use radix_keys::{AsNibbles, Encoding, Memory, NibbleSlice};
use radix_trie::FindError;

impl<K: AsNibbles, V> FrozenTrie<K, V> {
    /// The value at a list of nibbles, for writing, if one is stored there.
    fn at_mut(&mut self, list: &NibbleSlice<'_>) -> Option<&mut V>
        ensures* writes_back { sem 𝓛
            (lends_stored K.row V.row K.TrieKey.own K.PartialEq.own self.entry list.now result) }
        ensures value { option_copied_mut result ≡ value_at self.old list.now }
    {
        match index_of(&self.codes, &self.pairs, list) {
            Some(at) => Some(second(&mut self.pairs[at])),
            None => None,
        }
    }

    /// The value at the key's encoding, for writing, or that it is absent. A caller's proof learns
    /// from this call what the frozen trie ends as.
    ///
    /// # Errors
    ///
    /// `Absent`, exactly where no value is stored there; and memory for the encoding, which an
    /// inline key never meets. The frozen trie is as before then.
    pub fn find_mut<Q: AsNibbles>(&mut self, key: &Q) -> Result<&mut V, FindError>
        ensures* writes_back { sem 𝓛
            (lends_stored_if_ok K.row V.row K.TrieKey.own K.PartialEq.own self.entry
            (Q.encoding key.now) result) }
        ensures value { IfOk result (λ value. value_at self.old (Q.encoding key.now)
            ≡ Some value.now) }
        ensures absent { IfErr result (λ e. e ≡ FindError.Absent
            → value_at self.old (Q.encoding key.now) ≡ None) }
        ensures inline { Q.is_inline key.now → IfErr result (λ e. e ≡ FindError.Absent) }
        ensures lent { Q.is_lent key.now → IfErr result (λ e. e ≡ FindError.Absent) }
    {
        let list = match Encoding::of(self.alloc, key) {
            Ok(list) => list,
            Err(_) => return Err(FindError::Memory),
        };
        match self.at_mut(&list.as_slice()) {
            Some(value) => Ok(value),
            None => Err(FindError::Absent),
        }
    }

    /// The value at the key's encoding, for writing, or None where none is stored there.
    ///
    /// # Errors
    ///
    /// `Memory`: the encoding's allocation fails; a key that is inline, or lends its encoding,
    /// needs none. The frozen trie is as before then.
    pub fn get_mut<Q: AsNibbles>(&mut self, key: &Q) -> Result<Option<&mut V>, Memory>
        ensures* writes_back { sem 𝓛
            (lends_stored_found K.row V.row K.TrieKey.own K.PartialEq.own self.entry
            (Q.encoding key.now) result) }
        ensures value { IfOk result (λ found. option_copied_mut found
            ≡ value_at self.old (Q.encoding key.now)) }
        ensures inline { Q.is_inline key.now → IsOk result }
        ensures lent { Q.is_lent key.now → IsOk result }
    {
        absent_as_none(self.find_mut(key))
    }
}

/// The same result, in which None says what `Absent` says.
fn absent_as_none<'a, V>(found: Result<&'a mut V, FindError>) -> Result<Option<&'a mut V>, Memory>
    ensures same { result ≡ absent_as_none found.entry }
{
    match found {
        Ok(value) => Ok(Some(value)),
        Err(FindError::Memory) => Err(Memory),
        Err(FindError::Absent) => Ok(None),
    }
}

/// The value of a pair, for writing.
fn second<K, V>(pair: &mut (K, V)) -> &mut V
    ensures* writes_back { sem 𝓛 (lends_second K.row V.row pair.entry result) }
    ensures value { result.now ≡ pair.old.1 }
{
    &mut pair.1
}

//! Insertions that leave a stored pair as it is.
ghost use Rattle.std.specs.Borrow.{sem};
ghost use Rattle.std.specs.Option.{ForNone, UnwrapsOrElse, unwrap_or};
ghost use Rattle.std.specs.FinMap as map;
ghost use Rattle.std.specs.Prelude.{◌≡◌, ◌≢◌, ⊤, ◌<◌, ◌^◌, length, IsOk, IfOk, OnOk, IfErr, OnErr};
ghost use Rattle.nibble_map.specs.Maps.{IsStored, value_at};
ghost use Rattle.radix_trie.specs.Errors.{of_insert, of_try_insert};
ghost use Rattle.radix_trie.specs.Lends.{lends_or_stored};
ghost use Rattle.radix_trie.specs.Refusals.{IsFullAt, RefusesInsert, RefusesTryInsert};
ghost use Rattle.radix_trie.specs.Values.{IsFilled};

use crate::error::{InsertError, InsertWhy, TryInsertWhy};
use crate::trie::Trie;
use crate::trie::edit::{encoding_of, refused};
use radix_keys::{Nibblet, Refused, TrieKey};
use radix_nodes::trie_node::KeyValue;

/// The error that returns a pair.
fn not_stored<K, V>(why: TryInsertWhy, pair: KeyValue<K, V>) -> Refused<TryInsertWhy, (K, V)>
    ensures why { result.why ≡ why }
    ensures back { result.back ≡ (pair.key, pair.value) }
{
    let KeyValue { key, value } = pair;
    Refused {
        why,
        back: (key, value),
    }
}

/// The error of a pair that replaces nothing by that of an insertion into a trie, where no key is
/// outside.
fn of_insertion<K, V>(error: InsertError<K, V>) -> Refused<TryInsertWhy, (K, V)>
    requires { error.why ≢ InsertWhy.Outside }
    ensures why { of_try_insert result.why ≡ of_insert error.why }
    ensures back { result.back ≡ (error.key, error.value) }
{
    let InsertError { why, key, value } = error;
    let why = match why {
        InsertWhy::Memory => TryInsertWhy::Memory,
        InsertWhy::Full => TryInsertWhy::Full,
        InsertWhy::Outside => unreachable!(),
    };
    Refused {
        why,
        back: (key, value),
    }
}

impl<K: TrieKey + Drop, V: Drop> Trie<K, V> {
    /// Stores the pair at the key's encoding, where nothing is stored there.
    ///
    /// A new pair takes two lookups: one to see that nothing is stored, and one to store it.
    ///
    /// # Errors
    ///
    /// Decided in this order. `Memory`: the encoding's allocation fails; an inline key needs none.
    /// `Occupied`: a pair is stored there. `Full`: `usize::MAX` pairs are stored. `Memory`: an
    /// allocation for the change fails. On failure the trie is as before, and the error holds the
    /// key and value that were passed.
    pub fn try_insert(&mut self, key: K, value: V) -> Result<(), Refused<TryInsertWhy, (K, V)>>
        ensures stored { OnOk result
            (self.new ≡ map.insert self.old (K.encoding key) (key, value)) }
        ensures vacant { OnOk result (IsStored self.old (K.encoding key) → ⊥) }
        ensures is_value { OnOk result (K.is_value key) }

        ensures handed_back { IfErr result (λ e. e.back ≡ (key, value)) }
        ensures unchanged { OnErr result (self.new ≡ self.old) }

        ensures room { OnOk result (IsFullAt self.old (K.encoding key) → ⊥) }
        ensures why { IfErr result
            (λ e. RefusesTryInsert self.old (K.encoding key) (K.is_inline key) e.why) }
    {
        let pair = KeyValue { key, value };
        let Ok(list) = encoding_of(self.alloc, &pair.key) else {
            return Err(not_stored(TryInsertWhy::Memory, pair));
        };
        if self.contains(&list) {
            return Err(not_stored(TryInsertWhy::Occupied, pair));
        }
        match self.insert_at(&list, pair) {
            Ok(_) => Ok(()),
            Err(error) => Err(of_insertion(error)),
        }
    }

    /// The value at the key's encoding, for writing, where the default is stored first if nothing
    /// is. If a pair is stored there, its key stays, and the key and the default are dropped.
    ///
    /// A caller's proof learns from this call what the trie ends as. A stored encoding takes two
    /// lookups, and a new one three.
    ///
    /// # Errors
    ///
    /// Those of `insert`, in its order. On failure the trie is as before, and the error holds the
    /// key and default.
    pub fn get_or_insert(&mut self, key: K, default: V) -> Result<&mut V, InsertError<K, V>>
        ensures* writes_back { sem 𝓛
            (lends_or_stored K.row V.row K.TrieKey.own K.PartialEq.own self.entry
            (K.encoding key) key result) }
        ensures value { IfOk result
            (λ value. value.now ≡ unwrap_or (value_at self.old (K.encoding key)) default) }
        ensures is_value { OnOk result (K.is_value key) }

        ensures handed_back { IfErr result (λ e. (e.key ≡ key) × (e.value ≡ default)) }

        ensures inline_stored { K.is_inline key → IsStored self.old (K.encoding key)
            → IsOk result }
        ensures room { OnOk result (IsFullAt self.old (K.encoding key) → ⊥) }
        ensures why { IfErr result
            (λ e. RefusesInsert self.old (K.encoding key) ⊤ (K.is_inline key) e.why) }
    {
        let Ok(list) = encoding_of(self.alloc, &key) else {
            return Err(refused(
                InsertWhy::Memory,
                KeyValue {
                    key,
                    value: default,
                },
            ));
        };
        self.filled_at(&list, key, move || default)
    }

    /// What `get_or_insert` does, with the key's encoding in hand, and a default that is made where
    /// nothing is stored.
    pub(crate) fn filled_at<F: FnOnce() -> V>(
        &mut self,
        list: &Nibblet,
        key: K,
        default: F,
    ) -> Result<&mut V, InsertError<K, V>>
        requires encoding { list.now ≡ K.encoding key }
        requires fits { length list.now < 2 ^ 64 }
        requires callable { ForNone (value_at self.old list.now) (F.pre default) }
        ensures* writes_back { sem 𝓛
            (lends_or_stored K.row V.row K.TrieKey.own K.PartialEq.own self.entry list.now
            key result) }
        ensures value { IfOk result (λ value.
            UnwrapsOrElse (value_at self.old list.now) (F.post default) value.now) }
        ensures handed_back { IfErr result (λ e. (e.key ≡ key) × F.post default e.value) }
        ensures stored { IsStored self.old list.now → IsOk result }
        ensures room { OnOk result (IsFullAt self.old list.now → ⊥) }
        ensures why { IfErr result (λ e. RefusesInsert self.old list.now ⊤ ⊤ e.why) }
    {
        self.fill(list, key, default)?;
        match self.at_mut(list) {
            Some(value) => Ok(value),
            None => unreachable!(),
        }
    }

    /// Stores the key with a default that is made then, where nothing is stored at its encoding;
    /// else both are dropped.
    fn fill<F: FnOnce() -> V>(
        &mut self,
        list: &Nibblet,
        key: K,
        default: F,
    ) -> Result<(), InsertError<K, V>>
        requires encoding { list.now ≡ K.encoding key }
        requires fits { length list.now < 2 ^ 64 }
        requires callable { ForNone (value_at self.old list.now) (F.pre default) }
        ensures filled { OnOk result ((v : V)
            × UnwrapsOrElse (value_at self.old list.now) (F.post default) v
            × IsFilled self.old list.now (key, v) self.new) }
        ensures handed_back { IfErr result (λ e. (e.key ≡ key) × F.post default e.value) }
        ensures unchanged { OnErr result (self.new ≡ self.old) }
        ensures stored { IsStored self.old list.now → IsOk result }
        ensures room { OnOk result (IsFullAt self.old list.now → ⊥) }
        ensures why { IfErr result (λ e. RefusesInsert self.old list.now ⊤ ⊤ e.why) }
    {
        if self.contains(list) {
            return Ok(());
        }
        let value = default();
        self.insert_at(list, KeyValue { key, value })?;
        Ok(())
    }
}

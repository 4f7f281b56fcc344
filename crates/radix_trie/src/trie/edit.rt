//! Changes: pairs are stored and changed.
ghost use Rattle.std.specs.Prelude.{◌≡◌, ⊤, ◌<◌, ◌^◌, length, true, false, IsOk, IfOk, OnOk, IfErr, OnErr, MatchOption};
ghost use Rattle.std.specs.Fn.{FnOnceReturnsAtMut, FnOnceTakesAtMut};
ghost use Rattle.std.specs.Option.{ForSome};
ghost use Rattle.std.specs.FinMap as map;
ghost use Rattle.nibble_map.specs.Maps.{IsStored, value_at, with_value};
ghost use Rattle.radix_trie.specs.Refusals.{IsFullAt, RefusesInsert};

use crate::error::{InsertError, InsertWhy};
use crate::trie::Trie;
use radix_keys::{Memory, Nibblet, TrieKey};
use radix_nodes::insertion::insert::insert;
use radix_nodes::trie_node::KeyValue;
use std::alloc::Global;

/// The key's encoding. Its count of nibbles is within `usize`.
pub(crate) fn encoding_of<Q: TrieKey>(alloc: Global, key: &Q) -> Result<Nibblet, Memory>
    ensures ok { IfOk result (λ list. list ≡ Q.encoding key.now) }
    ensures fits { IfOk result (λ list. length list < 2 ^ 64) }
    ensures is_value { OnOk result (Q.is_value key.now) }
    ensures inline { Q.is_inline key.now → IsOk result }
{
    let list = key.encode(alloc)?;
    let _nibbles = list.len();
    Ok(list)
}

/// The error that returns a pair.
pub(crate) fn refused<K, V>(why: InsertWhy, pair: KeyValue<K, V>) -> InsertError<K, V>
    ensures why { result.why ≡ why }
    ensures key { result.key ≡ pair.key }
    ensures value { result.value ≡ pair.value }
{
    let KeyValue { key, value } = pair;
    InsertError { why, key, value }
}

impl<K: TrieKey + Drop, V: Drop> Trie<K, V> {
    /// Stores the pair at the key's encoding, and returns the value that was stored there. A stored
    /// key is replaced by the new one too.
    ///
    /// # Errors
    ///
    /// Decided in this order. `Memory`: the encoding's allocation fails; an inline key needs none.
    /// `Full`: `usize::MAX` pairs are stored, and the encoding isn't among them. `Memory`: an
    /// allocation for the change fails; a stored encoding needs none. On failure the trie is as
    /// before, and the error holds the key and value that were passed.
    ///
    /// # Examples
    ///
    /// ```
    /// # use nifazombi::{radix_trie::Trie, rattle_std::alloc::Global};
    /// let mut trie = Trie::new(Global);
    /// assert_eq!(trie.insert("haskell", 18)?, None);
    /// assert_eq!(trie.insert("haskell", 36)?, Some(18));
    /// # Ok::<(), Box<dyn std::error::Error>>(())
    /// ```
    pub fn insert(&mut self, key: K, value: V) -> Result<Option<V>, InsertError<K, V>>
        ensures old_value { IfOk result (λ old. old ≡ value_at self.old (K.encoding key)) }
        ensures stored { OnOk result
            (self.new ≡ map.insert self.old (K.encoding key) (key, value)) }
        ensures is_value { OnOk result (K.is_value key) }

        ensures handed_back { IfErr result (λ e. (e.key ≡ key) × (e.value ≡ value)) }
        ensures unchanged { OnErr result (self.new ≡ self.old) }

        ensures inline_stored { K.is_inline key → IsStored self.old (K.encoding key)
            → IsOk result }
        ensures room { OnOk result (IsFullAt self.old (K.encoding key) → ⊥) }
        ensures why { IfErr result
            (λ e. RefusesInsert self.old (K.encoding key) ⊤ (K.is_inline key) e.why) }
    {
        let list = match encoding_of(self.alloc, &key) {
            Ok(list) => list,
            Err(_) => return Err(refused(InsertWhy::Memory, KeyValue { key, value })),
        };
        self.insert_at(&list, KeyValue { key, value })
    }

    /// What `insert` does, with the key's encoding in hand.
    pub(crate) fn insert_at(
        &mut self,
        list: &Nibblet,
        pair: KeyValue<K, V>,
    ) -> Result<Option<V>, InsertError<K, V>>
        requires encoding { list.now ≡ K.encoding pair.key }
        requires fits { length list.now < 2 ^ 64 }
        ensures old_value { IfOk result (λ old. old ≡ value_at self.old list.now) }
        ensures stored { OnOk result
            (self.new ≡ map.insert self.old list.now (pair.key, pair.value)) }
        ensures handed_back { IfErr result
            (λ e. (e.key ≡ pair.key) × (e.value ≡ pair.value)) }
        ensures unchanged { OnErr result (self.new ≡ self.old) }
        ensures room { OnOk result (IsFullAt self.old list.now → ⊥) }
        ensures why { IfErr result (λ e. RefusesInsert self.old list.now ⊤ ⊤ e.why) }
    {
        if self.has_no_room_for(list) {
            return Err(refused(InsertWhy::Full, pair));
        }
        let change = match insert(&mut self.root, self.alloc, list, 0, pair) {
            Ok(change) => change,
            Err(pair) => return Err(refused(InsertWhy::Memory, pair)),
        };
        self.nodes += change.nodes as u128;
        self.nibbles += change.nibbles as u128;
        match change.was {
            Some(pair) => Ok(Some(pair.value)),
            None => {
                self.length += 1;
                Ok(None)
            }
        }
    }

    /// Calls the closure once on the value at a list. False: there is none, and nothing changed.
    pub(crate) fn change_at<F: FnOnce(&mut V)>(&mut self, list: &Nibblet, f: F) -> bool
        requires callable { ForSome (value_at self.old list.now) (FnOnceTakesAtMut F.FnOnce f) }
        ensures { MatchOption (value_at self.old list.now)
            ((result ≡ false) × (self.new ≡ self.old))
            (λ v. (result ≡ true) × (w : V) × FnOnceReturnsAtMut F.FnOnce f v tt w
            × (self.new ≡ with_value self.old list.now w)) }
    {
        match self.at_mut(list) {
            Some(value) => {
                f(value);
                true
            }
            None => false,
        }
    }

    /// Changes the value at the key's encoding by one call of the closure, or stores the default
    /// where there is none. A stored encoding takes one lookup, and a new one two.
    ///
    /// Where a value is stored, its key stays, and the key and the default that were passed are
    /// dropped. Where none is, the closure isn't called. The closure has to be callable on a stored
    /// value alone.
    ///
    /// # Errors
    ///
    /// Those of `insert`, in its order. They come before the closure's call: the trie is as before
    /// then, and the error holds the key and default that were passed.
    pub fn map_with_default<F: Fn(&mut V)>(
        &mut self,
        key: K,
        f: F,
        default: V,
    ) -> Result<(), InsertError<K, V>>
        requires callable { ForSome (value_at self.old (K.encoding key))
            (FnOnceTakesAtMut F.FnOnce f) }
        ensures mapped { OnOk result
            (MatchOption (value_at self.old (K.encoding key))
            (self.new ≡ map.insert self.old (K.encoding key) (key, default))
            (λ v. (w : V) × FnOnceReturnsAtMut F.FnOnce f v tt w
            × (self.new ≡ with_value self.old (K.encoding key) w))) }
        ensures is_value { OnOk result (K.is_value key) }

        ensures handed_back { IfErr result (λ e. (e.key ≡ key) × (e.value ≡ default)) }
        ensures unchanged { OnErr result (self.new ≡ self.old) }

        ensures inline_stored { K.is_inline key → IsStored self.old (K.encoding key)
            → IsOk result }
        ensures room { OnOk result (IsFullAt self.old (K.encoding key) → ⊥) }
        ensures why { IfErr result
            (λ e. RefusesInsert self.old (K.encoding key) ⊤ (K.is_inline key) e.why) }
    {
        let list = match encoding_of(self.alloc, &key) {
            Ok(list) => list,
            Err(_) => return Err(refused(
                InsertWhy::Memory,
                KeyValue {
                    key,
                    value: default,
                },
            )),
        };
        if self.change_at(&list, f) {
            return Ok(());
        }
        self.insert_at(
            &list,
            KeyValue {
                key,
                value: default,
            },
        )?;
        Ok(())
    }
}

//! A key's place in a trie: a pair is stored there or none, and one acts on it then.
ghost use Rattle.std.specs.FinMap as map;
ghost use Rattle.std.specs.Fn.{FnOnceReturnsAtMut, FnOnceTakesAtMut};
ghost use Rattle.std.specs.Borrow.{sem};
ghost use Rattle.std.specs.Option.{ForSome, option_copied_mut};
ghost use Rattle.std.specs.Prelude.{◌≡◌, ◌↔◌, ⊤, ℕ, List, None, IsTrue, IsOk, IfOk, OnOk, IfErr, OnErr, MatchOption, option_copied};
ghost use Rattle.nibble_map.specs.Maps.{IsStored, value_at, with_value};
ghost use Rattle.nibble_map.specs.Nibbles.{IsShort};
ghost use Rattle.radix_trie.specs.Lends.{lends_behind};
ghost use Rattle.radix_trie.specs.Refusals.{IsFullAt, JoinsAreShort, RefusesInsert};

use crate::error::InsertError;
use crate::locus::PathList;
use crate::trie::Trie;
use radix_keys::{Memory, Nibblet, Refused, TrieKey};
use radix_nodes::trie_node::KeyValue;

// The parameter `P` lets a caller's proof follow the trie past the entry's end; it is always
// `Nibblet`.
// The list stands before the key: the proof of `get_mut` shares the second field beside the first.
/// The place of a key in a trie: a pair is stored at the key's encoding, or none.
///
/// `Trie::entry` encodes the key, once for all calls. An entry keeps no node, so each of its calls
/// but `key` and `into_key` goes down the trie.
pub struct Entry<'a, K: TrieKey, V, P: PathList = Nibblet> {
    trie: &'a mut Trie<K, V>,
    list: P,
    key: K,
    ghost encoded: { P.list list ≡ K.encoding key },
}

impl<K: TrieKey + Drop, V, P: PathList> Drop for Entry<'_, K, V, P> {
    /// Ends the entry: the trie stays as the entry leaves it.
    fn drop(self)
        ensures { self.exit.0.now ≡ self.entry.trie.now }
    {
        let Entry {
            trie: _,
            key: _,
            list: _,
        } = self;
    }
}

impl<K: TrieKey, V> Trie<K, V> {
    ghost use Rattle.std.specs.Borrow.{sem};
    ghost use Rattle.radix_trie.specs.Entries.{entry_key, entry_lender, entry_map, entry_rests_if_err};

    /// The key's place, to look up a pair there, and to store, change or remove it, with one
    /// encoding of the key. It goes down to no node.
    ///
    /// # Errors
    ///
    /// The encoding's allocation fails; an inline key needs none. On failure the trie is as before,
    /// and the error holds the key that was passed.
    ///
    /// # Examples
    ///
    /// ```
    /// # use nifazombi::{radix_trie::Trie, rattle_std::alloc::Global};
    /// let mut counts = Trie::new(Global);
    /// for word in ["tea", "ten", "tea"] {
    ///     *counts.entry(word)?.or_insert(0)? += 1;
    /// }
    /// assert!(counts.get(&"tea")? == Some(&2) && counts.get(&"ten")? == Some(&1));
    /// # Ok::<(), Box<dyn std::error::Error>>(())
    /// ```
    ///
    /// `count` in `crates/trie_examples/src/tallies.rt` proves that it counts that word alone.
    pub fn entry(&mut self, key: K) -> Result<Entry<'_, K, V>, Refused<Memory, K>>
        ensures* rests { sem 𝓛
            (entry_rests_if_err K.row V.row K.TrieKey.own K.PartialEq.own self.entry result) }
        ensures map { IfOk result (λ entry. entry_map entry ≡ self.old) }
        ensures key { IfOk result (λ entry. entry_key entry ≡ key) }
        ensures same_reference { IfOk result
            (λ entry. entry_lender entry ≡ self.entry.ghost_name) }
        ensures is_value { OnOk result (K.is_value key) }
        ensures handed_back { IfErr result (λ e. e.back ≡ key) }
        ensures inline { K.is_inline key → IsOk result }
    {
        match key.encode(self.allocator()) {
            Ok(list) => Ok(Entry {
                trie: self,
                key,
                list,
            }),
            Err(_) => Err(Refused {
                why: Memory,
                back: key,
            }),
        }
    }
}

/// The value that the trie behind a reference holds at an entry's list, for writing.
fn value_at_list<'s, 'a, K: TrieKey, V, P: PathList>(
    trie: &'s mut &'a mut Trie<K, V>,
    list: &'s P,
) -> Option<&'s mut V>
    ensures* writes_back { sem 𝓛
        (lends_behind K.row V.row K.TrieKey.own K.PartialEq.own trie.entry (P.list list.now)
        result) }
    ensures value { option_copied_mut result ≡ value_at trie.old.now (P.list list.now) }
{
    trie.at_mut(list.nibbles())
}

impl<'a, K: TrieKey, V, P: PathList> Entry<'a, K, V, P> {
    ghost use Rattle.std.specs.Borrow.{sem};
    ghost use Rattle.std.specs.Option.{option_copied_mut};
    ghost use Rattle.radix_trie.specs.Entries.{entry_key, entry_lends_own, entry_list, entry_map};

    /// The key that was passed to `Trie::entry`.
    pub fn key(&self) -> &K
        ensures { result.now ≡ entry_key self.now }
    {
        &self.key
    }

    /// The key that was passed to `Trie::entry`. The entry is spent, and the trie stays as it is.
    pub fn into_key(self) -> K
        ensures key { result ≡ entry_key self.entry }
        ensures unchanged { self.exit.0.now ≡ entry_map self.entry }
    {
        let Entry {
            trie: _,
            key,
            list: _,
        } = self;
        key
    }

    /// The value that is stored at the key's encoding, if there is one. It allocates nothing.
    pub fn get(&self) -> Option<&V>
        ensures value { option_copied result
            ≡ value_at (entry_map self.now) (entry_list self.now) }
    {
        self.trie.at(self.list.nibbles())
    }

    /// Whether a pair is stored at the key's encoding. It allocates nothing.
    pub fn is_occupied(&self) -> bool
        ensures stored { IsTrue result
            ↔ IsStored (entry_map self.now) (entry_list self.now) }
    {
        self.trie.contains(self.list.nibbles())
    }

    /// The value that is stored at the key's encoding, for writing, if there is one. It allocates
    /// nothing.
    ///
    /// Once the value has been written, the entry's map has it there, and all else is as before.
    pub fn get_mut(&mut self) -> Option<&mut V>
        ensures* writes_back { sem 𝓛
            (entry_lends_own K.row V.row P.row K.TrieKey.own K.PartialEq.own P.PathList
            self.entry result) }
        ensures value { option_copied_mut result
            ≡ value_at (entry_map self.old) (entry_list self.old) }
    {
        value_at_list(&mut self.trie, &self.list)
    }
}

impl<'a, K: TrieKey + Drop, V: Drop, P: PathList> Entry<'a, K, V, P> {
    ghost use Rattle.std.specs.Borrow.{sem};
    ghost use Rattle.std.specs.Option.{ForNone, UnwrapsOrElse, unwrap_or};
    ghost use Rattle.radix_trie.specs.Entries.{entry_key, entry_lender, entry_lends, entry_list, entry_map};

    /// Calls the closure once on the value that is stored at the key's encoding, where there is
    /// one.
    ///
    /// The closure has to be callable on a stored value alone. It takes one lookup.
    pub fn and_modify<F: FnOnce(&mut V)>(self, f: F) -> Self
        requires callable { ForSome (value_at (entry_map self) (entry_list self))
            (FnOnceTakesAtMut F.FnOnce f) }
        ensures same_reference { entry_lender result ≡ entry_lender self.entry }
        ensures same_key { entry_key result ≡ entry_key self.entry }
        ensures modified { MatchOption (value_at (entry_map self.entry) (entry_list self.entry))
            (entry_map result ≡ entry_map self.entry)
            (λ v. (w : V) × FnOnceReturnsAtMut F.FnOnce f v tt w
            × (entry_map result
            ≡ with_value (entry_map self.entry) (entry_list self.entry) w)) }
    {
        let Entry { trie, key, list } = self;
        trie.change_at(list.nibbles(), f);
        Entry { trie, key, list }
    }

    /// Stores the pair of the entry's key and a value, and returns the value that was stored there.
    /// A stored key is replaced by the entry's too. The entry is spent.
    ///
    /// It takes one lookup.
    ///
    /// # Errors
    ///
    /// Decided in this order. `Full`: `usize::MAX` pairs are stored, and the key's encoding isn't
    /// among them. `Memory`: an allocation for the change fails. Where a pair is stored there, the
    /// call never fails. On failure the trie is as before, and the error holds the key and value.
    pub fn insert(self, value: V) -> Result<Option<V>, InsertError<K, V>>
        ensures old_value { IfOk result
            (λ old. old ≡ value_at (entry_map self.entry) (entry_list self.entry)) }
        ensures stored { OnOk result
            (self.exit.0.now ≡ map.insert (entry_map self.entry) (entry_list self.entry)
            (entry_key self.entry, value)) }

        ensures handed_back { IfErr result
            (λ e. (e.key ≡ entry_key self.entry) × (e.value ≡ value)) }
        ensures unchanged { OnErr result (self.exit.0.now ≡ entry_map self.entry) }

        ensures occupied { IsStored (entry_map self.entry) (entry_list self.entry)
            → IsOk result }
        ensures room { OnOk result
            (IsFullAt (entry_map self.entry) (entry_list self.entry) → ⊥) }
        ensures why { IfErr result
            (λ e. RefusesInsert (entry_map self.entry) (entry_list self.entry) ⊤ ⊤ e.why) }
    {
        let Entry { trie, key, list } = self;
        let list = list.into_nibbles();
        let _nibbles = list.len();
        trie.insert_at(&list, KeyValue { key, value })
    }

    /// The value that is stored at the key's encoding, for writing, where the default is stored
    /// first if nothing is. The entry is spent.
    ///
    /// If a pair is stored there, its key stays, and the entry's key and the default are dropped. A
    /// caller's proof learns from this call what the trie ends as. A stored encoding takes two
    /// lookups, and a new one three.
    ///
    /// # Errors
    ///
    /// Those of `insert`, in its order. On failure the trie is as before, and the error holds the
    /// key and default.
    pub fn or_insert(self, default: V) -> Result<&'a mut V, InsertError<K, V>>
        ensures* writes_back { sem 𝓛
            (entry_lends K.row V.row P.row K.TrieKey.own K.PartialEq.own P.PathList
            self.entry result) }
        ensures value { IfOk result (λ value. value.now
            ≡ unwrap_or (value_at (entry_map self.entry) (entry_list self.entry)) default) }

        ensures handed_back { IfErr result
            (λ e. (e.key ≡ entry_key self.entry) × (e.value ≡ default)) }

        ensures occupied { IsStored (entry_map self.entry) (entry_list self.entry)
            → IsOk result }
        ensures room { OnOk result
            (IsFullAt (entry_map self.entry) (entry_list self.entry) → ⊥) }
        ensures why { IfErr result
            (λ e. RefusesInsert (entry_map self.entry) (entry_list self.entry) ⊤ ⊤ e.why) }
    {
        let Entry { trie, key, list } = self;
        let list = list.into_nibbles();
        let _nibbles = list.len();
        trie.filled_at(&list, key, move || default)
    }

    /// The value that is stored at the key's encoding, for writing, where the value that the
    /// closure makes is stored first if nothing is. The entry is spent.
    ///
    /// The closure is called once, where nothing is stored there, and else not at all: it has to be
    /// callable in that case alone. If a pair is stored there, its key stays, and the entry's key
    /// and the closure are dropped. A caller's proof learns from this call what the trie ends as. A
    /// stored encoding takes two lookups, and a new one three.
    ///
    /// # Errors
    ///
    /// Those of `insert`, in its order, after the closure's call. On failure the trie is as before,
    /// and the error holds the key and the value that was made.
    pub fn or_insert_with<F: FnOnce() -> V>(
        self,
        default: F,
    ) -> Result<&'a mut V, InsertError<K, V>>
        requires callable { ForNone (value_at (entry_map self) (entry_list self))
            (F.pre default) }
        ensures* writes_back { sem 𝓛
            (entry_lends K.row V.row P.row K.TrieKey.own K.PartialEq.own P.PathList
            self.entry result) }
        ensures value { IfOk result (λ value.
            UnwrapsOrElse (value_at (entry_map self.entry) (entry_list self.entry))
            (F.post default) value.now) }

        ensures handed_back { IfErr result
            (λ e. (e.key ≡ entry_key self.entry) × F.post default e.value) }

        ensures occupied { IsStored (entry_map self.entry) (entry_list self.entry)
            → IsOk result }
        ensures room { OnOk result
            (IsFullAt (entry_map self.entry) (entry_list self.entry) → ⊥) }
        ensures why { IfErr result
            (λ e. RefusesInsert (entry_map self.entry) (entry_list self.entry) ⊤ ⊤ e.why) }
    {
        let Entry { trie, key, list } = self;
        let list = list.into_nibbles();
        let _nibbles = list.len();
        trie.filled_at(&list, key, default)
    }

    /// Removes the pair at the key's encoding, and returns the stored key and its value. Where none
    /// is stored there, nothing changes. The entry is spent, and its key is dropped.
    ///
    /// It takes one lookup.
    ///
    /// # Errors
    ///
    /// `Memory`: an allocation fails, for joining two fragments, as `Trie::remove` says. On failure
    /// the trie is as before.
    pub fn remove(self) -> Result<Option<(K, V)>, Memory>
        ensures old_pair { IfOk result
            (λ old. old ≡ map.get (entry_map self.entry) (entry_list self.entry)) }
        ensures removed { OnOk result
            (self.exit.0.now ≡ map.remove (entry_map self.entry) (entry_list self.entry)) }
        ensures unchanged { OnErr result (self.exit.0.now ≡ entry_map self.entry) }

        ensures none { map.get (entry_map self.entry) (entry_list self.entry) ≡ None
            → IsOk result }
        ensures short { ((e : List ℕ) → IsStored (entry_map self.entry) e → IsShort e)
            → IsOk result }
        ensures join { JoinsAreShort (entry_map self.entry) (entry_list self.entry)
            → IsOk result }
    {
        let Entry { trie, key: _, list } = self;
        trie.take_entry_at(list.nibbles())
    }
}

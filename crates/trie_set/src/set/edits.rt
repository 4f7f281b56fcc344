//! Changes of a set.
ghost use Rattle.std.specs.FinMap as map;
ghost use Rattle.std.specs.Option.{ForSome};
ghost use Rattle.std.specs.Prelude.{◌≡◌, ◌-◌, ℕ, List, None, not, ⊤, IsTrue, IsOk, IfOk, OnOk, IfErr, OnErr, MatchOption, length, option_map, slice_get};
ghost use Rattle.nibble_map.specs.Maps.{IsStored};
ghost use Rattle.nibble_map.specs.Nibbles.{IsShort};
ghost use Rattle.radix_trie.specs.Refusals.{IsFullAt, JoinsAreShort, RefusesInsert};
ghost use Rattle.trie_set.specs.Sets.{key_at, keys_in, with_key};

use crate::set::TrieSet;
use radix_trie::{InsertError, InsertWhy, Memory, Refused, TrieKey, TryInsertWhy};

impl<K: TrieKey + Drop> TrieSet<K> {
    /// Stores the key at its encoding, and returns whether nothing was stored there. A stored key
    /// stays, and the one that was handed in is dropped then.
    ///
    /// # Errors
    ///
    /// In the order in which they are decided: memory for the encoding; `Full`, where `usize::MAX`
    /// keys are stored and the encoding isn't among them; memory for the change, which a stored
    /// encoding never needs. The set is as before then, and the error holds the same key.
    pub fn insert(&mut self, key: K) -> Result<bool, InsertError<K, ()>>
        ensures new { IfOk result
            (λ new. new ≡ not (map.contains_key self.old (K.encoding key))) }
        ensures stored { OnOk result (self.new ≡ with_key self.old (K.encoding key) key) }
        ensures is_value { IfOk result (λ new. IsTrue new → K.is_value key) }

        ensures handed_back { IfErr result (λ e. e.key ≡ key) }
        ensures unchanged { OnErr result (self.new ≡ self.old) }

        ensures inline_stored { K.is_inline key → IsStored self.old (K.encoding key)
            → IsOk result }
        ensures room { OnOk result (IsFullAt self.old (K.encoding key) → ⊥) }
        ensures why { IfErr result
            (λ e. RefusesInsert self.old (K.encoding key) ⊤ (K.is_inline key) e.why) }
    {
        match self.trie.try_insert(key, ()) {
            Ok(()) => Ok(true),
            Err(Refused { why, back }) => match why {
                TryInsertWhy::Occupied => Ok(false),
                TryInsertWhy::Full => Err(refusal(InsertWhy::Full, back.0)),
                TryInsertWhy::Memory => Err(refusal(InsertWhy::Memory, back.0)),
            },
        }
    }

    /// Takes the key at the key's encoding away, and returns whether one was stored there.
    ///
    /// # Errors
    ///
    /// An allocation fails, for the encoding or for joining two fragments, which have more than 32
    /// nibbles together then. The set is as before then.
    pub fn remove<Q: TrieKey>(&mut self, key: &Q) -> Result<bool, Memory>
        ensures was_stored { IfOk result
            (λ was. was ≡ map.contains_key self.old (Q.encoding key.now)) }
        ensures removed { OnOk result (self.new ≡ map.remove self.old (Q.encoding key.now)) }
        ensures unchanged { OnErr result (self.new ≡ self.old) }

        ensures inline_absent { Q.is_inline key.now → map.get self.old (Q.encoding key.now) ≡ None
            → IsOk result }
        ensures inline_short { Q.is_inline key.now
            → ((e : List ℕ) → IsStored self.old e → IsShort e)
            → IsOk result }
        ensures join { Q.is_inline key.now → JoinsAreShort self.old (Q.encoding key.now)
            → IsOk result }
    {
        Ok(self.take(key)?.is_some())
    }

    /// Takes the key at the key's encoding away, and returns the stored key. Where none is stored
    /// there, nothing changes.
    ///
    /// # Errors
    ///
    /// Those of `remove`. The set is as before then.
    pub fn take<Q: TrieKey>(&mut self, key: &Q) -> Result<Option<K>, Memory>
        ensures taken { IfOk result (λ old. old ≡ key_at self.old (Q.encoding key.now)) }
        ensures removed { OnOk result (self.new ≡ map.remove self.old (Q.encoding key.now)) }
        ensures unchanged { OnErr result (self.new ≡ self.old) }

        ensures inline_absent { Q.is_inline key.now → map.get self.old (Q.encoding key.now) ≡ None
            → IsOk result }
        ensures inline_short { Q.is_inline key.now
            → ((e : List ℕ) → IsStored self.old e → IsShort e)
            → IsOk result }
        ensures join { Q.is_inline key.now → JoinsAreShort self.old (Q.encoding key.now)
            → IsOk result }
    {
        Ok(key_of(self.trie.remove_entry(key)?))
    }

    /// Takes the first key away, in the order of the encodings, and returns it; None where no key
    /// is stored. No key is encoded.
    ///
    /// # Errors
    ///
    /// An allocation fails for joining two fragments, which have more than 32 nibbles together
    /// then. The set is as before then.
    pub fn pop_first(&mut self) -> Result<Option<K>, Memory>
        ensures first { IfOk result (λ first. first ≡ slice_get (keys_in self.old) 0) }
        ensures removed { IfOk result (λ first. MatchOption first (self.new ≡ self.old)
            (λ key. self.new ≡ map.remove self.old (K.encoding key))) }
        ensures unchanged { OnErr result (self.new ≡ self.old) }
        ensures short { ((e : List ℕ) → IsStored self.old e → IsShort e) → IsOk result }
        ensures join { ForSome (slice_get (keys_in self.old) 0)
            (λ key. JoinsAreShort self.old (K.encoding key)) → IsOk result }
    {
        Ok(key_of(self.trie.pop_first()?))
    }

    /// Takes the last key away, in the order of the encodings, and returns it; None where no key is
    /// stored. No key is encoded.
    ///
    /// # Errors
    ///
    /// Those of `pop_first`. The set is as before then.
    pub fn pop_last(&mut self) -> Result<Option<K>, Memory>
        ensures last { IfOk result (λ last. last
            ≡ slice_get (keys_in self.old) (length (keys_in self.old) - 1)) }
        ensures removed { IfOk result (λ last. MatchOption last (self.new ≡ self.old)
            (λ key. self.new ≡ map.remove self.old (K.encoding key))) }
        ensures unchanged { OnErr result (self.new ≡ self.old) }
        ensures short { ((e : List ℕ) → IsStored self.old e → IsShort e) → IsOk result }
        ensures join { ForSome (slice_get (keys_in self.old) (length (keys_in self.old) - 1))
            (λ key. JoinsAreShort self.old (K.encoding key)) → IsOk result }
    {
        Ok(key_of(self.trie.pop_last()?))
    }

    /// Takes all keys away. No memory is allocated.
    pub fn clear(&mut self)
        ensures empty { self.new ≡ map.empty }
    {
        self.trie.clear();
    }
}

/// The key of a pair, if there is one.
fn key_of<K>(pair: Option<(K, ())>) -> Option<K>
    ensures { result ≡ option_map (λ p. p.0) pair }
{
    let (key, ()) = pair?;
    Some(key)
}

/// The failure that hands a key back.
fn refusal<K>(why: InsertWhy, key: K) -> InsertError<K, ()>
    ensures why { result.why ≡ why }
    ensures key { result.key ≡ key }
{
    InsertError {
        why,
        key,
        value: (),
    }
}

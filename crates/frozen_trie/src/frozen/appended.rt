//! A frozen trie, made pair by pair in the order of the encodings.
ghost use Rattle.std.specs.Prelude.{◌≡◌, ◌≢◌, ◌-◌, ◌<◌, ◌≤◌, ◌^◌, ◌++◌, [], ◌∷◌, IfErr, IsOk, OnOk};
ghost use Rattle.std.specs.FinMap as map;
ghost use Rattle.radix_trie.specs.Views.{pairs_below};
ghost use Rattle.frozen_trie.specs.Texts.{IsBehindAll};

use crate::frozen::FrozenTrie;
use encoded_keys::keys::EncodedKeys;
use encoded_keys::linked::{follows, push_linked};
use radix_keys::{Memory, Refused, TrieKey};
use sorted_tables::PushWhy;
use std::alloc::Global;

impl<K: TrieKey, V> FrozenTrie<K, V> {
    /// The frozen trie of no pair. It allocates nothing.
    pub fn new(alloc: Global) -> FrozenTrie<K, V>
        ensures { result ≡ map.empty }
    {
        FrozenTrie {
            codes: EncodedKeys::new(alloc),
            pairs: Vec::new(alloc),
            parents: Vec::new(alloc),
            alloc,
        }
    }

    /// Takes no more room than the pairs need, and makes tables that shorten searches where there
    /// are 2^16 pairs or more, in linear time: so it is for once, when the last pair is there. A
    /// pair that is appended later drops the tables, in linear time where encodings are alike:
    /// where most of them begin with the same 15 nibbles as the one before.
    ///
    /// # Errors
    ///
    /// An allocation for the tables fails: some 2^18 bytes and half a byte a pair, or 1.4 bytes a
    /// pair where encodings are alike; and 5 bytes a pair more where encodings take more than 4
    /// bytes on average. Each call returns the same without them.
    pub fn finish(&mut self) -> Result<(), Memory>
        ensures same { self.new ≡ self.old }
        ensures few { map.len self.old < 2 ^ 16 → IsOk result }
    {
        self.pairs.shrink_to_fit();
        self.parents.shrink_to_fit();
        self.codes.finish(self.alloc)
    }

    /// Appends a pair whose encoding comes after all others, in constant time but for the climb to
    /// the longest stored prefix.
    ///
    /// # Errors
    ///
    /// In this order: the map holds 2^32 - 1 pairs; an allocation for the encoding fails, which an
    /// inline key never meets; the encoding doesn't come after all others; another allocation
    /// fails, or the encodings together would take 2^31 bytes or more. The pair comes back, and the
    /// map is as before.
    pub fn push(&mut self, key: K, value: V) -> Result<(), Refused<PushWhy, (K, V)>>
        ensures stored { OnOk result
            (self.new ≡ map.insert self.old (K.encoding key) (key, value)) }
        ensures pairs { OnOk result
            (pairs_below self.new [] ≡ pairs_below self.old [] ++ (key, value) ∷ []) }
        ensures behind { OnOk result (IsBehindAll self.old (K.encoding key)) }
        ensures is_value { OnOk result (K.is_value key) }
        ensures unsorted { IfErr result (λ e. e.why ≡ PushWhy.OutOfOrder
            → IsBehindAll self.old (K.encoding key) → ⊥) }
        ensures full { IfErr result (λ e. e.why ≡ PushWhy.Full
            → 2 ^ 32 - 1 ≤ map.len self.old) }
        ensures room { IfErr result (λ e. e.why ≢ PushWhy.Full
            → map.len self.old < 2 ^ 32 - 1) }
        ensures memory { IfErr result (λ e. e.why ≡ PushWhy.Memory
            → K.is_inline key → IsBehindAll self.old (K.encoding key)) }
        ensures handed_back { IfErr result (λ e. e.back ≡ (key, value)) }
        ensures unchanged { IfErr result (λ _. self.new ≡ self.old) }
    {
        let back = (key, value);
        if self.codes.is_full() {
            let why = PushWhy::Full;
            return Err(Refused { why, back });
        }
        let Ok(list) = back.0.encode(self.alloc) else {
            let why = PushWhy::Memory;
            return Err(Refused { why, back });
        };
        let list = list.as_slice();
        if !follows(&self.codes, &list) {
            let why = PushWhy::OutOfOrder;
            return Err(Refused { why, back });
        }
        if self.pairs.reserve(1).is_err() {
            let why = PushWhy::Memory;
            return Err(Refused { why, back });
        }
        match push_linked(&mut self.codes, &mut self.parents, &list) {
            Ok(()) => {
                self.pairs.push_reserved(back);
                Ok(())
            }
            Err(_) => {
                let why = PushWhy::Memory;
                Err(Refused { why, back })
            }
        }
    }
}

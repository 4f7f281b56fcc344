//! A map from byte strings, made pair by pair in the order of the keys.
ghost use Rattle.std.specs.Prelude.{◌≡◌, ◌≢◌, ◌-◌, ◌<◌, ◌≤◌, ◌^◌, ◌++◌, [], ◌∷◌, IfErr, IsOk, OnOk};
ghost use Rattle.std.specs.FinMap as map;
ghost use Rattle.nibble_map.specs.Nibbles.{nibbles};
ghost use Rattle.radix_trie.specs.Views.{pairs_below};
ghost use Rattle.frozen_trie.specs.Texts.{IsBehindAll};

use crate::texts::FrozenTexts;
use encoded_keys::keys::EncodedKeys;
use encoded_keys::linked::{follows, push_linked};
use radix_keys::{Memory, NibbleSlice, Refused};
use sorted_tables::PushWhy;
use std::alloc::Global;

impl<V> FrozenTexts<V> {
    /// The empty map. It allocates nothing.
    pub fn new(alloc: Global) -> FrozenTexts<V>
        ensures { result ≡ map.empty }
    {
        FrozenTexts {
            codes: EncodedKeys::new(alloc),
            values: Vec::new(alloc),
            parents: Vec::new(alloc),
            alloc,
        }
    }

    /// Takes no more room than the pairs need, and makes tables that shorten searches where there
    /// are 2^16 pairs or more, in linear time: so it is for once, when the last pair is there. A
    /// pair that is appended later drops the tables, in linear time where keys are alike: where
    /// most of them begin with the same 15 nibbles as the one before.
    ///
    /// # Errors
    ///
    /// An allocation for the tables fails: some 2^18 bytes and half a byte a pair, or 1.4 bytes a
    /// pair where keys are alike; and 5 bytes a pair more where keys take more than 4 bytes on
    /// average. Each call returns the same without them.
    pub fn finish(&mut self) -> Result<(), Memory>
        ensures same { self.new ≡ self.old }
        ensures few { map.len self.old < 2 ^ 16 → IsOk result }
    {
        self.values.shrink_to_fit();
        self.parents.shrink_to_fit();
        self.codes.finish(self.alloc)
    }

    /// Appends a pair whose key comes after all others, in constant time but for the climb to the
    /// key's longest stored prefix.
    ///
    /// # Errors
    ///
    /// In this order: the map holds 2^32 - 1 pairs; the key doesn't come after all others; memory
    /// fails, or the keys together would take 2^31 bytes or more. The value comes back, and
    /// the map is as before.
    pub fn push(&mut self, key: &[u8], value: V) -> Result<(), Refused<PushWhy, V>>
        ensures stored { OnOk result
            (self.new ≡ map.insert self.old (nibbles key.now) (key.now, value)) }
        ensures pairs { OnOk result
            (pairs_below self.new [] ≡ pairs_below self.old [] ++ (key.now, value) ∷ []) }
        ensures behind { OnOk result (IsBehindAll self.old (nibbles key.now)) }
        ensures unsorted { IfErr result (λ e. e.why ≡ PushWhy.OutOfOrder
            → IsBehindAll self.old (nibbles key.now) → ⊥) }
        ensures full { IfErr result (λ e. e.why ≡ PushWhy.Full
            → 2 ^ 32 - 1 ≤ map.len self.old) }
        ensures room { IfErr result (λ e. e.why ≢ PushWhy.Full
            → map.len self.old < 2 ^ 32 - 1) }
        ensures memory { IfErr result (λ e. e.why ≡ PushWhy.Memory
            → IsBehindAll self.old (nibbles key.now)) }
        ensures handed_back { IfErr result (λ e. e.back ≡ value) }
        ensures unchanged { IfErr result (λ _. self.new ≡ self.old) }
    {
        if self.codes.is_full() {
            let why = PushWhy::Full;
            return Err(Refused { why, back: value });
        }
        let list = NibbleSlice::from_bytes(key);
        if !follows(&self.codes, &list) {
            let why = PushWhy::OutOfOrder;
            return Err(Refused { why, back: value });
        }
        if self.values.reserve(1).is_err() {
            let why = PushWhy::Memory;
            return Err(Refused { why, back: value });
        }
        match push_linked(&mut self.codes, &mut self.parents, &list) {
            Ok(()) => {
                self.values.push_reserved(value);
                Ok(())
            }
            Err(_) => {
                let why = PushWhy::Memory;
                Err(Refused { why, back: value })
            }
        }
    }
}

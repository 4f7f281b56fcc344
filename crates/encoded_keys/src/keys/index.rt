//! An index of lists by hashes, for searches of one list.
ghost use Rattle.std.specs.Prelude.{◌≡◌, ◌↔◌, ◌+◌, ◌-◌, ◌<◌, ◌≤◌, ◌^◌, ℕ, length, slice_index, IfOk, IsTrue, MatchOption};
ghost use Rattle.encoded_keys.specs.Codes.{code_at};
ghost use Rattle.encoded_keys.specs.Index.{AreKeys, AreSlots, IsFirstFree, IsSlotted, first_slot};

use crate::hash::hash_of;
use crate::keys::EncodedKeys;
use radix_keys::{AsNibbles, Memory, NibbleSlice};
use std::alloc::Global;

/// How many slots a list may lie in.
const REACH: usize = 64;

/// How many lists have an index at most: each has bits of its hash beside its number then.
const MOST: usize = 1 << 30;

/// What an index of hashes says of a list: where it is, that it isn't there, or nothing.
#[derive(Clone, Copy)]
pub(crate) enum Look {
    Found(usize),
    Absent,
    Unknown,
}

/// What a slot says of a list: that none lies in it, or another one, or maybe this one, which has
/// an index.
#[derive(Clone, Copy)]
enum Slot {
    Free,
    Other,
    Holds(usize),
}

impl EncodedKeys {
    /// Looks for a list by its hash, in 64 slots at most. The pairs of the lists are passed, or
    /// none.
    pub(crate) fn look<K: AsNibbles, V>(&self, pairs: &[(K, V)], list: &NibbleSlice<'_>) -> Look
        requires { AreKeys K.encoding pairs.now self.now }
        ensures found { (i : ℕ) → result ≡ Look.Found i
            → (i < length self.now) × (code_at self.now i ≡ list.now) }
        ensures absent { result ≡ Look.Absent → (k : ℕ) → k < length self.now
            → code_at self.now k ≡ list.now → ⊥ }
    {
        if self.slots.len() <= REACH {
            return Look::Unknown;
        }
        let count = self.len();
        let hash = hash_of(list);
        let tag = hash & self.tags;
        let first = first_of(&self.slots, hash);
        for at in first..first + REACH {
            match slot_of(self.slots[at], tag, count) {
                Slot::Free => return Look::Absent,
                Slot::Other => {}
                Slot::Holds(i) => {
                    if self.is_at(pairs, i, list) {
                        return Look::Found(i);
                    }
                }
            }
        }
        Look::Unknown
    }

    /// Whether a list is the one at an index. Where the pair there has a key that lends its
    /// encoding, it is compared with that: who finds the list reads the pair next, and needn't read
    /// where the packed list lies, nor the list.
    fn is_at<K: AsNibbles, V>(&self, pairs: &[(K, V)], at: usize, list: &NibbleSlice<'_>) -> bool
        requires within { at < length self.now }
        requires keyed { AreKeys K.encoding pairs.now self.now }
        ensures { IsTrue result ↔ (code_at self.now at ≡ list.now) }
    {
        if let Some((key, _)) = pairs.get(at) {
            if let Some(own) = key.as_nibbles() {
                return own == *list;
            }
        }
        self.piece(at) == *list
    }

    /// Slots of all lists, and which bits of a hash are in them.
    ///
    /// # Errors
    ///
    /// An allocation fails.
    pub(super) fn slots_of(&self, alloc: Global) -> Result<(Vec<u32>, u64), Memory>
        requires { length self.now ≤ 2 ^ 30 }
        ensures { IfOk result (λ r. AreSlots self.now r.0.items r.1) }
    {
        let count = self.len();
        let tags = tags_above(count);
        let mut slots = vec![in alloc; 0u32; count + count / 4 + 1 + REACH]?;
        for i in 0..count {
            let hash = hash_of(&self.piece(i));
            let first = first_of(&slots, hash);
            put(&mut slots, first, ((hash & tags) + (i as u64 + 1)) as u32);
        }
        Ok((slots, tags))
    }

    /// Whether searches gain by slots: the lists aren't too many, and take more bytes each than a
    /// number of 32 bits on average, since those that take fewer are found by their heads as soon.
    pub(super) fn is_for_slots(&self) -> bool
        ensures { IsTrue result → length self.now ≤ 2 ^ 30 }
    {
        let count = self.len();
        count <= MOST && self.bytes.len() > 4 * count
    }
}

/// Bits that lie above a number.
fn tags_above(count: usize) -> u64
    requires { count ≤ 2 ^ 30 }
    ensures { result + count < 2 ^ 32 }
{
    (1 << 32) - (count as u64 + 1).next_power_of_two()
}

/// The first slot of a list with a hash.
fn first_of(slots: &[u32], hash: u64) -> usize
    requires some { 64 < length slots.now }
    requires few { length slots.now < 2 ^ 32 }
    ensures first { result ≡ first_slot (length slots.now - 64) hash }
    ensures within { result + 64 < length slots.now }
{
    let places = (slots.len() - REACH) as u64;
    (((hash >> 32) * places) >> 32) as usize
}

/// The first free slot from one on, if it is among the next 64.
fn free_slot(slots: &[u32], from: usize) -> Option<usize>
    requires { from + 64 ≤ length slots.now }
    ensures { MatchOption result
        ((s : ℕ) → from ≤ s → s < from + 64 → slice_index slots.now s ≡ 0 → ⊥)
        (λ at. IsFirstFree slots.now from at) }
{
    for at in from..from + REACH {
        if slots[at] == 0 {
            return Some(at);
        }
    }
    None
}

/// Puts an entry into the first free slot of 64 from one on, if there is one.
fn put(slots: &mut [u32], first: usize, entry: u32)
    requires within { first + 64 ≤ length slots.old }
    requires some { 0 < entry }
    ensures same { length slots.new ≡ length slots.old }
    ensures slotted { IsSlotted slots.new first entry }
    ensures kept { (from other : ℕ) → 0 < other
        → IsSlotted slots.old from other → IsSlotted slots.new from other }
{
    if let Some(at) = free_slot(slots, first) {
        slots[at] = entry;
    }
}

/// What a slot says of a list with a tag, where there are so many lists.
fn slot_of(slot: u32, tag: u64, count: usize) -> Slot
    ensures free { result ≡ Slot.Free → slot ≡ 0 }
    ensures other { result ≡ Slot.Other → (k : ℕ) → k < count
        → slot ≡ tag + (k + 1) → ⊥ }
    ensures holds { (i : ℕ) → result ≡ Slot.Holds i
        → (i < count) × (slot ≡ tag + (i + 1)) }
{
    let slot = u64::from(slot);
    if slot == 0 {
        return Slot::Free;
    }
    if slot > tag && slot - tag <= count as u64 {
        Slot::Holds((slot - tag - 1) as usize)
    } else {
        Slot::Other
    }
}

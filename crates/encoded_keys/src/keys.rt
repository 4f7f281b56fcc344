//! Lists of nibbles packed in one array, two to a byte.
ghost use Rattle.std.specs.Prelude.{◌≡◌, ◌≢◌, ◌-◌, ◌<◌, ◌≤◌, ◌^◌, [], ℕ, true, false, drop, length, slice_index, slice_index_or, take, IsFalse, IsTrue};
ghost use Rattle.radix_keys.specs.Packing.{IsPadded, unpacked};
ghost use Rattle.encoded_keys.specs.Codes.{code_at};
ghost use Rattle.encoded_keys.specs.Laid.{codes_in, halves, odds, packed_bytes, start_of, IsLaid};

mod blocks;
mod growing;
mod index;
mod levels;
mod order;

use crate::slices::part;
pub(crate) use blocks::{Level, Sought};
pub(crate) use index::Look;
use radix_keys::NibbleSlice;
use std::alloc::Global;
use std::marker::Model;

/// Lists of nibbles, each packed in whole bytes behind the one before. A contract sees the lists.
#[derive(Drop)]
pub struct EncodedKeys {
    bytes: Vec<u8>,
    /// Where the bytes of each list end, twice, and one more where its count of nibbles is odd: the
    /// low half of its last byte is unused then.
    ends: Vec<u32>,
    /// The head of each list: its first nibbles, and how many it has of these; behind what its
    /// block of 16 skips.
    heads: Vec<u64>,
    /// Where the lists are complete, many and alike, how many bytes each block of heads skips; else
    /// empty.
    skips: Vec<u32>,
    /// The levels above these blocks, the lowest first, likewise.
    levels: Vec<Level>,
    /// Copies of each sixteenth head, where the lists are complete and many, but not alike.
    steps: Vec<u64>,
    /// How many heads are below each multiple of 2^48, likewise.
    tops: Vec<u32>,
    /// Where the lists are complete, many and long, the index and one more of each, in a slot by
    /// its hash, and bits of the hash above; or 0.
    slots: Vec<u32>,
    /// Which bits of a hash these are.
    tags: u64,
}

impl Model for EncodedKeys {
    ghost use Rattle.std.specs.Prelude.{ℕ, List};
    ghost use Rattle.encoded_keys.specs.Laid.{codes_in, halves, odds};
    ghost use Rattle.encoded_keys.specs.Packed.{ArePacked};

    ghost Value = { List (List ℕ) };

    ghost view = { λ c. codes_in c.bytes.items 0 (halves c.ends.items) (odds c.ends.items) };

    ghost invariant = { λ c.
        ArePacked c.bytes.items c.ends.items c.heads.items c.skips.items c.levels.items
        c.steps.items c.tops.items c.slots.items c.tags };
}

impl EncodedKeys {
    /// No list.
    pub fn new(alloc: Global) -> EncodedKeys
        ensures { result ≡ [] }
    {
        EncodedKeys {
            bytes: Vec::new(alloc),
            ends: Vec::new(alloc),
            heads: Vec::new(alloc),
            skips: Vec::new(alloc),
            levels: Vec::new(alloc),
            steps: Vec::new(alloc),
            tops: Vec::new(alloc),
            slots: Vec::new(alloc),
            tags: 0,
        }
    }

    /// The count of lists.
    pub fn len(&self) -> usize
        ensures { result ≡ length self.now }
    {
        self.ends.len()
    }

    /// Whether there are as many lists as links can count.
    pub fn is_full(&self) -> bool
        ensures full { IsTrue result → 2 ^ 32 - 1 ≤ length self.now }
        ensures room { IsFalse result → length self.now < 2 ^ 32 - 1 }
    {
        self.len() >= u32::MAX as usize
    }

    /// The list at an index.
    pub(crate) fn piece(&self, at: usize) -> NibbleSlice<'_>
        requires { at < length self.now }
        ensures code { result ≡ code_at self.now at }
        ensures few { length result < 2 ^ 33 }
    {
        piece_in(&self.bytes, &self.ends, at)
    }

    /// The bytes that the list at an index is packed in.
    pub fn bytes_at(&self, at: usize) -> &[u8]
        requires { at < length self.now }
        ensures bytes { result.now ≡ packed_bytes (code_at self.now at) }
        ensures few { length (code_at self.now at) < 2 ^ 33 }
    {
        self.piece(at).as_packed().0
    }

    /// The count of nibbles of the list at an index.
    pub(crate) fn len_at(&self, at: usize) -> usize
        requires { at < length self.now }
        ensures { result ≡ length (code_at self.now at) }
    {
        self.piece(at).len()
    }

    /// How many nibbles the list at an index and another one agree in, from their first on.
    pub(crate) fn agreement(&self, at: usize, list: &NibbleSlice<'_>) -> usize
        requires { at < length self.now }
        ensures within { result ≤ length (code_at self.now at) }
        ensures inside { result ≤ length list.now }
        ensures same { take result (code_at self.now at) ≡ take result list.now }
        ensures apart { result < length (code_at self.now at) → result < length list.now
            → slice_index (code_at self.now at) result ≢ slice_index list.now result }
    {
        self.piece(at).agreement(list, 0)
    }
}

/// Where a list begins.
fn start(ends: &[u32], at: usize) -> usize
    requires { at < length ends.now }
    ensures { result ≡ start_of 0 (halves ends.now) at }
{
    if at == 0 {
        0
    } else {
        (ends[at - 1] / 2) as usize
    }
}

/// The list at an index.
fn piece_in<'a>(bytes: &'a [u8], ends: &[u32], at: usize) -> NibbleSlice<'a>
    requires laid { IsLaid bytes.now 0 (halves ends.now) (odds ends.now) }
    requires within { at < length ends.now }
    ensures code { result
        ≡ slice_index_or (codes_in bytes.now 0 (halves ends.now) (odds ends.now)) at [] }
    ensures few { length result < 2 ^ 33 }
{
    let from = start(ends, at);
    let end = ends[at];
    NibbleSlice::from_packed(part(bytes, from, (end / 2) as usize), end % 2 == 1)
}

//! Lists of nibbles that are borrowed.
ghost use Rattle.std.specs.Prelude.{◌≡◌, ◌≢◌, ◌↔◌, ◌+◌, ◌*◌, ◌/◌, ◌<◌, ◌≤◌, ◌⊎◌, ◌==◌, IsTrue, length, slice_index, take};
ghost use Rattle.nibble_map.specs.Lists.{IsPrefix};
ghost use Rattle.nibble_map.specs.Nibbles.{nibbles};
ghost use Rattle.radix_keys.specs.Packing.{IsPadded, unpacked};

use std::marker::Model;

mod bytes;
mod order;

use bytes::{same_bytes, same_words};

/// A borrowed list of nibbles, numbers from 0 to 15: to a `NibbleVec` as `&str` is to `String`. It
/// allocates nothing, and no call of it fails.
///
/// Each byte holds two nibbles, the first in its high half. Where the count is odd the low half
/// of the last byte is unused, and zero.
#[derive(Drop)]
pub struct NibbleSlice<'a> {
    bytes: &'a [u8],
    is_odd: bool,
}

impl<'a> Model for NibbleSlice<'a> {
    ghost use Rattle.std.specs.Prelude.{ℕ, List};
    ghost use Rattle.radix_keys.specs.Packing.{IsPadded, unpacked};

    ghost Value = { List ℕ };

    ghost view = { λ s. unpacked s.bytes.now s.is_odd };

    ghost invariant = { λ s. IsPadded s.bytes.now s.is_odd };
}

impl<'a> NibbleSlice<'a> {
    /// The nibbles of the bytes, the high half of each byte first.
    pub fn from_bytes(bytes: &'a [u8]) -> NibbleSlice<'a>
        ensures { result ≡ nibbles bytes.now }
    {
        NibbleSlice {
            bytes,
            is_odd: false,
        }
    }

    /// The nibbles of the bytes; where `is_odd`, without the last, which is zero.
    pub fn from_packed(bytes: &'a [u8], is_odd: bool) -> NibbleSlice<'a>
        requires { IsPadded bytes.now is_odd }
        ensures { result ≡ unpacked bytes.now is_odd }
    {
        NibbleSlice { bytes, is_odd }
    }

    /// The bytes that hold the nibbles, and whether their count is odd. The low half of the last
    /// byte is zero then.
    pub fn as_packed(&self) -> (&'a [u8], bool)
        ensures nibbles { unpacked result.0.now result.1 ≡ self.now }
        ensures padded { IsPadded result.0.now result.1 }
    {
        (self.bytes, self.is_odd)
    }

    /// The count of nibbles.
    pub fn len(&self) -> usize
        ensures { result ≡ length self.now }
    {
        let halves = self.bytes.len() * 2;
        if self.is_odd { halves - 1 } else { halves }
    }

    /// Whether the list has no nibble.
    pub fn is_empty(&self) -> bool
        ensures { result ≡ (length self.now == 0) }
    {
        self.len() == 0
    }

    /// The nibble at the index `i`, which is below the count.
    pub fn get(&self, i: usize) -> u8
        requires { i < length self.now }
        ensures value { result ≡ slice_index self.now i }
        ensures nibble { result < 16 }
    {
        let byte = self.bytes[i / 2];
        if i % 2 == 0 { byte / 16 } else { byte % 16 }
    }

    /// How many nibbles agree with those of another list, from the first on. The first `known` do
    /// so, which aren't read again. It goes by eight bytes at a time.
    pub fn agreement(&self, other: &NibbleSlice<'_>, known: usize) -> usize
        requires known { take known self.now ≡ take known other.now }
        requires inside { known ≤ length other.now }
        ensures within { result ≤ length self.now }
        ensures inside { result ≤ length other.now }
        ensures same { take result self.now ≡ take result other.now }
        ensures apart { result < length self.now → result < length other.now
            → slice_index self.now result ≢ slice_index other.now result }
    {
        let words = same_words(self.bytes, other.bytes, known / 2);
        let at = same_bytes(self.bytes, other.bytes, words);
        if at >= self.bytes.len() || at >= other.bytes.len() {
            return self.count_in(at).min(other.count_in(at));
        }
        if self.bytes[at] / 16 == other.bytes[at] / 16 {
            2 * at + 1
        } else {
            2 * at
        }
    }

    /// How many nibbles the first bytes hold, so many of them.
    fn count_in(&self, bytes: usize) -> usize
        requires within { bytes ≤ (length self.now + 1) / 2 }
        ensures within { result ≤ length self.now }
        ensures both { result ≤ 2 * bytes }
        ensures all { (result ≡ 2 * bytes) ⊎ (result ≡ length self.now) }
    {
        if self.is_odd && bytes == self.bytes.len() {
            2 * bytes - 1
        } else {
            2 * bytes
        }
    }

    /// Whether a list is a prefix of this one.
    pub fn starts_with(&self, prefix: &NibbleSlice<'_>) -> bool
        ensures { IsTrue result ↔ IsPrefix prefix.now self.now }
    {
        prefix.agreement(self, 0) == prefix.len()
    }
}

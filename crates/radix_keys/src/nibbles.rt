//! Lists of nibbles, two to a byte.
ghost use Rattle.std.specs.Prelude.{◌≡◌, ◌≢◌, ◌+◌, ◌/◌, ◌%◌, ◌<◌, ◌≤◌, ◌==◌, [], length, take, drop, slice_index, IsOk, IfOk, nat_eq};
ghost use Rattle.std.specs.Cmp.{partial_equiv_from_equiv};
ghost use Rattle.std.specs.Cmp.Lexicographic.{pointwise, nat_list_eq_equiv};
ghost use Rattle.nibble_map.specs.Nibbles.{nibbles, IsShort};
ghost use Rattle.nibble_map.specs.Turned.{turned};

use crate::slices::NibbleSlice;
use smallvec::SmallVec;
use std::alloc::{AllocError, AllocFailed, Global};
use std::marker::Model;

mod append;
mod cut;
mod iter;
mod order;
mod refusals;
mod text;

pub use iter::NibbleIter;

/// An allocation failed, or a count of nibbles would exceed `usize::MAX`.
#[derive(Clone, Copy, PartialEq, Eq, Debug)]
pub struct Memory;

impl From<AllocError> for Memory {
    ghost from_gives = { λ _ _. Unit {0} };

    fn from(_refused: AllocError) -> Memory {
        Memory
    }
}

impl<T: Drop> From<AllocFailed<T>> for Memory {
    ghost from_gives = { λ _ _. Unit {0} };

    fn from(_refused: AllocFailed<T>) -> Memory {
        Memory
    }
}

/// Why a key gives no bytes.
#[derive(Clone, Copy, PartialEq, Eq, Debug)]
pub enum BytesError {
    /// An allocation failed, or a count of nibbles would exceed `usize::MAX`.
    Memory,
    /// The encoding has an odd count of nibbles.
    Odd,
}

/// A list of nibbles, numbers from 0 to 15. Up to 32 of them are stored inline, without an
/// allocation.
///
/// Each byte holds two nibbles, the first in its high half. Where the count is odd the low half
/// of the last byte is unused, and zero.
///
/// # Examples
///
/// ```
/// # use nifazombi::{radix_keys::TrieKey, rattle_std::alloc::Global};
/// let mut list = "tea".encode(Global)?;
/// list.push(6)?;
/// assert_eq!(list.len(), 7);
/// # Ok::<(), Box<dyn std::error::Error>>(())
/// ```
///
/// `list_below` in `crates/trie_examples/src/lists.rt` proves that one nibble is added.
pub struct NibbleVec {
    bytes: SmallVec<u8, 16>,
    is_odd: bool,
}

/// Written, since each place that drops a list would otherwise be proved over both forms of its
/// small vector.
impl Drop for NibbleVec {
    fn drop(self) {
        let NibbleVec {
            bytes: _bytes,
            is_odd: _,
        } = self;
    }
}

/// The list of nibbles that a key is encoded as.
pub type Nibblet = NibbleVec;

impl Model for NibbleVec {
    ghost use Rattle.std.specs.Prelude.{ℕ, List};
    ghost use Rattle.radix_keys.specs.Packing.{unpacked, IsPacked};

    ghost Value = { List ℕ };

    ghost view = { λ s. unpacked s.bytes.items s.is_odd };

    ghost invariant = { λ s. IsPacked s.bytes.capacity s.bytes.items s.is_odd };
}

impl NibbleVec {
    /// The empty list.
    pub fn new(alloc: Global) -> NibbleVec
        ensures { result ≡ [] }
    {
        NibbleVec {
            bytes: SmallVec::new(alloc),
            is_odd: false,
        }
    }

    /// The nibbles of the bytes of a small vector.
    pub(crate) fn from_small(bytes: SmallVec<u8, 16>) -> NibbleVec
        requires { 16 ≤ bytes.capacity }
        ensures { result ≡ nibbles bytes.items }
    {
        NibbleVec {
            bytes,
            is_odd: false,
        }
    }

    /// The nibbles of the bytes, the high half of each byte first.
    ///
    /// # Errors
    ///
    /// `Memory`: an allocation fails; up to 16 bytes need none. The vector is dropped, on failure
    /// too.
    pub fn from_byte_vec(alloc: Global, bytes: Vec<u8>) -> Result<NibbleVec, Memory>
        ensures ok { IfOk result (λ v. v ≡ nibbles bytes.items) }
        ensures succeeds { IsShort (nibbles bytes.items) → IsOk result }
    {
        NibbleVec::from_slice(alloc, bytes.as_slice())
    }

    /// The nibbles of the bytes of a slice.
    pub(crate) fn from_slice(alloc: Global, bytes: &[u8]) -> Result<NibbleVec, Memory>
        ensures ok { IfOk result (λ v. v ≡ nibbles bytes.now) }
        ensures succeeds { IsShort (nibbles bytes.now) → IsOk result }
    {
        let small = SmallVec::from_slice(alloc, bytes)?;

        // A small vector has room for its inline bytes.
        let _ = small.spilled();
        Ok(NibbleVec::from_small(small))
    }

    /// The count of nibbles.
    pub fn len(&self) -> usize
        ensures { result ≡ length self.now }
    {
        let halves = self.bytes.as_slice().len() * 2;
        if self.is_odd { halves - 1 } else { halves }
    }

    /// Whether the list has no nibble.
    pub fn is_empty(&self) -> bool
        ensures { result ≡ (length self.now == 0) }
    {
        self.len() == 0
    }

    /// The nibble at the index `i`, which is below the count.
    pub fn get(&self, i: usize) -> u8
        requires { i < length self.now }
        ensures value { result ≡ slice_index self.now i }
        ensures nibble { result < 16 }
    {
        let byte = self.bytes.as_slice()[i / 2];
        if i % 2 == 0 { byte / 16 } else { byte % 16 }
    }

    /// The list, borrowed.
    pub fn as_slice(&self) -> NibbleSlice<'_>
        ensures { result ≡ self.now }
    {
        NibbleSlice::from_packed(self.bytes.as_slice(), self.is_odd)
    }

    /// The nibbles at `i` and after it, as one byte.
    fn byte_from(&self, i: usize) -> u8
        requires { i + 1 < length self.now }
        ensures first { result / 16 ≡ slice_index self.now i }
        ensures second { result % 16 ≡ slice_index self.now (i + 1) }
    {
        let bytes = self.bytes.as_slice();
        let byte = bytes[i / 2];
        if i % 2 == 0 {
            return byte;
        }
        let next = bytes[i / 2 + 1];
        byte % 16 * 16 + next / 16
    }

    /// How many nibbles agree from the start on with those of another list from `depth` on, which
    /// is at most its count.
    pub fn agreement(&self, other: &NibbleVec, depth: usize) -> usize
        requires { depth ≤ length other.now }
        ensures within { result ≤ length self.now }
        ensures inside { depth + result ≤ length other.now }
        ensures same { take result self.now ≡ take result (drop depth other.now) }
        ensures apart { result < length self.now → depth + result < length other.now
            → slice_index self.now result ≢ slice_index other.now (depth + result) }
    {
        let most = self.len().min(other.len() - depth);
        for pair in 0..most / 2 {
            let same = 2 * pair;
            if self.byte_from(same) != other.byte_from(depth + same) {
                return if self.get(same) == other.get(depth + same) {
                    same + 1
                } else {
                    same
                };
            }
        }
        let even = most / 2 * 2;
        if even < most && self.get(even) == other.get(depth + even) {
            most
        } else {
            even
        }
    }

    /// The same list.
    ///
    /// # Errors
    ///
    /// `Memory`: an allocation fails; up to 32 nibbles need none.
    pub fn clone(&self) -> Result<NibbleVec, Memory>
        ensures ok { IfOk result (λ v. v ≡ self.now) }
        ensures succeeds { IsShort self.now → IsOk result }
    {
        Ok(Clone::clone(self)?)
    }

    /// Flips the top bit of the first nibble. It allocates nothing.
    pub fn turn_over(&mut self)
        requires { 0 < length self.old }
        ensures { self.new ≡ turned self.old }
    {
        self.bytes[0] ^= 0x80;
    }

    /// The bytes of a list of whole bytes, or `Odd`.
    pub(crate) fn to_bytes(&self, alloc: Global) -> Result<Vec<u8>, BytesError>
        ensures ok { IfOk result (λ v. nibbles v.items ≡ self.now) }
        ensures odd { result ≡ Err BytesError.Odd → length self.now % 2 ≡ 1 }
        ensures even { length self.now % 2 ≡ 1 → result ≡ Err BytesError.Odd }
    {
        if self.is_odd {
            return Err(BytesError::Odd);
        }
        match Vec::from_slice(alloc, self.bytes.as_slice()) {
            Ok(bytes) => Ok(bytes),
            Err(_) => Err(BytesError::Memory),
        }
    }
}

// The same list, for code that is generic over `Clone`, such as a trie's own `clone`.
impl Clone for NibbleVec {
    ghost is_clone = { λ list copy. copy ≡ list };

    ghost is_infallible = { IsShort };

    fn clone(&self) -> Result<NibbleVec, AllocError> {
        match SmallVec::from_slice(*self.bytes.allocator(), self.bytes.as_slice()) {
            Ok(bytes) => {
                let _ = bytes.spilled();
                Ok(NibbleVec {
                    bytes,
                    is_odd: self.is_odd,
                })
            }
            Err(refused) => Err(refused),
        }
    }
}

impl PartialEq for NibbleVec {
    ghost eq = { pointwise nat_eq };

    ghost laws = { partial_equiv_from_equiv nat_list_eq_equiv };

    fn eq(&self, other: &NibbleVec) -> bool {
        self.is_odd == other.is_odd && self.bytes.as_slice() == other.bytes.as_slice()
    }
}

impl Eq for NibbleVec {
    ghost laws = { nat_list_eq_equiv };
}

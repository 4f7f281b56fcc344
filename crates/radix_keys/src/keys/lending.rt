//! Keys that lend their encodings.
ghost use Rattle.std.specs.Prelude.{◌≡◌, IfSome, IsSome, OnSome};

use crate::endian::{Ascending, BigEndian, KeyInt, LittleEndian};
use crate::keys::ascending::KeySigned;
use crate::keys::{FixedWidth, TrieKey};
use crate::nibbles::Nibblet;
use crate::slices::NibbleSlice;

/// A key that is searched for in a frozen trie: its own bytes may be its encoding, and are then
/// searched for without a copy.
///
/// A type whose keys never lend theirs returns `None`. It can't be the body of `as_nibbles`, since
/// `lent` has to hold for whatever a type calls lent.
pub trait AsNibbles: TrieKey {
    // Whether `as_nibbles` of the key lends its encoding.
    ghost is_lent: { Self → Type 0 } = { λ _. ⊥ };

    /// The encoding, borrowed, of a key whose own bytes are it; `None` of any other key.
    fn as_nibbles(&self) -> Option<NibbleSlice<'_>>
        ensures nibbles { IfSome result (λ list. list ≡ Self.encoding self.now) }
        ensures value { OnSome result (Self.is_value self.now) }
        ensures lent { is_lent self.now → IsSome result };
}

impl AsNibbles for String {
    ghost is_lent = { λ _. Unit {0} };

    fn as_nibbles(&self) -> Option<NibbleSlice<'_>> {
        Some(NibbleSlice::from_bytes(self.as_bytes()))
    }
}

impl AsNibbles for &str {
    ghost is_lent = { λ _. Unit {0} };

    fn as_nibbles(&self) -> Option<NibbleSlice<'_>> {
        Some(NibbleSlice::from_bytes(self.as_bytes()))
    }
}

impl AsNibbles for &[u8] {
    ghost is_lent = { λ _. Unit {0} };

    fn as_nibbles(&self) -> Option<NibbleSlice<'_>> {
        Some(NibbleSlice::from_bytes(*self))
    }
}

impl AsNibbles for Nibblet {
    ghost is_lent = { λ _. Unit {0} };

    fn as_nibbles(&self) -> Option<NibbleSlice<'_>> {
        Some(self.as_slice())
    }
}

impl<T: AsNibbles> AsNibbles for &T {
    ghost is_lent = { λ r. T.is_lent r.now };

    fn as_nibbles(&self) -> Option<NibbleSlice<'_>> {
        (**self).as_nibbles()
    }
}

impl<T: AsNibbles> AsNibbles for &mut T {
    ghost is_lent = { λ r. T.is_lent r.now };

    fn as_nibbles(&self) -> Option<NibbleSlice<'_>> {
        T::as_nibbles(*self)
    }
}

impl<T: KeySigned> AsNibbles for Ascending<T> {
    fn as_nibbles(&self) -> Option<NibbleSlice<'_>> {
        None
    }
}

impl AsNibbles for u8 {
    fn as_nibbles(&self) -> Option<NibbleSlice<'_>> {
        None
    }
}

impl AsNibbles for u16 {
    fn as_nibbles(&self) -> Option<NibbleSlice<'_>> {
        None
    }
}

impl AsNibbles for u32 {
    fn as_nibbles(&self) -> Option<NibbleSlice<'_>> {
        None
    }
}

impl AsNibbles for u64 {
    fn as_nibbles(&self) -> Option<NibbleSlice<'_>> {
        None
    }
}

impl AsNibbles for usize {
    fn as_nibbles(&self) -> Option<NibbleSlice<'_>> {
        None
    }
}

impl AsNibbles for u128 {
    fn as_nibbles(&self) -> Option<NibbleSlice<'_>> {
        None
    }
}

impl AsNibbles for i128 {
    fn as_nibbles(&self) -> Option<NibbleSlice<'_>> {
        None
    }
}

impl<A: FixedWidth, B: FixedWidth> AsNibbles for (A, B) {
    fn as_nibbles(&self) -> Option<NibbleSlice<'_>> {
        None
    }
}

impl AsNibbles for bool {
    fn as_nibbles(&self) -> Option<NibbleSlice<'_>> {
        None
    }
}

impl AsNibbles for char {
    fn as_nibbles(&self) -> Option<NibbleSlice<'_>> {
        None
    }
}

impl<const N: usize> AsNibbles for [u8; N] {
    ghost is_lent = { λ _. Unit {0} };

    fn as_nibbles(&self) -> Option<NibbleSlice<'_>> {
        Some(NibbleSlice::from_bytes(self.as_slice()))
    }
}

impl<T: KeyInt> AsNibbles for BigEndian<T> {
    fn as_nibbles(&self) -> Option<NibbleSlice<'_>> {
        None
    }
}

impl<T: KeyInt> AsNibbles for LittleEndian<T> {
    fn as_nibbles(&self) -> Option<NibbleSlice<'_>> {
        None
    }
}

impl<T: KeyInt> AsNibbles for Vec<T> {
    fn as_nibbles(&self) -> Option<NibbleSlice<'_>> {
        match T::as_bytes(self.as_slice()) {
            Some(bytes) => Some(NibbleSlice::from_bytes(bytes)),
            None => None,
        }
    }
}

impl AsNibbles for i8 {
    fn as_nibbles(&self) -> Option<NibbleSlice<'_>> {
        None
    }
}

impl AsNibbles for i16 {
    fn as_nibbles(&self) -> Option<NibbleSlice<'_>> {
        None
    }
}

impl AsNibbles for i32 {
    fn as_nibbles(&self) -> Option<NibbleSlice<'_>> {
        None
    }
}

impl AsNibbles for i64 {
    fn as_nibbles(&self) -> Option<NibbleSlice<'_>> {
        None
    }
}

impl AsNibbles for isize {
    fn as_nibbles(&self) -> Option<NibbleSlice<'_>> {
        None
    }
}

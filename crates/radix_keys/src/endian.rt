//! Integers as keys: their bytes, and wrappers that fix the order of the bytes.
ghost use Rattle.std.specs.Prelude.{◌≡◌, ℕ, ◌<◌, List, length, slice_index, true, flat_map, All, IfSome, OnSome};

use std::marker::Model;

mod widths;

/// An integer whose bytes can be a key.
///
/// Two values within the type's bounds with equal bytes are equal.
pub trait KeyInt: Copy + Eq {
    // The width in bytes.
    ghost WIDTH: { ℕ };

    // The bytes of a value, the highest first.
    ghost bytes: { Self → List ℕ };

    // Whether a number is within the type's bounds.
    ghost is_value: { Self → Type 0 };

    /// The width in bytes, at least 1.
    const WIDTH: usize;

    /// The byte at the index `i`, which is below the width. Byte 0 is the highest.
    fn byte(&self, i: usize) -> u8
        requires { i < WIDTH }
        ensures byte { result ≡ slice_index (bytes self.now) i }
        ensures value { is_value self.now };

    /// The bytes of some integers, borrowed, where these are bytes themselves; else `None`.
    fn as_bytes(items: &[Self]) -> Option<&[u8]>
        ensures bytes { IfSome result (λ lent. lent.now ≡ flat_map bytes items.now) }
        ensures values { OnSome result (All is_value items.now) }
    {
        None
    }

    ghost width_positive: { 0 < WIDTH };

    ghost bytes_len: { (x : Self) → length (bytes x) ≡ WIDTH };

    ghost distinct: { (x y : Self) → is_value x → is_value y → bytes x ≡ bytes y
        → Self.eq x y ≡ true };
}

/// An integer that is encoded with its highest byte first.
#[derive(Clone, Copy)]
pub struct BigEndian<T> {
    value: T,
}

impl<T> Model for BigEndian<T> {
    ghost Value = { T };

    ghost view = { λ w. w.value };

    ghost inverse = { λ x. record { value = x } };
}

impl<T: KeyInt> BigEndian<T> {
    /// The wrapped integer.
    pub fn value(&self) -> T
        ensures { result ≡ self.now }
    {
        self.value
    }
}

impl<T: KeyInt> From<T> for BigEndian<T> {
    ghost from_gives = { λ x w. w ≡ x };

    fn from(value: T) -> BigEndian<T> {
        BigEndian { value }
    }
}

impl<T: KeyInt> PartialEq for BigEndian<T> {
    ghost eq = { T.eq };

    ghost laws = { T.PartialEq.laws };

    fn eq(&self, other: &BigEndian<T>) -> bool {
        self.value == other.value
    }
}

impl<T: KeyInt> Eq for BigEndian<T> {
    ghost laws = { T.Eq.laws };
}

/// An integer that is encoded with its lowest byte first.
#[derive(Clone, Copy)]
pub struct LittleEndian<T> {
    value: T,
}

impl<T> Model for LittleEndian<T> {
    ghost Value = { T };

    ghost view = { λ w. w.value };

    ghost inverse = { λ x. record { value = x } };
}

impl<T: KeyInt> LittleEndian<T> {
    /// The wrapped integer.
    pub fn value(&self) -> T
        ensures { result ≡ self.now }
    {
        self.value
    }
}

impl<T: KeyInt> From<T> for LittleEndian<T> {
    ghost from_gives = { λ x w. w ≡ x };

    fn from(value: T) -> LittleEndian<T> {
        LittleEndian { value }
    }
}

impl<T: KeyInt> PartialEq for LittleEndian<T> {
    ghost eq = { T.eq };

    ghost laws = { T.PartialEq.laws };

    fn eq(&self, other: &LittleEndian<T>) -> bool {
        self.value == other.value
    }
}

impl<T: KeyInt> Eq for LittleEndian<T> {
    ghost laws = { T.Eq.laws };
}

/// A signed integer that is encoded so that the smaller number comes first.
#[derive(Clone, Copy)]
pub struct Ascending<T> {
    value: T,
}

impl<T> Model for Ascending<T> {
    ghost Value = { T };

    ghost view = { λ w. w.value };

    ghost inverse = { λ x. record { value = x } };
}

impl<T: KeyInt> Ascending<T> {
    /// The wrapped integer.
    pub fn value(&self) -> T
        ensures { result ≡ self.now }
    {
        self.value
    }
}

impl<T: KeyInt> From<T> for Ascending<T> {
    ghost from_gives = { λ x w. w ≡ x };

    fn from(value: T) -> Ascending<T> {
        Ascending { value }
    }
}

impl<T: KeyInt> PartialEq for Ascending<T> {
    ghost eq = { T.eq };

    ghost laws = { T.PartialEq.laws };

    fn eq(&self, other: &Ascending<T>) -> bool {
        self.value == other.value
    }
}

impl<T: KeyInt> Eq for Ascending<T> {
    ghost laws = { T.Eq.laws };
}

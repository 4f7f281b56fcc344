//! Keys of a trie, and their encodings.
ghost use Rattle.std.specs.Prelude.{◌≡◌, ℕ, ◌%◌, List, length, true, string_bytes, IsOk, IfOk, OnOk, IfErr};
ghost use Rattle.std.proofs.lemmas.Slice.Eq.{bytes_eq-Decides};
ghost use Rattle.nibble_map.specs.Nibbles.{nibbles, IsShort};
ghost use Rattle.radix_keys.specs.Distinct.{bytes-distinct};
ghost use Rattle.radix_keys.specs.Order.{KeepsByteOrder};

use crate::nibbles::{BytesError, Memory, Nibblet};
use std::alloc::Global;

mod ascending;
mod integers;
mod lending;
mod pairs;
mod scalars;
mod signed;
mod wide;
mod wrappers;

pub use ascending::KeySigned;
pub use lending::AsNibbles;
pub use pairs::FixedWidth;

/// A value that is encoded as a list of nibbles, its place in a trie.
///
/// An implementation names what a key means: its encoding, whether it is inline (`is_inline`: at
/// most 32 nibbles, encoded without an allocation), and whether it is a value of its type. It
/// proves that two values of the type with equal encodings are equal, and that an inline key has at
/// most 32 nibbles. A frozen trie asks for `AsNibbles` too.
pub trait TrieKey: Eq {
    // The nibbles of the key.
    ghost encoding: { Self → List ℕ };

    // Whether the key is inline: encoding it allocates nothing.
    ghost is_inline: { Self → Type 0 };

    // Whether the key is a value of its type, as an integer within its bounds is.
    ghost is_value: { Self → Type 0 };

    /// The encoding of the key.
    ///
    /// # Errors
    ///
    /// `Memory`: an allocation fails; an inline key needs none.
    ///
    /// # Examples
    ///
    /// ```
    /// # use nifazombi::radix_keys::TrieKey;
    /// # use nifazombi::rattle_std::{alloc::Global, prelude::Clone};
    /// let text = "tea".encode(Global)?;
    /// let mut list = text.clone()?;
    /// list.push(6)?;
    /// assert!(text.len() == 6 && list.len() == 7 && text < list);
    /// # Ok::<(), Box<dyn std::error::Error>>(())
    /// ```
    fn encode(&self, alloc: Global) -> Result<Nibblet, Memory>
        ensures ok { IfOk result (λ v. v ≡ encoding self.now) }
        ensures value { OnOk result (is_value self.now) }
        ensures inline { is_inline self.now → IsOk result };

    /// The encoding of the key as bytes, two nibbles to a byte and the first in the high half.
    ///
    /// # Errors
    ///
    /// `Odd`: the count of nibbles is odd; always then for an inline key. `Memory`: an allocation
    /// fails.
    fn encode_bytes(&self, alloc: Global) -> Result<Vec<u8>, BytesError>
        ensures ok { IfOk result (λ v. nibbles v.items ≡ encoding self.now) }
        ensures odd { IfErr result (λ e. e ≡ BytesError.Odd
            → length (encoding self.now) % 2 ≡ 1) }
        ensures inline_odd { is_inline self.now → length (encoding self.now) % 2 ≡ 1
            → result ≡ Err BytesError.Odd }
    {
        match self.encode(alloc) {
            Ok(list) => list.to_bytes(alloc),
            Err(_) => Err(BytesError::Memory),
        }
    }

    ghost distinct: { (x y : Self) → is_value x → is_value y → encoding x ≡ encoding y
        → Self.eq x y ≡ true };

    ghost inline_is_short: { (x : Self) → is_inline x → IsShort (encoding x) };
}

impl TrieKey for String {
    ghost encoding = { λ s. nibbles (string_bytes s) };

    ghost is_inline = { λ s. IsShort (nibbles (string_bytes s)) };

    ghost is_value = { λ _. Unit {0} };

    ghost distinct = { λ x y _ _ e. bytes-distinct (string_bytes x) (string_bytes y) e };

    ghost inline_is_short = { λ _ h. h };

    /// The nibbles of the text's bytes. The smaller text has the smaller encoding.
    fn encode(&self, alloc: Global) -> Result<Nibblet, Memory>
        ensures ok { IfOk result (λ v. v ≡ nibbles (string_bytes self.now)) }
        ensures value { OnOk result (⟦<String as TrieKey>⟧.is_value self.now) }
        ensures inline { IsShort (nibbles (string_bytes self.now)) → IsOk result }
        ensures order { KeepsByteOrder }
    {
        Nibblet::from_slice(alloc, self.as_bytes())
    }
}

impl TrieKey for &str {
    ghost encoding = { λ s. nibbles s.now };

    ghost is_inline = { λ s. IsShort (nibbles s.now) };

    ghost is_value = { λ _. Unit {0} };

    ghost distinct = { λ x y _ _ e. bytes-distinct x.now y.now e };

    ghost inline_is_short = { λ _ h. h };

    /// The nibbles of the text's bytes. The smaller text has the smaller encoding.
    fn encode(&self, alloc: Global) -> Result<Nibblet, Memory>
        ensures ok { IfOk result (λ v. v ≡ nibbles self.now.now) }
        ensures value { OnOk result (⟦<&'static str as TrieKey>⟧.is_value self.now) }
        ensures inline { IsShort (nibbles self.now.now) → IsOk result }
        ensures order { KeepsByteOrder }
    {
        Nibblet::from_slice(alloc, self.as_bytes())
    }
}

impl TrieKey for &[u8] {
    ghost encoding = { λ s. nibbles s.now };

    ghost is_inline = { λ s. IsShort (nibbles s.now) };

    ghost is_value = { λ _. Unit {0} };

    ghost distinct = { λ x y _ _ e. bytes-distinct x.now y.now e };

    ghost inline_is_short = { λ _ h. h };

    /// The nibbles of the bytes. The smaller list of bytes has the smaller encoding.
    fn encode(&self, alloc: Global) -> Result<Nibblet, Memory>
        ensures ok { IfOk result (λ v. v ≡ nibbles self.now.now) }
        ensures value { OnOk result (⟦<&'static [u8] as TrieKey>⟧.is_value self.now) }
        ensures inline { IsShort (nibbles self.now.now) → IsOk result }
        ensures order { KeepsByteOrder }
    {
        Nibblet::from_slice(alloc, *self)
    }
}

impl TrieKey for Nibblet {
    ghost encoding = { λ v. v };

    ghost is_inline = { IsShort };

    ghost is_value = { λ _. Unit {0} };

    ghost distinct = { λ x y _ _ e. (bytes_eq-Decides x y).1 e };

    ghost inline_is_short = { λ _ h. h };

    fn encode(&self, _alloc: Global) -> Result<Nibblet, Memory> {
        self.clone()
    }
}

impl<T: TrieKey> TrieKey for &T {
    ghost encoding = { λ r. T.encoding r.now };

    ghost is_inline = { λ r. T.is_inline r.now };

    ghost is_value = { λ r. T.is_value r.now };

    ghost distinct = { λ x y p q e. T.distinct x.now y.now p q e };

    ghost inline_is_short = { λ x h. T.inline_is_short x.now h };

    fn encode(&self, alloc: Global) -> Result<Nibblet, Memory> {
        (**self).encode(alloc)
    }
}

impl<T: TrieKey> TrieKey for &mut T {
    ghost encoding = { λ r. T.encoding r.now };

    ghost is_inline = { λ r. T.is_inline r.now };

    ghost is_value = { λ r. T.is_value r.now };

    ghost distinct = { λ x y p q e. T.distinct x.now y.now p q e };

    ghost inline_is_short = { λ x h. T.inline_is_short x.now h };

    fn encode(&self, alloc: Global) -> Result<Nibblet, Memory> {
        T::encode(*self, alloc)
    }
}

//! Keys of one width, and pairs of them.
ghost use Rattle.std.specs.Prelude.{◌≡◌, ℕ, ◌+◌, ◌*◌, ◌++◌, length, reverse, true, refl, IfOk, IsOk, OnOk};
ghost use Rattle.std.proofs.Common.{◌∙◌, ap, sym};
ghost use Rattle.std.proofs.lemmas.List.{length-append, length-reverse};
ghost use Rattle.nibble_map.specs.Nibbles.{IsShort};
ghost use Rattle.radix_keys.specs.AscendingKeys.{turned_bytes};
ghost use Rattle.radix_keys.specs.Distinct.{append-split, both-true};
ghost use Rattle.radix_keys.specs.Order.{KeepsPairOrder};
ghost use Rattle.radix_keys.specs.Widths.{length-nibbles, length-turned_bytes};

use crate::endian::{Ascending, BigEndian, KeyInt, LittleEndian};
use crate::keys::TrieKey;
use crate::keys::ascending::KeySigned;
use crate::nibbles::{Memory, Nibblet};
use std::alloc::Global;

/// A key type whose values all have encodings of one length.
///
/// Where two such keys are encoded one after the other, the encoding tells where the second begins.
pub trait FixedWidth: TrieKey {
    // How many nibbles an encoding has.
    ghost nibble_count: { ℕ };

    ghost same_width: { (x : Self) → Self.is_value x → length (Self.encoding x) ≡ nibble_count };
}

impl FixedWidth for u8 {
    ghost nibble_count = { 2 };

    ghost same_width = { λ _ _. refl };
}

impl FixedWidth for u16 {
    ghost nibble_count = { 4 };

    ghost same_width = { λ _ _. refl };
}

impl FixedWidth for u32 {
    ghost nibble_count = { 8 };

    ghost same_width = { λ _ _. refl };
}

impl FixedWidth for u64 {
    ghost nibble_count = { 16 };

    ghost same_width = { λ _ _. refl };
}

impl FixedWidth for u128 {
    ghost nibble_count = { 32 };

    ghost same_width = { λ _ _. refl };
}

impl FixedWidth for usize {
    ghost nibble_count = { 16 };

    ghost same_width = { λ _ _. refl };
}

impl FixedWidth for i8 {
    ghost nibble_count = { 2 };

    ghost same_width = { λ _ _. refl };
}

impl FixedWidth for i16 {
    ghost nibble_count = { 4 };

    ghost same_width = { λ _ _. refl };
}

impl FixedWidth for i32 {
    ghost nibble_count = { 8 };

    ghost same_width = { λ _ _. refl };
}

impl FixedWidth for i64 {
    ghost nibble_count = { 16 };

    ghost same_width = { λ _ _. refl };
}

impl FixedWidth for i128 {
    ghost nibble_count = { 32 };

    ghost same_width = { λ _ _. refl };
}

impl FixedWidth for isize {
    ghost nibble_count = { 16 };

    ghost same_width = { λ _ _. refl };
}

impl FixedWidth for bool {
    ghost nibble_count = { 2 };

    ghost same_width = { λ _ _. refl };
}

impl FixedWidth for char {
    ghost nibble_count = { 8 };

    ghost same_width = { λ _ _. refl };
}

impl<const N: usize> FixedWidth for [u8; N] {
    ghost nibble_count = { 2 * N };

    ghost same_width = { λ bytes h. length-nibbles bytes ∙ ap (λ n. 2 * n) h };
}

impl<T: KeyInt> FixedWidth for BigEndian<T> {
    ghost nibble_count = { 2 * T.WIDTH };

    ghost same_width = { λ w _.
        length-nibbles (T.bytes w) ∙ ap (λ n. 2 * n) (T.bytes_len w) };
}

impl<T: KeyInt> FixedWidth for LittleEndian<T> {
    ghost nibble_count = { 2 * T.WIDTH };

    ghost same_width = { λ w _.
        length-nibbles (reverse (T.bytes w))
        ∙ ap (λ n. 2 * n) (length-reverse (T.bytes w) ∙ T.bytes_len w) };
}

impl<T: KeySigned> FixedWidth for Ascending<T> {
    ghost nibble_count = { 2 * T.KeyInt.WIDTH };

    ghost same_width = { λ w _.
        length-nibbles (turned_bytes (T.KeyInt.bytes w))
        ∙ ap (λ n. 2 * n) (length-turned_bytes (T.KeyInt.bytes w) ∙ T.KeyInt.bytes_len w) };
}

impl<T: FixedWidth> FixedWidth for &T {
    ghost nibble_count = { T.nibble_count };

    ghost same_width = { λ r h. T.same_width r.now h };
}

impl<A: FixedWidth, B: FixedWidth> TrieKey for (A, B) {
    ghost encoding = { λ p. A.encoding p.0 ++ B.encoding p.1 };

    ghost is_inline = { λ p.
        (A.is_inline p.0 × B.is_inline p.1) × IsShort (A.encoding p.0 ++ B.encoding p.1) };

    ghost is_value = { λ p. A.is_value p.0 × B.is_value p.1 };

    ghost distinct = { λ x y p q e.
        let parts = append-split (A.encoding x.0) (A.encoding y.0) (B.encoding x.1) (B.encoding y.1)
        (A.same_width x.0 p.0 ∙ sym (A.same_width y.0 q.0)) e in
        both-true (A.distinct x.0 y.0 p.0 q.0 parts.0) (B.distinct x.1 y.1 p.1 q.1 parts.1) };

    ghost inline_is_short = { λ _ h. h.1 };

    /// The nibbles of the first key, and then those of the second. So the first keys decide the
    /// order of two pairs, and the second keys where the first ones have one encoding.
    fn encode(&self, alloc: Global) -> Result<Nibblet, Memory>
        ensures ok { IfOk result
            (λ v. v ≡ A.encoding self.now.0 ++ B.encoding self.now.1) }
        ensures value { OnOk result (A.is_value self.now.0 × B.is_value self.now.1) }
        ensures inline { (A.is_inline self.now.0 × B.is_inline self.now.1)
            × IsShort (A.encoding self.now.0 ++ B.encoding self.now.1) → IsOk result }
        ensures order { KeepsPairOrder A.encoding B.encoding A.is_value }
    {
        let first = self.0.encode(alloc)?;
        let second = self.1.encode(alloc)?;
        match first.join(&second) {
            Ok(both) => Ok(both),
            Err(_) => Err(Memory),
        }
    }
}

impl<A: FixedWidth, B: FixedWidth> FixedWidth for (A, B) {
    ghost nibble_count = { A.nibble_count + B.nibble_count };

    ghost same_width = { λ p h.
        length-append (A.encoding p.0) (B.encoding p.1)
        ∙ ap (λ n. n + length (B.encoding p.1)) (A.same_width p.0 h.0)
        ∙ ap (λ n. A.nibble_count + n) (B.same_width p.1 h.1) };
}

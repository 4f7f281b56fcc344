//! Lists of bits as keys, such as the first bits of an address.
ghost use Rattle.std.specs.Prelude.{◌≡◌, ◌==◌, length, take, IsOk, IfOk, nat_eq};
ghost use Rattle.std.specs.Cmp.{partial_equiv_from_equiv};
ghost use Rattle.std.specs.Cmp.Lexicographic.{pointwise, nat_list_eq_equiv};
ghost use Rattle.std.proofs.lemmas.Slice.Eq.{bytes_eq-Decides};
ghost use Rattle.nibble_map.specs.Nibbles.{nibbles, IsShort};
ghost use Rattle.radix_keys.specs.Bits.{bits_high_first, bits_of, first_bits};

use crate::keys::{AsNibbles, TrieKey};
use crate::nibbles::{Memory, Nibblet};
use crate::slices::NibbleSlice;
use std::alloc::{AllocError, Global};
use std::fmt;
use std::marker::Model;

/// A list of bits, each stored as a nibble, 0 or 1. Up to 32 are stored inline, without an
/// allocation.
///
/// # Examples
///
/// ```
/// # use nifazombi::{radix_trie::Trie, rattle_std::alloc::Global};
/// use nifazombi::radix_keys::Bits;
///
/// let mut hops: Trie<Bits, u32> = Trie::new(Global);
/// hops.insert(Bits::first_of_u32(Global, 0x0a00_0000, 8)?, 1)?;
/// let address = Bits::first_of_u32(Global, 0x0a01_0203, 32)?;
/// assert_eq!(hops.get_ancestor_value(&address)?, Some(&1));
/// # Ok::<(), Box<dyn std::error::Error>>(())
/// ```
#[derive(Drop)]
pub struct Bits {
    list: Nibblet,
}

impl Model for Bits {
    ghost use Rattle.std.specs.Prelude.{ℕ, List};

    ghost Value = { List ℕ };

    ghost view = { λ b. b.list };
}

/// The eight bits of a byte, the highest first, as the nibbles of four bytes.
fn bits_in_pairs(byte: u8) -> [u8; 4]
    ensures { nibbles result ≡ bits_high_first 8 byte }
{
    [
        (byte >> 7) * 16 + (byte >> 6) % 2,
        (byte >> 5) % 2 * 16 + (byte >> 4) % 2,
        (byte >> 3) % 2 * 16 + (byte >> 2) % 2,
        (byte >> 1) % 2 * 16 + byte % 2,
    ]
}

impl Bits {
    /// The first `count` bits of the bytes, the highest bit of each byte first; all of them if
    /// there are fewer.
    ///
    /// # Errors
    ///
    /// `Memory`: an allocation fails; up to 32 bits need none.
    pub fn first_of(alloc: Global, bytes: &[u8], count: usize) -> Result<Bits, Memory>
        ensures ok { IfOk result (λ b. b ≡ take count (bits_of bytes.now)) }
        ensures succeeds { IsShort (take count (bits_of bytes.now)) → IsOk result }
    {
        let whole = (count / 8).min(bytes.len());
        let mut list = Nibblet::new(alloc);
        for byte in &bytes[..whole] {
            list.push_bytes(&bits_in_pairs(*byte))?;
        }
        if whole == bytes.len() {
            return Ok(Bits { list });
        }
        for i in 0..count % 8 {
            list.push((bytes[whole] >> (7 - i)) % 2)?;
        }
        Ok(Bits { list })
    }

    /// The first `count` bits of the number, at most 32, the highest first.
    ///
    /// # Errors
    ///
    /// Never fails: 32 bits need no allocation.
    pub fn first_of_u32(alloc: Global, number: u32, count: usize) -> Result<Bits, Memory>
        ensures ok { IfOk result (λ b. b ≡ first_bits 32 number count) }
        ensures succeeds { IsOk result }
    {
        let bytes = number.to_be_bytes();
        Bits::first_of(alloc, &bytes, count)
    }

    /// The first `count` bits of the number, at most 128, the highest first.
    ///
    /// # Errors
    ///
    /// `Memory`: an allocation fails; up to 32 bits need none.
    pub fn first_of_u128(alloc: Global, number: u128, count: usize) -> Result<Bits, Memory>
        ensures ok { IfOk result (λ b. b ≡ first_bits 128 number count) }
        ensures succeeds { IsShort (first_bits 128 number count) → IsOk result }
    {
        Bits::first_of(alloc, &number.to_be_bytes(), count)
    }

    /// The list of the bits, a nibble for each.
    pub fn as_list(&self) -> &Nibblet
        ensures { result.now ≡ self.now }
    {
        &self.list
    }

    /// The list of the bits, a nibble for each.
    pub fn into_list(self) -> Nibblet
        ensures { result ≡ self }
    {
        self.list
    }

    /// The count of bits.
    pub fn len(&self) -> usize
        ensures { result ≡ length self.now }
    {
        self.list.len()
    }

    /// Whether the list has no bit.
    pub fn is_empty(&self) -> bool
        ensures { result ≡ (length self.now == 0) }
    {
        self.list.is_empty()
    }
}

impl Clone for Bits {
    ghost is_clone = { λ bits copy. copy ≡ bits };

    ghost is_infallible = { IsShort };

    fn clone(&self) -> Result<Bits, AllocError> {
        match Clone::clone(&self.list) {
            Ok(list) => Ok(Bits { list }),
            Err(refused) => Err(refused),
        }
    }
}

impl PartialEq for Bits {
    ghost eq = { pointwise nat_eq };

    ghost laws = { partial_equiv_from_equiv nat_list_eq_equiv };

    fn eq(&self, other: &Bits) -> bool {
        self.list == other.list
    }
}

impl Eq for Bits {
    ghost laws = { nat_list_eq_equiv };
}

impl TrieKey for Bits {
    ghost encoding = { λ b. b };

    ghost is_inline = { IsShort };

    ghost is_value = { λ _. Unit {0} };

    ghost distinct = { λ x y _ _ e. (bytes_eq-Decides x y).1 e };

    ghost inline_is_short = { λ _ h. h };

    /// The list of the bits.
    fn encode(&self, _alloc: Global) -> Result<Nibblet, Memory> {
        self.list.clone()
    }
}

impl AsNibbles for Bits {
    ghost is_lent = { λ _. Unit {0} };

    fn as_nibbles(&self) -> Option<NibbleSlice<'_>> {
        Some(self.list.as_slice())
    }
}

/// A digit for each bit.
impl fmt::Display for Bits {
    ghost use Rattle.std.specs.Fmt.{digits};
    ghost use Rattle.std.specs.Prelude.{Some, false, flat_map};

    ghost output = { λ bits. Some (flat_map (digits 16 false) bits) };

    fn fmt<W: fmt::Write>(&self, f: &mut fmt::Formatter<W>) -> fmt::Result {
        fmt::Display::fmt(&self.list, f)
    }
}

impl fmt::Debug for Bits {
    ghost use Rattle.std.specs.Fmt.{digits};
    ghost use Rattle.std.specs.Prelude.{Some, false, flat_map};

    ghost debug_output = { λ bits. Some (flat_map (digits 16 false) bits) };

    fn fmt<W: fmt::Write>(&self, f: &mut fmt::Formatter<W>) -> fmt::Result {
        fmt::Display::fmt(&self.list, f)
    }
}

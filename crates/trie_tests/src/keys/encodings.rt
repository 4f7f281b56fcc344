//! Encodings of keys that the shell has no type for.

use crate::keys::digits::encodes;
use crate::samples::list;
use radix_keys::{
    Ascending, BigEndian, BytesError, KeyInt, LittleEndian, Memory, Nibblet, TrieKey,
};
use std::alloc::Global;
use std::test::Fail;

/// A caller's own key, of one nibble, with the one call that the trait asks for.
#[derive(Clone, Copy, PartialEq, Eq)]
struct Digit {
    digit: u8,
}

impl TrieKey for Digit {
    ghost use Rattle.std.specs.Prelude.{◌∷◌, [], ◌<◌, slice_index};
    ghost use Rattle.std.proofs.lemmas.Bool.{eq-eqb};
    ghost use Rattle.std.proofs.Common.{lit≤, ap};

    ghost encoding = { λ d. d.digit ∷ [] };

    ghost is_inline = { λ d. d.digit < 16 };

    ghost is_value = { λ d. d.digit < 16 };

    ghost distinct = { λ x y _ _ e. eq-eqb x.digit y.digit (ap (λ xs. slice_index xs 0) e) };

    ghost inline_is_short = { λ _ _. lit≤ tt };

    fn encode(&self, alloc: Global) -> Result<Nibblet, Memory> {
        let mut list = Nibblet::new(alloc);
        if self.digit < 16 {
            list.push(self.digit)?;
            Ok(list)
        } else {
            Err(Memory)
        }
    }
}

#[test]
fn keys_of_other_types(rt: HostRuntime) -> Result<(), Fail> {
    let a = rt.alloc();
    assert!(rt; encodes(a, &Vec::from_slice(a, &[1u16, 258])?, "00010102"));
    assert!(rt; encodes(a, &Vec::from_slice(a, &[-1i8, 1])?, "ff01"));
    assert!(rt; encodes(a, &(0xf1u8, 256u16), "f10100"));
    assert!(rt; encodes(a, &(true, 'a'), "0100000061"));
    assert!(rt; encodes(a, &(([1u8], -1i8), BigEndian::from(2u16)), "01ff0002"));
    assert!(rt; encodes(a, &LittleEndian::from(-2i16), "feff"));
    let own = Digit { digit: 7 };
    assert!(rt; encodes(a, &own, "7"));
    assert!(rt; own.encode_bytes(a).is_err_and(|e| e == BytesError::Odd));
    Ok(())
}

/// A key that is lent is encoded as it is itself, also by an odd count of nibbles.
#[test]
fn lent_keys(rt: HostRuntime) -> Result<(), Fail> {
    let a = rt.alloc();
    let odd = list(a, &[1, 2, 3])?;
    assert!(rt; encodes(a, &&odd, "123"));
    assert!(rt; (&odd).encode_bytes(a).is_err_and(|e| e == BytesError::Odd));
    assert!(rt; encodes(a, &&"abc", "616263"));
    let mut text = String::from_str(a, "abc")?;
    assert!(rt; encodes(a, &&mut text, "616263"));
    let bytes: &[u8] = b"ab\xff";
    assert!(rt; encodes(a, &bytes, "6162ff"));
    Ok(())
}

/// A wrapper gives its number back and is compared by it; a number gives its bytes, the highest
/// first.
#[test]
fn wrapped_numbers_come_back(rt: HostRuntime) {
    let (big, little) = (BigEndian::from(-7i32), LittleEndian::from(7u64));
    let rising = Ascending::from(-7i32);
    assert!(rt; (big.value(), little.value(), rising.value()) == (-7, 7, -7));
    assert!(rt; big == BigEndian::from(-7) && big != BigEndian::from(7));
    assert!(rt; little == LittleEndian::from(7) && little != LittleEndian::from(8));
    assert!(rt; rising == Ascending::from(-7) && rising != Ascending::from(7));
    assert!(rt; (0x1234u16.byte(0), 0x1234u16.byte(1), (-2i8).byte(0)) == (0x12, 0x34, 0xfe));
    assert!(rt; ((-2i64).byte(0), (-2i64).byte(7)) == (0xff, 0xfe));
}

//! Lists of nibbles and of bits that are asked again after they were changed or made.
ghost use Rattle.std.specs.Prelude.{◌≤◌, length};

use crate::keys::digits::reads;
use crate::samples::list;
use radix_keys::{Bits, Memory};
use std::alloc::Global;
use std::test::Fail;

/// Nibbles in no order, more than need no memory.
const NIBBLES: &'static [u8] = &[
    0, 7, 14, 5, 12, 3, 10, 1, 8, 15, 6, 13, 4, 11, 2, 9, 0, 7, 14, 5, 12, 3, 10, 1, 8, 15, 6, 13,
    4, 11, 2, 9, 0, 7, 14, 5, 12, 3, 10,
];

#[test]
fn a_list_is_cut_short(rt: HostRuntime) -> Result<(), Fail> {
    let a = rt.alloc();
    for (count, kept) in [(0, ""), (1, "1"), (3, "123"), (4, "1234")] {
        let mut cut = list(a, &[1, 2, 3, 4])?;
        assert!(rt; count <= cut.len());
        cut.truncate(count);
        assert!(rt; reads(&cut, kept), "to {count}");
        cut.push(5)?;
        assert!(rt; cut.get(count) == 5, "to {count}");
    }
    Ok(())
}

/// Whether a list is split at a place into its first nibbles and the others, which join to it.
fn is_parted(alloc: Global, nibbles: &[u8], place: usize) -> Result<bool, Memory>
    requires { place ≤ length nibbles.now }
{
    let mut kept = list(alloc, nibbles)?;
    let rest = kept.split(place)?;
    let is_split = kept == list(alloc, &nibbles[..place])?
        && rest == list(alloc, &nibbles[place..])?;
    match kept.join(&rest) {
        Ok(whole) => Ok(is_split && whole == list(alloc, nibbles)?),
        Err(_) => Err(Memory),
    }
}

#[test]
fn lists_are_split_and_joined_at_each_place(rt: HostRuntime) -> Result<(), Memory> {
    for count in 0..40 {
        for place in 0..count + 1 {
            assert!(rt;
                is_parted(rt.alloc(), &NIBBLES[..count], place)?,
                "{place} of {count}"
            );
        }
    }
    Ok(())
}

#[test]
fn what_is_left_of_a_half_byte_does_not_count(rt: HostRuntime) -> Result<(), Fail> {
    let a = rt.alloc();
    let mut cut = list(a, &[1, 2, 3, 15])?;
    assert!(rt; cut.len() == 4);
    cut.split(3)?;
    cut.push(0)?;
    assert!(rt; cut == list(a, &[1, 2, 3, 0])?);
    Ok(())
}

#[test]
fn bits_are_compared_and_copied(rt: HostRuntime) -> Result<(), Fail> {
    let a = rt.alloc();
    let network = Bits::first_of_u32(a, 0xff00_0000, 8)?;
    assert!(rt; network == Bits::first_of(a, &[0xff], 8)?);
    assert!(rt; network != Bits::first_of(a, &[0xff], 7)?);
    assert!(rt; network.len() == 8);
    assert!(rt; network.clone()? == network);
    Ok(())
}

//! The nibbles of a list in order, the order of lists, and their text.

use crate::samples::list;
use std::cmp::Ordering;
use std::test::Fail;

#[test]
fn lists_are_walked_written_and_ordered(rt: HostRuntime) -> Result<(), Fail> {
    const ROWS: &'static [(&'static [u8], &'static [u8], Ordering)] = &[
        (&[1, 2], &[1, 2, 0], Ordering::Less),
        (&[1, 2], &[1, 3], Ordering::Less),
        (&[2], &[1, 15], Ordering::Greater),
        (&[1, 2, 3], &[1, 2], Ordering::Greater),
        (&[7, 8], &[7, 8], Ordering::Equal),
        (&[1], &[1, 0], Ordering::Less),
    ];
    let a = rt.alloc();
    let digits = list(a, &[1, 2, 15])?;
    let nibbles: Vec<u8> = digits.iter().collect(a)?;
    assert!(rt; nibbles.as_slice() == [1, 2, 15].as_slice());
    let text = format!(in a; "{digits} {digits:?}")?;
    assert!(rt; text.as_str() == "12f 12f");
    for (first, second, order) in ROWS {
        let (first, second) = (list(a, first)?, list(a, second)?);
        assert!(rt; first.cmp(&second) == *order);
    }
    assert!(rt; list(a, &[1])? < list(a, &[1, 0])?);
    Ok(())
}

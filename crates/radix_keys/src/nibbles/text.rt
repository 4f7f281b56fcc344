//! How a list of nibbles is written and read: a hexadecimal digit for each nibble.
ghost use Rattle.std.specs.Char.{digit_value};
ghost use Rattle.std.specs.Fmt.{digits};
ghost use Rattle.std.specs.Option.{SomeIff};
ghost use Rattle.std.specs.Prelude.{◌<◌, Some, false, flat_map, map, All, IfOk, IsOk};
ghost use Rattle.nibble_map.specs.Nibbles.{IsShort};

use crate::nibbles::{Memory, NibbleVec};
use std::alloc::Global;
use std::fmt;

impl NibbleVec {
    /// The list of the text's hexadecimal digits, small or capital; None where it has another
    /// character.
    ///
    /// # Errors
    ///
    /// `Memory`: an allocation fails; up to 32 bytes of text need none.
    pub fn from_hex(alloc: Global, text: &str) -> Result<Option<NibbleVec>, Memory>
        ensures ok { IfOk result (λ found.
            SomeIff found (All (λ c. digit_value c < 16) text.now) (map digit_value text.now)) }
        ensures succeeds { IsShort text.now → IsOk result }
    {
        let mut list = NibbleVec::new(alloc);
        for byte in text.as_bytes() {
            match char::from(*byte).to_digit(16) {
                Some(digit) => list.push(digit as u8)?,
                None => return Ok(None),
            }
        }
        Ok(Some(list))
    }
}

impl fmt::Display for NibbleVec {
    ghost output = { λ list. Some (flat_map (digits 16 false) list) };

    fn fmt<W: fmt::Write>(&self, f: &mut fmt::Formatter<W>) -> fmt::Result {
        for place in 0..self.len() {
            let nibble = self.get(place);
            write!(f, "{nibble:x}")?;
        }
        Ok(())
    }
}

impl fmt::Debug for NibbleVec {
    ghost debug_output = { λ list. Some (flat_map (digits 16 false) list) };

    fn fmt<W: fmt::Write>(&self, f: &mut fmt::Formatter<W>) -> fmt::Result {
        fmt::Display::fmt(self, f)
    }
}

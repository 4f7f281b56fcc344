//! How a list of parts is shown, and the messages of errors.
ghost use Rattle.std.specs.Prelude.{Some};
ghost use Rattle.radix_keys.specs.Errors.{parts_text};

use crate::nibbles::Memory;
use crate::parts::{Parts, PartsError};
use std::error::Error;
use std::fmt;

/// Each part between quotes, with an escape for a byte that is no printable ASCII.
impl fmt::Debug for Parts {
    fn fmt<W: fmt::Write>(&self, f: &mut fmt::Formatter<W>) -> fmt::Result {
        f.write_str("[")?;
        let mut is_first = true;
        for part in self.iter() {
            if !is_first {
                f.write_str(", ")?;
            }
            is_first = false;
            write!(f, "\"{}\"", part.escape_ascii())?;
        }
        f.write_str("]")
    }
}

impl fmt::Display for PartsError {
    ghost output = { λ error. Some (parts_text error) };

    fn fmt<W: fmt::Write>(&self, f: &mut fmt::Formatter<W>) -> fmt::Result {
        match self {
            PartsError::Memory => fmt::Display::fmt(&Memory, f),
            PartsError::Zero => f.write_str("a part has a byte 0"),
        }
    }
}

impl Error for PartsError {}

//! The messages of errors.
ghost use Rattle.std.specs.Prelude.{Some};
ghost use Rattle.radix_keys.specs.Errors.{bytes_text, memory_text};

use crate::nibbles::{BytesError, Memory};
use std::error::Error;
use std::fmt;

impl fmt::Display for Memory {
    ghost output = { λ _. Some memory_text };

    fn fmt<W: fmt::Write>(&self, f: &mut fmt::Formatter<W>) -> fmt::Result {
        f.write_str("out of memory")
    }
}

impl Error for Memory {}

impl fmt::Display for BytesError {
    ghost output = { λ error. Some (bytes_text error) };

    fn fmt<W: fmt::Write>(&self, f: &mut fmt::Formatter<W>) -> fmt::Result {
        match self {
            BytesError::Memory => fmt::Display::fmt(&Memory, f),
            BytesError::Odd => f.write_str("the key has an odd count of nibbles"),
        }
    }
}

impl Error for BytesError {}

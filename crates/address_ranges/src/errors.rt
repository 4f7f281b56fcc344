//! Why no rows are made of ranges.
ghost use Rattle.std.specs.Prelude.{◌≡◌, Some};
ghost use Rattle.address_ranges.specs.Errors.{ranges_text};

use radix_keys::Memory;
use std::error::Error;
use std::fmt;

/// Why no rows are made of ranges.
#[derive(Clone, Copy, PartialEq, Eq, Debug)]
pub enum RangesError {
    /// An allocation failed.
    Memory,
    /// The range at this index ends before it begins.
    Reversed(usize),
    /// The range at this index doesn't come after the one before it.
    OutOfOrder(usize),
}

impl From<Memory> for RangesError {
    ghost use Rattle.address_ranges.specs.declared.errors.RangesError.TheVariants.{Memory as memory};

    ghost from_gives = { λ _ e. e ≡ memory };

    fn from(_refused: Memory) -> RangesError {
        RangesError::Memory
    }
}

impl fmt::Display for RangesError {
    ghost output = { λ why. Some (ranges_text why) };

    fn fmt<W: fmt::Write>(&self, f: &mut fmt::Formatter<W>) -> fmt::Result {
        f.write_str(match self {
            RangesError::Memory => "out of memory",
            RangesError::Reversed(_) => "the range ends before it begins",
            RangesError::OutOfOrder(_) => "the range doesn't come after the one before it",
        })
    }
}

impl Error for RangesError {}

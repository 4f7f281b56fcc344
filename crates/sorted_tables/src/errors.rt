//! Why items aren't taken into a table.
ghost use Rattle.std.specs.Prelude.{Some};
ghost use Rattle.sorted_tables.specs.Errors.{push_text, sorted_text};

use std::error::Error;
use std::fmt;

/// Why an item isn't appended.
#[derive(Clone, Copy, PartialEq, Eq, Debug)]
pub enum PushWhy {
    /// An allocation failed, or the table would hold more bytes of keys than it counts.
    Memory,
    /// The table holds 2^32 - 1 items.
    Full,
    /// The item doesn't come after all others.
    OutOfOrder,
}

impl fmt::Display for PushWhy {
    ghost output = { λ why. Some (push_text why) };

    fn fmt<W: fmt::Write>(&self, f: &mut fmt::Formatter<W>) -> fmt::Result {
        f.write_str(match self {
            PushWhy::Memory => "out of memory",
            PushWhy::Full => "the table is full",
            PushWhy::OutOfOrder => "the item doesn't come after the one before it",
        })
    }
}

impl Error for PushWhy {}

/// Why items aren't taken.
#[derive(Clone, Copy, PartialEq, Eq, Debug)]
pub enum SortedWhy {
    /// An allocation failed, or the table would hold more bytes of keys than it counts.
    Memory,
    /// There are 2^32 items or more.
    Full,
    /// The item at this index doesn't come after the one before it.
    OutOfOrder(usize),
}

/// The texts of `PushWhy`.
impl fmt::Display for SortedWhy {
    ghost output = { λ why. Some (sorted_text why) };

    fn fmt<W: fmt::Write>(&self, f: &mut fmt::Formatter<W>) -> fmt::Result {
        let why = match self {
            SortedWhy::Memory => PushWhy::Memory,
            SortedWhy::Full => PushWhy::Full,
            SortedWhy::OutOfOrder(_) => PushWhy::OutOfOrder,
        };
        fmt::Display::fmt(&why, f)
    }
}

impl Error for SortedWhy {}

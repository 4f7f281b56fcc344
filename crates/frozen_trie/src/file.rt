//! Frozen tries as files.
pub use item::FileItem;

mod item;
mod parts;
mod reading;
mod rows;
mod texts;
mod tries;
mod writing;

/// The first bytes of each file.
const MAGIC: [u8; 8] = [70, 82, 79, 90, 69, 78, 84, 88];

/// The version of the form that is written, and read.
const VERSION: u32 = 2;

/// Why a file isn't read.
#[derive(Clone, Copy, PartialEq, Eq, Debug)]
pub enum FileWhy {
    /// The file doesn't begin with `FROZENTX`.
    Magic,
    /// The file is of a version other than 2.
    Version,
    /// The file ends within its head or a row.
    Short,
    /// A row's bytes of a key are of no key of the type.
    Key,
    /// A row's bytes of a value are of no value of the type.
    Value,
    /// A key doesn't come after the one before it.
    OutOfOrder,
    /// Something stands behind the last row.
    Long,
    /// There are 2^32 rows or more.
    Full,
    /// An allocation failed, or the encodings of the keys take 2^31 bytes or more.
    Memory,
    /// The reader failed.
    Read,
}

/// A file that isn't read.
#[derive(Clone, Copy, PartialEq, Eq, Debug)]
pub struct FileError {
    pub why: FileWhy,
    /// How many rows stand before the fault.
    pub pair: u64,
    /// How many bytes stand before the row, or the part of the head, that has the fault.
    pub place: u64,
}

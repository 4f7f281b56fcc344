//! A routing table laid into one run of bytes, which is searched in place: a slice of a file that
//! is mapped, or of any other memory.
#![tactic(auto)]

mod check;
mod columns;
mod family;
mod head;
mod index;
pub mod ipv4;
pub mod ipv6;
mod laws;
mod layout;
mod many;
mod merging;
mod rows;
mod search;
mod spans;
mod table;
mod tables;
mod turns;
mod writing;

pub use family::Family;
pub use image_parts::{ImageError, TableError, WriteError, payload};
pub use laws::images_answer_as_tables;
pub use layout::image_len;
pub use many::{FlatAddress, longest_matches};
pub use merging::{FlatChange, merge, merge_len};
pub use table::{Route, Table};
pub use writing::{FlatRow, write};

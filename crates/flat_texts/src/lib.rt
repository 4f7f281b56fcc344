//! A map from byte strings to numbers, laid into one run of bytes, which is searched in place: a
//! slice of a file that is mapped, or of any other memory.
#![tactic(auto)]

mod checking;
mod head;
mod heads;
mod layout;
mod pair;
mod pairs;
mod ranges;
mod reading;
mod search;
mod tables;
mod writing;

pub use checking::{check, is_image};
pub use image_parts::{ImageError, TableError, WriteError, payload};
pub use layout::image_len;
pub use pair::{Pair, Place};
pub use ranges::{below, between, rank};
pub use reading::{above, get, len, nearest, nth, place_at, prefixes};
pub use tables::{from_image, to_image};
pub use writing::write;

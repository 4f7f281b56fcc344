//! Walks over the pairs of a trie, in the order of the encodings.

mod back;
mod combination;
mod cursor;
mod first_last;
mod keys_values;
mod pages;
mod prefixes;
mod rows;
mod side;
mod span;
mod walk;

pub use crate::view::children::Children;
pub use back::CursorBack;
pub use combination::{Combination, Operation};
pub use cursor::Cursor;
pub(crate) use first_last::{first_pair, last_pair};
pub use keys_values::{Keys, Values};
pub(crate) use pages::first_pairs;
pub use prefixes::CommonPrefixes;
pub(crate) use rows::{Frame, key_of, key_value_of, value_of};
pub(crate) use side::{Side, side_of};
pub(crate) use span::frames_within;
pub use walk::Iter;

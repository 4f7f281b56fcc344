//! Tables of items in order, which are searched by halves and then by links: the words and laws of
//! their searches, and why items aren't taken.
#![tactic(auto)]

mod errors;

pub use errors::{PushWhy, SortedWhy};

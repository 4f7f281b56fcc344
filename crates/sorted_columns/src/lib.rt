//! Searches in the columns of a sorted table, wherever these lie: in vectors, or in bytes.
#![tactic(auto)]

mod columns;
mod search;

pub use columns::{Columns, Fronts, Links};
pub use search::{count_in_front, follow_parents};

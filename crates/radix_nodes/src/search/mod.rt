//! Ways down to the node of a list, which change nothing.

pub mod compare;
pub mod find;
pub mod find_mut;
pub mod queries;
pub mod step;

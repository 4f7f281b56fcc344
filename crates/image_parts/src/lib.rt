//! What all images have in common: numbers in bytes, and the list of the parts.
#![tactic(auto)]

mod errors;
mod loads;
mod parts;
mod stores;

pub use errors::{ImageError, TableError, WriteError};
pub use loads::{u32_at, u64_at, u128_at};
pub use parts::{part_at, payload, put_part};
pub use stores::{put_bytes, put_u32, put_u64};

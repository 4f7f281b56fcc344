//! The least list of networks that gives each address the answer that a routing table gives it.
#![tactic(auto)]

mod blocks;
mod plans;
mod routes;

pub use routes::{Route, is_table, least};

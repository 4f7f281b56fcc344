//! The tree of nodes as plain data, with masks, and its laws. The definitions stand in `specs/`.
#![tactic(auto)]

pub mod same_laws;
pub mod turned_laws;

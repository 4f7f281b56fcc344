//! Insertion of a pair, and of a branch with all that is below it (`graft`, `graft_root`).

pub mod attach;
pub mod change;
pub mod graft;
pub mod graft_root;
pub mod insert;

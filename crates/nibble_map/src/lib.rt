//! Lists of nibbles, the finite map that a trie is seen as, the tree of fragments, and their laws.
//! The definitions stand in `specs/`; each law is a function with an empty body, whose contract is
//! the law.
#![tactic(auto)]

pub mod canonical_laws;
pub mod map_laws;
pub mod query_laws;
pub mod same_laws;
pub mod tree_laws;
pub mod turned_laws;
pub mod walk_laws;
pub mod worked_rows;

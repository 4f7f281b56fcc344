//! The nodes of the trie.
#![tactic(auto)]

pub mod fragments;
pub mod insertion;
pub mod removal;
pub mod search;
pub mod trie_node;
pub mod whole;

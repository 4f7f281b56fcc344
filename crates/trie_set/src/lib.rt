//! Sets of keys, kept in a radix trie: membership, prefixes, and two sets side by side.
#![tactic(auto)]

mod laws;
mod selection;
mod set;

pub use laws::{
    combinations_have_values, keys_of_sets_rise, sets_answer_by_both, sets_have_an_algebra,
};
pub use selection::Selection;
pub use set::TrieSet;

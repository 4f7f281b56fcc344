//! Views: a trie, and a path in it.
pub(crate) mod children;
pub(crate) mod descent;
mod edit;
pub(crate) mod inside;
mod locate;
mod opens;
mod queries;
mod retain;
mod shown;
pub(crate) mod subtrie;
pub(crate) mod subtrie_mut;
pub(crate) mod trie_common;
pub(crate) mod trie_edit;
mod values;

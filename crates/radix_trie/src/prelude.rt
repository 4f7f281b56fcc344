//! What most programs name: the trie, and the traits whose calls it has, as `iter` and `cursor`.
//!
//! ```
//! use nifazombi::radix_trie::prelude::*;
//! ```

pub use crate::trie::Trie;
pub use crate::view::trie_common::TrieCommon;
pub use crate::view::trie_edit::TrieEdit;

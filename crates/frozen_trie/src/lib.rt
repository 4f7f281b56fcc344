//! The pairs of a radix trie in order, for reading alone: a frozen trie.
#![tactic(auto)]

mod build;
mod copies;
mod file;
mod formats;
mod freezing;
mod frozen;
mod laws;
mod prefixes;
mod search;
mod slices;
mod texts;
mod thawing;

pub use copies::frozen_copy;
pub use file::{FileError, FileItem, FileWhy};
pub use freezing::freeze;
pub use frozen::FrozenTrie;
pub use laws::{
    files_have_no_fault, frozen_stands_at_its_encodings, text_files_have_no_fault,
    texts_stand_at_their_bytes,
};
pub use prefixes::CommonPrefixes;
pub use sorted_tables::{PushWhy, SortedWhy};
pub use texts::{FrozenTexts, TextKey, TextPrefixes, Texts};

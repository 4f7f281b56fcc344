//! Images of frozen tries: the keys, by the bytes of their encodings, and the values in one run of
//! bytes, which `flat_texts` searches in place. A value is a number, or a text or other bytes,
//! which stand among the image's own.
#![tactic(auto)]

mod errors;
mod keys;
mod places;
mod tables;
mod values;

pub use errors::TrieError;
pub use frozen_trie::FileItem;
pub use image_parts::ImageError;
pub use keys::ImageKey;
pub use places::{bytes_at, own_bytes};
pub use tables::{from_image, to_image};
pub use values::{from_image_of_values, to_image_of_values};

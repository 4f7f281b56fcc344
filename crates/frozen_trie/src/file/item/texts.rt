//! Texts and bytes in a file, as they are.
ghost use Rattle.std.specs.Prelude.{◌≡◌, List, ℕ, string_bytes};

use crate::file::item::{FileItem, append};
use radix_keys::Memory;
use std::alloc::Global;

impl FileItem for String {
    ghost file_bytes = { string_bytes };

    ghost is_item = { λ _. Unit {0} };

    ghost is_same = { λ a b. string_bytes a ≡ string_bytes b };

    ghost told = { λ _ _ _ _ e. e };

    fn append_to(&self, out: &mut Vec<u8>) -> Result<(), Memory> {
        append(self.as_bytes(), out)
    }

    fn of_file(bytes: &[u8], alloc: Global) -> Result<Option<String>, Memory> {
        let Ok(text) = str::from_utf8(bytes) else {
            return Ok(None);
        };
        match String::from_str(alloc, text) {
            Ok(text) => Ok(Some(text)),
            Err(_) => Err(Memory),
        }
    }
}

impl FileItem for Vec<u8> {
    ghost file_bytes = { λ v. v.items };

    ghost is_item = { λ _. Unit {0} };

    ghost is_same = { λ a b. a.items ≡ b.items };

    ghost told = { λ _ _ _ _ e. e };

    fn append_to(&self, out: &mut Vec<u8>) -> Result<(), Memory> {
        append(self, out)
    }

    fn of_file(bytes: &[u8], alloc: Global) -> Result<Option<Vec<u8>>, Memory> {
        match Vec::from_slice(alloc, bytes) {
            Ok(items) => Ok(Some(items)),
            Err(_) => Err(Memory),
        }
    }
}

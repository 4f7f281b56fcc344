//! Numbers in a file: their bytes, the lowest first.
ghost use Rattle.std.specs.Prelude.{◌≡◌, ◌<◌, ◌^◌, [], ◌∷◌};
ghost use Rattle.std.specs.Int.{w16, w32, w64, to_le_bytes};
ghost use Rattle.frozen_trie.specs.FileItems.{same_u8, same_u16, same_u32, same_u64};

use crate::file::item::{FileItem, append};
use crate::file::parts::{u16_of, u32_of, u64_of};
use radix_keys::Memory;
use std::alloc::Global;

impl FileItem for u8 {
    ghost file_bytes = { λ n. n ∷ [] };

    ghost is_item = { λ n. n < 2 ^ 8 };

    ghost is_same = { λ a b. a ≡ b };

    ghost told = { λ a b _ _ e. same_u8 a b e };

    fn append_to(&self, out: &mut Vec<u8>) -> Result<(), Memory> {
        append(&[*self], out)
    }

    fn of_file(bytes: &[u8], _alloc: Global) -> Result<Option<u8>, Memory> {
        if bytes.len() == 1 {
            Ok(Some(bytes[0]))
        } else {
            Ok(None)
        }
    }
}

impl FileItem for u16 {
    ghost file_bytes = { to_le_bytes w16 };

    ghost is_item = { λ n. n < 2 ^ 16 };

    ghost is_same = { λ a b. a ≡ b };

    ghost told = { same_u16 };

    fn append_to(&self, out: &mut Vec<u8>) -> Result<(), Memory> {
        append(&self.to_le_bytes(), out)
    }

    fn of_file(bytes: &[u8], _alloc: Global) -> Result<Option<u16>, Memory> {
        match <[u8; 2]>::try_from(bytes) {
            Ok(bytes) => Ok(Some(u16_of(bytes))),
            Err(_) => Ok(None),
        }
    }
}

impl FileItem for u32 {
    ghost file_bytes = { to_le_bytes w32 };

    ghost is_item = { λ n. n < 2 ^ 32 };

    ghost is_same = { λ a b. a ≡ b };

    ghost told = { same_u32 };

    fn append_to(&self, out: &mut Vec<u8>) -> Result<(), Memory> {
        append(&self.to_le_bytes(), out)
    }

    fn of_file(bytes: &[u8], _alloc: Global) -> Result<Option<u32>, Memory> {
        match <[u8; 4]>::try_from(bytes) {
            Ok(bytes) => Ok(Some(u32_of(bytes))),
            Err(_) => Ok(None),
        }
    }
}

impl FileItem for u64 {
    ghost file_bytes = { to_le_bytes w64 };

    ghost is_item = { λ n. n < 2 ^ 64 };

    ghost is_same = { λ a b. a ≡ b };

    ghost told = { same_u64 };

    fn append_to(&self, out: &mut Vec<u8>) -> Result<(), Memory> {
        append(&self.to_le_bytes(), out)
    }

    fn of_file(bytes: &[u8], _alloc: Global) -> Result<Option<u64>, Memory> {
        match <[u8; 8]>::try_from(bytes) {
            Ok(bytes) => Ok(Some(u64_of(bytes))),
            Err(_) => Ok(None),
        }
    }
}

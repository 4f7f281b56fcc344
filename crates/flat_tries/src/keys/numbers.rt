//! Numbers of the bytes of their encodings, the highest first.

use crate::keys::ImageKey;
use radix_keys::Memory;
use std::alloc::Global;

impl ImageKey for u128 {
    fn of_image(bytes: &[u8], _alloc: Global) -> Result<Option<u128>, Memory> {
        match <[u8; 16]>::try_from(bytes) {
            Ok(bytes) => Ok(Some(u128::from_be_bytes(bytes))),
            Err(_) => Ok(None),
        }
    }
}

impl ImageKey for u64 {
    fn of_image(bytes: &[u8], _alloc: Global) -> Result<Option<u64>, Memory> {
        match <[u8; 8]>::try_from(bytes) {
            Ok(bytes) => Ok(Some(u64::from_be_bytes(bytes))),
            Err(_) => Ok(None),
        }
    }
}

impl ImageKey for u32 {
    fn of_image(bytes: &[u8], _alloc: Global) -> Result<Option<u32>, Memory> {
        match <[u8; 4]>::try_from(bytes) {
            Ok(bytes) => Ok(Some(u32::from_be_bytes(bytes))),
            Err(_) => Ok(None),
        }
    }
}

impl ImageKey for u16 {
    fn of_image(bytes: &[u8], _alloc: Global) -> Result<Option<u16>, Memory> {
        match <[u8; 2]>::try_from(bytes) {
            Ok(bytes) => Ok(Some(u16::from_be_bytes(bytes))),
            Err(_) => Ok(None),
        }
    }
}

impl ImageKey for u8 {
    fn of_image(bytes: &[u8], _alloc: Global) -> Result<Option<u8>, Memory> {
        if bytes.len() == 1 {
            Ok(Some(bytes[0]))
        } else {
            Ok(None)
        }
    }
}

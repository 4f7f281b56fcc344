//! Files that are read whole.

use crate::fault::FileFault;
use std::alloc::Global;
use std::fs;
use std::io::Read;
use std::rt::Files;

/// The bytes of the file of this name. Links are followed.
///
/// # Errors
///
/// Fails where the name is that of a folder, a device or a pipe, and where a call of the system
/// fails or an allocation fails.
///
/// # Examples
///
/// ```
/// match read(*out.allocator(), files, path) {
///     Ok(text) => load_text(out, table, &text),
///     Err(FileFault::Memory) => Err(Memory),
///     Err(fault) => Ok(add_fault(out, fault)?),
/// }
/// ```
///
/// `load` in `crates/route_tool/src/load.rt` reads the routes of a file.
pub fn read<F: Files>(alloc: Global, files: &F, path: &str) -> Result<Vec<u8>, FileFault> {
    let mut bytes = Vec::new(alloc);
    read_behind(files, path, &mut bytes)?;
    Ok(bytes)
}

/// Adds the bytes of the file of this name. Links are followed.
///
/// # Errors
///
/// Fails as `read` does. Some first bytes of the file may have been added then.
pub fn read_behind<F: Files>(files: &F, path: &str, bytes: &mut Vec<u8>) -> Result<(), FileFault> {
    let found = fs::metadata(files, path)?;
    if found.is_dir() {
        return Err(FileFault::Folder);
    }
    if !found.is_file() {
        return Err(FileFault::NotPlain);
    }
    let mut file = fs::open(files, path)?;
    file.read_to_end(bytes)?;
    Ok(())
}

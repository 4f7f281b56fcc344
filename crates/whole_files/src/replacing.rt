//! Files that are put in place of others.

use crate::fault::FileFault;
use std::alloc::{AllocError, Global};
use std::fs;
use std::fs::{Metadata, OpenFile, OpenOptions, Permissions};
use std::io::{ErrorKind, Write};
use std::os::unix::fs::{MetadataExt, OpenOptionsExt, PermissionsExt, lchown};
use std::rt::Files;

/// Those bits of a file's mode that say who may read, write and run it.
const PERMISSIONS: u32 = 0o777;

/// What its owner alone may read and write.
const PRIVATE: u32 = 0o600;

/// What a new file is asked to be: the system takes bits away, as by the umask.
const COMMON: u32 = 0o666;

/// The bit by which its owner may write it.
const WRITABLE: u32 = 0o200;

/// Puts a file that holds the bytes in place of the file of this name, which stays as it is where
/// that fails: they are written to a file beside it, which takes the name once the disk has them
/// all. The name of the file beside it is the prefix and a number: it hinders no later call where
/// the program is killed. Until it is whole its owner alone may read it, if it replaces another
/// one, whose group it has, and whose permissions it takes then. The folder is synced too, but its
/// failure isn't told.
///
/// # Errors
///
/// Fails where the name is that of a link, a folder, a device or a pipe, where the file has another
/// name too, is another user's or may not be written by its owner, and where a call of the system
/// fails or an allocation fails.
///
/// # Examples
///
/// ```
/// match replace(alloc, files, path, &image, BESIDE) {
///     Ok(()) => Ok(add_count(out, routes.len() as u128)?),
///     Err(FileFault::Memory) => Err(Memory),
///     Err(fault) => Ok(add_fault(out, fault)?),
/// }
/// ```
///
/// `write` in `crates/route_tool/src/image_files.rt` replaces a file of routes.
pub fn replace<F: Files>(
    alloc: Global,
    files: &F,
    path: &str,
    bytes: &[u8],
    prefix: &str,
) -> Result<(), FileFault> {
    let before = replaceable(files, path)?;
    let folder = folder_of(alloc, path)?;
    let mode = if before.is_some() { PRIVATE } else { COMMON };
    let (beside, file) = create(alloc, files, folder.as_str(), prefix, mode)?;
    let outcome = fill(files, file, beside.as_str(), before, bytes, path);
    if outcome.is_ok() {
        sync_folder(files, folder.as_str());
    } else {
        let _removed = fs::remove_file(files, beside.as_str());
    }
    outcome
}

/// What is known of the file of this name, if there is one, and it may be replaced.
fn replaceable<F: Files>(files: &F, path: &str) -> Result<Option<Metadata>, FileFault> {
    let found = match fs::symlink_metadata(files, path) {
        Ok(found) => found,
        Err(error) if error.kind() == ErrorKind::NotFound => return Ok(None),
        Err(error) => return Err(error.into()),
    };
    if found.is_symlink() {
        Err(FileFault::Link)
    } else if found.is_dir() {
        Err(FileFault::Folder)
    } else if !found.is_file() {
        Err(FileFault::NotPlain)
    } else if found.nlink() > 1 {
        Err(FileFault::SeveralNames)
    } else if found.mode() & WRITABLE == 0 {
        Err(FileFault::ReadOnly)
    } else {
        Ok(Some(found))
    }
}

/// The folder in which a file stands: what a name in it stands behind.
fn folder_of(alloc: Global, path: &str) -> Result<String, AllocError> {
    match path.rsplit_once('/') {
        Some((folder, _)) => format!(in alloc; "{folder}/"),
        None => String::from_str(alloc, "./"),
    }
}

/// A new file in the folder, by a name with the prefix that no other has, and that name.
fn create<F: Files>(
    alloc: Global,
    files: &F,
    folder: &str,
    prefix: &str,
    mode: u32,
) -> Result<(String, F::File), FileFault> {
    let mut options = OpenOptions::new();
    options.write(true).create_new(true).mode(mode);
    for number in 0..u64::MAX {
        let name = format!(in alloc; "{folder}{prefix}{number}")?;
        match options.open(files, name.as_str()) {
            Ok(file) => return Ok((name, file)),
            Err(error) if error.kind() == ErrorKind::AlreadyExists => {}
            Err(error) => return Err(error.into()),
        }
    }
    Err(FileFault::Failed)
}

/// Writes the bytes to the file beside the one of this name, and gives it the name. Who may read
/// and write it stays, and it is widened for others last.
fn fill<F: Files>(
    files: &F,
    file: F::File,
    beside: &str,
    before: Option<Metadata>,
    bytes: &[u8],
    path: &str,
) -> Result<(), FileFault> {
    let mut file = file;
    if let Some(before) = &before {
        keep_owner(files, beside, &file.metadata()?, before)?;
    }
    file.write_all(bytes)?;
    if let Some(before) = before {
        file.set_permissions(Permissions::from_mode(before.mode() & PERMISSIONS))?;
    }
    file.sync_all()?;
    fs::rename(files, beside, path)?;
    Ok(())
}

/// Gives the file beside the other one its group, if the owner of both is the same.
fn keep_owner<F: Files>(
    files: &F,
    beside: &str,
    made: &Metadata,
    before: &Metadata,
) -> Result<(), FileFault> {
    let is_same_group = made.gid() == before.gid();
    if made.uid() == before.uid()
        && (is_same_group || lchown(files, beside, None, Some(before.gid())).is_ok())
    {
        Ok(())
    } else {
        Err(FileFault::AnotherOwner)
    }
}

/// Has the disk keep the names in the folder, as far as the system can.
fn sync_folder<F: Files>(files: &F, folder: &str) {
    if let Ok(opened) = fs::open(files, folder) {
        let _synced = opened.sync_all();
    }
}

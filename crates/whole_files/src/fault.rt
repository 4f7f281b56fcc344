//! Why there is no file to read or to write.
ghost use Rattle.std.specs.Prelude.{◌≡◌};
ghost use Rattle.whole_files.specs.Faults.{file_fault_text};

use std::alloc::AllocError;
use std::io::{Error, ErrorKind};

/// Why there is no file to read or to write.
#[derive(Debug, Clone, Copy, PartialEq, Eq)]
pub enum FileFault {
    /// An allocation failed.
    Memory,
    /// The file is another user's, or of a group that can't be kept.
    AnotherOwner,
    /// The name is no file's: it has a byte 0, or is longer than names are.
    BadName,
    /// The system denies it.
    Denied,
    /// A call of the system failed otherwise.
    Failed,
    /// The name is a folder's.
    Folder,
    /// There is no room on the disk, or none for this user, or the file is too large.
    Full,
    /// The name is a link's.
    Link,
    /// There is no such file, or no such folder.
    NotFound,
    /// The name is that of a device or a pipe.
    NotPlain,
    /// Its owner may not write the file, or nothing is written on the disk.
    ReadOnly,
    /// The file has another name too.
    SeveralNames,
}

impl From<Error> for FileFault {
    fn from(error: Error) -> FileFault {
        match error.kind() {
            ErrorKind::OutOfMemory => FileFault::Memory,
            ErrorKind::NotFound | ErrorKind::NotADirectory => FileFault::NotFound,
            ErrorKind::PermissionDenied => FileFault::Denied,
            ErrorKind::IsADirectory => FileFault::Folder,
            ErrorKind::ReadOnlyFilesystem => FileFault::ReadOnly,
            ErrorKind::InvalidFilename | ErrorKind::InvalidInput => FileFault::BadName,
            ErrorKind::StorageFull | ErrorKind::QuotaExceeded | ErrorKind::FileTooLarge => {
                FileFault::Full
            }
            _ => FileFault::Failed,
        }
    }
}

impl From<AllocError> for FileFault {
    fn from(_refused: AllocError) -> FileFault {
        FileFault::Memory
    }
}

impl FileFault {
    /// The text that is told of it.
    pub fn text(self) -> &'static str
        ensures { result.now ≡ file_fault_text self }
    {
        match self {
            FileFault::Memory => "out of memory",
            FileFault::AnotherOwner => "another owner",
            FileFault::BadName => "a bad name",
            FileFault::Denied => "denied",
            FileFault::Failed => "failed",
            FileFault::Folder => "a folder",
            FileFault::Full => "disk full",
            FileFault::Link => "a link",
            FileFault::NotFound => "not found",
            FileFault::NotPlain => "a device or a pipe",
            FileFault::ReadOnly => "read-only",
            FileFault::SeveralNames => "several names",
        }
    }
}

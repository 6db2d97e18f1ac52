//! Why a file of the host failed.

use std::alloc::{AllocError, AllocFailed};
use std::io;
use std::io::ErrorKind;
use thiserror::Error;

// The system's number of an error of the device.
const EIO: i32 = 5;

/// Why a file, or the folder that it lies in, failed.
#[derive(Clone, Copy, Debug, PartialEq, Eq, Error)]
pub enum FileFault {
    #[error("the folder is in use, maybe by another process")]
    Locked,
    #[error("no permission")]
    NoPermission,
    #[error("no room is left on the device")]
    NoRoom,
    /// A disk that was open before has no file any more.
    #[error("the file of a disk is gone")]
    Gone,
    #[error("an error of the device")]
    Device,
    /// Any other error of the system, by its number.
    #[error("error {0} of the system")]
    System(i32),
}

impl FileFault {
    /// What an error of the system means. An error without a number is of the device, as a read that ends early.
    pub fn of(error: &io::Error) -> FileFault {
        match error.kind() {
            ErrorKind::PermissionDenied | ErrorKind::ReadOnlyFilesystem => FileFault::NoPermission,
            ErrorKind::StorageFull | ErrorKind::QuotaExceeded | ErrorKind::FileTooLarge => {
                FileFault::NoRoom
            }
            _ => match error.raw_os_error() {
                Some(EIO) | None => FileFault::Device,
                Some(number) => FileFault::System(number),
            },
        }
    }
}

/// Why no file was opened.
#[derive(Drop)]
pub enum FileRefusal {
    Fault(FileFault),
    /// The file that is there has this other size.
    OtherSize(u64),
    Memory,
}

impl From<io::Error> for FileRefusal {
    fn from(error: io::Error) -> FileRefusal {
        FileRefusal::Fault(FileFault::of(&error))
    }
}

impl From<AllocError> for FileRefusal {
    fn from(_error: AllocError) -> FileRefusal {
        FileRefusal::Memory
    }
}

impl<T: Drop> From<AllocFailed<T>> for FileRefusal {
    fn from(_error: AllocFailed<T>) -> FileRefusal {
        FileRefusal::Memory
    }
}

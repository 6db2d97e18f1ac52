//! What disks in files ask of an open file, so that a test can stand in for the host.

use std::fs::{File, OpenFile, TryLockError};
use std::io;
use std::io::ErrorKind;

/// A file that one of its openings at a time may hold.
pub trait Lockable {
    /// Holds the file until it is closed, and says whether it does: another opening of it may hold it.
    fn try_hold(&self) -> io::Result<bool>;
}

impl Lockable for File {
    fn try_hold(&self) -> io::Result<bool> {
        match self.try_lock() {
            Ok(()) => Ok(true),
            Err(TryLockError::WouldBlock) => Ok(false),
            Err(TryLockError::Error(error)) => Err(error),
        }
    }
}

/// Which part of a file is synced.
#[derive(Clone, Copy)]
pub enum Part {
    /// Its bytes, where its length stays.
    Bytes,
    /// Its bytes, its length and, of a folder, its names.
    Whole,
}

/// Syncs a file, again where a signal interrupts the call.
pub fn sync_file<F: OpenFile>(file: &F, part: Part) -> io::Result<()> {
    for _ in 0..u64::MAX {
        match sync_once(file, part) {
            Err(error) if error.kind() == ErrorKind::Interrupted => {}
            answer => return answer,
        }
    }
    Err(io::Error::from(ErrorKind::Interrupted))
}

fn sync_once<F: OpenFile>(file: &F, part: Part) -> io::Result<()> {
    match part {
        Part::Bytes => file.sync_data(),
        Part::Whole => file.sync_all(),
    }
}

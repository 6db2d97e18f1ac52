//! The folder of disks in files: made with its parents, held by one process, and new files in it.

use crate::file_fault::{FileFault, FileRefusal};
use crate::host_file::{Lockable, Part, sync_file};
use std::alloc::Global;
use std::fs::{File, OpenOptions};
use std::io::ErrorKind;
use std::os::unix::fs::FileExt;
use std::rt::Files;
use std::{fs, io};

/// How many bytes a new file gets at once.
const PIECE: usize = 65_536;

/// Opens a file that is there, to be read and written.
pub fn open_file<R: Files>(files: &R, path: &str) -> io::Result<R::File> {
    let mut how = OpenOptions::new();
    how.read(true).write(true);
    how.open(files, path)
}

/// Syncs the names in a folder.
pub fn sync_folder<R: Files>(files: &R, folder: &str) -> io::Result<()> {
    let folder = File::open(files, folder)?;
    sync_file(&folder, Part::Whole)
}

/// Holds a folder by its file `lock`, as long as the answer is open. Where the folder has none, it is made sure of the
/// folder's own name first, and of those of its parents, so that this file shows that they are synced.
pub fn hold_folder<R: Files>(alloc: Global, files: &R, folder: &str) -> Result<R::File, FileRefusal>
where
    R::File: Lockable,
{
    let path = format!(in alloc; "{folder}/lock")?;
    let lock = match open_file(files, path.as_str()) {
        Err(error) if error.kind() == ErrorKind::NotFound => {
            make_folder(files, folder)?;
            let mut how = OpenOptions::new();
            how.read(true).write(true).create(true);
            how.open(files, path.as_str())?
        }
        opened => opened?,
    };
    if lock.try_hold()? {
        Ok(lock)
    } else {
        Err(FileRefusal::Fault(FileFault::Locked))
    }
}

// Makes a folder and its parents where they aren't there, and syncs their names.
fn make_folder<R: Files>(files: &R, folder: &str) -> io::Result<()> {
    for end in 1..folder.len() {
        make_parent(files, folder, end)?;
    }
    make_name(files, folder)
}

// Where a slash stands at `end`, makes the folder that is named before it.
fn make_parent<R: Files>(files: &R, folder: &str, end: usize) -> io::Result<()> {
    match folder.split_at_checked(end) {
        Some((parent, rest)) if rest.starts_with('/') => make_name(files, parent),
        _ => Ok(()),
    }
}

// Makes a folder where there is none, and syncs the one that it lies in. A folder that was there may have been made by a
// process that ended before its sync. One in a folder that may not be read wasn't made by us.
fn make_name<R: Files>(files: &R, folder: &str) -> io::Result<()> {
    let made = fs::create_dir(files, folder);
    let was_there = match made {
        Ok(()) => false,
        Err(error) if error.kind() == ErrorKind::AlreadyExists => true,
        Err(error) => return Err(error),
    };
    match sync_folder(files, parent_of(folder)) {
        Err(error) if was_there && error.kind() == ErrorKind::PermissionDenied => Ok(()),
        synced => synced,
    }
}

// The folder that a folder lies in.
fn parent_of(folder: &str) -> &str {
    match folder.rsplit_once('/') {
        Some(("", _)) => "/",
        Some((parent, _)) => parent,
        None => ".",
    }
}

/// Makes a file of zeros. It gets its name once it is synced, so that a stop leaves no shorter one of that name.
pub fn make_file<R: Files>(
    alloc: Global,
    files: &R,
    path: &str,
    size: u64,
) -> Result<R::File, FileRefusal>
where
    R::File: FileExt,
{
    let draft = format!(in alloc; "{path}.new")?;
    let zeros = vec![in alloc; 0u8; PIECE]?;
    let mut how = OpenOptions::new();
    how.read(true).write(true).create(true).truncate(true);
    let file = how.open(files, draft.as_str())?;
    match name_filled(files, &file, draft.as_str(), path, zeros.as_slice(), size) {
        Ok(()) => Ok(file),
        Err(error) => {
            // The first error is told, whatever comes of this.
            let _ = fs::remove_file(files, draft.as_str());
            Err(FileRefusal::from(error))
        }
    }
}

// Fills a draft with zeros, and gives it its name.
fn name_filled<R: Files>(
    files: &R,
    file: &R::File,
    draft: &str,
    path: &str,
    zeros: &[u8],
    size: u64,
) -> io::Result<()>
where
    R::File: FileExt,
{
    fill(file, zeros, size)?;
    sync_file(file, Part::Whole)?;
    fs::rename(files, draft, path)
}

// Writes zeros over so many bytes of a file.
fn fill<F: FileExt>(file: &F, zeros: &[u8], size: u64) -> io::Result<()> {
    let mut at = 0;
    for _ in 0..size {
        if at >= size || zeros.is_empty() {
            return Ok(());
        }
        let count = (zeros.len() as u64).min(size - at);
        file.write_all_at(&zeros[..count as usize], at)?;
        at += count;
    }
    Ok(())
}

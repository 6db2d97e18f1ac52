//! Disks, and what a crash may leave of them.
//!
//! # Values
//!
//! A disk is the bytes that reads give together with the images that a crash may leave (`Content`), where it tells them, its
//! size, and a count of faults that only its own failing calls raise. Bays are disks by folder, node and partition: at home, or
//! out.
//!
//! # Public calls
//!
//! - The trait `Disk`: `size`, `read`, `write`, `sync`, and `stopped`, which is what a stop of the machine does. `write_synced`
//!   joins a write and a sync.
//! - The trait `Bays`: `open` hands a disk out, a new one of zeros where there is none, and `give_back` puts it home as it is.
//! - `MemDisk` and `MemBays` lie in memory and tell their content; a `Pick` says what a stop leaves, and calls can be listed to
//!   fail. A `FuseDisk` passes some calls of another disk, and then fails until it is stopped. `FuseBays` hand out such disks, as
//!   the fuse says that is placed for a node and a partition (`PlacedFuse`).
//! - `FileDisk` and `FileBays` are files. One process at a time has a folder. A sync behind one that failed writes again what
//!   wasn't synced. `last_fault` tells why a call failed.
//!
//! # Proved
//!
//! - Of a disk that tells: a write changes nothing outside of its range, even where it fails; a sync that succeeds leaves one
//!   image; a stop leaves one of the images (`told` of each call). `MemDisk` says which image each pick leaves (`left`).
//! - A call that fails raised the count (`cause`); `MemDisk::read` and `sync` fail exactly in the listed calls (`exact`), and a
//!   write besides for want of memory, which changes nothing (`unlisted`).
//! - Bays that tell hand out the disk that was put home, or a new one, and refuse another size or a disk that is out (`taken`,
//!   `other_size`, `is_out`); where they refuse, nothing changes (`refused`).
//! - A disk of `FuseBays` has at its first opening exactly the fuse and the pick that are placed for it, and no fuse where there is
//!   none (`fuse`, `pick`, `used`).
//! - Of a disk in a file, which tells nothing: its size stays, a failure raised the count and has a reason (`reason`). The range
//!   that may not be synced takes in what is written (`dirty`), loses nothing before a sync that succeeds (`grows`), and is noted
//!   as one to write again by a sync that fails (`dirty`), until one succeeds (`clean`).
//!
//! # Tested
//!
//! What each pick leaves; a call that is listed to fail; that the write which blows a fuse reaches the disk below; that each disk
//! fails as its own fuse says; that a disk of each kind of bays, files among them, is found again as it was put home.
//!
//! Over a file system in memory, which lists calls, fails them and loses at a power cut what wasn't synced: the calls of an
//! opening, a write and a sync, in order; writes that take a part of their bytes; that each node and partition has a file of its
//! own; an error in each call of the first opening, and the opening behind the power cut; that what a failed sync forgot is
//! written again, also behind `give_back` and `open`; an interrupted sync; a disk that is gone; a folder that another process
//! holds. By `tests/files.sh` and `tests/refusals.sh`: the program's calls of the real system.
//!
//! # Trusted
//!
//! That a file keeps the model of a disk, and that the system keeps what a sync that succeeded was of. Files tell nothing, so
//! no clause says that a sync is made at all, that the range is written again, or where in the folder a disk lies.
#![tactic(auto)]

mod bays;
mod dirty_range;
mod disk;
mod failing;
mod file_bays;
mod file_disk;
mod file_fault;
mod file_folder;
mod fuse_bays;
mod fuse_disk;
mod host_file;
mod mem_bays;
mod mem_disk;
mod places;
mod synced;
mod unsynced;

pub use bays::{BayFault, Bays};
pub use disk::Disk;
pub use file_bays::FileBays;
pub use file_disk::FileDisk;
pub use file_fault::FileFault;
pub use fuse_bays::{FuseBays, PlacedFuse};
pub use fuse_disk::{Fuse, FuseDisk};
pub use host_file::Lockable;
pub use mem_bays::MemBays;
pub use mem_disk::MemDisk;
pub use synced::write_synced;
pub use unsynced::Pick;

#[cfg(test)]
mod tests;

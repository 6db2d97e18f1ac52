//! The log of a replica on a disk: a list of records of which a stop of the machine leaves at most the last one in doubt.
//!
//! # Values
//!
//! To the crates above a log is a list of records and an end lsn. Its segments, gates and manifest are below its contract. Its
//! layout says how many segments are in use, how many bytes of the last one hold records, and the numbers that only rise; it
//! decides what finds room.
//!
//! # Public calls
//!
//! `PartLog::open` opens a disk and hands what it finds of its records to a `Collect`; `append` puts a record last, `read_at`
//! reads the one of a place and a length by one call of the disk, `heads_from` reads a page of records without their bodies,
//! `roll` adds a segment, `blank` closes the gate of a free one, `segments` and `end_lsn` tell of the log, `close` gives the
//! disk back.
//!
//! # Proved
//!
//! Over disks that tell their bytes:
//! - a crash at any moment of `open`, `append` or `roll` leaves the records from before, or those with the new one last
//!   (`during`);
//! - `open` finds exactly the records and the end lsn that the bytes stand for, which the collector takes in log order
//!   (`records`), and says of the bytes why it refuses them (`damaged`, `settings`). Of a disk that isn't new nothing changes
//!   (`kept`);
//! - `append` answers Full exactly where the record is longer than a segment, finds no room, or the log is worn (`full`);
//! - `read_at` gives exactly the record that was put there, and `heads_from` exactly the first records from an lsn on, as many
//!   as are asked for; both change nothing (`read`, `found`, `seen`); `blank` changes one gate (`gate`);
//! - a gate that is closed, by a blank, a roll or behind a record, is a 0 then (`zero`);
//! - the bytes of a disk have one layout, and each call says what it does to it (`layout`, `laid_out`); bytes that stand for
//!   records are refused by nothing that an opening says, and damage has one place (`log_laws`).
//!
//! Over any disk `read_at` gives a record of the length that was asked for (`spelled`). A failure comes only where the
//! disk's count of faults rose, or where a disk that doesn't tell its bytes has no such record at a place that is read; the
//! log is down from then on.
//!
//! # Tested
//!
//! Twenty appends with three rolls, cut off behind each call of the disk, for four picks of what a stop leaves, opened again
//! and gone on with. Pages of 200 records in three segments, which were appended or found.
//!
//! # Not proved
//!
//! How many calls of the disk an opening or a page makes. The memory of an opening: 65,536 bytes, the segments, 16 bytes for 64
//! records, and what the collector keeps. That `Memory` is answered only where an allocation is refused.
#![tactic(auto)]

mod appending;
mod blanking;
mod bytes;
mod collect;
mod fault;
mod laws;
mod log;
mod marks;
mod opening;
mod paging;
mod piece;
mod reading;
mod reading_at;
mod rolling;
mod scan;
mod segment;
mod table;

pub use collect::Collect;
pub use fault::{LogFault, OpenFault};
pub use laws::log_laws;
pub use log::PartLog;
pub use log_manifest::LogSettings;
pub use segment::{Found, SegmentInfo};

#[cfg(test)]
mod tests;
#[cfg(test)]
mod tests_cuts;
#[cfg(test)]
mod tests_pages;

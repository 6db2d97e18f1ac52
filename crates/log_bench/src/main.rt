//! Appends records to the log of a file in the current folder, so that its speed can be measured.
//!
//! `log_bench COUNT SIZE` puts COUNT records of SIZE bytes last, each a put of at least 45 bytes, and prints how many it put. It
//! ends with an error where the log takes no more. The file is `n0p0` in the current folder. It isn't removed, and one whose log
//! has records is refused. `bench/log.py` runs it.
//!
//! # What it is made of
//!
//! `main` reads the two words and opens the file by `disk_core::FileBays`; `append_all` opens its log and appends by
//! `part_log::PartLog`. All records go into one segment, which is as long as a segment can be.
//!
//! # Proved
//!
//! That it is safe and returns. Nothing else is promised of it, and nothing of it is tested.
#![tactic(auto)]

ghost use Rattle.std.specs.Prelude.{◌≡◌, ◌^◌, ◌<◌, IfOk};
ghost use Rattle.msg_format.specs.Records.{IsRecord, lsn_of};

use anyhow::{Context, Result, ensure};
use blob_id::{Blob, BlobId, Bytes, Kind, Memory};
use disk_core::{Bays, Disk, FileBays};
use msg_format::Record;
use part_log::{LogSettings, PartLog};
use std::alloc::Global;
use std::env;

/// The records go into one segment, which is as long as a segment can be, so that no new segment is counted in.
const SETTINGS: LogSettings = LogSettings {
    segment: 16_777_216,
    segments: 2,
    index: 4096,
};

/// How many bytes a disk with these settings has.
const DISK: u64 = 4096 + 2 * 16_777_216;

/// How many records the log takes is asked for, and how many bytes each has.
fn main(rt: HostRuntime) -> Result<()> {
    let mut words = env::args(&rt)?.skip(1);
    let count = words.next().context("no COUNT")?.parse::<u32>()?;
    let size = words.next().context("no SIZE")?.parse::<u16>()?;
    ensure!(size >= 45, "a put has at least 45 bytes");
    let mut bays = FileBays::new(rt.alloc(), rt);
    let disk = bays.open(".", 0, 0, DISK)?;
    let put = append_all(rt.alloc(), disk, count, size)?;
    println!(rt; "{put} records of {size} bytes")?;
    Ok(())
}

/// Puts so many records of so many bytes into a new log: how many it has then.
fn append_all<D: Disk + Drop>(alloc: Global, disk: D, count: u32, size: u16) -> Result<u64> {
    ensure!(disk.size() == DISK, "a disk of another size");
    let mut found = Vec::new(alloc);
    let mut log = match PartLog::open(alloc, disk, SETTINGS, &mut found) {
        Ok(log) => log,
        Err((fault, _)) => return Err(fault.into()),
    };
    ensure!(found.is_empty(), "the log isn't new");
    for _ in 0..count {
        append_one(alloc, &mut log, size)?;
    }
    Ok(log.end_lsn())
}

/// Puts a record of so many bytes last.
fn append_one<D: Disk>(alloc: Global, log: &mut PartLog<D>, size: u16) -> Result<()> {
    let lsn = log.end_lsn();
    ensure!(lsn < 1 << 62, "the log is worn");
    let entry = put_of(alloc, lsn, size)?;
    log.append(alloc, &entry)?;
    Ok(())
}

/// A put of so many bytes, or of 45 where they are fewer.
fn put_of(alloc: Global, lsn: u64, size: u16) -> Result<Record, Memory>
    requires { lsn < 2 ^ 63 }
    ensures fields { IfOk result (λ entry. IsRecord entry) }
    ensures lsn { IfOk result (λ entry. lsn_of entry ≡ lsn) }
{
    let id = BlobId::draw(Kind::Simple, 0, 0, lsn);
    let body = vec![in alloc; 7u8; usize::from(size.saturating_sub(45))]?;
    let blob = Blob {
        created: 5,
        ctype: Bytes::new(alloc),
        meta: Bytes::new(alloc),
        body: Bytes::from_vec(body),
    };
    Ok(Record::Put { lsn, id, blob })
}

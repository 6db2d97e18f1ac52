//! A script of records for logs on disks in memory, with segments of 4,096 bytes.

ghost use Rattle.std.specs.Prelude.{◌≡◌, ◌^◌, ◌<◌, IfOk};
ghost use Rattle.msg_format.specs.Records.{IsRecord, lsn_of};

use crate::{Found, LogFault, LogSettings, OpenFault, PartLog};
use blob_id::{Blob, BlobId, Bytes, Kind, Memory};
use disk_core::{Disk, MemDisk, Pick};
use msg_format::{Head, Record, encode};
use std::alloc::Global;
use std::process::Abort;
use std::test::Fail;

/// Twenty records, by their sizes, and the places where they stand in a log of five segments. The bytes of five of them
/// leave no room for the sixth, so that a new segment comes three times.
pub(crate) const SCRIPT: [(u16, u64); 20] = [
    (800, 4096),
    (38, 4896),
    (1200, 4934),
    (900, 6134),
    (1100, 7034),
    (800, 8192),
    (38, 8992),
    (1200, 9030),
    (900, 10230),
    (1100, 11130),
    (800, 12288),
    (38, 13088),
    (1200, 13126),
    (900, 14326),
    (1100, 15226),
    (800, 16384),
    (38, 17184),
    (1200, 17222),
    (900, 18422),
    (1100, 19322),
];

/// A disk without a manifest for so many segments. Each byte of the segments is an open gate.
pub(crate) fn new_disk(alloc: Global, segments: u16, pick: Pick) -> Result<MemDisk, Fail> {
    let mut bytes = vec![in alloc; 0u8; 4096]?;
    let gates = vec![in alloc; 0x4Fu8; 4096 * usize::from(segments)]?;
    bytes.extend_from_slice(gates.as_slice())?;
    Ok(MemDisk::new(alloc, bytes, pick, Vec::new(alloc)))
}

/// Opens the log of a disk with so many segments.
pub(crate) fn open_log<D: Disk>(
    rt: &impl Abort,
    alloc: Global,
    disk: D,
    segments: u16,
) -> Result<(PartLog<D>, Vec<Found>), (OpenFault, D)> {
    assert!(rt; 2 <= segments && segments <= 64);
    assert!(rt; disk.size() == 4096 + u64::from(segments) * 4096);
    let settings = LogSettings {
        segment: 4096,
        segments,
        index: 1000,
    };
    let mut found = Vec::new(alloc);
    match PartLog::open(alloc, disk, settings, &mut found) {
        Ok(log) => Ok((log, found)),
        Err(refusal) => Err(refusal),
    }
}

/// A record of so many bytes: a delete has 38, and a put has 45 and those of its body, which tell its lsn.
fn record_of(alloc: Global, lsn: u64, size: u16) -> Result<Record, Memory>
    requires { lsn < 2 ^ 63 }
    ensures fields { IfOk result (λ entry. IsRecord entry) }
    ensures lsn { IfOk result (λ entry. lsn_of entry ≡ lsn) }
{
    let id = BlobId::draw(Kind::Simple, 0, 0, 0);
    if size < 45 {
        return Ok(Record::Delete {
            lsn,
            id,
            created: 5,
        });
    }
    let byte = (lsn % 256) as u8;
    let body = vec![in alloc; byte; usize::from(size - 45)]?;
    let blob = Blob {
        created: 5,
        ctype: Bytes::new(alloc),
        meta: Bytes::new(alloc),
        body: Bytes::from_vec(body),
    };
    Ok(Record::Put { lsn, id, blob })
}

/// Puts a record of so many bytes last.
pub(crate) fn append_sized<D: Disk>(
    alloc: Global,
    log: &mut PartLog<D>,
    size: u16,
) -> Result<u64, LogFault> {
    let lsn = log.end_lsn();
    if lsn >= 1 << 62 {
        return Err(LogFault::Full);
    }
    let entry = record_of(alloc, lsn, size)?;
    log.append(alloc, &entry)
}

/// The first records of the script were found.
pub(crate) fn assert_found(rt: &impl Abort, found: &[Found]) {
    let id = BlobId::draw(Kind::Simple, 0, 0, 0);
    assert!(rt; found.len() <= SCRIPT.len());
    for (lsn, (one, (size, place))) in found.iter().zip(SCRIPT.iter()).enumerate() {
        let head = Head {
            lsn: lsn as u64,
            id,
            gone: *size == 38,
            len: usize::from(*size),
        };
        assert_eq!(rt;
            *one,
            Found {
                place: *place,
                head
            },
            "record {lsn}"
        );
    }
}

/// The bytes of a record stand at a place.
fn assert_stands<D: Disk>(
    rt: &impl Abort,
    alloc: Global,
    disk: &mut D,
    entry: &Record,
    place: u64,
) -> Result<(), Fail>
    requires { IsRecord entry.now }
{
    let text = encode(alloc, entry)?;
    let mut bytes = vec![in alloc; 0u8; text.len()]?;
    assert!(rt; place <= disk.size() && text.len() as u64 <= disk.size() - place);
    assert_eq!(rt; disk.read(place, bytes.as_mut_slice()), Ok(()));
    assert!(rt; bytes.as_slice() == text.as_slice(), "at {place}");
    Ok(())
}

/// The bytes of the first records of the script stand at their places.
pub(crate) fn assert_written<D: Disk>(
    rt: &impl Abort,
    alloc: Global,
    disk: &mut D,
    count: usize,
) -> Result<(), Fail> {
    for (lsn, (size, place)) in SCRIPT.iter().take(count).enumerate() {
        let entry = record_of(alloc, lsn as u64, *size)?;
        assert_stands(rt, alloc, disk, &entry, *place)?;
    }
    Ok(())
}

//! Pages of a log of 200 records.

use crate::tests::{append_sized, new_disk, open_log};
use crate::{Found, PartLog};
use blob_id::{BlobId, Kind};
use disk_core::{Disk, Pick};
use msg_format::Head;
use std::alloc::Global;
use std::process::Abort;
use std::test::Fail;

/// How many records the log has. Each has 58 bytes, so that 70 of them fit into a segment.
const COUNT: u64 = 200;

/// Pages by their lsn and their length at most, and the lsns that they have.
const PAGES: [(u64, usize, u64, u64); 11] = [
    (0, 0, 0, 0),
    (0, 1, 0, 1),
    (0, 10, 0, 10),
    (0, 1000, 0, 200),
    (63, 3, 63, 66),
    (64, 1, 64, 65),
    (77, 1, 77, 78),
    (95, 64, 95, 159),
    (139, 2, 139, 141),
    (199, 5, 199, 200),
    (200, 5, 200, 200),
];

/// What is found of the record of an lsn.
fn found_at(number: u64) -> Found {
    let lsn = number % COUNT;
    Found {
        place: 4096 + lsn / 70 * 4096 + lsn % 70 * 58,
        head: Head {
            lsn,
            id: BlobId::draw(Kind::Simple, 0, 0, 0),
            gone: false,
            len: 58,
        },
    }
}

/// Each page has its records.
fn assert_pages<D: Disk>(rt: &impl Abort, alloc: Global, log: &mut PartLog<D>) {
    for (lsn, most, from, to) in PAGES {
        let Ok(page) = log.heads_from(alloc, lsn, most) else {
            panic!(rt; "no page from {lsn}")
        };
        assert_eq!(rt; page.len() as u64, to.saturating_sub(from), "from {lsn}");
        for (one, number) in page.iter().zip(from..to) {
            assert_eq!(rt; *one, found_at(number), "record {number}");
        }
    }
}

#[test]
fn pages_have_their_records(rt: HostRuntime) -> Result<(), Fail> {
    let alloc = rt.alloc();
    let disk = new_disk(alloc, 5, Pick::Drop)?;
    let Ok((mut log, _)) = open_log(&rt, alloc, disk, 5) else {
        panic!(rt; "not opened")
    };
    for _ in 0..COUNT {
        assert!(rt; append_sized(alloc, &mut log, 58).is_ok());
    }
    assert_pages(&rt, alloc, &mut log);
    let Ok((mut again, found)) = open_log(&rt, alloc, log.close(), 5) else {
        panic!(rt; "not opened again")
    };
    assert_eq!(rt; found.len() as u64, COUNT);
    assert_pages(&rt, alloc, &mut again);
    Ok(())
}

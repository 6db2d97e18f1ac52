//! Logs that are cut off in a call of the disk, and then opened again.

use crate::tests::{SCRIPT, append_sized, assert_found, assert_written, new_disk, open_log};
use crate::{LogFault, OpenFault, PartLog};
use disk_core::{Disk, FuseDisk, MemDisk, Pick};
use std::alloc::Global;
use std::process::Abort;
use std::test::Fail;

/// The calls of the whole script: an opening of a new disk makes 10, each append 4, the first roll 7, and each later one 9,
/// since it closes a slot of the manifest first.
const CALLS: u64 = 115;

/// Appends the records of the script from one on, until a call fails: how many were acknowledged then.
fn append_from<D: Disk>(
    rt: &impl Abort,
    alloc: Global,
    log: &mut PartLog<D>,
    from: usize,
) -> usize {
    let mut count = from;
    for (size, place) in SCRIPT.iter().skip(from) {
        match append_sized(alloc, log, *size) {
            Ok(answer) => assert_eq!(rt; answer, *place),
            Err(fault) => {
                assert_eq!(rt; fault, LogFault::Failed);
                return count;
            }
        }
        count = count.saturating_add(1);
    }
    count
}

/// Appends the records of the script to the log of a disk that may fail, until a call fails: how many were
/// acknowledged, and the disk.
fn run_cut<D: Disk>(rt: &impl Abort, alloc: Global, disk: D) -> (usize, D) {
    match open_log(rt, alloc, disk, 5) {
        Ok((mut log, _)) => {
            let count = append_from(rt, alloc, &mut log, 0);
            (count, log.close())
        }
        Err((fault, disk)) => {
            assert_eq!(rt; fault, OpenFault::Failed);
            (0, disk)
        }
    }
}

/// Cuts the script in the call behind so many, opens the log again, and goes on with the script.
fn cut_script(rt: &impl Abort, alloc: Global, pick: Pick, passes: u64) -> Result<(), Fail> {
    let fused = FuseDisk::new(new_disk(alloc, 5, pick)?, passes);
    let (count, mut disk) = run_cut(rt, alloc, fused);
    disk.stopped();
    let Ok((mut log, found)) = open_log(rt, alloc, disk, 5) else {
        panic!(rt; "no log after {passes} calls at {pick:?}")
    };
    assert!(rt; passes == CALLS || count < SCRIPT.len(), "{passes} calls");
    let left = found.len();
    assert!(rt;
        left == count || left == count.saturating_add(1),
        "{passes} calls at {pick:?}"
    );
    assert_found(rt, found.as_slice());
    assert_eq!(rt; append_from(rt, alloc, &mut log, left), SCRIPT.len());
    let mut disk = log.close();
    assert_written(rt, alloc, &mut disk, SCRIPT.len())
}

/// Cuts the script in each of its calls.
fn cut_everywhere(rt: &impl Abort, alloc: Global, pick: Pick) -> Result<(), Fail> {
    for passes in 0..=CALLS {
        cut_script(rt, alloc, pick, passes)?;
    }
    Ok(())
}

#[test]
fn a_cut_leaves_what_was_acknowledged(rt: HostRuntime) -> Result<(), Fail> {
    for pick in [Pick::Keep, Pick::Drop, Pick::Fill(0x4F), Pick::Fill(0)] {
        cut_everywhere(&rt, rt.alloc(), pick)?;
    }
    Ok(())
}

//! Which calls of the system disks in files make, and what their failures come to.

use super::host::{Failing, Host, HostFile};
use super::kept::{assert_bytes, assert_synced, assert_write};
use crate::{BayFault, Bays, Disk, FileBays, FileDisk, FileFault};
use outside::Failed;
use std::alloc::Global;
use std::process::Abort;
use std::test::Fail;
use std::{fs, io};

// No call fails.
const NEVER: Failing = Failing { call: 0, error: 0 };

// The errors of the system that calls fail with.
const INTERRUPTED: i32 = 4;

const DEVICE: i32 = 5;

const FORBIDDEN: i32 = 13;

const NO_ROOM: i32 = 28;

// What the disks have bytes of.
const SIZE: u64 = 100_000;

// The calls of the first opening. Each new name is synced, that of a disk only behind the disk's bytes.
const FIRST_CALLS: [&str; 17] = [
    "open a/b/lock",
    "mkdir a",
    "open .",
    "fsync .",
    "mkdir a/b",
    "open a",
    "fsync a",
    "create a/b/lock",
    "flock a/b/lock",
    "open a/b/n1p2",
    "create a/b/n1p2.new",
    "pwrite a/b/n1p2.new",
    "pwrite a/b/n1p2.new",
    "fsync a/b/n1p2.new",
    "rename a/b/n1p2",
    "open a/b",
    "fsync a/b",
];

// The calls of an opening of a disk that is there, by another process.
const LATER_CALLS: [&str; 6] = [
    "open a/b/lock",
    "flock a/b/lock",
    "open a/b/n1p2",
    "fstat a/b/n1p2",
    "open a/b",
    "fsync a/b",
];

// Bays over a file system in memory.
#[derive(Drop)]
struct Lab {
    alloc: Global,
    host: Host,
    bays: FileBays<Host>,
}

impl Lab {
    // An empty file system, which takes at most so many bytes in a call. One call fails.
    fn new(alloc: Global, most: usize, failing: Failing) -> io::Result<Lab> {
        let host = Host::new(alloc, most, failing)?;
        let bays = FileBays::new(alloc, host.share()?);
        Ok(Lab { alloc, host, bays })
    }

    // From here on another process has the files.
    fn restart(&mut self) -> io::Result<()> {
        self.bays = FileBays::new(self.alloc, self.host.share()?);
        Ok(())
    }

    fn open(&mut self, rt: &impl Abort, node: u32, partition: u32) -> FileDisk<HostFile> {
        match self.bays.open("a/b", node, partition, SIZE) {
            Ok(disk) => disk,
            Err(fault) => panic!(rt; "no disk: {fault}"),
        }
    }

    fn give_back(&mut self, node: u32, partition: u32, disk: FileDisk<HostFile>) {
        self.bays.give_back(node, partition, disk);
    }

    // An opening of the disk of node 1 and partition 2 fails, for this reason.
    fn assert_fault(&mut self, rt: &impl Abort, fault: FileFault) {
        match self.bays.open("a/b", 1, 2, SIZE) {
            Err(BayFault::Failed) => assert_eq!(rt; self.bays.last_fault(), Some(fault)),
            _ => panic!(rt; "not refused"),
        }
    }

    // The calls since the last time are these.
    fn assert_calls(&self, rt: &impl Abort, expected: &[&str]) -> io::Result<()> {
        let calls = self.host.take_calls()?;
        for (call, line) in calls.iter().zip(expected.iter()) {
            assert_eq!(rt; call.as_str(), *line);
        }
        assert_eq!(rt; calls.len(), expected.len(), "the number of calls");
        Ok(())
    }
}

#[test]
fn files_are_made_and_opened_by_these_calls(rt: HostRuntime) -> Result<(), Fail> {
    let mut lab = Lab::new(rt.alloc(), 65_536, NEVER)?;
    let mut disk = lab.open(&rt, 1, 2);
    lab.assert_calls(&rt, &FIRST_CALLS)?;
    assert_synced(&rt, &mut disk, 4, &[1, 2, 3, 4], Ok(()));
    lab.assert_calls(&rt, &["pwrite a/b/n1p2", "fdatasync a/b/n1p2"])?;
    lab.restart()?;
    let mut again = lab.open(&rt, 1, 2);
    lab.assert_calls(&rt, &LATER_CALLS)?;
    assert_bytes(&rt, &mut again, 4, [1, 2, 3, 4]);
    lab.assert_calls(&rt, &["pread a/b/n1p2"])?;
    Ok(())
}

#[test]
fn a_write_is_done_once_all_its_bytes_are(rt: HostRuntime) -> Result<(), Fail> {
    let bytes = vec![in rt.alloc(); 7; 70_000]?;
    let mut lab = Lab::new(rt.alloc(), 30_000, NEVER)?;
    let mut disk = lab.open(&rt, 1, 2);
    lab.host.set_failing(NEVER)?;
    assert_synced(&rt, &mut disk, 0, bytes.as_slice(), Ok(()));
    let write = "pwrite a/b/n1p2";
    lab.assert_calls(&rt, &[write, write, write, "fdatasync a/b/n1p2"])?;
    lab.host.cut_power()?;
    assert_bytes(&rt, &mut disk, 69_996, [7, 7, 7, 7]);
    assert_bytes(&rt, &mut disk, 70_000, [0, 0, 0, 0]);
    assert_bytes(&rt, &mut disk, 99_996, [0, 0, 0, 0]);
    Ok(())
}

#[test]
fn each_disk_has_a_file(rt: HostRuntime) -> Result<(), Fail> {
    let mut lab = Lab::new(rt.alloc(), 65_536, NEVER)?;
    let places = [
        (1, 0),
        (1, 1),
        (1, 10),
        (1, 11),
        (1, 32),
        (2, 0),
        (2, 11),
        (11, 1),
    ];
    for (node, partition) in places {
        let mut disk = lab.open(&rt, node, partition);
        assert_bytes(&rt, &mut disk, 0, [0, 0, 0, 0]);
        assert_synced(&rt, &mut disk, 0, &[1, 2, 3, 4], Ok(()));
        lab.give_back(node, partition, disk);
    }
    Ok(())
}

#[test]
fn an_opening_fails_as_the_system_does(rt: HostRuntime) -> Result<(), Fail> {
    // of the first opening the call that fails, its error, the answer and the last call
    let rows = [
        (1, FORBIDDEN, FileFault::NoPermission, "open a/b/lock"),
        (4, DEVICE, FileFault::Device, "fsync ."),
        (8, NO_ROOM, FileFault::NoRoom, "create a/b/lock"),
        (10, FORBIDDEN, FileFault::NoPermission, "open a/b/n1p2"),
        (13, NO_ROOM, FileFault::NoRoom, "unlink a/b/n1p2.new"),
        (14, DEVICE, FileFault::Device, "unlink a/b/n1p2.new"),
        (17, 99, FileFault::System(99), "fsync a/b"),
    ];
    for (call, error, fault, last) in rows {
        let mut lab = Lab::new(rt.alloc(), 65_536, Failing { call, error })?;
        lab.assert_fault(&rt, fault);
        assert_eq!(rt; lab.host.take_last_call()?.as_str(), last);
    }
    Ok(())
}

#[test]
fn a_stop_in_any_call_leaves_no_shorter_disk(rt: HostRuntime) -> Result<(), Fail> {
    for call in 1..FIRST_CALLS.len() + 1 {
        let error = DEVICE;
        let mut lab = Lab::new(rt.alloc(), 65_536, Failing { call, error })?;
        lab.assert_fault(&rt, FileFault::Device);
        lab.host.cut_power()?;
        lab.host.set_failing(NEVER)?;
        lab.restart()?;
        let mut disk = lab.open(&rt, 1, 2);
        assert_bytes(&rt, &mut disk, 99_996, [0, 0, 0, 0]);
    }
    Ok(())
}

// A disk that was written at two places, of which the sync then failed.
fn forgotten_disk(rt: &impl Abort, lab: &mut Lab) -> io::Result<FileDisk<HostFile>> {
    let mut disk = lab.open(rt, 1, 2);
    let error = DEVICE;
    lab.host.set_failing(Failing { call: 3, error })?;
    assert_write(rt, &mut disk, 5_000, &[5, 6, 7, 8], Ok(()));
    assert_write(rt, &mut disk, 8, &[1, 2, 3, 4], Ok(()));
    assert_eq!(rt; disk.sync(), Err(Failed));
    Ok(disk)
}

// The next sync of such a disk is behind another write of what lies from the one place to the other, in pieces of 4,096 bytes
// of which a call takes at most 4,000. The one behind it only syncs.
fn assert_rewritten(rt: &impl Abort, lab: &Lab, disk: &mut FileDisk<HostFile>) -> io::Result<()> {
    lab.host.set_failing(NEVER)?;
    assert_eq!(rt; disk.sync(), Ok(()));
    let (read, write, sync) = ("pread a/b/n1p2", "pwrite a/b/n1p2", "fdatasync a/b/n1p2");
    lab.assert_calls(rt, &[read, read, write, write, read, write, sync])?;
    assert_eq!(rt; disk.sync(), Ok(()));
    lab.assert_calls(rt, &[sync])?;
    lab.host.cut_power()?;
    assert_bytes(rt, disk, 8, [1, 2, 3, 4]);
    assert_bytes(rt, disk, 5_000, [5, 6, 7, 8]);
    Ok(())
}

#[test]
fn what_a_failed_sync_forgot_is_written_again(rt: HostRuntime) -> Result<(), Fail> {
    let mut lab = Lab::new(rt.alloc(), 4_000, NEVER)?;
    let mut disk = forgotten_disk(&rt, &mut lab)?;
    assert_rewritten(&rt, &lab, &mut disk)?;
    Ok(())
}

#[test]
fn a_disk_that_comes_home_is_written_again(rt: HostRuntime) -> Result<(), Fail> {
    let mut lab = Lab::new(rt.alloc(), 4_000, NEVER)?;
    let disk = forgotten_disk(&rt, &mut lab)?;
    lab.give_back(1, 2, disk);
    let mut again = lab.open(&rt, 1, 2);
    assert_rewritten(&rt, &lab, &mut again)?;
    Ok(())
}

#[test]
fn a_sync_that_is_interrupted_is_tried_again(rt: HostRuntime) -> Result<(), Fail> {
    let mut lab = Lab::new(rt.alloc(), 65_536, NEVER)?;
    let mut disk = lab.open(&rt, 1, 2);
    let error = INTERRUPTED;
    lab.host.set_failing(Failing { call: 2, error })?;
    assert_synced(&rt, &mut disk, 0, &[1, 2, 3, 4], Ok(()));
    lab.host.cut_power()?;
    assert_bytes(&rt, &mut disk, 0, [1, 2, 3, 4]);
    Ok(())
}

#[test]
fn a_disk_that_is_gone_is_not_made_again(rt: HostRuntime) -> Result<(), Fail> {
    let mut lab = Lab::new(rt.alloc(), 65_536, NEVER)?;
    let disk = lab.open(&rt, 1, 2);
    lab.give_back(1, 2, disk);
    fs::remove_file(&lab.host, "a/b/n1p2")?;
    lab.assert_fault(&rt, FileFault::Gone);
    Ok(())
}

#[test]
fn a_folder_is_held_once(rt: HostRuntime) -> Result<(), Fail> {
    let mut lab = Lab::new(rt.alloc(), 65_536, NEVER)?;
    lab.host.set_held(true)?;
    lab.assert_fault(&rt, FileFault::Locked);
    lab.assert_calls(&rt, &FIRST_CALLS[..9])?;
    lab.host.set_held(false)?;
    let _disk = lab.open(&rt, 1, 2);
    Ok(())
}

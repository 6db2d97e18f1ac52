//! Disks and bays of each kind.

ghost use Rattle.std.specs.Prelude.{◌≡◌, ◌+◌, ◌≤◌, IsSome, IsTrue};
ghost use Rattle.outside.specs.Causes.{Rose};

use crate::{
    BayFault, Bays, Disk, FileBays, FuseBays, FuseDisk, MemBays, MemDisk, Pick, PlacedFuse,
    write_synced,
};
use outside::Failed;
use std::alloc::Global;
use std::fs;
use std::process::Abort;
use std::test::Fail;

// Whether a disk has so many bytes from a place on.
fn has_range<D: Disk>(disk: &D, at: u64, count: usize) -> bool
    ensures { IsTrue result → at + count ≤ D.size disk.now }
{
    at <= disk.size() && disk.size() - at >= count as u64
}

/// Reads some bytes and compares them.
pub fn assert_bytes<D: Disk>(rt: &impl Abort, disk: &mut D, at: u64, expected: [u8; 4]) {
    let mut bytes = [0; 4];
    assert!(rt; has_range(disk, at, 4));
    assert_eq!(rt; disk.read(at, &mut bytes), Ok(()));
    assert_eq!(rt; bytes, expected);
}

/// Writes some bytes, which ends in this way.
pub fn assert_write<D: Disk>(
    rt: &impl Abort,
    disk: &mut D,
    at: u64,
    bytes: &[u8],
    expected: Result<(), Failed>,
) {
    assert!(rt; has_range(disk, at, bytes.len()));
    assert_eq!(rt; disk.write(at, bytes), expected);
}

/// Writes some bytes and syncs them, which ends in this way.
pub fn assert_synced<D: Disk>(
    rt: &impl Abort,
    disk: &mut D,
    at: u64,
    bytes: &[u8],
    expected: Result<(), Failed>,
) {
    assert!(rt; has_range(disk, at, bytes.len()));
    assert_eq!(rt; write_synced(disk, at, bytes), expected);
}

// Eight bytes 7, of which the third and the fourth are then written and not synced.
fn torn_disk(rt: &impl Abort, alloc: Global, pick: Pick) -> Result<MemDisk, Fail> {
    let mut disk = MemDisk::new(alloc, vec![in alloc; 7; 8]?, pick, Vec::new(alloc));
    assert_synced(rt, &mut disk, 0, &[1, 2], Ok(()));
    assert_write(rt, &mut disk, 2, &[3, 4], Ok(()));
    Ok(disk)
}

#[test]
fn a_stop_leaves_what_the_pick_says(rt: HostRuntime) -> Result<(), Fail> {
    let picks = [
        (Pick::Keep, [1, 2, 3, 4]),
        (Pick::Drop, [1, 2, 7, 7]),
        (Pick::Fill(9), [1, 2, 9, 9]),
    ];
    for (pick, left) in picks {
        let mut disk = torn_disk(&rt, rt.alloc(), pick)?;
        assert_bytes(&rt, &mut disk, 0, [1, 2, 3, 4]);
        disk.stopped();
        assert_bytes(&rt, &mut disk, 0, left);
        assert_bytes(&rt, &mut disk, 4, [7, 7, 7, 7]);
    }
    Ok(())
}

#[test]
fn a_listed_call_fails_and_the_write_may_tear(rt: HostRuntime) -> Result<(), Fail> {
    // the call that fails, the write or its sync, and what is read behind it
    for (call, seen) in [(1, [7, 7, 7, 7]), (2, [1, 7, 7, 7])] {
        let alloc = rt.alloc();
        let listed = vec![in alloc; call]?;
        let mut disk = MemDisk::new(alloc, vec![in alloc; 7; 4]?, Pick::Fill(9), listed);
        assert_synced(&rt, &mut disk, 0, &[1], Err(Failed));
        assert_bytes(&rt, &mut disk, 0, seen);
        disk.stopped();
        assert_bytes(&rt, &mut disk, 0, [9, 7, 7, 7]);
    }
    Ok(())
}

#[test]
fn the_write_that_blows_the_fuse_reaches_the_disk_below(rt: HostRuntime) -> Result<(), Fail> {
    let mut disk = FuseDisk::new(torn_disk(&rt, rt.alloc(), Pick::Fill(9))?, 1);
    assert_eq!(rt; disk.sync(), Ok(()));
    assert_write(&rt, &mut disk, 0, &[5], Err(Failed));
    assert_write(&rt, &mut disk, 4, &[6], Err(Failed));
    assert_eq!(rt; disk.sync(), Err(Failed));
    disk.stopped();
    assert_bytes(&rt, &mut disk, 4, [7, 7, 7, 7]);
    let mut below = disk.into_inner();
    assert_bytes(&rt, &mut below, 0, [9, 2, 3, 4]);
    Ok(())
}

// Opens the disk of a place through the trait.
fn open_at<B: Bays>(
    rt: &impl Abort,
    bays: &mut B,
    folder: &str,
    node: u32,
    partition: u32,
) -> B::Disk
    ensures out { B.tells → IsSome (B.out bays.new node partition) }
{
    match bays.open(folder, node, partition, 100_000) {
        Ok(disk) => disk,
        Err(fault) => panic!(rt; "no disk: {fault}"),
    }
}

// Opens the disk of node 1 and partition 2.
fn open_one<B: Bays>(rt: &impl Abort, bays: &mut B, folder: &str) -> B::Disk
    ensures out { B.tells → IsSome (B.out bays.new 1 2) }
{
    open_at(rt, bays, folder, 1, 2)
}

// A new disk is given some bytes and put home, and is found again with them. Another size is refused. `last` is the
// answer to the fourth call of the new disk.
fn assert_kept<B: Bays>(rt: &impl Abort, bays: &mut B, folder: &str, last: Result<(), Failed>)
where
    B::Disk: Drop,
{
    let mut disk = open_one(rt, bays, folder);
    assert_bytes(rt, &mut disk, 99_996, [0, 0, 0, 0]);
    assert_synced(rt, &mut disk, 4, &[1, 2, 3, 4], Ok(()));
    assert_eq!(rt; disk.sync(), last);
    disk.stopped();
    bays.give_back(1, 2, disk);
    assert!(rt;
        matches!(
            bays.open(folder, 1, 2, 5),
            Err(BayFault::OtherSize(100_000))
        )
    );
    let mut again = open_one(rt, bays, folder);
    assert_bytes(rt, &mut again, 4, [1, 2, 3, 4]);
    assert_eq!(rt; again.sync(), Ok(()));
    bays.give_back(1, 2, again);
}

// An opening fails, and raises the count of faults.
fn assert_refused<B: Bays>(rt: &impl Abort, bays: &mut B, folder: &str)
where
    B::Disk: Drop,
    ensures out { B.tells → B.out bays.new 1 2 ≡ B.out bays.old 1 2 }
    ensures count { Rose (B.faults bays.old) (B.faults bays.new) }
{
    match bays.open(folder, 1, 2, 100_000) {
        Err(BayFault::Failed) => {}
        _ => panic!(rt; "not refused"),
    }
}

// The fifth opening finds the disk out, and the sixth one is to fail.
fn assert_counted<B: Bays>(rt: &impl Abort, bays: &mut B, folder: &str)
where
    B::Disk: Drop,
{
    let disk = open_one(rt, bays, folder);
    assert_refused(rt, bays, folder);
    bays.give_back(1, 2, disk);
    assert_refused(rt, bays, folder);
    let mut again = open_one(rt, bays, folder);
    assert_bytes(rt, &mut again, 4, [1, 2, 3, 4]);
    bays.give_back(1, 2, again);
}

#[test]
fn a_disk_in_memory_is_kept(rt: HostRuntime) -> Result<(), Fail> {
    let alloc = rt.alloc();
    let mut bays = MemBays::new(alloc, Pick::Drop, vec![in alloc; 6]?);
    assert_kept(&rt, &mut bays, "folder", Ok(()));
    assert_counted(&rt, &mut bays, "folder");
    Ok(())
}

// A fuse of a place.
fn fuse(node: u32, partition: u32, passes: u64, pick: Pick) -> PlacedFuse {
    PlacedFuse {
        node,
        partition,
        passes,
        pick,
    }
}

#[test]
fn each_disk_fails_as_its_own_fuse_says(rt: HostRuntime) -> Result<(), Fail> {
    let alloc = rt.alloc();
    let below = MemBays::new(alloc, Pick::Drop, Vec::new(alloc));
    let fuses = vec![in alloc; fuse(1, 2, 1, Pick::Keep), fuse(2, 1, 0, Pick::Fill(9))]?;
    let mut bays = FuseBays::new(below, fuses);
    // the disk, whether its write and its sync fail, and what a stop leaves of the write
    let rows = [
        (1, 2, Ok(()), Err(Failed), [1, 0, 0, 0]),
        (2, 1, Err(Failed), Err(Failed), [9, 0, 0, 0]),
        (2, 2, Ok(()), Ok(()), [1, 0, 0, 0]),
    ];
    for (node, partition, written, synced, left) in rows {
        let mut disk = open_at(&rt, &mut bays, "folder", node, partition);
        assert_write(&rt, &mut disk, 0, &[1], written);
        assert_eq!(rt; disk.sync(), synced);
        disk.stopped();
        assert_bytes(&rt, &mut disk, 0, left);
        bays.give_back(node, partition, disk);
        let mut again = open_at(&rt, &mut bays, "folder", node, partition);
        assert_synced(&rt, &mut again, 0, &[2], Ok(()));
        bays.give_back(node, partition, again);
    }
    Ok(())
}

#[test]
fn a_disk_with_a_fuse_is_kept(rt: HostRuntime) -> Result<(), Fail> {
    let alloc = rt.alloc();
    let below = MemBays::new(alloc, Pick::Drop, vec![in alloc; 6]?);
    let mut bays = FuseBays::new(below, vec![in alloc; fuse(1, 2, 3, Pick::Drop)]?);
    assert_kept(&rt, &mut bays, "folder", Err(Failed));
    assert_counted(&rt, &mut bays, "folder");
    Ok(())
}

#[test]
fn a_disk_in_a_file_is_kept(rt: HostRuntime) -> Result<(), Fail> {
    let mut bays = FileBays::new(rt.alloc(), rt);
    assert_kept(&rt, &mut bays, "disk_core_test_folder/inner", Ok(()));
    assert!(rt; fs::exists(&rt, "disk_core_test_folder/inner/n1p2")?);
    fs::remove_dir_all(&rt, "disk_core_test_folder")?;
    Ok(())
}

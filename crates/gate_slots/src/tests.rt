//! A cell from byte 1,000 of a disk in memory on.

use crate::{OPEN, SlotFault, Slots};
use blob_id::Bytes;
use disk_core::{Disk, MemDisk, Pick};
use std::alloc::Global;
use std::test::Fail;

const BASE: u64 = 1000;

// Makes sure that no write is pending, loads the cell, and replaces its bytes.
fn put<D: Disk>(alloc: Global, disk: &mut D, bytes: &[u8]) -> Result<(), SlotFault> {
    if disk.size() < 4096 {
        return Err(SlotFault::TooLong);
    }
    disk.sync()?;
    let (mut slots, _) = Slots::load(alloc, disk, BASE)?;
    if slots.sequence() >= u64::MAX / 2 {
        return Err(SlotFault::TooLong);
    }
    slots.replace(disk, bytes)
}

// What the cell holds after a stop, and the sequence that it has then.
fn left<D: Disk>(alloc: Global, disk: &mut D) -> Result<(u64, Option<Bytes>), SlotFault> {
    if disk.size() < 4096 {
        return Err(SlotFault::TooLong);
    }
    let (slots, value) = Slots::restart(alloc, disk, BASE)?;
    Ok((slots.sequence(), value))
}

// A disk whose cell has slots with these gates, sequences and lengths, and one byte in each place behind them.
fn with_slots(alloc: Global, slots: [(u8, u64, u32, u8); 2]) -> Result<MemDisk, Fail> {
    let mut bytes = vec![in alloc; 0u8; 1000]?;
    for (gate, sequence, length, byte) in slots {
        bytes.push(gate)?;
        bytes.extend_from_slice(&sequence.to_be_bytes())?;
        bytes.extend_from_slice(&length.to_be_bytes())?;
        bytes.extend_from_slice(&[byte; 1011])?;
    }
    bytes.extend_from_slice(&[0; 1048])?;
    Ok(MemDisk::new(alloc, bytes, Pick::Keep, Vec::new(alloc)))
}

#[test]
fn a_replacement_writes_gate_sequence_length_and_bytes(rt: HostRuntime) -> Result<(), Fail> {
    let alloc = rt.alloc();
    let mut disk = with_slots(alloc, [(0, 0, 0, 9), (OPEN, 258, 0, 9)])?;
    assert_eq!(rt; put(alloc, &mut disk, &[1; 1012]), Err(SlotFault::TooLong));
    put(alloc, &mut disk, b"abc")?;
    let mut bytes = [0; 18];
    assert!(rt; disk.size() == 4096);
    disk.read(BASE - 1, &mut bytes)?;
    assert_eq!(rt;
        bytes,
        *b"\x00\x4F\x00\x00\x00\x00\x00\x00\x01\x03\x00\x00\x00\x03abc\x09"
    );
    assert_eq!(rt; left(alloc, &mut disk)?.0, 259);
    Ok(())
}

//! What a disk in memory keeps of its writes until they are synced, and what a stop leaves of them.

ghost use Rattle.std.specs.Prelude.{◌≡◌, ◌+◌, ◌≤◌, [], length, replicate, IsTrue, OnOk, OnErr};
ghost use Rattle.std.specs.List.{list_all};
ghost use Rattle.disk_core.specs.Unsynced.{put_at, fits, left_of, left_after, AddsWrite};

use blob_id::Memory;
use std::alloc::Global;
use std::snapshot::Snapshot;

/// What a stop leaves of the ranges that were written since the last sync.
#[derive(Clone, Copy, Debug, PartialEq, Eq)]
pub enum Pick {
    /// What was written.
    Keep,
    /// What stood there at the last sync.
    Drop,
    /// This byte.
    Fill(u8),
}

/// A write since the last sync: its place, and the bytes that stood there before.
#[derive(Drop)]
pub struct Overwritten {
    pub at: usize,
    pub bytes: Vec<u8>,
}

/// What a disk was before each of its calls since it was made or last stopped. It has no bytes: only clauses read it.
#[derive(Drop)]
pub enum Past {
    Begun,
    Then(Snapshot<Past>, Snapshot<Vec<u8>>, Snapshot<Vec<Overwritten>>),
}

/// Adds the bytes of a range that is about to be overwritten, where there is memory.
pub fn keep_range(
    alloc: Global,
    unsynced: &mut Vec<Overwritten>,
    bytes: &[u8],
    at: usize,
    count: usize,
) -> Result<(), Memory>
    requires { at + count ≤ length bytes.now }
    ensures ok { OnOk result (AddsWrite at count bytes.now unsynced.old.items unsynced.new.items) }
    ensures err { OnErr result (unsynced.new.items ≡ unsynced.old.items) }
{
    let kept = bytes[at..at + count].to_vec(alloc)?;
    unsynced.push(Overwritten { at, bytes: kept })?;
    Ok(())
}

/// Takes the writes back from the newest one on, and leaves what the pick says in the place of each.
pub fn leave(pick: Pick, bytes: &mut Vec<u8>, unsynced: &mut Vec<Overwritten>)
    requires { IsTrue (list_all (fits (length bytes.old.items)) unsynced.old.items) }
    ensures left { bytes.new.items ≡ left_after pick bytes.old.items unsynced.old.items }
    ensures none { unsynced.new.items ≡ [] }
{
    while let Some(write) = unsynced.pop() {
        leave_one(pick, bytes, &write);
    }
}

// Leaves what the pick says in the place of one write.
fn leave_one(pick: Pick, bytes: &mut Vec<u8>, write: &Overwritten)
    requires { IsTrue (fits (length bytes.old.items) write.now) }
    ensures { bytes.new.items ≡ left_of pick bytes.old.items write.now }
{
    match pick {
        Pick::Keep => {}
        Pick::Drop => write_over(bytes, write.at, &write.bytes),
        Pick::Fill(byte) => fill(bytes, write.at, write.bytes.len(), byte),
    }
}

/// Puts bytes in the place of those that are there.
pub fn write_over(buf: &mut Vec<u8>, at: usize, bytes: &[u8])
    requires { at + length bytes.now ≤ length buf.old.items }
    ensures { buf.new.items ≡ put_at buf.old.items at bytes.now }
{
    write_part(buf.as_mut_slice(), at, bytes);
}

fn write_part(buf: &mut [u8], at: usize, bytes: &[u8])
    requires { at + length bytes.now ≤ length buf.old }
    ensures { buf.new ≡ put_at buf.old at bytes.now }
{
    buf[at..at + bytes.len()].copy_from_slice(bytes);
}

// Puts one byte in each place of a range.
fn fill(buf: &mut Vec<u8>, at: usize, count: usize, byte: u8)
    requires { at + count ≤ length buf.old.items }
    ensures { buf.new.items ≡ put_at buf.old.items at (replicate count byte) }
{
    fill_part(buf.as_mut_slice(), at, count, byte);
}

fn fill_part(buf: &mut [u8], at: usize, count: usize, byte: u8)
    requires { at + count ≤ length buf.old }
    ensures { buf.new ≡ put_at buf.old at (replicate count byte) }
{
    buf[at..at + count].fill(byte);
}

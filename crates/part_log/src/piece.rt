//! A piece of the disk that is at hand while records are read one after the other.

ghost use Rattle.std.specs.Prelude.{◌≡◌, ◌+◌, ◌-◌, ◌<◌, ◌≤◌, ◌↔◌, ◌++◌, [], ℕ, List, length, min, IsTrue, OnOk, IfOk, IsErrOf};
ghost use Rattle.outside.specs.Causes.{Rose};
ghost use Rattle.disk_core.specs.Content.{ChangesBy, Same, range};
ghost use Rattle.part_log.specs.Scan.{BeginsAs, IsHeld};

use crate::bytes::read_bytes;
use crate::fault::ReadFault;
use disk_core::Disk;
use msg_format::{Head, LONGEST_FRONT, OPEN_GATE, decode_head};
use std::alloc::Global;

/// How many bytes are read at once, where the segment has so many.
const PIECE: usize = 65_536;

/// Some bytes, and the place on the disk where they stand.
#[derive(Debug, Drop)]
pub(crate) struct Piece {
    pub(crate) from: u64,
    pub(crate) bytes: Vec<u8>,
}

/// What begins at a place of a segment.
#[derive(Clone, Copy, Debug, PartialEq, Eq)]
pub(crate) enum Beginning {
    /// A closed gate, so that the records end there.
    Closed,
    /// A record.
    Entry(Head),
    /// An open gate with no record behind it.
    Broken,
}

/// Sees to it that so many bytes from a place on are at hand. `left` bytes may be read from there on.
fn hold<D: Disk>(
    alloc: Global,
    disk: &mut D,
    piece: &mut Piece,
    place: u64,
    need: usize,
    left: usize,
) -> Result<(), ReadFault>
    requires inside { place + left ≤ D.size disk.old }
    requires within { need ≤ left }
    requires least { need ≤ LONGEST_FRONT }
    requires held { D.tells → IsHeld piece.old.from piece.old.bytes.items (D.content disk.old).seen }
    ensures during { D.tells → ChangesBy Same (D.content disk.old) (D.content disk.new) }
    ensures seen { D.tells → (D.content disk.new).seen ≡ (D.content disk.old).seen }
    ensures held { D.tells → IsHeld piece.new.from piece.new.bytes.items (D.content disk.old).seen }
    ensures there { OnOk result ((piece.new.from ≤ place) × (place + need ≤ piece.new.from + length piece.new.bytes.items)) }
    ensures failed { IsErrOf result ReadFault.Failed → Rose (D.faults disk.old) (D.faults disk.new) }
    ensures size { D.size disk.new ≡ D.size disk.old }
    ensures later { D.faults disk.old ≤ D.faults disk.new }
{
    if piece.holds(place, need) {
        return Ok(());
    }
    let bytes = read_bytes(alloc, disk, place, &[], left.min(PIECE))?;
    piece.from = place;
    piece.bytes = bytes;
    Ok(())
}

impl Piece {
    pub(crate) fn new(alloc: Global) -> Piece
        ensures from { result.from ≡ 0 }
        ensures none { result.bytes.items ≡ [] }
    {
        Piece {
            from: 0,
            bytes: Vec::new(alloc),
        }
    }

    /// Whether so many bytes from a place on are at hand.
    fn holds(&self, place: u64, need: usize) -> bool
        requires { need ≤ LONGEST_FRONT }
        ensures { IsTrue result ↔ ((self.now.from ≤ place) × (place + need ≤ self.now.from + length self.now.bytes.items)) }
    {
        place >= self.from
            && {
                let skipped = place - self.from;
                let count = self.bytes.len() as u64;
                skipped <= count && need as u64 <= count - skipped
            }
    }

    /// So many bytes from a place on.
    fn part(&self, place: u64, need: usize) -> &[u8]
        requires from { self.now.from ≤ place }
        requires to { place + need ≤ self.now.from + length self.now.bytes.items }
        ensures { result.now ≡ range (place - self.now.from) need self.now.bytes.items }
    {
        let skipped = (place - self.from) as usize;
        &self.bytes[skipped..skipped + need]
    }
}

/// What begins in front of `left` bytes, of which these are the first ones: all of them, or those that tell it.
fn beginning_of(front: &[u8], left: usize) -> Beginning
    requires two { 2 ≤ length front.now }
    requires within { length front.now ≤ left }
    requires enough { min LONGEST_FRONT left ≤ length front.now }
    ensures { (more : List ℕ) → length front.now + length more ≡ left → BeginsAs (front.now ++ more) result }
{
    if front[0] != OPEN_GATE {
        return Beginning::Closed;
    }
    match decode_head(front, left) {
        Some(head) => Beginning::Entry(head),
        None => Beginning::Broken,
    }
}

/// What begins at a place of a segment, of which `left` bytes are left from there on.
pub(crate) fn beginning_at<D: Disk>(
    alloc: Global,
    disk: &mut D,
    piece: &mut Piece,
    place: u64,
    left: usize,
) -> Result<Beginning, ReadFault>
    requires inside { place + left ≤ D.size disk.old }
    requires two { 2 ≤ left }
    requires held { D.tells → IsHeld piece.old.from piece.old.bytes.items (D.content disk.old).seen }
    ensures during { D.tells → ChangesBy Same (D.content disk.old) (D.content disk.new) }
    ensures seen { D.tells → (D.content disk.new).seen ≡ (D.content disk.old).seen }
    ensures held { D.tells → IsHeld piece.new.from piece.new.bytes.items (D.content disk.old).seen }
    ensures begins { IfOk result (λ beginning. D.tells → BeginsAs (range place left (D.content disk.old).seen) beginning) }
    // Of a disk that doesn't tell its bytes this much is known.
    ensures possible { IfOk result (λ beginning. (bytes : List ℕ) × (length bytes ≡ left) × BeginsAs bytes beginning) }
    ensures failed { IsErrOf result ReadFault.Failed → Rose (D.faults disk.old) (D.faults disk.new) }
    ensures size { D.size disk.new ≡ D.size disk.old }
    ensures later { D.faults disk.old ≤ D.faults disk.new }
{
    let need = left.min(LONGEST_FRONT);
    hold(alloc, disk, piece, place, need, left)?;
    Ok(beginning_of(piece.part(place, need), left))
}

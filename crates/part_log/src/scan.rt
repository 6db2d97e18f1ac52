//! Records that are read one after the other.

ghost use Rattle.std.specs.Prelude.{◌≡◌, ◌+◌, ◌<◌, ◌==◌, [], ◌-◌, ◌^◌, ◌≤◌, ℕ, List, None, IfOk, IfSome, IsErrOf, if◌then◌else◌};
ghost use Rattle.outside.specs.Causes.{Rose};
ghost use Rattle.disk_core.specs.Content.{ChangesBy, Same, range};
ghost use Rattle.log_manifest.specs.declared.manifest.LogSettings.{LogSettings};
ghost use Rattle.part_log.specs.Images.{EndsBadly};
ghost use Rattle.part_log.specs.Marks.{MarksOn};
ghost use Rattle.part_log.specs.Records.{EndsHere, Written, placed_from};
ghost use Rattle.part_log.specs.Scan.{IsBroken, IsHeld, IsRead, ReadsOn, TakesAll, found_of, with_found};

use crate::collect::Collect;
use crate::fault::OpenFault;
use crate::marks::Marks;
use crate::piece::{Beginning, Piece, beginning_at};
use crate::segment::Found;
use disk_core::Disk;
use std::alloc::Global;

/// How far the reading came.
#[derive(Debug, Drop)]
pub(crate) struct Scan {
    pub(crate) piece: Piece,
    /// The least lsn that the next record can have.
    pub(crate) next: u64,
    /// The marks of the records of the segments that were read.
    pub(crate) marks: Marks,
}

impl Scan {
    pub(crate) fn new(alloc: Global) -> Scan
        ensures from { result.piece.from ≡ 0 }
        ensures none { result.piece.bytes.items ≡ [] }
        ensures next { result.next ≡ 0 }
        ensures marks { result.marks.list.items ≡ [] }
    {
        Scan {
            piece: Piece::new(alloc),
            next: 0,
            marks: Marks::new(alloc),
        }
    }
}

/// How far the records of a segment reach.
#[derive(Clone, Copy, Debug, PartialEq, Eq)]
pub(crate) struct Extent {
    /// How many of its bytes hold records.
    pub(crate) used: u32,
    /// The lsn of its first record, or 0 where it has none.
    pub(crate) first: u64,
}

/// With a record more behind them.
fn with_found(extent: Extent, found: &Found) -> Extent
    requires { extent.used + found.now.head.len < 2 ^ 32 }
    ensures { result ≡ with_found extent found.now }
{
    let first = if extent.used == 0 {
        found.head.lsn
    } else {
        extent.first
    };
    Extent {
        used: extent.used + found.head.len as u32,
        first,
    }
}

/// Reads the record that begins at a place, of whose segment `left` bytes are left there, or `None` where the records end.
pub(crate) fn read_next<D: Disk>(
    alloc: Global,
    disk: &mut D,
    scan: &mut Scan,
    place: u64,
    left: u32,
) -> Result<Option<Found>, OpenFault>
    requires inside { place + left ≤ D.size disk.old }
    requires held { D.tells → IsHeld scan.old.piece.from scan.old.piece.bytes.items (D.content disk.old).seen }
    requires next { scan.old.next ≤ 2 ^ 63 }

    ensures during { D.tells → ChangesBy Same (D.content disk.old) (D.content disk.new) }
    ensures seen { D.tells → (D.content disk.new).seen ≡ (D.content disk.old).seen }
    ensures held { D.tells → IsHeld scan.new.piece.from scan.new.piece.bytes.items (D.content disk.old).seen }
    ensures next { scan.new.next ≤ 2 ^ 63 }

    ensures marks { scan.new.marks ≡ scan.old.marks }
    ensures ended { IfOk result (λ found. found ≡ None → (scan.new.next ≡ scan.old.next) × (D.tells → EndsHere (range place left (D.content disk.old).seen))) }
    ensures size { IfOk result (λ found. IfSome found (λ one. (38 ≤ one.head.len) × (one.head.len ≤ left))) }
    ensures read { IfOk result (λ found. IfSome found (λ one. D.tells → ReadsOn (range place left (D.content disk.old).seen) place scan.old.next one scan.new.next)) }

    ensures damaged { (at : ℕ) → IsErrOf result (OpenFault.Damaged at) → (at ≡ place) × (D.tells → IsBroken scan.old.next (range place left (D.content disk.old).seen)) }
    ensures failed { IsErrOf result OpenFault.Failed → Rose (D.faults disk.old) (D.faults disk.new) }
    ensures settings { (other : LogSettings) → IsErrOf result (OpenFault.OtherShape other) → ⊥ }
    ensures disk_size { D.size disk.new ≡ D.size disk.old }
    ensures later { D.faults disk.old ≤ D.faults disk.new }
{
    if left < 2 {
        return Ok(None);
    }
    let beginning = beginning_at(alloc, disk, &mut scan.piece, place, left as usize)?;
    match beginning {
        Beginning::Closed => Ok(None),
        Beginning::Entry(head) => {
            let lsn = head.lsn;
            if lsn < scan.next {
                return Err(OpenFault::Damaged(place));
            }
            scan.next = lsn + 1;
            Ok(Some(Found { place, head }))
        }
        Beginning::Broken => Err(OpenFault::Damaged(place)),
    }
}

/// Reads the records of a segment, and hands them to the collector: how far they reach.
pub(crate) fn read_segment<D: Disk, C: Collect>(
    alloc: Global,
    disk: &mut D,
    scan: &mut Scan,
    collector: &mut C,
    start: u64,
    segment: u32,
) -> Result<Extent, OpenFault>
    requires inside { start + segment ≤ D.size disk.old }
    requires held { D.tells → IsHeld scan.old.piece.from scan.old.piece.bytes.items (D.content disk.old).seen }
    requires next { scan.old.next ≤ 2 ^ 63 }

    ensures during { D.tells → ChangesBy Same (D.content disk.old) (D.content disk.new) }
    ensures seen { D.tells → (D.content disk.new).seen ≡ (D.content disk.old).seen }
    ensures held { D.tells → IsHeld scan.new.piece.from scan.new.piece.bytes.items (D.content disk.old).seen }
    ensures next { scan.new.next ≤ 2 ^ 63 }

    ensures used { IfOk result (λ extent. extent.used ≤ segment) }
    ensures read { IfOk result (λ extent. D.tells → (written : List Written) × IsRead start scan.old.next (D.content disk.old).seen extent scan.new.next written
        × TakesAll C.takes collector.old (found_of (placed_from start written)) collector.new × MarksOn scan.old.marks.list.items (placed_from start written) scan.new.marks.list.items) }
    ensures ended { IfOk result (λ extent. D.tells → EndsHere (range (start + extent.used) (segment - extent.used) (D.content disk.old).seen)) }

    ensures damaged { (at : ℕ) → IsErrOf result (OpenFault.Damaged at) → D.tells → (offset : ℕ) × (at ≡ start + offset) × EndsBadly scan.old.next (range start segment (D.content disk.old).seen) offset }
    ensures failed { IsErrOf result OpenFault.Failed → Rose (D.faults disk.old) (D.faults disk.new) }
    ensures settings { (other : LogSettings) → IsErrOf result (OpenFault.OtherShape other) → ⊥ }
    ensures disk_size { D.size disk.new ≡ D.size disk.old }
    ensures later { D.faults disk.old ≤ D.faults disk.new }
{
    let mut extent = Extent { used: 0, first: 0 };
    while let Some(found) = read_next(
        alloc,
        disk,
        scan,
        start + u64::from(extent.used),
        segment - extent.used,
    )? {
        extent = with_found(extent, &found);
        scan.marks.note(found.head.lsn, found.place)?;
        collector.take(found)?;
    }
    Ok(extent)
}

//! Reading the records of all live segments.

ghost use Rattle.std.specs.Prelude.{◌≡◌, ◌+◌, ◌^◌, ◌<◌, ◌≤◌, ◌++◌, ◌∷◌, ◌==◌, [], ℕ, List, length, slice_index_or, slice_set, if◌then◌else◌, All, OnOk, IfOk, IsErrOf};
ghost use Rattle.outside.specs.Causes.{Rose};
ghost use Rattle.disk_core.specs.Content.{ChangesBy, Same, range};
ghost use Rattle.log_manifest.specs.declared.manifest.LogSettings.{LogSettings};
ghost use Rattle.part_log.specs.declared.segment.SegmentInfo.{SegmentInfo};
ghost use Rattle.part_log.specs.Records.{Written, placed_from};
ghost use Rattle.part_log.specs.Segments.{live_of, lives_of, place_of, with_firsts};
ghost use Rattle.part_log.specs.Images.{EndBadly, EndsBadly};
ghost use Rattle.part_log.specs.Log.{AllFit, placed_in};
ghost use Rattle.part_log.specs.Marks.{MarksOn};
ghost use Rattle.part_log.specs.Scan.{AreRead, IsHeld, TakesAll, found_of};

use crate::collect::Collect;
use crate::fault::OpenFault;
use crate::scan::{Scan, read_segment};
use crate::segment::SegmentInfo;
use crate::table::place_of;
use blob_id::Memory;
use disk_core::Disk;
use log_manifest::{Live, LogSettings};
use std::alloc::Global;

/// Adds a segment.
pub(crate) fn add_info(segments: &mut Vec<SegmentInfo>, info: SegmentInfo) -> Result<(), Memory>
    ensures { OnOk result (segments.new.items ≡ segments.old.items ++ info ∷ []) }
{
    segments.push(info)?;
    Ok(())
}

/// Reads the records of a live segment, and hands them to the collector.
fn read_live<D: Disk, C: Collect>(
    alloc: Global,
    disk: &mut D,
    settings: &LogSettings,
    live: &Live,
    scan: &mut Scan,
    collector: &mut C,
    segments: &mut Vec<SegmentInfo>,
) -> Result<(), OpenFault>
    requires inside { place_of settings.now.segment live.now.segment + settings.now.segment ≤ D.size disk.old }
    requires held { D.tells → IsHeld scan.old.piece.from scan.old.piece.bytes.items (D.content disk.old).seen }
    requires next { scan.old.next ≤ 2 ^ 63 }

    ensures during { D.tells → ChangesBy Same (D.content disk.old) (D.content disk.new) }
    ensures seen { D.tells → (D.content disk.new).seen ≡ (D.content disk.old).seen }
    ensures held { D.tells → IsHeld scan.new.piece.from scan.new.piece.bytes.items (D.content disk.old).seen }
    ensures next { scan.new.next ≤ 2 ^ 63 }

    ensures fit { OnOk result (AllFit settings.now.segment segments.old.items → AllFit settings.now.segment segments.new.items) }
    ensures more { OnOk result ((info : SegmentInfo) × (live_of info ≡ live.now) × (segments.new.items ≡ segments.old.items ++ info ∷ [])) }
    ensures read { OnOk result (D.tells → (parts : List (List Written)) → AreRead settings.now.segment (D.content disk.old).seen segments.old.items scan.old.next parts
        → (part : List Written) × AreRead settings.now.segment (D.content disk.old).seen segments.new.items scan.new.next (parts ++ part ∷ [])
        × TakesAll C.takes collector.old (found_of (placed_from (place_of settings.now.segment live.now.segment) part)) collector.new
        × MarksOn scan.old.marks.list.items (placed_from (place_of settings.now.segment live.now.segment) part) scan.new.marks.list.items) }

    ensures damaged { (at : ℕ) → IsErrOf result (OpenFault.Damaged at) → D.tells
        → (offset : ℕ) × (at ≡ place_of settings.now.segment live.now.segment + offset) × EndsBadly scan.old.next (range (place_of settings.now.segment live.now.segment) settings.now.segment (D.content disk.old).seen) offset }
    ensures failed { IsErrOf result OpenFault.Failed → Rose (D.faults disk.old) (D.faults disk.new) }
    ensures settings { (other : LogSettings) → IsErrOf result (OpenFault.OtherShape other) → ⊥ }
    ensures disk_size { D.size disk.new ≡ D.size disk.old }
    ensures later { D.faults disk.old ≤ D.faults disk.new }
{
    let start = place_of(settings, live.segment);
    let extent = read_segment(alloc, disk, scan, collector, start, settings.segment)?;
    let info = SegmentInfo {
        segment: live.segment,
        generation: live.generation,
        used: extent.used,
        first: extent.first,
    };
    add_info(segments, info)?;
    Ok(())
}

/// Reads the records of all live segments, and hands them to the collector.
pub(crate) fn read_lives<D: Disk, C: Collect>(
    alloc: Global,
    disk: &mut D,
    settings: &LogSettings,
    lives: &[Live],
    scan: &mut Scan,
    collector: &mut C,
) -> Result<Vec<SegmentInfo>, OpenFault>
    requires inside { All (λ live. place_of settings.now.segment live.segment + settings.now.segment ≤ D.size disk.old) lives.now }
    requires piece { scan.old.piece.bytes.items ≡ [] }
    requires next { scan.old.next ≡ 0 }

    ensures during { D.tells → ChangesBy Same (D.content disk.old) (D.content disk.new) }
    ensures seen { D.tells → (D.content disk.new).seen ≡ (D.content disk.old).seen }
    ensures next { scan.new.next ≤ 2 ^ 63 }
    ensures fit { IfOk result (λ segments. AllFit settings.now.segment segments.items) }
    ensures lives { IfOk result (λ segments. lives_of segments.items ≡ lives.now) }
    ensures read { IfOk result (λ segments. D.tells → (parts : List (List Written)) × AreRead settings.now.segment (D.content disk.old).seen segments.items scan.new.next parts
        × TakesAll C.takes collector.old (found_of (placed_in settings.now.segment segments.items parts)) collector.new × MarksOn scan.old.marks.list.items (placed_in settings.now.segment segments.items parts) scan.new.marks.list.items) }

    ensures damaged { (at : ℕ) → IsErrOf result (OpenFault.Damaged at) → D.tells → EndBadly settings.now.segment (D.content disk.old).seen lives.now at }
    ensures failed { IsErrOf result OpenFault.Failed → Rose (D.faults disk.old) (D.faults disk.new) }
    ensures settings { (other : LogSettings) → IsErrOf result (OpenFault.OtherShape other) → ⊥ }
    ensures disk_size { D.size disk.new ≡ D.size disk.old }
    ensures later { D.faults disk.old ≤ D.faults disk.new }
{
    let mut segments = Vec::new(alloc);
    for live in lives {
        read_live(alloc, disk, settings, live, scan, collector, &mut segments)?;
    }
    Ok(segments)
}

/// Fills in the first lsn of each segment that has no record: that of the next record, or the end lsn.
pub(crate) fn set_firsts(segments: &mut Vec<SegmentInfo>, end: u64)
    ensures { segments.new.items ≡ with_firsts segments.old.items end }
{
    let mut next = end;
    let mut place = segments.len();
    while place > 0 {
        place -= 1;
        next = settle_first(segments, place, next);
    }
}

/// Fills in the first lsn of one segment, where it has no record: the one given. It answers the first lsn.
fn settle_first(segments: &mut Vec<SegmentInfo>, place: usize, next: u64) -> u64
    requires { place < length segments.old.items }
    ensures first { (info : SegmentInfo) → info ≡ slice_index_or segments.old.items place info → result ≡ (if info.used == 0 then next else info.first) }
    ensures set { (info : SegmentInfo) → info ≡ slice_index_or segments.old.items place info → segments.new.items ≡ slice_set segments.old.items place (record info { first = (if info.used == 0 then next else info.first) }) }
{
    if segments[place].used == 0 {
        segments[place].first = next;
    }
    segments[place].first
}

//! Reading a page of a log: some of its records, in log order.

ghost use Rattle.std.specs.Prelude.{◌≡◌, ◌⊎◌, ◌+◌, ◌++◌, ◌∷◌, [], ◌^◌, ◌<◌, ◌≤◌, ◌↔◌, ℕ, List, length, All, true, false, OnOk, IfOk, IsErrOf, IsTrue};
ghost use Rattle.outside.specs.Causes.{Rose};
ghost use Rattle.disk_core.specs.Content.{ChangesBy, Same};
ghost use Rattle.log_manifest.specs.declared.manifest.LogSettings.{LogSettings};
ghost use Rattle.part_log.specs.declared.marks.Mark.{Mark};
ghost use Rattle.part_log.specs.Records.{Placed, Written, next_after, placed_from};
ghost use Rattle.part_log.specs.Segments.{place_of};
ghost use Rattle.part_log.specs.Log.{IsLog, placed_in};
ghost use Rattle.part_log.specs.Marks.{IsOneOf};
ghost use Rattle.part_log.specs.Pages.{IsPage, IsStart, StandIn, StandsAt, filled, first_start, found_from, from_lsn, is_within, page_of, start_from};
ghost use Rattle.part_log.specs.Scan.{IsHeld, found_of};

use crate::fault::{LogFault, OpenFault, ReadFault};
use crate::log::PartLog;
use crate::marks::Marks;
use crate::scan::{Scan, read_next};
use crate::segment::{Found, SegmentInfo};
use crate::table::{CELLS, place_of};
use blob_id::Memory;
use disk_core::Disk;
use log_manifest::LogSettings;
use std::alloc::Global;

/// A page that is read.
#[derive(Debug, Drop)]
pub(crate) struct Page {
    /// The least lsn that a record of it can have.
    least: u64,
    /// How many records it can have.
    most: usize,
    found: Vec<Found>,
}

impl Page {
    fn new(alloc: Global, least: u64, most: usize) -> Page
        ensures least { result.least ≡ least }
        ensures most { result.most ≡ most }
        ensures none { result.found.items ≡ [] }
        ensures page { IsPage result }
    {
        Page {
            least,
            most,
            found: Vec::new(alloc),
        }
    }

    fn is_full(&self) -> bool
        ensures { IsTrue result ↔ (self.now.most ≤ length self.now.found.items) }
    {
        self.found.len() >= self.most
    }

    /// Takes the record that was found next, unless it has an earlier lsn.
    fn take(&mut self, found: Found) -> Result<(), Memory>
        requires page { IsPage self.old }
        requires room { length self.old.found.items < self.old.most }
        ensures page { IsPage self.new }
        ensures least { self.new.least ≡ self.old.least }
        ensures most { self.new.most ≡ self.old.most }
        ensures taken { OnOk result (self.new.found.items ≡ self.old.found.items ++ from_lsn self.old.least (found ∷ [])) }
    {
        if self.least <= found.head.lsn {
            self.found.push(found)?;
        }
        Ok(())
    }
}

/// Where the reading of a page begins: with `left` bytes from a place on. Then it goes on with live segments.
#[derive(Clone, Copy, Debug, PartialEq, Eq)]
pub(crate) struct Start {
    place: u64,
    left: u32,
    /// The first one of these, by its index.
    next: usize,
}

/// Where it begins with the first live segment.
const FIRST: Start = Start {
    place: CELLS,
    left: 0,
    next: 0,
};

/// Whether a place stands among the records of a segment.
fn is_within(settings: &LogSettings, info: &SegmentInfo, place: u64) -> bool
    ensures { result ≡ is_within settings.now.segment place info.now }
{
    let start = place_of(settings, info.segment);
    start <= place && place < start + u64::from(info.used)
}

/// Where reading begins with what stands at a place, or with the first live segment where none has it.
fn start_at(settings: &LogSettings, segments: &[SegmentInfo], place: u64) -> Start
    ensures { result ≡ start_from settings.now.segment place 0 segments.now }
{
    let mut next = 0;
    for info in segments {
        next += 1;
        if is_within(settings, info, place) {
            let end = place_of(settings, info.segment) + u64::from(info.used);
            return Start {
                place,
                left: (end - place) as u32,
                next,
            };
        }
    }
    FIRST
}

/// Where the reading of the records at or above an lsn begins: with the last mark that doesn't lie above it.
fn start_for(settings: &LogSettings, segments: &[SegmentInfo], marks: &Marks, lsn: u64) -> Start
    ensures { (result ≡ first_start) ⊎ ((mark : Mark) × IsOneOf mark marks.now.list.items × (mark.lsn ≤ lsn) × (result ≡ start_from settings.now.segment mark.place 0 segments.now)) }
{
    match marks.last_to(lsn) {
        Some(mark) => start_at(settings, segments, mark.place),
        None => FIRST,
    }
}

/// Reads the records from a place of a segment on, which fill `left` bytes, until the page is full.
fn read_part<D: Disk>(
    alloc: Global,
    disk: &mut D,
    scan: &mut Scan,
    place: u64,
    left: u32,
    page: &mut Page,
) -> Result<(), OpenFault>
    requires inside { place + left ≤ D.size disk.old }
    requires held { D.tells → IsHeld scan.old.piece.from scan.old.piece.bytes.items (D.content disk.old).seen }
    requires next { scan.old.next ≤ 2 ^ 63 }
    requires page { IsPage page.old }

    ensures during { D.tells → ChangesBy Same (D.content disk.old) (D.content disk.new) }
    ensures seen { D.tells → (D.content disk.new).seen ≡ (D.content disk.old).seen }
    ensures held { D.tells → IsHeld scan.new.piece.from scan.new.piece.bytes.items (D.content disk.old).seen }
    ensures next { scan.new.next ≤ 2 ^ 63 }

    ensures page { IsPage page.new }
    ensures least { page.new.least ≡ page.old.least }
    ensures most { page.new.most ≡ page.old.most }
    ensures read { OnOk result (D.tells → (written : List Written) → StandsAt place left scan.old.next (D.content disk.old).seen written → page.new.found.items ≡ filled page.old (found_of (placed_from place written))) }
    ensures passed { OnOk result (D.tells → (written : List Written) → StandsAt place left scan.old.next (D.content disk.old).seen written → scan.new.next ≤ next_after scan.old.next written) }

    // Records that stand there are read.
    ensures damaged { (at : ℕ) → IsErrOf result (OpenFault.Damaged at) → D.tells → (written : List Written) → StandsAt place left scan.old.next (D.content disk.old).seen written → ⊥ }
    ensures failed { IsErrOf result OpenFault.Failed → Rose (D.faults disk.old) (D.faults disk.new) }
    ensures settings { (other : LogSettings) → IsErrOf result (OpenFault.OtherShape other) → ⊥ }
    ensures disk_size { D.size disk.new ≡ D.size disk.old }
    ensures later { D.faults disk.old ≤ D.faults disk.new }
{
    let mut used = 0;
    while !page.is_full() {
        let Some(found) = read_next(alloc, disk, scan, place + u64::from(used), left - used)? else {
            return Ok(());
        };
        used += found.head.len as u32;
        page.take(found)?;
    }
    Ok(())
}

/// Reads the records of these segments, until the page is full.
fn read_parts<D: Disk>(
    alloc: Global,
    disk: &mut D,
    scan: &mut Scan,
    settings: &LogSettings,
    segments: &[SegmentInfo],
    page: &mut Page,
) -> Result<(), OpenFault>
    requires inside { All (λ info. place_of settings.now.segment info.segment + info.used ≤ D.size disk.old) segments.now }
    requires held { D.tells → IsHeld scan.old.piece.from scan.old.piece.bytes.items (D.content disk.old).seen }
    requires next { scan.old.next ≤ 2 ^ 63 }
    requires page { IsPage page.old }

    ensures during { D.tells → ChangesBy Same (D.content disk.old) (D.content disk.new) }
    ensures seen { D.tells → (D.content disk.new).seen ≡ (D.content disk.old).seen }
    ensures page { IsPage page.new }
    ensures least { page.new.least ≡ page.old.least }
    ensures most { page.new.most ≡ page.old.most }
    ensures read { OnOk result (D.tells → (parts : List (List Written)) → StandIn settings.now.segment segments.now scan.old.next (D.content disk.old).seen parts
        → page.new.found.items ≡ filled page.old (found_of (placed_in settings.now.segment segments.now parts))) }

    ensures damaged { (at : ℕ) → IsErrOf result (OpenFault.Damaged at) → D.tells → (parts : List (List Written)) → StandIn settings.now.segment segments.now scan.old.next (D.content disk.old).seen parts → ⊥ }
    ensures failed { IsErrOf result OpenFault.Failed → Rose (D.faults disk.old) (D.faults disk.new) }
    ensures settings { (other : LogSettings) → IsErrOf result (OpenFault.OtherShape other) → ⊥ }
    ensures disk_size { D.size disk.new ≡ D.size disk.old }
    ensures later { D.faults disk.old ≤ D.faults disk.new }
{
    for info in segments {
        let place = place_of(settings, info.segment);
        read_part(alloc, disk, scan, place, info.used, page)?;
    }
    Ok(())
}

/// Reads a page from a start on. `Failed` where the records don't read as they did.
fn read_page<D: Disk>(
    alloc: Global,
    disk: &mut D,
    settings: &LogSettings,
    segments: &[SegmentInfo],
    start: Start,
    mut page: Page,
) -> Result<Vec<Found>, ReadFault>
    requires inside { All (λ info. place_of settings.now.segment info.segment + info.used ≤ D.size disk.old) segments.now }
    requires start { start.place + start.left ≤ D.size disk.old }
    requires next { start.next ≤ length segments.now }
    requires page { IsPage page }

    ensures during { D.tells → ChangesBy Same (D.content disk.old) (D.content disk.new) }
    ensures seen { D.tells → (D.content disk.new).seen ≡ (D.content disk.old).seen }
    ensures short { IfOk result (λ found. length found.items ≤ page.most) }
    ensures above { IfOk result (λ found. All (λ one. page.least ≤ one.head.lsn) found.items) }
    ensures read { IfOk result (λ found. D.tells → (written : List Written) → (parts : List (List Written)) → IsStart settings.now.segment segments.now start (D.content disk.old).seen written parts
        → found.items ≡ filled page (found_from settings.now.segment segments.now start written parts)) }

    // Over a disk that tells the records, it is the disk that failed.
    ensures failed { IsErrOf result ReadFault.Failed → D.tells → (written : List Written) → (parts : List (List Written)) → IsStart settings.now.segment segments.now start (D.content disk.old).seen written parts → Rose (D.faults disk.old) (D.faults disk.new) }
    ensures disk_size { D.size disk.new ≡ D.size disk.old }
    ensures later { D.faults disk.old ≤ D.faults disk.new }
{
    let mut scan = Scan::new(alloc);
    read_part(alloc, disk, &mut scan, start.place, start.left, &mut page)?;
    let behind = &segments[start.next..];
    read_parts(alloc, disk, &mut scan, settings, behind, &mut page)?;
    let Page {
        least: _,
        most: _,
        found,
    } = page;
    Ok(found)
}

impl<D: Disk> PartLog<D> {
    /// The first records with an lsn at or above one, `max` at most, in log order: of each its place and its head. It begins
    /// with the last mark that doesn't lie above the lsn, so that it passes 64 records that it wasn't asked for at most, and
    /// stops where it has so many; it reads 65,536 bytes at a time. After `Memory` the log goes on; after `Failed` it is down. A
    /// disk that doesn't tell its bytes may have lost records: that is `Failed` too.
    pub fn heads_from(
        &mut self,
        alloc: Global,
        lsn: u64,
        max: usize,
    ) -> Result<Vec<Found>, LogFault>
        // They are those of the log.
        ensures found { D.tells → (placed : List Placed) → IsLog self.old.table (D.content self.old.disk) placed → IfOk result (λ found. found.items ≡ page_of lsn max (found_of placed)) }
        // Over any disk they are no more than asked for, and none lies below the lsn.
        ensures short { IfOk result (λ found. length found.items ≤ max) }
        ensures above { IfOk result (λ found. All (λ one. lsn ≤ one.head.lsn) found.items) }

        // Nothing changes on the disk or of the log.
        ensures during { D.tells → ChangesBy Same (D.content self.old.disk) (D.content self.new.disk) }
        ensures seen { D.tells → (D.content self.new.disk).seen ≡ (D.content self.old.disk).seen }
        ensures kept { D.tells → (placed : List Placed) → IsLog self.old.table (D.content self.old.disk) placed → IsLog self.new.table (D.content self.new.disk) placed }
        ensures table { self.new.table ≡ self.old.table }

        ensures down { IsErrOf result LogFault.Down ↔ (self.old.down ≡ true) }
        ensures failed { IsErrOf result LogFault.Failed → (self.new.down ≡ true) × (D.tells → Rose (D.faults self.old.disk) (D.faults self.new.disk)) }
        ensures full { IsErrOf result LogFault.Full → ⊥ }
        ensures unchanged { IsErrOf result LogFault.Down → self.new ≡ self.old }
        ensures memory { IsErrOf result LogFault.Memory → self.new.down ≡ false }
        ensures up { OnOk result (self.new.down ≡ false) }
        ensures size { D.size self.new.disk ≡ D.size self.old.disk }
        ensures later { D.faults self.old.disk ≤ D.faults self.new.disk }
    {
        if self.down {
            return Err(LogFault::Down);
        }
        let start = start_for(&self.settings, &self.segments, &self.marks, lsn);
        let page = Page::new(alloc, lsn, max);
        match read_page(
            alloc,
            &mut self.disk,
            &self.settings,
            &self.segments,
            start,
            page,
        ) {
            Ok(found) => Ok(found),
            Err(ReadFault::Failed) => {
                self.down = true;
                Err(LogFault::Failed)
            }
            Err(ReadFault::Memory) => Err(LogFault::Memory),
        }
    }
}

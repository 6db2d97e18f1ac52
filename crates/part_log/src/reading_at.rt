//! Reading the record that stands at a place.

ghost use Rattle.std.specs.Prelude.{◌≡◌, ◌+◌, ◌-◌, ◌<◌, ◌≤◌, ◌↔◌, ℕ, List, length, true, false, Some, OnOk, IfOk, IfSome, IsErrOf};
ghost use Rattle.outside.specs.Causes.{Rose};
ghost use Rattle.disk_core.specs.Content.{ChangesBy, Same, range};
ghost use Rattle.msg_format.specs.declared.record.Record.{Record};
ghost use Rattle.msg_format.specs.Records.{IsRecord, Spells};
ghost use Rattle.part_log.specs.Records.{HasPlace, IsSpelledIn, Placed};
ghost use Rattle.part_log.specs.Segments.{place_of};
ghost use Rattle.part_log.specs.Log.{AreInRange, HasRecordAt, IsLog, IsVisible, disk_size};

use crate::bytes::read_bytes;
use crate::fault::{LogFault, ReadFault};
use crate::log::PartLog;
use crate::table::CELLS;
use blob_id::Memory;
use disk_core::Disk;
use log_manifest::LogSettings;
use msg_format::{Record, decode};
use std::alloc::Global;

/// How many bytes of its segment stand from a place on, or `None` where no segment has the place.
fn left_at(settings: &LogSettings, place: u64) -> Option<u32>
    requires { 1 ≤ settings.now.segment }
    ensures inside { IfSome result (λ left. place + left ≤ disk_size settings.now) }
    ensures only { (number offset : ℕ) → number < settings.now.segments → offset < settings.now.segment → place ≡ place_of settings.now.segment number + offset → result ≡ Some (settings.now.segment - offset) }
{
    let segment = u64::from(settings.segment);
    if place < CELLS || place - CELLS >= u64::from(settings.segments) * segment {
        return None;
    }
    let offset = (place - CELLS) % segment;
    Some(settings.segment - offset as u32)
}

/// The record that these bytes spell, if they spell one.
fn record_of(alloc: Global, bytes: &[u8]) -> Result<Option<Record>, Memory>
    ensures spelled { IfOk result (λ found. IfSome found (λ entry. Spells bytes.now entry)) }
    ensures only { (entry : Record) → Spells bytes.now entry → IfOk result (λ found. found ≡ Some entry) }
{
    match decode(alloc, bytes)? {
        Some((entry, len)) => {
            if len == bytes.len() {
                Ok(Some(entry))
            } else {
                Ok(None)
            }
        }
        None => Ok(None),
    }
}

/// The record that `len` bytes of the disk spell, from a place on, or `None` where they spell none. It makes one call of
/// the disk, and copies the body once.
fn read_record<D: Disk>(
    alloc: Global,
    disk: &mut D,
    place: u64,
    len: usize,
) -> Result<Option<Record>, ReadFault>
    requires inside { place + len ≤ D.size disk.old }
    ensures during { D.tells → ChangesBy Same (D.content disk.old) (D.content disk.new) }
    ensures seen { D.tells → (D.content disk.new).seen ≡ (D.content disk.old).seen }
    ensures spelled { IfOk result (λ found. IfSome found (λ entry. IsSpelledIn len entry)) }
    ensures only { D.tells → (entry : Record) → Spells (range place len (D.content disk.old).seen) entry → IfOk result (λ found. found ≡ Some entry) }
    ensures failed { IsErrOf result ReadFault.Failed → Rose (D.faults disk.old) (D.faults disk.new) }
    ensures size { D.size disk.new ≡ D.size disk.old }
    ensures later { D.faults disk.old ≤ D.faults disk.new }
{
    let bytes = read_bytes(alloc, disk, place, &[], len)?;
    Ok(record_of(alloc, &bytes)?)
}

/// The record that `len` bytes of a segment spell, from a place on. `Failed` where they spell none.
fn read_placed<D: Disk>(
    alloc: Global,
    disk: &mut D,
    settings: &LogSettings,
    place: u64,
    len: usize,
) -> Result<Record, ReadFault>
    requires ranges { AreInRange settings.now }
    requires size { D.size disk.old ≡ disk_size settings.now }
    ensures during { D.tells → ChangesBy Same (D.content disk.old) (D.content disk.new) }
    ensures seen { D.tells → (D.content disk.new).seen ≡ (D.content disk.old).seen }
    ensures spelled { IfOk result (λ found. IsSpelledIn len found) }
    ensures read { D.tells → (entry : Record) → (text : List ℕ) → length text ≡ len → IsVisible settings.now (D.content disk.old).seen (record { entry = entry; text = text; place = place }) → IfOk result (λ found. found ≡ entry) }
    // Over a disk that tells the record, it is the disk that failed.
    ensures failed { IsErrOf result ReadFault.Failed → D.tells → (entry : Record) → (text : List ℕ) → length text ≡ len → IsVisible settings.now (D.content disk.old).seen (record { entry = entry; text = text; place = place }) → Rose (D.faults disk.old) (D.faults disk.new) }
    ensures size { D.size disk.new ≡ D.size disk.old }
    ensures later { D.faults disk.old ≤ D.faults disk.new }
{
    let Some(left) = left_at(settings, place) else {
        return Err(ReadFault::Failed);
    };
    if len > left as usize {
        return Err(ReadFault::Failed);
    }
    match read_record(alloc, disk, place, len)? {
        Some(entry) => Ok(entry),
        None => Err(ReadFault::Failed),
    }
}

impl<D: Disk> PartLog<D> {
    /// The record that stands at a place, which an append answered or an opening found, and whose text has `len` bytes. It
    /// makes one call of the disk, for those bytes, and copies the body once. After `Memory` the log goes on; after `Failed`
    /// it is down. A disk that doesn't tell its bytes may have lost the record: where they spell no record of this length,
    /// or don't stand in one segment, that is `Failed` too.
    pub fn read_at(&mut self, alloc: Global, place: u64, len: usize) -> Result<Record, LogFault>
        requires visible { D.tells → self.old.down ≡ false → HasRecordAt self.old.table (D.content self.old.disk) place len }

        // It is the record that was put there.
        ensures read { D.tells → (placed : List Placed) → IsLog self.old.table (D.content self.old.disk) placed → (entry : Record) → HasPlace entry place len placed → IfOk result (λ found. found ≡ entry) }
        // Whatever the disk tells, so many bytes spell it.
        ensures spelled { IfOk result (λ found. IsSpelledIn len found) }
        ensures fields { IfOk result (λ found. IsRecord found) }

        // Nothing changes on the disk or of the log.
        ensures during { D.tells → ChangesBy Same (D.content self.old.disk) (D.content self.new.disk) }
        ensures seen { D.tells → (D.content self.new.disk).seen ≡ (D.content self.old.disk).seen }
        ensures kept { D.tells → (placed : List Placed) → IsLog self.old.table (D.content self.old.disk) placed → IsLog self.new.table (D.content self.new.disk) placed }
        ensures table { self.new.table ≡ self.old.table }

        ensures down { IsErrOf result LogFault.Down ↔ (self.old.down ≡ true) }
        ensures failed { IsErrOf result LogFault.Failed → (self.new.down ≡ true) × (D.tells → Rose (D.faults self.old.disk) (D.faults self.new.disk)) }
        ensures full { IsErrOf result LogFault.Full → ⊥ }
        ensures unchanged { IsErrOf result LogFault.Down → self.new ≡ self.old }
        ensures memory { IsErrOf result LogFault.Memory → self.new.down ≡ false }
        ensures up { OnOk result (self.new.down ≡ false) }
        ensures size { D.size self.new.disk ≡ D.size self.old.disk }
        ensures later { D.faults self.old.disk ≤ D.faults self.new.disk }
    {
        if self.down {
            return Err(LogFault::Down);
        }
        match read_placed(alloc, &mut self.disk, &self.settings, place, len) {
            Ok(entry) => Ok(entry),
            Err(ReadFault::Failed) => {
                self.down = true;
                Err(LogFault::Failed)
            }
            Err(ReadFault::Memory) => Err(LogFault::Memory),
        }
    }
}

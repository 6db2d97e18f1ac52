//! Putting records last.

ghost use Rattle.std.specs.Prelude.{if◌then◌else◌, ◌≡◌, ◌⊎◌, ◌+◌, ◌^◌, ◌<◌, ◌≤◌, ◌↔◌, ◌++◌, ◌∷◌, [], List, ℕ, length, true, false, OnOk, OnErr, IfOk, IsErrOf};
ghost use Rattle.outside.specs.Causes.{Rose};
ghost use Rattle.disk_core.specs.Content.{ChangesBy};
ghost use Rattle.gate_slots.specs.Gate.{IsZeroed};
ghost use Rattle.msg_format.specs.declared.record.Record.{Record};
ghost use Rattle.msg_format.specs.Records.{IsRecord, lsn_of, record_size};
ghost use Rattle.part_log.specs.Records.{Placed, placed_at, records_of};
ghost use Rattle.part_log.specs.Segments.{ChangesIn, last_segment, last_used, with_more};
ghost use Rattle.part_log.specs.Images.{KeepsLog, PutsLast};
ghost use Rattle.part_log.specs.Layout.{packed_with, with_new_segment, with_size};
ghost use Rattle.part_log.specs.Log.{AllVisible, Follows, IsLog, IsTable, fits_last, grown, is_full, layout_of, next_place, roomy_table, target_of};

use crate::fault::LogFault;
use crate::log::PartLog;
use crate::segment::SegmentInfo;
use crate::table::next_place;
use disk_core::Disk;
use gate_slots::write_gated;
use msg_format::{Record, encode_closed, record_size};
use outside::Failed;
use std::alloc::Global;

/// The last segment has so many bytes more that hold records.
fn grow_last(segments: &mut Vec<SegmentInfo>, size: u32)
    requires { last_used segments.old.items + size < 2 ^ 32 }
    ensures { segments.new.items ≡ with_more segments.old.items size }
{
    let count = segments.len();
    if count > 0 {
        segments[count - 1].used += size;
    }
}

impl<D: Disk> PartLog<D> {
    /// Makes room for a record of so many bytes: in memory for its mark, and in the last live segment by a roll, where it
    /// doesn't fit.
    fn make_room(&mut self, alloc: Global, size: u64) -> Result<(), LogFault>
        requires up { self.old.down ≡ false }
        requires small { size < 2 ^ 32 }
        requires room { is_full self.old.table size ≡ false }

        ensures during { D.tells → (placed : List Placed) → IsLog self.old.table (D.content self.old.disk) placed
            → ChangesBy (KeepsLog self.old.table.settings (target_of self.old.table size) (records_of placed) self.old.table.end) (D.content self.old.disk) (D.content self.new.disk) }
        ensures roomy { OnOk result (D.tells → (placed : List Placed) → IsLog self.old.table (D.content self.old.disk) placed → IsLog self.new.table (D.content self.new.disk) placed) }
        ensures outside { D.tells → ChangesIn self.old.table.settings.segment (target_of self.old.table size) (D.content self.old.disk).seen (D.content self.new.disk).seen }
        ensures visible { D.tells → (placed : List Placed) → IsLog self.old.table (D.content self.old.disk) placed → AllVisible self.old.table.settings (D.content self.new.disk).seen placed }
        ensures table { OnOk result (self.new.table ≡ roomy_table self.old.table size self.new.table.slots) }
        ensures layout { OnOk result (layout_of self.new.table ≡ (if fits_last self.old.table size then layout_of self.old.table else with_new_segment (layout_of self.old.table))) }
        ensures up { OnOk result (self.new.down ≡ false) }

        ensures failed { IsErrOf result LogFault.Failed → Rose (D.faults self.old.disk) (D.faults self.new.disk) × (self.new.down ≡ true) × (self.new.table ≡ self.old.table) }
        ensures unchanged { OnErr result (IsErrOf result LogFault.Failed ⊎ (self.new ≡ self.old)) }
        ensures other { OnErr result (IsErrOf result LogFault.Failed ⊎ IsErrOf result LogFault.Memory) }
        ensures size { D.size self.new.disk ≡ D.size self.old.disk }
        ensures later { D.faults self.old.disk ≤ D.faults self.new.disk }
    {
        self.marks.reserve()?;
        if self.fits(size) {
            Ok(())
        } else {
            self.add_segment(alloc)
        }
    }

    /// Writes a record behind the last one. `rest` is what stands behind its gate, with a closed gate behind it.
    fn put_last(&mut self, entry: &Record, rest: &[u8]) -> Result<u64, LogFault>
        requires up { self.old.down ≡ false }
        requires below { self.old.table.end < 2 ^ 62 }
        requires follows { Follows self.old.table entry.now rest.now }
        requires room { last_used self.old.table.segments + record_size entry.now + 1 ≤ self.old.table.settings.segment }

        ensures during { D.tells → (placed : List Placed) → IsLog self.old.table (D.content self.old.disk) placed
            → ChangesBy (PutsLast self.old.table.settings (last_segment self.old.table.segments) (records_of placed) self.old.table.end entry.now) (D.content self.old.disk) (D.content self.new.disk) }
        ensures put { IfOk result (λ place. D.tells → (placed : List Placed) → IsLog self.old.table (D.content self.old.disk) placed
            → IsLog self.new.table (D.content self.new.disk) (placed ++ placed_at entry.now place ∷ [])) }
        ensures outside { D.tells → ChangesIn self.old.table.settings.segment (last_segment self.old.table.segments) (D.content self.old.disk).seen (D.content self.new.disk).seen }
        ensures visible { D.tells → (placed : List Placed) → IsLog self.old.table (D.content self.old.disk) placed → AllVisible self.old.table.settings (D.content self.new.disk).seen placed }
        ensures good { OnOk result (IsTable self.new.table) }
        ensures zero { IfOk result (λ place. D.tells → IsZeroed (place + record_size entry.now) (D.content self.new.disk)) }
        ensures place { IfOk result (λ place. place ≡ next_place self.old.table) }
        ensures table { OnOk result (self.new.table ≡ grown self.old.table (record_size entry.now)) }
        ensures layout { OnOk result (layout_of self.new.table ≡ with_size (layout_of self.old.table) (record_size entry.now)) }
        ensures up { OnOk result (self.new.down ≡ false) }

        ensures failed { OnErr result (Rose (D.faults self.old.disk) (D.faults self.new.disk) × (self.new.down ≡ true) × (self.new.table ≡ self.old.table)) }
        ensures other { OnErr result (IsErrOf result LogFault.Failed) }
        ensures size { D.size self.new.disk ≡ D.size self.old.disk }
        ensures later { D.faults self.old.disk ≤ D.faults self.new.disk }
    {
        let place = next_place(&self.settings, &self.segments);
        match write_gated(&mut self.disk, place, rest) {
            Ok(()) => {
                grow_last(&mut self.segments, record_size(entry) as u32);
                // There is room for the mark. Without it a page would only read more.
                let _ = self.marks.note(self.end, place);
                self.end += 1;
                Ok(place)
            }
            Err(Failed) => {
                self.down = true;
                Err(LogFault::Failed)
            }
        }
    }

    /// Puts a record last, and answers at which place it stands. It makes four calls of the disk, and more only where it
    /// rolls. `Memory` comes before the first of them. After `Failed` the log is down, and a disk that is opened again
    /// has the record or not.
    pub fn append(&mut self, alloc: Global, entry: &Record) -> Result<u64, LogFault>
        requires fields { IsRecord entry.now }
        requires next { lsn_of entry.now ≡ self.old.table.end }

        // At each moment of the call a crash leaves the records from before it, with the new one or without.
        ensures during { D.tells → (placed : List Placed) → IsLog self.old.table (D.content self.old.disk) placed
            → ChangesBy (PutsLast self.old.table.settings (target_of self.old.table (record_size entry.now)) (records_of placed) self.old.table.end entry.now) (D.content self.old.disk) (D.content self.new.disk) }
        ensures put { IfOk result (λ place. D.tells → (placed : List Placed) → IsLog self.old.table (D.content self.old.disk) placed
            → IsLog self.new.table (D.content self.new.disk) (placed ++ placed_at entry.now place ∷ [])) }
        ensures outside { D.tells → ChangesIn self.old.table.settings.segment (target_of self.old.table (record_size entry.now)) (D.content self.old.disk).seen (D.content self.new.disk).seen }
        // Also after a failure each record from before can be read.
        ensures visible { D.tells → (placed : List Placed) → IsLog self.old.table (D.content self.old.disk) placed → AllVisible self.old.table.settings (D.content self.new.disk).seen placed }
        ensures good { OnOk result (IsTable self.new.table) }
        // The gate behind the record is closed by a 0.
        ensures zero { IfOk result (λ place. D.tells → IsZeroed (place + record_size entry.now) (D.content self.new.disk)) }
        ensures place { IfOk result (λ place. place ≡ next_place (roomy_table self.old.table (record_size entry.now) self.new.table.slots)) }
        ensures table { OnOk result (self.new.table ≡ grown (roomy_table self.old.table (record_size entry.now) self.new.table.slots) (record_size entry.now)) }
        ensures layout { OnOk result (layout_of self.new.table ≡ packed_with self.old.table.settings (layout_of self.old.table) (record_size entry.now)) }

        ensures full { IsErrOf result LogFault.Full ↔ ((self.old.down ≡ false) × (is_full self.old.table (record_size entry.now) ≡ true)) }
        ensures down { IsErrOf result LogFault.Down ↔ (self.old.down ≡ true) }
        ensures failed { IsErrOf result LogFault.Failed → Rose (D.faults self.old.disk) (D.faults self.new.disk) × (self.new.down ≡ true) }
        ensures same_end { OnErr result (self.new.table.end ≡ self.old.table.end) }
        ensures unchanged { OnErr result (IsErrOf result LogFault.Failed ⊎ (self.new ≡ self.old)) }
        ensures up { OnOk result (self.new.down ≡ false) }
        ensures settings { self.new.table.settings ≡ self.old.table.settings }
        ensures size { D.size self.new.disk ≡ D.size self.old.disk }
        ensures later { D.faults self.old.disk ≤ D.faults self.new.disk }
    {
        if self.down {
            return Err(LogFault::Down);
        }
        let size = record_size(entry) as u64;
        if self.is_full(size) {
            return Err(LogFault::Full);
        }
        let rest = encode_closed(alloc, entry)?;
        self.make_room(alloc, size)?;
        self.put_last(entry, rest.as_slice())
    }
}

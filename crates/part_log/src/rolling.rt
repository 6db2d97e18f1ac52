//! A segment more: its first gate is closed, and then the manifest names it too.

ghost use Rattle.std.specs.Prelude.{◌≡◌, ◌⊎◌, ◌+◌, ◌-◌, ◌^◌, ◌<◌, ◌≤◌, ◌↔◌, List, ℕ, length, true, false, None, not, OnOk, OnErr, IfOk, IsErrOf, ◌++◌, ◌∷◌, []};
ghost use Rattle.outside.specs.Causes.{HasCause, Rose};
ghost use Rattle.disk_core.specs.Content.{ChangesBy, IsSettled, Only};
ghost use Rattle.gate_slots.specs.Cell.{cell_at};
ghost use Rattle.gate_slots.specs.Gate.{IsZeroed};
ghost use Rattle.gate_slots.specs.Slots.{CurrentSlot, IsLoaded};
ghost use Rattle.log_manifest.specs.declared.manifest.LogSettings.{LogSettings};
ghost use Rattle.log_manifest.specs.Manifests.{manifest_text};
ghost use Rattle.part_log.specs.Records.{Placed, records_of};
ghost use Rattle.part_log.specs.Segments.{place_of, ChangesIn};
ghost use Rattle.part_log.specs.Images.{KeepsLog, OpensLog};
ghost use Rattle.part_log.specs.Layout.{with_new_segment};
ghost use Rattle.part_log.specs.Log.{AllVisible, AreInRange, IsLog, IsRolling, IsTokenSlot, LogTable, first_table, layout_of, manifest_of, is_packed, is_worn, least_free, rolled_table, takes_no_segment};

use crate::fault::LogFault;
use crate::log::PartLog;
use crate::segment::SegmentInfo;
use crate::table::{least_free, manifest_bytes, place_of};
use blob_id::Memory;
use disk_core::{Disk, write_synced};
use gate_slots::Slots;
use outside::Failed;
use std::alloc::Global;

/// Closes the first gate of a free segment, at `place`, and puts the manifest `text` in the place of the one that stands.
pub(crate) fn name_segment<D: Disk>(
    disk: &mut D,
    slots: &mut Slots,
    place: u64,
    text: &[u8],
) -> Result<(), Failed>
    requires base { slots.old.base ≡ 0 }
    requires sequence { slots.old.sequence < 2 ^ 63 - 1 }
    requires inside { place + 1 ≤ D.size disk.old }
    requires behind { 4096 ≤ place }
    requires short { length text.now ≤ 1011 }
    requires loaded { D.tells → IsLoaded slots.old (D.content disk.old).seen }
    requires settled { D.tells → IsSettled 0 2048 (D.content disk.old) }

    // At each moment of the call a crash leaves the records that were there.
    ensures during { D.tells → (table : LogTable) → (target : ℕ) → (placed : List Placed) → IsRolling table slots.old target text.now → place ≡ place_of table.settings.segment target
        → IsLog table (D.content disk.old) placed → ChangesBy (KeepsLog table.settings target (records_of placed) table.end) (D.content disk.old) (D.content disk.new) }
    ensures rolled { OnOk result (D.tells → (table : LogTable) → (target : ℕ) → (placed : List Placed) → IsRolling table slots.old target text.now → place ≡ place_of table.settings.segment target
        → IsLog table (D.content disk.old) placed → IsLog (rolled_table table target slots.new) (D.content disk.new) placed) }
    // A new disk stands for the empty log, then as before.
    ensures formats { D.tells → (settings : LogSettings) (tokens : CurrentSlot) → AreInRange settings → IsTokenSlot tokens → IsLoaded tokens (D.content disk.old).seen → place ≡ 4096 → text.now ≡ manifest_text (manifest_of (first_table settings slots.old tokens) 0)
        → Only (D.content disk.old) → (cell_at 0 (D.content disk.old).seen).value ≡ None → ChangesBy (OpensLog settings) (D.content disk.old) (D.content disk.new) }
    ensures formatted { OnOk result (D.tells → (settings : LogSettings) (tokens : CurrentSlot) → AreInRange settings → IsTokenSlot tokens → IsLoaded tokens (D.content disk.old).seen → place ≡ 4096 → text.now ≡ manifest_text (manifest_of (first_table settings slots.new tokens) 0)
        → Only (D.content disk.old) → (cell_at 0 (D.content disk.old).seen).value ≡ None → IsLog (first_table settings slots.new tokens) (D.content disk.new) []) }
    ensures zero { OnOk result (D.tells → IsZeroed place (D.content disk.new)) }
    ensures only { OnOk result (D.tells → Only (D.content disk.new)) }
    ensures outside { D.tells → (segment : ℕ) → (target : ℕ) → 1 ≤ segment → place ≡ place_of segment target → ChangesIn segment target (D.content disk.old).seen (D.content disk.new).seen }
    ensures slots { OnOk result (slots.new ≡ record { base = 0; sequence = slots.old.sequence + 1; second = not slots.old.second }) }
    ensures kept { OnErr result (slots.new ≡ slots.old) }
    ensures size { D.size disk.new ≡ D.size disk.old }
    ensures cause { HasCause (D.faults disk.old) (D.faults disk.new) result }
{
    write_synced(disk, place, &[0])?;
    match slots.replace(disk, text) {
        Ok(()) => Ok(()),
        Err(_) => Err(Failed),
    }
}

/// The live segments and one more.
fn with_segment(
    alloc: Global,
    segments: &[SegmentInfo],
    info: SegmentInfo,
) -> Result<Vec<SegmentInfo>, Memory>
    requires { length segments.now < 2 ^ 16 }
    ensures { IfOk result (λ all. all.items ≡ segments.now ++ info ∷ []) }
{
    let mut all = Vec::with_capacity(alloc, segments.len() + 1)?;
    all.extend_from_slice(segments)?;
    all.push(info)?;
    Ok(all)
}

impl<D: Disk> PartLog<D> {
    /// Makes the free segment with the least number the last live one.
    pub(crate) fn add_segment(&mut self, alloc: Global) -> Result<(), LogFault>
        requires up { self.old.down ≡ false }
        requires fresh { is_worn self.old.table ≡ false }
        requires room { is_packed self.old.table ≡ false }

        ensures during { D.tells → (placed : List Placed) → IsLog self.old.table (D.content self.old.disk) placed
            → ChangesBy (KeepsLog self.old.table.settings (least_free self.old.table) (records_of placed) self.old.table.end) (D.content self.old.disk) (D.content self.new.disk) }
        ensures rolled { OnOk result (D.tells → (placed : List Placed) → IsLog self.old.table (D.content self.old.disk) placed → IsLog self.new.table (D.content self.new.disk) placed) }
        ensures outside { D.tells → ChangesIn self.old.table.settings.segment (least_free self.old.table) (D.content self.old.disk).seen (D.content self.new.disk).seen }
        ensures visible { D.tells → (placed : List Placed) → IsLog self.old.table (D.content self.old.disk) placed → AllVisible self.old.table.settings (D.content self.new.disk).seen placed }
        ensures zero { OnOk result (D.tells → IsZeroed (place_of self.old.table.settings.segment (least_free self.old.table)) (D.content self.new.disk)) }
        ensures table { OnOk result (self.new.table ≡ rolled_table self.old.table (least_free self.old.table) self.new.table.slots) }
        ensures layout { OnOk result (layout_of self.new.table ≡ with_new_segment (layout_of self.old.table)) }
        ensures up { OnOk result (self.new.down ≡ false) }

        ensures failed { IsErrOf result LogFault.Failed → Rose (D.faults self.old.disk) (D.faults self.new.disk) × (self.new.down ≡ true) × (self.new.table ≡ self.old.table) }
        ensures unchanged { OnErr result (IsErrOf result LogFault.Failed ⊎ (self.new ≡ self.old)) }
        ensures other { OnErr result (IsErrOf result LogFault.Failed ⊎ IsErrOf result LogFault.Memory) }
        ensures size { D.size self.new.disk ≡ D.size self.old.disk }
        ensures later { D.faults self.old.disk ≤ D.faults self.new.disk }
    {
        let target = least_free(&self.segments, self.settings.segments);
        let place = place_of(&self.settings, target);
        let info = SegmentInfo {
            segment: target,
            generation: self.next_generation,
            used: 0,
            first: self.end,
        };
        let segments = with_segment(alloc, &self.segments, info)?;
        let next = self.next_generation + 1;
        let text = manifest_bytes(alloc, self.settings, &segments, next, self.end)?;
        match name_segment(&mut self.disk, &mut self.slots, place, text.as_slice()) {
            Ok(()) => {
                self.segments = segments;
                self.next_generation = next;
                Ok(())
            }
            Err(Failed) => {
                self.down = true;
                Err(LogFault::Failed)
            }
        }
    }

    /// Adds the free segment with the least number as the last live one, so that the next record is put into it. Full comes
    /// exactly where no segment is free but the one kept for compaction, or where the log is worn. `Memory` comes before
    /// the first call of the disk. After `Failed` the log is down, and a disk that is opened again has the segment or not.
    pub fn roll(&mut self, alloc: Global) -> Result<(), LogFault>
        // At each moment of the call a crash leaves the records that were there.
        ensures during { D.tells → (placed : List Placed) → IsLog self.old.table (D.content self.old.disk) placed
            → ChangesBy (KeepsLog self.old.table.settings (least_free self.old.table) (records_of placed) self.old.table.end) (D.content self.old.disk) (D.content self.new.disk) }
        ensures rolled { OnOk result (D.tells → (placed : List Placed) → IsLog self.old.table (D.content self.old.disk) placed → IsLog self.new.table (D.content self.new.disk) placed) }
        ensures outside { D.tells → ChangesIn self.old.table.settings.segment (least_free self.old.table) (D.content self.old.disk).seen (D.content self.new.disk).seen }
        // The first gate of the new segment was closed by a 0.
        ensures zero { OnOk result (D.tells → IsZeroed (place_of self.old.table.settings.segment (least_free self.old.table)) (D.content self.new.disk)) }
        ensures table { OnOk result (self.new.table ≡ rolled_table self.old.table (least_free self.old.table) self.new.table.slots) }
        ensures layout { OnOk result (layout_of self.new.table ≡ with_new_segment (layout_of self.old.table)) }

        ensures full { IsErrOf result LogFault.Full ↔ ((self.old.down ≡ false) × (takes_no_segment self.old.table ≡ true)) }
        ensures down { IsErrOf result LogFault.Down ↔ (self.old.down ≡ true) }
        ensures failed { IsErrOf result LogFault.Failed → Rose (D.faults self.old.disk) (D.faults self.new.disk) × (self.new.down ≡ true) × (self.new.table ≡ self.old.table) }
        ensures same_end { self.new.table.end ≡ self.old.table.end }
        ensures unchanged { OnErr result (IsErrOf result LogFault.Failed ⊎ (self.new ≡ self.old)) }
        ensures up { OnOk result (self.new.down ≡ false) }
        ensures settings { self.new.table.settings ≡ self.old.table.settings }
        ensures size { D.size self.new.disk ≡ D.size self.old.disk }
        ensures later { D.faults self.old.disk ≤ D.faults self.new.disk }
    {
        if self.down {
            return Err(LogFault::Down);
        }
        if self.takes_no_segment() {
            return Err(LogFault::Full);
        }
        self.add_segment(alloc)
    }
}

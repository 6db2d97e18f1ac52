//! The log: what is kept of it between two calls, and what can be asked of it without the disk.

ghost use Rattle.std.specs.Prelude.{◌≡◌, ◌+◌, ◌^◌, ◌<◌, ◌≤◌, ◌↔◌, List, ℕ, length, true, false};
ghost use Rattle.part_log.specs.Records.{Placed};
ghost use Rattle.part_log.specs.Images.{IsLaidOut};
ghost use Rattle.part_log.specs.Log.{IsLog, IsTable, disk_size, fits_last, is_full, is_packed, is_worn, layout_of, takes_no_segment};

use crate::marks::Marks;
use crate::segment::SegmentInfo;
use crate::table::last_used;
use disk_core::Disk;
use gate_slots::Slots;
use log_manifest::LogSettings;
use std::marker::Model;

/// From this number on, a log is worn.
const WORN: u64 = 1 << 62;

/// A log on a disk.
#[derive(Drop)]
pub struct PartLog<D: Disk> {
    pub(crate) disk: D,
    pub(crate) settings: LogSettings,
    /// What is kept of the manifest's cell.
    pub(crate) slots: Slots,
    /// What is kept of the token cell.
    pub(crate) tokens: Slots,
    /// The live segments, in log order. The last one is the one that records are put into.
    pub(crate) segments: Vec<SegmentInfo>,
    pub(crate) next_generation: u64,
    /// The lsn of the next record.
    pub(crate) end: u64,
    /// Where some of its records stand.
    pub(crate) marks: Marks,
    /// Whether the disk failed since the opening.
    pub(crate) down: bool,
}

impl<D: Disk> Model for PartLog<D> {
    ghost use Rattle.std.specs.Prelude.{◌≡◌, List, false};
    ghost use Rattle.part_log.specs.Records.{Placed};
    ghost use Rattle.part_log.specs.Log.{LogState, LogTable, IsLog, IsTable, disk_size};
    ghost use Rattle.part_log.specs.Marks.{AreMarks};

    ghost Value = { LogState D };

    ghost view = { λ a. record {
      disk = a.disk;
      table = record { settings = a.settings; segments = a.segments.items; next_generation = a.next_generation; end = a.end; slots = a.slots; tokens = a.tokens };
      down = a.down;
    } };

    // What is known of the bytes holds in every image, so that a crash leaves the records. The marks are those of records.
    ghost invariant = { λ a.
        let table : LogTable = record { settings = a.settings; segments = a.segments.items; next_generation = a.next_generation; end = a.end; slots = a.slots; tokens = a.tokens } in
        IsTable table × (D.size a.disk ≡ disk_size a.settings) × (D.tells → a.down ≡ false → (placed : List Placed) × IsLog table (D.content a.disk) placed × AreMarks a.marks.list.items placed) };
}

impl<D: Disk> PartLog<D> {
    /// Whether the end lsn, the next generation or the sequence of one of the two cells is too near to its end. Such a
    /// log takes no record.
    pub fn worn(&self) -> bool
        ensures { result ≡ is_worn self.now.table }
    {
        self.end >= WORN
            || self.next_generation >= WORN
            || self.slots.sequence() >= WORN
            || self.tokens.sequence() >= WORN
    }

    /// The live segments, in log order.
    pub fn segments(&self) -> &[SegmentInfo]
        ensures segments { result.now ≡ self.now.table.segments }
        ensures table { IsTable self.now.table }
        ensures size { D.size self.now.disk ≡ disk_size self.now.table.settings }
        // A log that isn't down has its records, whatever a crash leaves.
        ensures standing { D.tells → self.now.down ≡ false → (placed : List Placed) × IsLog self.now.table (D.content self.now.disk) placed }
    {
        self.segments.as_slice()
    }

    /// The lsn of the next record. It never falls, also not over a closing and an opening.
    pub fn end_lsn(&self) -> u64
        ensures end { result ≡ self.now.table.end }
        ensures most { result ≤ 2 ^ 63 }
    {
        self.end
    }

    /// Whether the disk failed since the opening.
    pub fn is_down(&self) -> bool
        ensures { result ≡ self.now.down }
    {
        self.down
    }

    /// The settings that it was opened with.
    pub fn settings(&self) -> LogSettings
        ensures { result ≡ self.now.table.settings }
    {
        self.settings
    }

    /// Hands the disk back.
    pub fn close(self) -> D
        ensures disk { result ≡ self.disk }
        // Whatever a crash leaves of a log that isn't down has its layout.
        ensures laid_out { D.tells → self.down ≡ false → (c : List ℕ) → (D.content result).images c → IsLaidOut self.table.settings c (layout_of self.table) }
    {
        let PartLog {
            disk,
            settings: _,
            slots: _,
            tokens: _,
            segments: _,
            next_generation: _,
            end: _,
            marks: _,
            down: _,
        } = self;
        disk
    }

    /// Whether a record of so many bytes fits into the last live segment, with a closed gate behind it.
    pub(crate) fn fits(&self, size: u64) -> bool
        requires { size < 2 ^ 32 }
        ensures fits { result ≡ fits_last self.now.table size }
        ensures table { IsTable self.now.table }
    {
        u64::from(last_used(&self.segments)) + size + 1 <= u64::from(self.settings.segment)
    }

    /// Whether no segment is free but the one that is kept for compaction.
    pub(crate) fn is_packed(&self) -> bool
        ensures { result ≡ is_packed self.now.table }
    {
        self.segments.len() + 1 >= usize::from(self.settings.segments)
    }

    /// Whether no segment can be added.
    pub(crate) fn takes_no_segment(&self) -> bool
        ensures { result ≡ takes_no_segment self.now.table }
    {
        self.is_packed() || self.worn()
    }

    /// Whether a record of so many bytes has no place.
    pub(crate) fn is_full(&self, size: u64) -> bool
        requires { size < 2 ^ 32 }
        ensures { result ≡ is_full self.now.table size }
    {
        u64::from(self.settings.segment) < size + 1
            || (!self.fits(size) && self.is_packed())
            || self.worn()
    }
}

//! The two slots of a cell. The open slot with the greater sequence is the current one, and a replacement works on the
//! other one.

ghost use Rattle.std.specs.Prelude.{◌≡◌, ◌+◌, ◌-◌, ◌^◌, ◌<◌, ◌≤◌, ◌↔◌, ℕ, List, length, not, None, Some, OnOk, OnErr, IfOk, IfSome, IsErrOf};
ghost use Rattle.outside.specs.Causes.{Rose};
ghost use Rattle.disk_core.specs.Content.{ChangesBy, IsSettled, Only, Same, Torn};
ghost use Rattle.gate_slots.specs.Cell.{current_place, IsOldOrNew, IsReplacing, ReplacesCell, StaysOldOrNew, cell, cell_at, now_of};
ghost use Rattle.gate_slots.specs.Slots.{IsLoaded};

use crate::fault::SlotFault;
use crate::replacing::write_other;
use crate::slot::{LONGEST_VALUE, SLOT, is_open, sequence_of, value_of};
use blob_id::Bytes;
use disk_core::Disk;
use std::alloc::Global;
use std::marker::Model;

/// What is kept of a cell of 2,048 bytes between two calls: its place, the sequence of its current slot, 0 where there
/// is none, and whether that is the second slot. Where there is none, the second one stands for it.
#[derive(Debug, Drop)]
pub struct Slots {
    base: u64,
    sequence: u64,
    second: bool,
}

impl Model for Slots {
    ghost use Rattle.std.specs.Prelude.{◌^◌, ◌<◌};
    ghost use Rattle.gate_slots.specs.Slots.{CurrentSlot};

    ghost Value = { CurrentSlot };

    ghost view = { λ s. record { base = s.base; sequence = s.sequence; second = s.second } };

    ghost invariant = { λ s. s.sequence < 2 ^ 63 };
}

impl Slots {
    /// Reads the cell from `base` on: what is to be kept of it, and its value, where it has one.
    pub fn load<D: Disk>(
        alloc: Global,
        disk: &mut D,
        base: u64,
    ) -> Result<(Slots, Option<Bytes>), SlotFault>
        requires { base + 2048 ≤ D.size disk.old }

        ensures during { D.tells → ChangesBy Same (D.content disk.old) (D.content disk.new) }
        ensures seen { D.tells → (D.content disk.new).seen ≡ (D.content disk.old).seen }
        ensures value { IfOk result (λ loaded. D.tells → loaded.1 ≡ (cell_at base (D.content disk.old).seen).value) }
        ensures loaded { IfOk result (λ loaded. D.tells → IsLoaded loaded.0 (D.content disk.new).seen) }
        ensures settled { D.tells → (at n : ℕ) → IsSettled at n (D.content disk.old) → IsSettled at n (D.content disk.new) }

        // Of a disk that doesn't tell its bytes this much is known.
        ensures base { IfOk result (λ loaded. loaded.0.base ≡ base) }
        ensures empty { IfOk result (λ loaded. loaded.1 ≡ None → loaded.0.sequence ≡ 0) }
        ensures short { IfOk result (λ loaded. IfSome loaded.1 (λ value. length value ≤ LONGEST_VALUE)) }

        ensures size { D.size disk.new ≡ D.size disk.old }
        ensures not_long { IsErrOf result SlotFault.TooLong → ⊥ }
        ensures failed { IsErrOf result SlotFault.Failed → Rose (D.faults disk.old) (D.faults disk.new) }
        ensures later { D.faults disk.old ≤ D.faults disk.new }
    {
        let mut bytes = [0u8; 2 * SLOT];
        disk.read(base, &mut bytes)?;
        let (slots, value) = current(base, &bytes[..SLOT], &bytes[SLOT..]);
        let Some(value) = value else {
            return Ok((slots, None));
        };
        let kept = Bytes::copy_of(alloc, value)?;
        Ok((slots, Some(kept)))
    }

    /// Puts bytes in the place of those that the cell holds, on a disk where no write to the cell is pending and whose
    /// cell is the one that was loaded. It makes five calls of the disk, or seven, and takes no memory.
    /// After `Failed` the disk is to be synced, and the cell to be loaded again.
    pub fn replace<D: Disk>(&mut self, disk: &mut D, bytes: &[u8]) -> Result<(), SlotFault>
        requires place { self.old.base + 2048 ≤ D.size disk.old }
        requires more { self.old.sequence < 2 ^ 63 - 1 }
        requires loaded { D.tells → IsLoaded self.old (D.content disk.old).seen }
        requires settled { D.tells → IsSettled self.old.base 2048 (D.content disk.old) }

        // At each moment of the call a crash leaves a disk that is changed in the cell alone, with the old or the new
        // bytes there.
        ensures during { D.tells → ChangesBy (ReplacesCell self.old.base bytes.now) (D.content disk.old) (D.content disk.new) }
        ensures crash { D.tells → StaysOldOrNew self.old.base bytes.now (D.content disk.old) (D.content disk.new) }
        ensures outside { D.tells → Torn self.old.base 2048 (D.content disk.old).seen (D.content disk.new).seen }

        ensures value { OnOk result (D.tells → (cell_at self.old.base (D.content disk.new).seen).value ≡ Some bytes.now) }
        ensures loaded { OnOk result (D.tells → IsLoaded self.new (D.content disk.new).seen) }
        ensures only { OnOk result (D.tells → Only (D.content disk.new)) }

        ensures slots { OnOk result
            (self.new ≡ record { base = self.old.base; sequence = self.old.sequence + 1; second = not self.old.second }) }
        ensures kept { OnErr result (self.new ≡ self.old) }
        ensures size { D.size disk.new ≡ D.size disk.old }

        ensures too_long { IsErrOf result SlotFault.TooLong ↔ (LONGEST_VALUE < length bytes.now) }
        ensures untouched { LONGEST_VALUE < length bytes.now → disk.new ≡ disk.old }
        ensures no_memory { IsErrOf result SlotFault.Memory → ⊥ }
        ensures failed { IsErrOf result SlotFault.Failed → Rose (D.faults disk.old) (D.faults disk.new) }
        ensures later { D.faults disk.old ≤ D.faults disk.new }
    {
        if bytes.len() > LONGEST_VALUE {
            return Err(SlotFault::TooLong);
        }
        write_other(disk, self.base, self.sequence, self.second, bytes)?;
        self.sequence += 1;
        self.second = !self.second;
        Ok(())
    }

    /// Stops the machine, and loads the cell again. Where a replacement was under way, the cell has its old or its new
    /// value, and no write to it is pending afterwards.
    pub fn restart<D: Disk>(
        alloc: Global,
        disk: &mut D,
        base: u64,
    ) -> Result<(Slots, Option<Bytes>), SlotFault>
        requires { base + 2048 ≤ D.size disk.old }

        ensures old_or_new { IfOk result (λ loaded. D.tells → (before : D) → (bytes : List ℕ)
            → IsReplacing base bytes (D.content before) (D.content disk.old)
            → IsOldOrNew base bytes (D.content before) loaded.1) }
        ensures value { IfOk result (λ loaded. D.tells → loaded.1 ≡ (cell_at base (D.content disk.new).seen).value) }
        ensures loaded { IfOk result (λ loaded. D.tells → IsLoaded loaded.0 (D.content disk.new).seen) }
        ensures left { D.tells → (D.content disk.old).images (D.content disk.new).seen }
        ensures only { D.tells → Only (D.content disk.new) }

        ensures base { IfOk result (λ loaded. loaded.0.base ≡ base) }
        ensures size { D.size disk.new ≡ D.size disk.old }
        ensures not_long { IsErrOf result SlotFault.TooLong → ⊥ }
        ensures failed { IsErrOf result SlotFault.Failed → Rose (D.faults disk.old) (D.faults disk.new) }
        ensures later { D.faults disk.old ≤ D.faults disk.new }
    {
        disk.stopped();
        Slots::load(alloc, disk, base)
    }

    /// The sequence of the current slot, 0 where there is none. Below 2^63 - 1 the cell can be replaced.
    pub fn sequence(&self) -> u64
        ensures sequence { result ≡ self.now.sequence }
        ensures below { result < 2 ^ 63 }
    {
        self.sequence
    }

    /// The place of the current slot.
    pub fn place(&self) -> u64
        requires { self.now.base + 2048 < 2 ^ 64 }
        ensures { result ≡ current_place self.now.base self.now.second }
    {
        if self.second {
            self.base + 1024
        } else {
            self.base
        }
    }

    /// The place of the cell.
    pub fn base(&self) -> u64
        ensures { result ≡ self.now.base }
    {
        self.base
    }
}

// What is to be kept of a cell with these two slots, and the value of the current one.
fn current<'a>(base: u64, first: &'a [u8], second: &'a [u8]) -> (Slots, Option<&'a [u8]>)
    requires first { length first.now ≡ SLOT }
    requires second { length second.now ≡ SLOT }
    ensures base { result.0.base ≡ base }
    ensures sequence { result.0.sequence ≡ (cell first.now second.now).sequence }
    ensures second { result.0.second ≡ (cell first.now second.now).second }
    ensures value { now_of result.1 ≡ (cell first.now second.now).value }
    ensures empty { result.1 ≡ None → result.0.sequence ≡ 0 }
    ensures short { IfSome result.1 (λ value. length value.now ≤ LONGEST_VALUE) }
{
    let sequence = sequence_of(first);
    let later = sequence_of(second);
    if is_open(first) && !(is_open(second) && sequence < later) {
        let slots = Slots {
            base,
            sequence,
            second: false,
        };
        (slots, Some(value_of(first)))
    } else if is_open(second) {
        let slots = Slots {
            base,
            sequence: later,
            second: true,
        };
        (slots, Some(value_of(second)))
    } else {
        let slots = Slots {
            base,
            sequence: 0,
            second: true,
        };
        (slots, None)
    }
}

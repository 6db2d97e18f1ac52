//! How the slot that isn't the current one comes to be the current one: it is closed, written, and opened, with a sync
//! after each.

ghost use Rattle.std.specs.Prelude.{◌≡◌, ◌+◌, ◌-◌, ◌^◌, ◌<◌, ◌≤◌, length, slice_index, not, Some, OnOk};
ghost use Rattle.outside.specs.Causes.{HasCause};
ghost use Rattle.disk_core.specs.Content.{ChangesBy, IsSettled, Only, Torn, range};
ghost use Rattle.gate_slots.specs.Gate.{open_gate};
ghost use Rattle.gate_slots.specs.Cell.{ReplacesCell, WritesSlot, cell_at, target_place};

use crate::gate::{close_gate, write_gated};
use crate::slot::{HEAD, LONGEST_VALUE, REST, SLOT, put_rest};
use disk_core::Disk;
use outside::Failed;

/// Puts bytes into the slot of a cell that isn't the current one, under the sequence behind that of the current one.
pub fn write_other<D: Disk>(
    disk: &mut D,
    base: u64,
    sequence: u64,
    second: bool,
    bytes: &[u8],
) -> Result<(), Failed>
    requires place { base + 2048 ≤ D.size disk.old }
    requires fits { length bytes.now ≤ LONGEST_VALUE }
    requires more { sequence < 2 ^ 63 - 1 }
    requires its_sequence { D.tells → (cell_at base (D.content disk.old).seen).sequence ≡ sequence }
    requires its_place { D.tells → (cell_at base (D.content disk.old).seen).second ≡ second }
    requires settled { D.tells → IsSettled base 2048 (D.content disk.old) }

    ensures during { D.tells → ChangesBy (ReplacesCell base bytes.now) (D.content disk.old) (D.content disk.new) }
    ensures cell { OnOk result (D.tells
        → cell_at base (D.content disk.new).seen ≡ record { value = Some bytes.now; sequence = sequence + 1; second = not second }) }
    ensures only { OnOk result (D.tells → Only (D.content disk.new)) }
    ensures outside { D.tells → Torn base 2048 (D.content disk.old).seen (D.content disk.new).seen }

    ensures size { D.size disk.new ≡ D.size disk.old }
    ensures cause { HasCause (D.faults disk.old) (D.faults disk.new) result }
{
    let gate = target(base, second);
    let mut rest = [0u8; REST];
    put_rest(&mut rest, sequence + 1, bytes);
    write_slot(disk, gate, &rest[..HEAD + bytes.len()])
}

// The gate of the slot that isn't the current one.
fn target(base: u64, second: bool) -> u64
    requires { base + 2048 < 2 ^ 64 }
    ensures { result ≡ target_place base second }
{
    if second { base } else { base + SLOT as u64 }
}

// Writes a slot: closes its gate, writes what stands behind it, and opens the gate.
fn write_slot<D: Disk>(disk: &mut D, gate: u64, rest: &[u8]) -> Result<(), Failed>
    requires place { gate + SLOT ≤ D.size disk.old }
    requires fits { length rest.now ≤ REST }
    requires settled { D.tells → IsSettled gate 1 (D.content disk.old) }

    ensures during { D.tells → ChangesBy (WritesSlot gate rest.now) (D.content disk.old) (D.content disk.new) }
    ensures written { OnOk result (D.tells → range (gate + 1) (length rest.now) (D.content disk.new).seen ≡ rest.now) }
    ensures opened { OnOk result (D.tells → slice_index (D.content disk.new).seen gate ≡ open_gate) }
    ensures only { OnOk result (D.tells → Only (D.content disk.new)) }
    ensures outside { D.tells → Torn gate 1024 (D.content disk.old).seen (D.content disk.new).seen }

    ensures size { D.size disk.new ≡ D.size disk.old }
    ensures cause { HasCause (D.faults disk.old) (D.faults disk.new) result }
{
    close_gate(disk, gate)?;
    write_gated(disk, gate, rest)
}

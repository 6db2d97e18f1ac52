//! A gate is one byte that says whether the bytes behind it count. They are written while it is closed.

ghost use Rattle.std.specs.Prelude.{◌≡◌, ◌+◌, ◌<◌, ◌≤◌, length, slice_index, OnOk};
ghost use Rattle.outside.specs.Causes.{HasCause};
ghost use Rattle.disk_core.specs.Content.{ChangesBy, IsSettled, Only, Torn, range};
ghost use Rattle.gate_slots.specs.Gate.{IsShut, IsZeroed, OpensGate, ShutsGate, open_gate};

use disk_core::{Disk, write_synced};
use outside::Failed;

/// The byte of an open gate. Every other byte is a closed gate, and a gate is closed by a 0.
pub const OPEN: u8 = 0x4F;

/// Closes a gate by a 0, if it is open, and syncs. A gate that is closed isn't written, since a stop in that write could open
/// it before bytes that an earlier call left unfinished. It makes one call of the disk, or three.
pub fn close_gate<D: Disk>(disk: &mut D, gate: u64) -> Result<(), Failed>
    requires place { gate < D.size disk.old }
    requires settled { D.tells → IsSettled gate 1 (D.content disk.old) }

    ensures during { D.tells → ChangesBy (ShutsGate gate) (D.content disk.old) (D.content disk.new) }
    ensures closed { OnOk result (D.tells → IsShut gate (D.content disk.new)) }
    ensures zero { OnOk result (D.tells → slice_index (D.content disk.old).seen gate ≡ open_gate → IsZeroed gate (D.content disk.new)) }
    ensures outside { D.tells → Torn gate 1 (D.content disk.old).seen (D.content disk.new).seen }

    ensures size { D.size disk.new ≡ D.size disk.old }
    ensures cause { HasCause (D.faults disk.old) (D.faults disk.new) result }
{
    let mut byte = [0u8];
    disk.read(gate, &mut byte)?;
    if byte[0] == OPEN {
        write_synced(disk, gate, &[0])?;
    }
    Ok(())
}

/// Writes the bytes behind a closed gate, syncs, writes the open gate, and syncs. After a failure the gate may be open
/// or closed, and where it is open, the bytes stand behind it.
pub fn write_gated<D: Disk>(disk: &mut D, gate: u64, rest: &[u8]) -> Result<(), Failed>
    requires place { gate + 1 + length rest.now ≤ D.size disk.old }
    requires shut { D.tells → IsShut gate (D.content disk.old) }

    ensures during { D.tells → ChangesBy (OpensGate gate rest.now) (D.content disk.old) (D.content disk.new) }
    ensures written { OnOk result (D.tells → range (gate + 1) (length rest.now) (D.content disk.new).seen ≡ rest.now) }
    ensures opened { OnOk result (D.tells → slice_index (D.content disk.new).seen gate ≡ open_gate) }
    ensures only { OnOk result (D.tells → Only (D.content disk.new)) }
    ensures outside { D.tells → Torn gate (length rest.now + 1) (D.content disk.old).seen (D.content disk.new).seen }

    ensures size { D.size disk.new ≡ D.size disk.old }
    ensures cause { HasCause (D.faults disk.old) (D.faults disk.new) result }
{
    write_synced(disk, gate + 1, rest)?;
    write_synced(disk, gate, &[OPEN])
}

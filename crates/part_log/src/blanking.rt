//! Closing the first gate of a free segment, before records are copied into it.

ghost use Rattle.std.specs.Prelude.{◌≡◌, ◌⊎◌, ◌<◌, ◌≤◌, ◌↔◌, List, true, false, OnOk, OnErr, IsErrOf};
ghost use Rattle.outside.specs.Causes.{Rose};
ghost use Rattle.disk_core.specs.Content.{ChangesBy, Only, Torn};
ghost use Rattle.gate_slots.specs.Gate.{IsShut, IsZeroed};
ghost use Rattle.part_log.specs.Records.{Placed, records_of};
ghost use Rattle.part_log.specs.Segments.{is_among, place_of};
ghost use Rattle.part_log.specs.Images.{KeepsLog};
ghost use Rattle.part_log.specs.Log.{IsLog};

use crate::fault::LogFault;
use crate::log::PartLog;
use crate::table::place_of;
use disk_core::{Disk, write_synced};
use outside::Failed;

impl<D: Disk> PartLog<D> {
    /// Closes the first gate of a free segment by a 0, and syncs, so that no record stands in front of that segment whatever a
    /// crash leaves. The gate is written whatever stands there: of a free segment no byte counts. It makes two calls of the
    /// disk and takes no memory; the table stays. After `Failed` the log is down.
    pub fn blank(&mut self, segment: u16) -> Result<(), LogFault>
        requires number { segment < self.old.table.settings.segments }
        requires free { is_among segment self.old.table.segments ≡ false }

        // At each moment of the call a crash leaves the records that were there.
        ensures during { D.tells → (placed : List Placed) → IsLog self.old.table (D.content self.old.disk) placed
            → ChangesBy (KeepsLog self.old.table.settings segment (records_of placed) self.old.table.end) (D.content self.old.disk) (D.content self.new.disk) }
        // At each moment no byte is changed but that gate.
        ensures gate { D.tells → ChangesBy (Torn (place_of self.old.table.settings.segment segment) 1) (D.content self.old.disk) (D.content self.new.disk) }
        ensures outside { D.tells → Torn (place_of self.old.table.settings.segment segment) 1 (D.content self.old.disk).seen (D.content self.new.disk).seen }
        ensures closed { OnOk result (D.tells → IsShut (place_of self.old.table.settings.segment segment) (D.content self.new.disk)) }
        ensures zero { OnOk result (D.tells → IsZeroed (place_of self.old.table.settings.segment segment) (D.content self.new.disk)) }
        ensures only { OnOk result (D.tells → Only (D.content self.new.disk)) }

        // Also after a failure the disk has the records that were there.
        ensures kept { D.tells → (placed : List Placed) → IsLog self.old.table (D.content self.old.disk) placed → IsLog self.new.table (D.content self.new.disk) placed }
        ensures table { self.new.table ≡ self.old.table }

        ensures down { IsErrOf result LogFault.Down ↔ (self.old.down ≡ true) }
        ensures failed { IsErrOf result LogFault.Failed → Rose (D.faults self.old.disk) (D.faults self.new.disk) × (self.new.down ≡ true) }
        ensures other { OnErr result (IsErrOf result LogFault.Failed ⊎ IsErrOf result LogFault.Down) }
        ensures unchanged { OnErr result (IsErrOf result LogFault.Failed ⊎ (self.new ≡ self.old)) }
        ensures up { OnOk result (self.new.down ≡ false) }
        ensures size { D.size self.new.disk ≡ D.size self.old.disk }
        ensures later { D.faults self.old.disk ≤ D.faults self.new.disk }
    {
        if self.down {
            return Err(LogFault::Down);
        }
        let place = place_of(&self.settings, segment);
        match write_synced(&mut self.disk, place, &[0]) {
            Ok(()) => Ok(()),
            Err(Failed) => {
                self.down = true;
                Err(LogFault::Failed)
            }
        }
    }
}

//! Putting records last, and noting where they stand.

ghost use Rattle.std.specs.Prelude.{◌≡◌, ◌≢◌, ◌⊎◌, ◌≤◌, ◌+◌, ◌++◌, ◌∷◌, [], ℕ, List, true, false, OnOk, OnErr, IfOk, IsErrOf};
ghost use Rattle.outside.specs.Causes.{Rose};
ghost use Rattle.disk_core.specs.Content.{ChangesBy};
ghost use Rattle.blob_id.specs.Blob.{IsBlob};
ghost use Rattle.cell_model.specs.Cells.{join, cell_in};
ghost use Rattle.cell_model.specs.declared.cell.Cell.TheVariants.{Absent, Held, Gone};
ghost use Rattle.msg_format.specs.declared.record.Record.TheVariants as written;
ghost use Rattle.msg_format.specs.Records.{IsRecord, lsn_of, record_size, id_of, head_of, is_gone, spelling_of};
ghost use Rattle.part_log.specs.Records.{Placed, placed_at, records_of};
ghost use Rattle.part_log.specs.Images.{PutsLast};
ghost use Rattle.part_log.specs.Layout.{packed_with};
ghost use Rattle.part_log.specs.Log.{AllVisible, IsLog, IsTable, is_full, layout_of, target_of};
ghost use Rattle.replica_core.specs.Index.{entry_at, entry_set};
ghost use Rattle.replica_core.specs.Maps.{JoinsCell, MayCome, cell_of, with_joined};
ghost use Rattle.replica_core.specs.State.{Writes, put_by};

use crate::index::{IndexEntry, kept_len, reserve, restore, settle};
use crate::replica::Replica;
use blob_id::{Blob, BlobId};
use disk_core::Disk;
use msg_format::{Record, record_size};
use part_log::{LogFault, PartLog};
use std::alloc::Global;
use std::collections::BTreeMap;

fn is_delete(entry: &Record) -> bool
    ensures { result ≡ is_gone entry.now }
{
    matches!(entry, Record::Delete { .. })
}

/// Puts the record of an id last, and notes where it stands.
fn put_noted<D: Disk>(
    alloc: Global,
    log: &mut PartLog<D>,
    index: &mut BTreeMap<BlobId, IndexEntry>,
    id: BlobId,
    entry: &Record,
) -> Result<u64, LogFault>
    requires good { IsTable log.old.table }
    requires up { log.old.down ≡ false }
    requires fields { IsRecord entry.now }
    requires next { lsn_of entry.now ≡ log.old.table.end }
    requires id { id ≡ id_of entry.now }

    ensures during { D.tells → (placed : List Placed) → IsLog log.old.table (D.content log.old.disk) placed
        → ChangesBy (PutsLast log.old.table.settings (target_of log.old.table (record_size entry.now)) (records_of placed) log.old.table.end entry.now) (D.content log.old.disk) (D.content log.new.disk) }
    ensures put { IfOk result (λ place. D.tells → (placed : List Placed) → IsLog log.old.table (D.content log.old.disk) placed
        → IsLog log.new.table (D.content log.new.disk) (placed ++ placed_at entry.now place ∷ [])) }
    ensures noted { IfOk result (λ place. (other : List ℕ) → entry_at index.new.entries other ≡ entry_set (record { place = place; head = head_of entry.now (spelling_of entry.now) }) other (entry_at index.old.entries other)) }
    ensures rests { OnErr result (index.new.entries ≡ index.old.entries) }
    ensures visible { D.tells → (placed : List Placed) → IsLog log.old.table (D.content log.old.disk) placed → AllVisible log.old.table.settings (D.content log.new.disk).seen placed }
    ensures good { OnOk result (IsTable log.new.table) }
    ensures grows { OnOk result (log.new.table.end ≡ log.old.table.end + 1) }
    ensures same_end { OnErr result (log.new.table.end ≡ log.old.table.end) }
    ensures layout { OnOk result (layout_of log.new.table ≡ packed_with log.old.table.settings (layout_of log.old.table) (record_size entry.now)) }

    ensures full { IsErrOf result LogFault.Full → is_full log.old.table (record_size entry.now) ≡ true }
    ensures full_only { is_full log.old.table (record_size entry.now) ≡ true → IsErrOf result LogFault.Full ⊎ IsErrOf result LogFault.Memory }
    ensures not_down { IsErrOf result LogFault.Down → ⊥ }
    ensures failed { IsErrOf result LogFault.Failed → Rose (D.faults log.old.disk) (D.faults log.new.disk) × (log.new.down ≡ true) }
    ensures unchanged { OnErr result (IsErrOf result LogFault.Failed ⊎ (log.new ≡ log.old)) }
    ensures up { OnOk result (log.new.down ≡ false) }
    ensures settings { log.new.table.settings ≡ log.old.table.settings }
    ensures size { D.size log.new.disk ≡ D.size log.old.disk }
    ensures later { D.faults log.old.disk ≤ D.faults log.new.disk }
{
    let gone = is_delete(entry);
    let len = kept_len(record_size(entry));
    // Room for the note is made first, so that no record is put that can't be noted.
    let before = reserve(
        index,
        id,
        IndexEntry {
            place: 0,
            len,
            gone,
        },
    )?;
    match log.append(alloc, entry) {
        Ok(place) => {
            settle(index, id, IndexEntry { place, len, gone });
            Ok(place)
        }
        Err(fault) => {
            restore(index, id, before);
            Err(fault)
        }
    }
}

impl<D: Disk> Replica<D> {
    /// Puts a record of an id that changes its cell. After `Failed` the replica is down.
    fn add(&mut self, id: BlobId, entry: &Record) -> Result<(), LogFault>
        requires up { self.old.down ≡ false }
        requires fields { IsRecord entry.now }
        requires next { lsn_of entry.now ≡ self.old.log.table.end }
        requires id { id ≡ id_of entry.now }
        requires may { D.tells → MayCome (cell_in self.old.cells (id_of entry.now)) entry.now }

        ensures during { D.tells → ChangesBy (JoinsCell self.old.log.table.settings (cell_in self.old.cells) self.old.log.table.end (id_of entry.now) (cell_of entry.now)) (D.content self.old.log.disk) (D.content self.new.log.disk) }
        ensures writes { D.tells → Writes D.content self.old.log (entry.now ∷ []) (put_by result entry.now) (IsErrOf result LogFault.Failed → ⊥) self.new.log }
        ensures added { OnOk result (D.tells → (other : List ℕ) → cell_in self.new.cells other ≡ with_joined (cell_in self.old.cells) (id_of entry.now) (cell_of entry.now) other) }
        ensures kept { OnErr result (D.tells → (other : List ℕ) → cell_in self.new.cells other ≡ cell_in self.old.cells other) }
        ensures full { IsErrOf result LogFault.Full → is_full self.old.log.table (record_size entry.now) ≡ true }
        ensures full_only { is_full self.old.log.table (record_size entry.now) ≡ true → IsErrOf result LogFault.Full ⊎ IsErrOf result LogFault.Memory }
        ensures not_down { IsErrOf result LogFault.Down → ⊥ }
        ensures failed { IsErrOf result LogFault.Failed → Rose (D.faults self.old.log.disk) (D.faults self.new.log.disk) × (self.new.down ≡ true) }
        ensures unchanged { OnErr result (IsErrOf result LogFault.Failed ⊎ (self.new ≡ self.old)) }
        ensures up { OnOk result (self.new.down ≡ false) }
        ensures settings { self.new.log.table.settings ≡ self.old.log.table.settings }
        ensures size { D.size self.new.log.disk ≡ D.size self.old.log.disk }
        ensures later { D.faults self.old.log.disk ≤ D.faults self.new.log.disk }
    {
        match put_noted(self.alloc, &mut self.log, &mut self.index, id, entry) {
            Ok(_) => Ok(()),
            Err(LogFault::Failed) => {
                self.down = true;
                Err(LogFault::Failed)
            }
            Err(fault) => Err(fault),
        }
    }

    /// Puts the record of a blob under an id that has none.
    pub(crate) fn add_put(&mut self, id: BlobId, blob: Blob) -> Result<(), LogFault>
        requires up { self.old.down ≡ false }
        requires fields { IsBlob blob }
        requires absent { D.tells → cell_in self.old.cells id ≡ Absent }

        ensures during { D.tells → ChangesBy (JoinsCell self.old.log.table.settings (cell_in self.old.cells) self.old.log.table.end id (Held blob)) (D.content self.old.log.disk) (D.content self.new.log.disk) }
        ensures writes { D.tells → Writes D.content self.old.log (written.Put self.old.log.table.end id blob ∷ []) (put_by result (written.Put self.old.log.table.end id blob)) (IsErrOf result LogFault.Failed → ⊥) self.new.log }
        ensures added { OnOk result (D.tells → (other : List ℕ) → cell_in self.new.cells other ≡ with_joined (cell_in self.old.cells) id (Held blob) other) }
        ensures kept { OnErr result (D.tells → (other : List ℕ) → cell_in self.new.cells other ≡ cell_in self.old.cells other) }
        ensures full { IsErrOf result LogFault.Full → is_full self.old.log.table (record_size (written.Put self.old.log.table.end id blob)) ≡ true }
        ensures full_only { is_full self.old.log.table (record_size (written.Put self.old.log.table.end id blob)) ≡ true → IsErrOf result LogFault.Full ⊎ IsErrOf result LogFault.Memory }
        ensures not_down { IsErrOf result LogFault.Down → ⊥ }
        ensures failed { IsErrOf result LogFault.Failed → Rose (D.faults self.old.log.disk) (D.faults self.new.log.disk) × (self.new.down ≡ true) }
        ensures unchanged { OnErr result (IsErrOf result LogFault.Failed ⊎ (self.new ≡ self.old)) }
        ensures up { OnOk result (self.new.down ≡ false) }
        ensures settings { self.new.log.table.settings ≡ self.old.log.table.settings }
        ensures size { D.size self.new.log.disk ≡ D.size self.old.log.disk }
        ensures later { D.faults self.old.log.disk ≤ D.faults self.new.log.disk }
    {
        if self.log.worn() {
            return Err(LogFault::Full);
        }
        let lsn = self.log.end_lsn();
        self.add(id, &Record::Put { lsn, id, blob })
    }

    /// Puts a delete of an id that isn't deleted.
    pub(crate) fn add_delete(&mut self, id: BlobId, created: u64) -> Result<(), LogFault>
        requires up { self.old.down ≡ false }
        requires there { D.tells → cell_in self.old.cells id ≢ Gone }

        ensures during { D.tells → ChangesBy (JoinsCell self.old.log.table.settings (cell_in self.old.cells) self.old.log.table.end id Gone) (D.content self.old.log.disk) (D.content self.new.log.disk) }
        ensures writes { D.tells → Writes D.content self.old.log (written.Delete self.old.log.table.end id created ∷ []) (put_by result (written.Delete self.old.log.table.end id created)) (IsErrOf result LogFault.Failed → ⊥) self.new.log }
        ensures added { OnOk result (D.tells → (other : List ℕ) → cell_in self.new.cells other ≡ with_joined (cell_in self.old.cells) id Gone other) }
        ensures kept { OnErr result (D.tells → (other : List ℕ) → cell_in self.new.cells other ≡ cell_in self.old.cells other) }
        ensures full { IsErrOf result LogFault.Full → is_full self.old.log.table (record_size (written.Delete self.old.log.table.end id created)) ≡ true }
        ensures full_only { is_full self.old.log.table (record_size (written.Delete self.old.log.table.end id created)) ≡ true → IsErrOf result LogFault.Full ⊎ IsErrOf result LogFault.Memory }
        ensures not_down { IsErrOf result LogFault.Down → ⊥ }
        ensures failed { IsErrOf result LogFault.Failed → Rose (D.faults self.old.log.disk) (D.faults self.new.log.disk) × (self.new.down ≡ true) }
        ensures unchanged { OnErr result (IsErrOf result LogFault.Failed ⊎ (self.new ≡ self.old)) }
        ensures up { OnOk result (self.new.down ≡ false) }
        ensures settings { self.new.log.table.settings ≡ self.old.log.table.settings }
        ensures size { D.size self.new.log.disk ≡ D.size self.old.log.disk }
        ensures later { D.faults self.old.log.disk ≤ D.faults self.new.log.disk }
    {
        if self.log.worn() {
            return Err(LogFault::Full);
        }
        let lsn = self.log.end_lsn();
        self.add(id, &Record::Delete { lsn, id, created })
    }
}

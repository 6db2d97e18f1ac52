//! Opening the replica of one place, and closing it.

ghost use Rattle.std.specs.Prelude.{◌≡◌, ◌⊎◌, ◌≤◌, ℕ, List, Option, Some, None, IsSome, IfOk, OnErr, IsErrOf};
ghost use Rattle.blob_id.specs.declared.id.BlobId.{BlobId};
ghost use Rattle.cell_model.specs.declared.cell.Cell.{Cell};
ghost use Rattle.disk_core.specs.Homes.{OthersStay};
ghost use Rattle.node_lab.specs.Replicas.{AllRepresentEither, HoldsOpen, Left, LogHasLayout, settings_of};
ghost use Rattle.node_lab.specs.Slots.{FailedAt, GoesHome, IsCause, OpensSlot, StaysClosed, slot_in};
ghost use Rattle.log_manifest.specs.declared.manifest.LogSettings.{LogSettings};
ghost use Rattle.outside.specs.Causes.{Rose};
ghost use Rattle.part_log.specs.Images.{IsLaidOut};
ghost use Rattle.part_log.specs.Layout.{Layout};
ghost use Rattle.part_log.specs.Log.{AreInRange, disk_size};
ghost use Rattle.world_model.specs.declared.order.Refusal.{Refusal};
ghost use Rattle.world_model.specs.Shape.{IsShape};
ghost use Rattle.world_model.specs.World.{Change};

use crate::NodesFault;
use crate::fault::{bay_fault, open_fault};
use disk_core::{Bays, Disk};
use replica_core::{LogSettings, Replica};
use std::alloc::Global;
use world_model::Shape;

/// The settings of the logs of a shape.
pub(crate) fn settings_of(shape: &Shape) -> LogSettings
    requires { IsShape shape.now }
    ensures settings { result ≡ settings_of shape.now }
    ensures ranges { AreInRange result }
{
    LogSettings {
        segment: shape.log.segment,
        segments: shape.log.segments,
        index: shape.log.index,
    }
}

/// How many bytes the disk of such a log has.
fn disk_size(settings: &LogSettings) -> u64
    requires { AreInRange settings.now }
    ensures { result ≡ disk_size settings.now }
{
    4096 + u64::from(settings.segments) * u64::from(settings.segment)
}

/// Opens the replica of the disk of a folder, a node and a partition. After a refusal the disk is at home.
pub(crate) fn open_replica<B: Bays>(
    alloc: Global,
    bays: &mut B,
    folder: &str,
    node: u32,
    partition: u32,
    settings: LogSettings,
) -> Result<Replica<B::Disk>, NodesFault>
    requires ranges { AreInRange settings }

    ensures opened { IfOk result (λ replica. B.tells → OpensSlot B.Disk.tells B.Disk.content B.Disk.size settings folder.now
        (slot_in None (B.home bays.old) (B.out bays.old) folder.now node partition)
        (slot_in (Some replica) (B.home bays.new) (B.out bays.new) folder.now node partition)) }
    ensures closed { OnErr result (B.tells → StaysClosed B.Disk.tells B.Disk.content B.Disk.size settings
        (slot_in None (B.home bays.old) (B.out bays.old) folder.now node partition)
        (slot_in None (B.home bays.new) (B.out bays.new) folder.now node partition)) }
    ensures others { B.tells → OthersStay folder.now node partition (B.home bays.old) (B.out bays.old) (B.home bays.new) (B.out bays.new) }

    ensures refused { (refusal : Refusal) → IsErrOf result (NodesFault.Refused refusal)
        → (refusal.node ≡ node) × (refusal.partition ≡ partition)
        × (B.tells → IsCause B.Disk.tells B.Disk.content B.Disk.size settings (B.home bays.old folder.now node partition) refusal.what) }
    ensures failed { IsErrOf result NodesFault.Failed → Rose (B.faults bays.old) (B.faults bays.new) ⊎ (B.tells → FailedAt B.Disk.tells B.Disk.content B.Disk.size B.Disk.faults
        (slot_in None (B.home bays.old) (B.out bays.old) folder.now node partition)
        (slot_in None (B.home bays.new) (B.out bays.new) folder.now node partition)) }
    ensures later { B.faults bays.old ≤ B.faults bays.new }
    ensures same { B.same bays.old bays.new }
{
    let size = disk_size(&settings);
    let disk = match bays.open(folder, node, partition, size) {
        Ok(disk) => disk,
        Err(fault) => return Err(bay_fault(fault, node, partition)),
    };
    match Replica::open(alloc, disk, settings) {
        Ok(replica) => Ok(replica),
        Err((fault, disk)) => {
            bays.give_back(node, partition, disk);
            Err(open_fault(fault, node, partition))
        }
    }
}

/// The disk of a replica, as it is or as a stop of the machine leaves it.
fn close_replica<D: Disk>(replica: Replica<D>, stops: bool) -> D
    ensures left { D.tells → Left D.content stops replica.log.disk result }
    ensures stands { D.tells → (settings : LogSettings) (cells : BlobId → Cell) (doubt : Option Change)
        → HoldsOpen D.content settings replica.down replica cells doubt → AllRepresentEither settings (D.content result) cells doubt }
    ensures laid_out { D.tells → (settings : LogSettings) (layout : Layout) → LogHasLayout settings replica layout → IsLaidOut settings (D.content result).seen layout }
    ensures size { D.size result ≡ D.size replica.log.disk }
{
    let mut disk = replica.close();
    if stops {
        disk.stopped();
    }
    disk
}

/// Closes a replica, and gives its disk home.
pub(crate) fn send_home<B: Bays>(
    bays: &mut B,
    node: u32,
    partition: u32,
    replica: Replica<B::Disk>,
    stops: bool,
)
    requires out { B.tells → IsSome (B.out bays.old node partition) }
    ensures home { B.tells → (folder : List ℕ) → B.out bays.old node partition ≡ Some folder
        → GoesHome B.Disk.tells B.Disk.content B.Disk.size stops (Some replica)
        (slot_in (Some replica) (B.home bays.old) (B.out bays.old) folder node partition)
        (slot_in None (B.home bays.new) (B.out bays.new) folder node partition) }
    ensures others { B.tells → (folder : List ℕ) → B.out bays.old node partition ≡ Some folder
        → OthersStay folder node partition (B.home bays.old) (B.out bays.old) (B.home bays.new) (B.out bays.new) }
    ensures faults { B.faults bays.new ≡ B.faults bays.old }
    ensures same { B.same bays.old bays.new }
{
    bays.give_back(node, partition, close_replica(replica, stops));
}

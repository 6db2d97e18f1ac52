//! Going over the places of replicas.

ghost use Rattle.std.specs.Prelude.{◌≡◌, ◌<◌, ◌≤◌, ℕ, List, Some, None, true, false, IsSome, OnOk, OnErr, IfErr, IsErrOf, length};
ghost use Rattle.disk_core.specs.Homes.{OthersStay};
ghost use Rattle.lab_nodes.specs.Spots.{AreOut, HaltsSpot, HasFailed, IsCause, RestStays, StartsSpot, StaysClosed, is_meant, node_at, partition_at, slot_at, spot_at};
ghost use Rattle.lab_nodes.specs.Starting.{AreEmpty, FirstChange, HaltsSlot, IsDueAt, IsFirst, OpensTo, StartsSlot, StopsAt, is_due};
ghost use Rattle.lab_nodes.specs.Holding.{settings_of};
ghost use Rattle.world_model.specs.Shape.{IsShape};
ghost use Rattle.world_model.specs.declared.order.Refusal.{Refusal};

use crate::NodesFault;
use crate::opening::{open_replica, send_home, settings_of};
use crate::places::{Which, is_meant, node_at, partition_at, stands_on};
use disk_core::{Bays, Disk};
use replica_core::Replica;
use std::alloc::Global;
use world_model::Shape;

/// Closes the replica of a place that is meant.
fn halt_place<B: Bays>(
    bays: &mut B,
    slot: &mut Option<Replica<B::Disk>>,
    partitions: u32,
    place: u32,
    which: Which,
    stops: bool,
)
    requires some { 1 ≤ partitions }
    requires place { place < 1024 }
    requires out { B.tells → IsSome slot.old → IsSome (B.out bays.old (node_at partitions place) (partition_at partitions place)) }
    ensures slot { HaltsSlot (is_meant which (node_at partitions place)) slot.old slot.new }
    ensures spot { B.tells → (folder : List ℕ) → (IsSome slot.old → B.out bays.old (node_at partitions place) (partition_at partitions place) ≡ Some folder)
        → HaltsSpot B.Disk.tells B.Disk.content B.Disk.size (is_meant which (node_at partitions place)) stops
        (record { slot = slot.old; home = B.home bays.old folder (node_at partitions place) (partition_at partitions place); out = B.out bays.old (node_at partitions place) (partition_at partitions place) })
        (record { slot = slot.new; home = B.home bays.new folder (node_at partitions place) (partition_at partitions place); out = B.out bays.new (node_at partitions place) (partition_at partitions place) }) }
    ensures others { B.tells → (folder : List ℕ) → (IsSome slot.old → B.out bays.old (node_at partitions place) (partition_at partitions place) ≡ Some folder)
        → OthersStay folder (node_at partitions place) (partition_at partitions place) (B.home bays.old) (B.out bays.old) (B.home bays.new) (B.out bays.new) }
    ensures faults { B.faults bays.new ≡ B.faults bays.old }
    ensures same { B.same bays.old bays.new }
{
    let node = node_at(partitions, place);
    if is_meant(which, node) {
        send_home(bays, node, partition_at(partitions, place), slot, stops);
    }
}

/// Closes the replicas of the nodes that are meant, and gives their disks home: as they are, or, where `stops`, as a stop of the
/// machine leaves them. Each slot of those nodes is empty then, and all other slots and disks stay. There are at most 1,024 slots,
/// and each node has 1 or more `partitions`. It never fails.
pub fn halt<B: Bays>(
    bays: &mut B,
    slots: &mut Vec<Option<Replica<B::Disk>>>,
    partitions: u32,
    which: Which,
    stops: bool,
)
    requires some { 1 ≤ partitions }
    requires few { length slots.old.items ≤ 1024 }
    requires out { B.tells → (folder : List ℕ) × AreOut partitions folder slots.old.items (B.out bays.old) }
    ensures length { length slots.new.items ≡ length slots.old.items }
    ensures slots { (place : ℕ) → place < length slots.old.items → HaltsSlot (is_meant which (node_at partitions place)) (slot_at slots.old.items place) (slot_at slots.new.items place) }
    ensures spots { B.tells → (folder : List ℕ) → AreOut partitions folder slots.old.items (B.out bays.old)
        → FirstChange (λ place. HaltsSpot B.Disk.tells B.Disk.content B.Disk.size (is_meant which (node_at partitions place)) stops) (length slots.old.items)
        (spot_at partitions folder slots.old.items (B.home bays.old) (B.out bays.old))
        (spot_at partitions folder slots.new.items (B.home bays.new) (B.out bays.new)) }
    ensures rest { B.tells → (folder : List ℕ) → AreOut partitions folder slots.old.items (B.out bays.old)
        → RestStays partitions folder (B.home bays.old) (B.out bays.old) (B.home bays.new) (B.out bays.new) }
    ensures faults { B.faults bays.new ≡ B.faults bays.old }
    ensures same { B.same bays.old bays.new }
{
    for place in 0..slots.len() {
        halt_place(
            bays,
            &mut slots[place],
            partitions,
            place as u32,
            which,
            stops,
        );
    }
}

/// Opens the replica of a place, if one is due there.
fn start_place<B: Bays>(
    alloc: Global,
    shape: &Shape,
    folder: &str,
    bays: &mut B,
    slot: &mut Option<Replica<B::Disk>>,
    place: u32,
    which: Which,
) -> Result<(), NodesFault>
where
    B::Disk: Drop,
    requires shape { IsShape shape.now }
    requires place { place < 1024 }
    requires empty { is_meant which (node_at shape.now.partitions place) ≡ true → slot.old ≡ None }

    ensures slot { OnOk result (StartsSlot (is_due which shape.now place) (settings_of shape.now) slot.old slot.new) }
    ensures spot { OnOk result (B.tells → StartsSpot B.Disk.tells B.Disk.content B.Disk.size (is_due which shape.now place) (settings_of shape.now) folder.now
        (record { slot = slot.old; home = B.home bays.old folder.now (node_at shape.now.partitions place) (partition_at shape.now.partitions place); out = B.out bays.old (node_at shape.now.partitions place) (partition_at shape.now.partitions place) })
        (record { slot = slot.new; home = B.home bays.new folder.now (node_at shape.now.partitions place) (partition_at shape.now.partitions place); out = B.out bays.new (node_at shape.now.partitions place) (partition_at shape.now.partitions place) })) }
    ensures due { OnErr result (is_due which shape.now place ≡ true) }
    ensures closed { OnErr result (slot.new ≡ slot.old) }
    ensures closed_spot { OnErr result (B.tells → StaysClosed B.Disk.tells B.Disk.content B.Disk.size (settings_of shape.now)
        (record { slot = slot.old; home = B.home bays.old folder.now (node_at shape.now.partitions place) (partition_at shape.now.partitions place); out = B.out bays.old (node_at shape.now.partitions place) (partition_at shape.now.partitions place) })
        (record { slot = slot.new; home = B.home bays.new folder.now (node_at shape.now.partitions place) (partition_at shape.now.partitions place); out = B.out bays.new (node_at shape.now.partitions place) (partition_at shape.now.partitions place) })) }
    ensures others { B.tells → OthersStay folder.now (node_at shape.now.partitions place) (partition_at shape.now.partitions place) (B.home bays.old) (B.out bays.old) (B.home bays.new) (B.out bays.new) }

    ensures refused { (refusal : Refusal) → IsErrOf result (NodesFault.Refused refusal)
        → (refusal.node ≡ node_at shape.now.partitions place) × (refusal.partition ≡ partition_at shape.now.partitions place)
        × (B.tells → IsCause B.Disk.tells B.Disk.content B.Disk.size (settings_of shape.now) (B.home bays.old folder.now (node_at shape.now.partitions place) (partition_at shape.now.partitions place)) refusal.what) }
    ensures failed { IsErrOf result NodesFault.Failed → HasFailed B.Disk.faults (B.faults bays.old) (B.faults bays.new) }
    ensures later { B.faults bays.old ≤ B.faults bays.new }
    ensures same { B.same bays.old bays.new }
{
    let node = node_at(shape.partitions, place);
    let partition = partition_at(shape.partitions, place);
    if is_meant(which, node) && stands_on(shape, node, partition) {
        let replica = open_replica(alloc, bays, folder, node, partition, settings_of(shape))?;
        *slot = Some(replica);
    }
    Ok(())
}

/// Opens the replicas of the nodes that are meant, by node and then by partition. The first one that isn't opened ends it.
fn open_places<B: Bays>(
    alloc: Global,
    shape: &Shape,
    folder: &str,
    bays: &mut B,
    slots: &mut Vec<Option<Replica<B::Disk>>>,
    which: Which,
) -> Result<(), NodesFault>
where
    B::Disk: Drop,
    requires shape { IsShape shape.now }
    requires few { length slots.old.items ≤ 1024 }
    requires empty { AreEmpty which shape.now.partitions slots.old.items }

    ensures length { length slots.new.items ≡ length slots.old.items }
    ensures slots { OnOk result ((place : ℕ) → place < length slots.old.items → StartsSlot (is_due which shape.now place) (settings_of shape.now) (slot_at slots.old.items place) (slot_at slots.new.items place)) }
    ensures spots { OnOk result (B.tells → FirstChange (λ place. StartsSpot B.Disk.tells B.Disk.content B.Disk.size (is_due which shape.now place) (settings_of shape.now) folder.now) (length slots.old.items)
        (spot_at shape.now.partitions folder.now slots.old.items (B.home bays.old) (B.out bays.old))
        (spot_at shape.now.partitions folder.now slots.new.items (B.home bays.new) (B.out bays.new))) }
    ensures stopped { IfErr result (λ fault. (at : ℕ) × (at < length slots.old.items) × StopsAt which shape.now slots.old.items slots.new.items at
        × (B.tells → OpensTo B.Disk.tells B.Disk.content B.Disk.size which shape.now folder.now at
        (spot_at shape.now.partitions folder.now slots.old.items (B.home bays.old) (B.out bays.old))
        (spot_at shape.now.partitions folder.now slots.new.items (B.home bays.new) (B.out bays.new)))) }
    ensures rest { B.tells → RestStays shape.now.partitions folder.now (B.home bays.old) (B.out bays.old) (B.home bays.new) (B.out bays.new) }
    ensures refused_place { (refusal : Refusal) → IsErrOf result (NodesFault.Refused refusal) → IsDueAt which shape.now refusal }
    ensures refused { (refusal : Refusal) → IsErrOf result (NodesFault.Refused refusal) → B.tells → IsFirst B.Disk.tells B.Disk.content B.Disk.size which shape.now folder.now (B.home bays.old) refusal }
    ensures failed { IsErrOf result NodesFault.Failed → HasFailed B.Disk.faults (B.faults bays.old) (B.faults bays.new) }
    ensures later { B.faults bays.old ≤ B.faults bays.new }
    ensures same { B.same bays.old bays.new }
{
    for place in 0..slots.len() {
        let slot = &mut slots[place];
        match start_place(alloc, shape, folder, bays, slot, place as u32, which) {
            Ok(()) => {}
            Err(fault) => return Err(fault),
        }
    }
    Ok(())
}

/// Opens the replicas of the nodes that are meant, by node and then by partition, over the disks of a folder. The slots of those
/// nodes are empty before; there are at most 1,024 slots. A slot is filled exactly where the shape has a replica in its place, and
/// all other slots stay. A place without a disk gets a new one. Where one isn't opened, the first such one is answered: the slots
/// are as they were, each disk that was opened is at home, and what the disks hold stays.
///
/// # Errors
///
/// `Refused` where a disk has another size, was made for another shape or is damaged; `Failed` where the bays or a disk failed;
/// `Memory` for want of memory.
pub fn start<B: Bays>(
    alloc: Global,
    shape: &Shape,
    folder: &str,
    bays: &mut B,
    slots: &mut Vec<Option<Replica<B::Disk>>>,
    which: Which,
) -> Result<(), NodesFault>
where
    B::Disk: Drop,
    requires shape { IsShape shape.now }
    requires few { length slots.old.items ≤ 1024 }
    requires empty { AreEmpty which shape.now.partitions slots.old.items }
    requires out { B.tells → AreOut shape.now.partitions folder.now slots.old.items (B.out bays.old) }

    ensures length { length slots.new.items ≡ length slots.old.items }
    ensures slots { OnOk result ((place : ℕ) → place < length slots.old.items → StartsSlot (is_due which shape.now place) (settings_of shape.now) (slot_at slots.old.items place) (slot_at slots.new.items place)) }
    ensures spots { OnOk result (B.tells → FirstChange (λ place. StartsSpot B.Disk.tells B.Disk.content B.Disk.size (is_due which shape.now place) (settings_of shape.now) folder.now) (length slots.old.items)
        (spot_at shape.now.partitions folder.now slots.old.items (B.home bays.old) (B.out bays.old))
        (spot_at shape.now.partitions folder.now slots.new.items (B.home bays.new) (B.out bays.new))) }
    ensures closed { OnErr result ((place : ℕ) → slot_at slots.new.items place ≡ slot_at slots.old.items place) }
    ensures closed_spots { OnErr result (B.tells → (place : ℕ) → StaysClosed B.Disk.tells B.Disk.content B.Disk.size (settings_of shape.now)
        (spot_at shape.now.partitions folder.now slots.old.items (B.home bays.old) (B.out bays.old) place)
        (spot_at shape.now.partitions folder.now slots.new.items (B.home bays.new) (B.out bays.new) place)) }
    ensures rest { B.tells → RestStays shape.now.partitions folder.now (B.home bays.old) (B.out bays.old) (B.home bays.new) (B.out bays.new) }
    ensures refused_place { (refusal : Refusal) → IsErrOf result (NodesFault.Refused refusal) → IsDueAt which shape.now refusal }
    ensures refused { (refusal : Refusal) → IsErrOf result (NodesFault.Refused refusal) → B.tells → IsFirst B.Disk.tells B.Disk.content B.Disk.size which shape.now folder.now (B.home bays.old) refusal }
    ensures failed { IsErrOf result NodesFault.Failed → HasFailed B.Disk.faults (B.faults bays.old) (B.faults bays.new) }
    ensures later { B.faults bays.old ≤ B.faults bays.new }
    ensures same { B.same bays.old bays.new }
{
    match open_places(alloc, shape, folder, bays, slots, which) {
        Ok(()) => Ok(()),
        Err(fault) => {
            halt(bays, slots, shape.partitions, which, false);
            Err(fault)
        }
    }
}

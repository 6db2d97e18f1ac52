//! Opening the replicas of a node, and closing them.

ghost use Rattle.std.specs.Prelude.{◌≡◌, ◌⊎◌, ◌<◌, ◌≤◌, ◌++◌, ◌∷◌, [], nat_eq, ◌==◌, ◌&&◌, true, ℕ, List, Some, None, IfOk, OnOk, OnErr, IsErrOf, vec_len, vec_capacity};
ghost use Rattle.std.specs.List.{IsDistinct};
ghost use Rattle.std.specs.Map.{keys_of};
ghost use Rattle.disk_core.specs.Homes.{OthersStay};
ghost use Rattle.node_core.specs.Ports.{ArePorts, port_in};
ghost use Rattle.node_lab.specs.Calls.{PortsOut};
ghost use Rattle.node_lab.specs.Nodes.{has_replica, is_of_node, ports_of};
ghost use Rattle.node_lab.specs.Openings.{NodeFailed, OpensPort, OpensPorts};
ghost use Rattle.node_lab.specs.Refusals.{IsFirst};
ghost use Rattle.node_lab.specs.Replicas.{settings_of};
ghost use Rattle.node_lab.specs.Slots.{FailedAt, GoesHome, IsCause, OpensAs, OtherNodesStay, StaysClosed, StaysClosedWhere, slot_in};
ghost use Rattle.node_lab.specs.declared.fault.NodesFault.{NodesFault};
ghost use Rattle.outside.specs.Causes.{Rose};
ghost use Rattle.replica_core.specs.State.{ReplicaState};
ghost use Rattle.world_model.specs.declared.order.Refusal.{Refusal};
ghost use Rattle.world_model.specs.Shape.{IsShape};

use crate::NodesFault;
use crate::opening::{open_replica, send_home, settings_of};
use crate::state::NodeState;
use blob_id::Memory;
use disk_core::{Bays, Disk};
use node_core::NodeCore;
use replica_core::Replica;
use std::alloc::Global;
use std::mem;
use world_model::{Shape, node_of};

/// Room for one more.
pub(crate) fn room<T: Drop>(items: &mut Vec<T>) -> Result<(), Memory>
    ensures room { OnOk result (vec_len items.new < vec_capacity items.new) }
    ensures same { items.new.items ≡ items.old.items }
{
    items.reserve(1)?;
    Ok(())
}

/// Adds one, for which there is room.
pub(crate) fn add<T: Drop>(items: &mut Vec<T>, item: T)
    requires { vec_len items.old < vec_capacity items.old }
    ensures { items.new.items ≡ items.old.items ++ item ∷ [] }
{
    let _ = items.push(item);
}

/// Gives the disks of a node's replicas home.
fn send_all_home<B: Bays>(bays: &mut B, node: u32, ports: Vec<(u32, Replica<B::Disk>)>, stops: bool)
where
    B::Disk: Drop,
    requires distinct { IsDistinct nat_eq (keys_of ports.items) }
    requires out { B.tells → (folder : List ℕ) × PortsOut folder node ports.items (B.out bays.old) }
    ensures slots { B.tells → (folder : List ℕ) → PortsOut folder node ports.items (B.out bays.old) → (p : ℕ)
        → GoesHome B.Disk.tells B.Disk.content B.Disk.size stops (port_in ports.items p)
        (slot_in (port_in ports.items p) (B.home bays.old) (B.out bays.old) folder node p)
        (slot_in None (B.home bays.new) (B.out bays.new) folder node p) }
    ensures others { B.tells → (folder : List ℕ) → PortsOut folder node ports.items (B.out bays.old) → OtherNodesStay folder node (B.home bays.old) (B.out bays.old) (B.home bays.new) (B.out bays.new) }
    ensures faults { B.faults bays.new ≡ B.faults bays.old }
    ensures same { B.same bays.old bays.new }
{
    let mut ports = ports;
    for _ in 0..ports.len() {
        if let Some((partition, replica)) = ports.pop() {
            send_home(bays, node, partition, replica, stops);
        }
    }
}

/// Closes a node: the disks of its replicas go home, as they are or as a stop of the machine leaves them.
pub(crate) fn close_node<B: Bays>(
    bays: &mut B,
    node: u32,
    state: &mut NodeState<Replica<B::Disk>>,
    stops: bool,
)
where
    B::Disk: Drop,
    requires out { B.tells → (folder : List ℕ) × PortsOut folder node (ports_of (Some state.old)) (B.out bays.old) }
    ensures gone { ports_of (Some state.new) ≡ [] }
    ensures slots { B.tells → (folder : List ℕ) → PortsOut folder node (ports_of (Some state.old)) (B.out bays.old) → (p : ℕ)
        → GoesHome B.Disk.tells B.Disk.content B.Disk.size stops (port_in (ports_of (Some state.old)) p)
        (slot_in (port_in (ports_of (Some state.old)) p) (B.home bays.old) (B.out bays.old) folder node p)
        (slot_in None (B.home bays.new) (B.out bays.new) folder node p) }
    ensures others { B.tells → (folder : List ℕ) → PortsOut folder node (ports_of (Some state.old)) (B.out bays.old) → OtherNodesStay folder node (B.home bays.old) (B.out bays.old) (B.home bays.new) (B.out bays.new) }
    ensures faults { B.faults bays.new ≡ B.faults bays.old }
    ensures same { B.same bays.old bays.new }
{
    match mem::replace(state, NodeState::Stopped) {
        NodeState::Up(core) => send_all_home(bays, node, core.close(), stops),
        NodeState::Stopped => {}
    }
}

/// Whether a shape has a replica of one of its partitions on a node.
fn has_replica(shape: &Shape, node: u32, partition: u32) -> bool
    requires shape { IsShape shape.now }
    requires partition { partition < shape.now.partitions }
    ensures { result ≡ has_replica shape.now node partition }
{
    for replica in 0..shape.replicas {
        if node_of(shape, partition, replica) == node {
            return true;
        }
    }
    false
}

/// Opens the replica of a partition, if the shape has one on the node, and puts it behind the others.
fn add_port<B: Bays>(
    alloc: Global,
    shape: &Shape,
    folder: &str,
    bays: &mut B,
    node: u32,
    partition: u32,
    ports: &mut Vec<(u32, Replica<B::Disk>)>,
) -> Result<(), NodesFault>
where
    B::Disk: Drop,
    requires shape { IsShape shape.now }
    requires partition { partition < shape.now.partitions }
    ensures opened { OnOk result (OpensPort B.tells B.Disk.tells B.Disk.content B.Disk.size (settings_of shape.now) folder.now node (B.home bays.old) (B.out bays.old) (B.home bays.new) (B.out bays.new)
        (has_replica shape.now node partition) partition ports.old.items ports.new.items) }
    ensures due { OnErr result (has_replica shape.now node partition ≡ true) }
    ensures ports { OnErr result (ports.new.items ≡ ports.old.items) }
    ensures closed { OnErr result (B.tells → StaysClosed B.Disk.tells B.Disk.content B.Disk.size (settings_of shape.now)
        (slot_in None (B.home bays.old) (B.out bays.old) folder.now node partition) (slot_in None (B.home bays.new) (B.out bays.new) folder.now node partition)) }
    ensures others { B.tells → OthersStay folder.now node partition (B.home bays.old) (B.out bays.old) (B.home bays.new) (B.out bays.new) }
    ensures refused { (refusal : Refusal) → IsErrOf result (NodesFault.Refused refusal)
        → (refusal.node ≡ node) × (refusal.partition ≡ partition)
        × (B.tells → IsCause B.Disk.tells B.Disk.content B.Disk.size (settings_of shape.now) (B.home bays.old folder.now node partition) refusal.what) }
    ensures failed { IsErrOf result NodesFault.Failed → Rose (B.faults bays.old) (B.faults bays.new) ⊎ (B.tells → FailedAt B.Disk.tells B.Disk.content B.Disk.size B.Disk.faults
        (slot_in None (B.home bays.old) (B.out bays.old) folder.now node partition) (slot_in None (B.home bays.new) (B.out bays.new) folder.now node partition)) }
    ensures later { B.faults bays.old ≤ B.faults bays.new }
    ensures same { B.same bays.old bays.new }
{
    if has_replica(shape, node, partition) {
        room(ports)?;
        let replica = open_replica(alloc, bays, folder, node, partition, settings_of(shape))?;
        add(ports, (partition, replica));
    }
    Ok(())
}

/// Opens the replicas of a node one by one, by partition. The first one that isn't opened ends it, and those before it stay open.
fn add_ports<B: Bays>(
    alloc: Global,
    shape: &Shape,
    folder: &str,
    bays: &mut B,
    node: u32,
    ports: &mut Vec<(u32, Replica<B::Disk>)>,
) -> Result<(), NodesFault>
where
    B::Disk: Drop,
    requires shape { IsShape shape.now }
    requires empty { ports.old.items ≡ [] }
    ensures good { ArePorts (λ (port : ReplicaState B.Disk). Unit {0}) ports.new.items }
    ensures opened { OnOk result (OpensPorts B.tells B.Disk.tells B.Disk.content B.Disk.size (settings_of shape.now) folder.now node (B.home bays.old) (B.out bays.old) (B.home bays.new) (B.out bays.new)
        (has_replica shape.now node) ports.new.items) }
    ensures slots { B.tells → (p : ℕ) → OpensAs B.Disk.tells B.Disk.content B.Disk.size (port_in ports.new.items p) (has_replica shape.now node p) (settings_of shape.now) folder.now
        (slot_in None (B.home bays.old) (B.out bays.old) folder.now node p) (slot_in (port_in ports.new.items p) (B.home bays.new) (B.out bays.new) folder.now node p) }
    ensures others { B.tells → OtherNodesStay folder.now node (B.home bays.old) (B.out bays.old) (B.home bays.new) (B.out bays.new) }
    ensures place { (refusal : Refusal) → IsErrOf result (NodesFault.Refused refusal) → (refusal.node ≡ node) × (has_replica shape.now node refusal.partition ≡ true) }
    ensures refused { (refusal : Refusal) → IsErrOf result (NodesFault.Refused refusal) → B.tells → IsFirst B.Disk.tells B.Disk.content B.Disk.size (is_of_node shape.now node) (settings_of shape.now) (B.home bays.old folder.now) refusal }
    ensures failed { IsErrOf result NodesFault.Failed → Rose (B.faults bays.old) (B.faults bays.new)
        ⊎ (B.tells → NodeFailed B.tells B.Disk.tells B.Disk.content B.Disk.size (settings_of shape.now) folder.now node (B.home bays.old) (B.out bays.old) (B.home bays.new) (B.out bays.new) B.Disk.faults (has_replica shape.now node)) }
    ensures later { B.faults bays.old ≤ B.faults bays.new }
    ensures same { B.same bays.old bays.new }
{
    for partition in 0..shape.partitions {
        add_port(alloc, shape, folder, bays, node, partition, ports)?;
    }
    Ok(())
}

/// Opens a node: all of its replicas, or none. Where one isn't opened, the first by partition decides, and all disks go home.
pub(crate) fn open_node<B: Bays>(
    alloc: Global,
    shape: &Shape,
    folder: &str,
    bays: &mut B,
    node: u32,
) -> Result<NodeCore<Replica<B::Disk>>, NodesFault>
where
    B::Disk: Drop,
    requires shape { IsShape shape.now }
    ensures opened { IfOk result (λ core. OpensPorts B.tells B.Disk.tells B.Disk.content B.Disk.size (settings_of shape.now) folder.now node (B.home bays.old) (B.out bays.old) (B.home bays.new) (B.out bays.new)
        (has_replica shape.now node) core.ports) }
    ensures closed { OnErr result (B.tells → (p : ℕ) → StaysClosedWhere B.Disk.tells B.Disk.content B.Disk.size (has_replica shape.now node p) (settings_of shape.now)
        (slot_in None (B.home bays.old) (B.out bays.old) folder.now node p) (slot_in None (B.home bays.new) (B.out bays.new) folder.now node p)) }
    ensures others { B.tells → OtherNodesStay folder.now node (B.home bays.old) (B.out bays.old) (B.home bays.new) (B.out bays.new) }
    ensures place { (refusal : Refusal) → IsErrOf result (NodesFault.Refused refusal) → (refusal.node ≡ node) × (has_replica shape.now node refusal.partition ≡ true) }
    ensures refused { (refusal : Refusal) → IsErrOf result (NodesFault.Refused refusal) → B.tells → IsFirst B.Disk.tells B.Disk.content B.Disk.size (is_of_node shape.now node) (settings_of shape.now) (B.home bays.old folder.now) refusal }
    ensures failed { IsErrOf result NodesFault.Failed → Rose (B.faults bays.old) (B.faults bays.new)
        ⊎ (B.tells → NodeFailed B.tells B.Disk.tells B.Disk.content B.Disk.size (settings_of shape.now) folder.now node (B.home bays.old) (B.out bays.old) (B.home bays.new) (B.out bays.new) B.Disk.faults (has_replica shape.now node)) }
    ensures later { B.faults bays.old ≤ B.faults bays.new }
    ensures same { B.same bays.old bays.new }
{
    let mut ports = Vec::new(alloc);
    match add_ports(alloc, shape, folder, bays, node, &mut ports) {
        Ok(()) => match NodeCore::new(alloc, node, ports) {
            Ok(core) => Ok(core),
            Err((_, ports)) => {
                send_all_home(bays, node, ports, false);
                Err(NodesFault::Memory)
            }
        },
        Err(fault) => {
            send_all_home(bays, node, ports, false);
            Err(fault)
        }
    }
}

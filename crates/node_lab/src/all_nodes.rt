//! Opening all nodes, and closing them.

ghost use Rattle.std.specs.Prelude.{◌≡◌, ◌⊎◌, ◌<◌, ◌≤◌, [], true, ℕ, List, Some, None, IfOk, OnOk, OnErr, IsErrOf, length};
ghost use Rattle.std.specs.Option.{is_some};
ghost use Rattle.node_core.specs.Ports.{port_in};
ghost use Rattle.node_lab.specs.Calls.{NodesOut};
ghost use Rattle.node_lab.specs.Nodes.{has_replica, is_of_node, ports_at};
ghost use Rattle.node_lab.specs.Openings.{NodeFailed, OpensNode, OpensPorts};
ghost use Rattle.node_lab.specs.Refusals.{IsFirst};
ghost use Rattle.node_lab.specs.Replicas.{settings_of};
ghost use Rattle.node_lab.specs.Slots.{GoesHome, OpensAs, OtherFoldersStay, OtherNodesStay, SomeFailed, StaysClosedWhere, slot_in};
ghost use Rattle.node_lab.specs.declared.fault.NodesFault.{NodesFault};
ghost use Rattle.outside.specs.Causes.{Rose};
ghost use Rattle.world_model.specs.declared.order.Refusal.{Refusal};
ghost use Rattle.world_model.specs.Shape.{IsShape};

use crate::NodesFault;
use crate::one_node::{add, close_node, open_node, room};
use crate::state::NodeState;
use disk_core::{Bays, Disk};
use replica_core::Replica;
use std::alloc::Global;
use world_model::Shape;

/// Closes all nodes: the disks of their replicas go home, as they are or as a stop of the machine leaves them.
pub(crate) fn close_all<B: Bays>(
    bays: &mut B,
    nodes: &mut Vec<NodeState<Replica<B::Disk>>>,
    stops: bool,
)
where
    B::Disk: Drop,
    requires few { length nodes.old.items ≤ 9 }
    requires out { B.tells → (folder : List ℕ) × NodesOut folder nodes.old.items (B.out bays.old) }
    ensures length { length nodes.new.items ≡ length nodes.old.items }
    ensures gone { (n : ℕ) → ports_at nodes.new.items n ≡ [] }
    ensures slots { B.tells → (folder : List ℕ) → NodesOut folder nodes.old.items (B.out bays.old) → (n p : ℕ)
        → GoesHome B.Disk.tells B.Disk.content B.Disk.size stops (port_in (ports_at nodes.old.items n) p)
        (slot_in (port_in (ports_at nodes.old.items n) p) (B.home bays.old) (B.out bays.old) folder n p) (slot_in None (B.home bays.new) (B.out bays.new) folder n p) }
    ensures folders { B.tells → (folder : List ℕ) → NodesOut folder nodes.old.items (B.out bays.old) → OtherFoldersStay folder (B.home bays.old) (B.home bays.new) }
    ensures faults { B.faults bays.new ≡ B.faults bays.old }
    ensures same { B.same bays.old bays.new }
{
    for place in 0..nodes.len() {
        close_node(bays, place as u32 + 1, &mut nodes[place], stops);
    }
}

/// Opens a node, and puts it behind the others.
fn add_node<B: Bays>(
    alloc: Global,
    shape: &Shape,
    folder: &str,
    bays: &mut B,
    node: u32,
    nodes: &mut Vec<NodeState<Replica<B::Disk>>>,
) -> Result<(), NodesFault>
where
    B::Disk: Drop,
    requires shape { IsShape shape.now }
    ensures opened { OnOk result (OpensNode B.tells B.Disk.tells B.Disk.content B.Disk.size (settings_of shape.now) folder.now node (B.home bays.old) (B.out bays.old) (B.home bays.new) (B.out bays.new)
        (has_replica shape.now node) nodes.old.items nodes.new.items) }
    ensures nodes { OnErr result (nodes.new.items ≡ nodes.old.items) }
    ensures closed { OnErr result (B.tells → (p : ℕ) → StaysClosedWhere B.Disk.tells B.Disk.content B.Disk.size (has_replica shape.now node p) (settings_of shape.now)
        (slot_in None (B.home bays.old) (B.out bays.old) folder.now node p) (slot_in None (B.home bays.new) (B.out bays.new) folder.now node p)) }
    ensures others { B.tells → OtherNodesStay folder.now node (B.home bays.old) (B.out bays.old) (B.home bays.new) (B.out bays.new) }
    ensures place { (refusal : Refusal) → IsErrOf result (NodesFault.Refused refusal) → (refusal.node ≡ node) × (has_replica shape.now node refusal.partition ≡ true) }
    ensures refused { (refusal : Refusal) → IsErrOf result (NodesFault.Refused refusal) → B.tells → IsFirst B.Disk.tells B.Disk.content B.Disk.size (is_of_node shape.now node) (settings_of shape.now) (B.home bays.old folder.now) refusal }
    ensures failed { IsErrOf result NodesFault.Failed → Rose (B.faults bays.old) (B.faults bays.new)
        ⊎ (B.tells → NodeFailed B.tells B.Disk.tells B.Disk.content B.Disk.size (settings_of shape.now) folder.now node (B.home bays.old) (B.out bays.old) (B.home bays.new) (B.out bays.new) B.Disk.faults (has_replica shape.now node)) }
    ensures later { B.faults bays.old ≤ B.faults bays.new }
    ensures same { B.same bays.old bays.new }
{
    room(nodes)?;
    let core = open_node(alloc, shape, folder, bays, node)?;
    add(nodes, NodeState::Up(core));
    Ok(())
}

/// Opens the nodes of a shape one by one. The first one that isn't opened ends it, and those before it stay open.
fn add_nodes<B: Bays>(
    alloc: Global,
    shape: &Shape,
    folder: &str,
    bays: &mut B,
    nodes: &mut Vec<NodeState<Replica<B::Disk>>>,
) -> Result<(), NodesFault>
where
    B::Disk: Drop,
    requires shape { IsShape shape.now }
    requires empty { nodes.old.items ≡ [] }
    ensures few { length nodes.new.items ≤ shape.now.nodes }
    ensures length { OnOk result (length nodes.new.items ≡ shape.now.nodes) }
    ensures up { OnOk result ((n p : ℕ) → is_some (port_in (ports_at nodes.new.items n) p) ≡ has_replica shape.now n p) }
    ensures slots { B.tells → (n p : ℕ) → OpensAs B.Disk.tells B.Disk.content B.Disk.size (port_in (ports_at nodes.new.items n) p) (has_replica shape.now n p) (settings_of shape.now) folder.now
        (slot_in None (B.home bays.old) (B.out bays.old) folder.now n p) (slot_in (port_in (ports_at nodes.new.items n) p) (B.home bays.new) (B.out bays.new) folder.now n p) }
    ensures folders { B.tells → OtherFoldersStay folder.now (B.home bays.old) (B.home bays.new) }
    ensures place { (refusal : Refusal) → IsErrOf result (NodesFault.Refused refusal) → has_replica shape.now refusal.node refusal.partition ≡ true }
    ensures refused { (refusal : Refusal) → IsErrOf result (NodesFault.Refused refusal) → B.tells → IsFirst B.Disk.tells B.Disk.content B.Disk.size (has_replica shape.now) (settings_of shape.now) (B.home bays.old folder.now) refusal }
    ensures failed { IsErrOf result NodesFault.Failed → Rose (B.faults bays.old) (B.faults bays.new) ⊎ (B.tells → SomeFailed B.Disk.tells B.Disk.content B.Disk.size B.Disk.faults (has_replica shape.now)
        (slot_in None (B.home bays.old) (B.out bays.old) folder.now) (slot_in None (B.home bays.new) (B.out bays.new) folder.now)) }
    ensures later { B.faults bays.old ≤ B.faults bays.new }
    ensures same { B.same bays.old bays.new }
{
    for node in 0..shape.nodes {
        add_node(alloc, shape, folder, bays, node + 1, nodes)?;
    }
    Ok(())
}

/// Opens the nodes of a shape: all of their replicas, or none. Where one isn't opened, the first by node and then by partition
/// decides, and all disks go home.
pub(crate) fn open_all<B: Bays>(
    alloc: Global,
    shape: &Shape,
    folder: &str,
    bays: &mut B,
) -> Result<Vec<NodeState<Replica<B::Disk>>>, NodesFault>
where
    B::Disk: Drop,
    requires shape { IsShape shape.now }
    ensures length { IfOk result (λ nodes. length nodes.items ≡ shape.now.nodes) }
    ensures up { IfOk result (λ nodes. (n p : ℕ) → is_some (port_in (ports_at nodes.items n) p) ≡ has_replica shape.now n p) }
    ensures slots { IfOk result (λ nodes. B.tells → (n p : ℕ) → OpensAs B.Disk.tells B.Disk.content B.Disk.size (port_in (ports_at nodes.items n) p) (has_replica shape.now n p) (settings_of shape.now) folder.now
        (slot_in None (B.home bays.old) (B.out bays.old) folder.now n p) (slot_in (port_in (ports_at nodes.items n) p) (B.home bays.new) (B.out bays.new) folder.now n p)) }
    ensures closed { OnErr result (B.tells → (n p : ℕ) → StaysClosedWhere B.Disk.tells B.Disk.content B.Disk.size (has_replica shape.now n p) (settings_of shape.now)
        (slot_in None (B.home bays.old) (B.out bays.old) folder.now n p) (slot_in None (B.home bays.new) (B.out bays.new) folder.now n p)) }
    ensures folders { B.tells → OtherFoldersStay folder.now (B.home bays.old) (B.home bays.new) }
    ensures place { (refusal : Refusal) → IsErrOf result (NodesFault.Refused refusal) → has_replica shape.now refusal.node refusal.partition ≡ true }
    ensures refused { (refusal : Refusal) → IsErrOf result (NodesFault.Refused refusal) → B.tells → IsFirst B.Disk.tells B.Disk.content B.Disk.size (has_replica shape.now) (settings_of shape.now) (B.home bays.old folder.now) refusal }
    ensures failed { IsErrOf result NodesFault.Failed → Rose (B.faults bays.old) (B.faults bays.new) ⊎ (B.tells → SomeFailed B.Disk.tells B.Disk.content B.Disk.size B.Disk.faults (has_replica shape.now)
        (slot_in None (B.home bays.old) (B.out bays.old) folder.now) (slot_in None (B.home bays.new) (B.out bays.new) folder.now)) }
    ensures later { B.faults bays.old ≤ B.faults bays.new }
    ensures same { B.same bays.old bays.new }
{
    let mut nodes = Vec::new(alloc);
    match add_nodes(alloc, shape, folder, bays, &mut nodes) {
        Ok(()) => Ok(nodes),
        Err(fault) => {
            close_all(bays, &mut nodes, false);
            Err(fault)
        }
    }
}

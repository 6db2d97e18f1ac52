//! The nodes of a cluster, with their bays.

ghost use Rattle.std.specs.Prelude.{◌≡◌, ◌≢◌, ◌⊎◌, ◌+◌, ◌<◌, ◌≤◌, ◌==◌, ℕ, List, [], length, string_bytes, Some, None, true, false, IsSome, IfOk, IfSome, IfNone, OnOk, OnErr, IsErrOf};
ghost use Rattle.std.specs.Option.{option_copied};
ghost use Rattle.cell_model.specs.Asks.{AnswersInRange, AsksInRange, CanAnswer};
ghost use Rattle.cell_model.specs.declared.ask.Reply.{Reply};
ghost use Rattle.node_lab.specs.Calls.{AsksNodes, AsksPorts, AsksReplica, ClosesNodes, FailedIn, OpensNodes, StayUnopened};
ghost use Rattle.node_lab.specs.Nodes.{Holds, asked_places, has_replica, is_of_node, is_up, never_opened, ports_at, ports_of, replica_at, slot_at};
ghost use Rattle.node_lab.specs.Places.{AnswersBy, Places};
ghost use Rattle.node_lab.specs.Refusals.{IsFirst};
ghost use Rattle.node_lab.specs.Replicas.{settings_of};
ghost use Rattle.node_lab.specs.Slots.{SomeFailed};
ghost use Rattle.node_lab.specs.declared.fault.NodesFault.{NodesFault};
ghost use Rattle.outside.specs.Causes.{Rose};
ghost use Rattle.world_model.specs.declared.order.Refusal.{Refusal};
ghost use Rattle.world_model.specs.declared.shape.Shape.{Shape};
ghost use Rattle.world_model.specs.Shape.{IsShape};

use crate::all_nodes::{close_all, open_all};
use crate::fault::NodesFault;
use crate::one_node::{close_node, open_node};
use crate::state::NodeState;
use blob_id::Memory;
use cell_model::{Ask, Reply};
use disk_core::{Bays, Disk};
use replica_core::Replica;
use std::alloc::Global;
use std::marker::Model;
use world_model::Shape;

/// The nodes of a cluster whose disks lie in bays: each has its replicas open, or is stopped and has its disks at home.
#[derive(Drop)]
pub struct LabNodes<B: Bays> {
    alloc: Global,
    shape: Option<Shape>,
    folder: String,
    bays: B,
    nodes: Vec<NodeState<Replica<B::Disk>>>,
}

impl<B: Bays> Model for LabNodes<B> {
    ghost use Rattle.std.specs.String.{string_bytes};
    ghost use Rattle.node_lab.specs.Nodes.{IsNodes, NodesState};

    ghost Value = { NodesState B B.Disk };

    ghost view = { λ a. record { shape = a.shape; folder = string_bytes a.folder; bays = a.bays; nodes = a.nodes.items } };

    ghost invariant = { λ a. IsNodes B.tells B.Disk.tells B.Disk.content B.Disk.size B.home B.out a.shape (string_bytes a.folder) a.bays a.nodes.items };
}

impl<B: Bays> LabNodes<B>
where
    B::Disk: Drop,
{
    /// Nodes that were never opened. It takes no memory.
    pub fn new(alloc: Global, bays: B) -> LabNodes<B>
        ensures { result ≡ never_opened bays }
    {
        LabNodes {
            alloc,
            shape: None,
            folder: String::new(alloc),
            bays,
            nodes: Vec::new(alloc),
        }
    }

    /// Opens the replicas of all nodes of a shape, whose disks lie in a folder. Where one isn't opened, all disks go home: the first by
    /// node and then by partition decides.
    ///
    /// # Errors
    ///
    /// `Refused` where a disk has another size, was made for another shape or is damaged; `Failed` where the bays or a disk failed;
    /// `Memory` for want of memory.
    pub fn open(&mut self, shape: &Shape, folder: &str) -> Result<(), NodesFault>
        requires shape { IsShape shape.now }
        requires closed { self.old.shape ≡ None }
        ensures named { OnOk result ((self.new.shape ≡ Some shape.now) × (self.new.folder ≡ folder.now)) }
        ensures up { OnOk result ((n p : ℕ) → is_up self.new n p ≡ has_replica shape.now n p) }
        ensures opened { OnOk result (OpensNodes B.tells B.Disk.tells B.Disk.content B.Disk.size B.home B.out (has_replica shape.now) (settings_of shape.now) folder.now self.old self.new) }
        ensures err { OnErr result (self.new ≡ never_opened self.new.bays) }
        ensures closed { OnErr result (StayUnopened B.tells B.Disk.tells B.Disk.content B.Disk.size B.home B.out (has_replica shape.now) (settings_of shape.now) folder.now self.old self.new) }
        ensures place { (refusal : Refusal) → IsErrOf result (NodesFault.Refused refusal) → has_replica shape.now refusal.node refusal.partition ≡ true }
        ensures refused { (refusal : Refusal) → IsErrOf result (NodesFault.Refused refusal) → B.tells → IsFirst B.Disk.tells B.Disk.content B.Disk.size (has_replica shape.now) (settings_of shape.now) (B.home self.old.bays folder.now) refusal }
        ensures failed { IsErrOf result NodesFault.Failed → Rose (B.faults self.old.bays) (B.faults self.new.bays) ⊎ (B.tells → SomeFailed B.Disk.tells B.Disk.content B.Disk.size B.Disk.faults (has_replica shape.now)
            (slot_at B.home B.out folder.now self.old) (slot_at B.home B.out folder.now self.new)) }
        ensures later { B.faults self.old.bays ≤ B.faults self.new.bays }
        ensures same { B.same self.old.bays self.new.bays }
    {
        let kept = copy_of(self.alloc, folder)?;
        let nodes = open_all(self.alloc, shape, folder, &mut self.bays)?;
        self.shape = Some(*shape);
        self.folder = kept;
        self.nodes = nodes;
        Ok(())
    }

    /// Asks the replica of a node and a partition. Where none is open, it says so.
    pub fn ask(&mut self, node: u32, partition: u16, ask: Ask) -> Reply
        requires range { AsksInRange ask }
        // What is asked is that replica alone, and by all that it says of itself.
        ensures asked { AsksReplica B.Disk.tells B.Disk.content B.Disk.size B.Disk.faults (replica_at self.old node partition) ask result (replica_at self.new node partition) }
        ensures others { (n p : ℕ) → (n ≢ node) ⊎ (p ≢ partition) → replica_at self.new n p ≡ replica_at self.old n p }
        ensures bays { self.new.bays ≡ self.old.bays }
        ensures named { (self.new.shape ≡ self.old.shape) × (self.new.folder ≡ self.old.folder) }
        ensures none { is_up self.old node partition ≡ false → result ≡ Reply.NoPartition }
        ensures some { is_up self.old node partition ≡ true → CanAnswer ask result × (result ≢ Reply.NoPartition) }
        ensures range { AnswersInRange result }
        ensures up { (n p : ℕ) → is_up self.new n p ≡ is_up self.old n p }
        // What that comes to for the places: after a fault that replica has what it was asked in doubt, and all others go on.
        ensures holds { B.Disk.tells → (shape : Shape) (folder : List ℕ) (places : Places) → Holds B.Disk.content B.home shape folder places self.old
            → Holds B.Disk.content B.home shape folder (asked_places (settings_of shape) places node partition ask result) self.new }
        ensures answers { B.Disk.tells → (shape : Shape) (folder : List ℕ) (places : Places) → Holds B.Disk.content B.home shape folder places self.old → is_up self.old node partition ≡ true
            → AnswersBy (settings_of shape) (places node partition) ask result }
        ensures fault { result ≡ Reply.Fault → B.Disk.tells → FailedIn B.Disk.tells B.Disk.content B.Disk.size B.Disk.faults (replica_at self.old node partition) (replica_at self.new node partition) }
    {
        self.ask_replica(node, partition, ask)
    }

    /// Asks the replica of a node and a partition.
    fn ask_replica(&mut self, node: u32, partition: u16, ask: Ask) -> Reply
        requires range { AsksInRange ask }
        ensures asked { AsksNodes B.Disk.tells B.Disk.content B.Disk.size B.Disk.faults self.old node partition ask result self.new }
        ensures range { AnswersInRange result }
    {
        match self.place_of(node) {
            Some(place) => ask_state(&mut self.nodes[place], partition, ask),
            None => Reply::NoPartition,
        }
    }

    /// The replica of a node and a partition, if it is open.
    pub fn replica(&self, node: u32, partition: u16) -> Option<&Replica<B::Disk>>
        ensures { option_copied result ≡ replica_at self.now node partition }
    {
        let place = self.place_of(node)?;
        match &self.nodes[place] {
            NodeState::Up(core) => core.port(u32::from(partition)),
            NodeState::Stopped => None,
        }
    }

    /// The place of a node, if it is one of the shape.
    fn place_of(&self, node: u32) -> Option<usize>
        ensures some { IfSome result (λ place. (node ≡ place + 1) × (place < length self.now.nodes)) }
        ensures none { IfNone result ((node ≡ 0) ⊎ (length self.now.nodes < node)) }
        ensures ports { IfNone result (ports_at self.now.nodes node ≡ []) }
    {
        let place = (node as usize).checked_sub(1)?;
        if place < self.nodes.len() {
            Some(place)
        } else {
            None
        }
    }

    /// Stops a node: the disks of its replicas go home as a stop of the machine leaves them, and all other nodes stay. A node that is
    /// stopped stays so.
    pub fn stop(&mut self, node: u32)
        requires open { IsSome self.old.shape }
        ensures closes { ClosesNodes B.tells B.Disk.tells B.Disk.content B.Disk.size B.home B.out (λ n. n == node) true self.old self.new }
        ensures faults { B.faults self.new.bays ≡ B.faults self.old.bays }
        ensures same { B.same self.old.bays self.new.bays }
    {
        if let Some(place) = self.place_of(node) {
            close_node(&mut self.bays, node, &mut self.nodes[place], true);
        }
    }

    /// Opens the replicas of a stopped node again, all or none: the first by partition that isn't opened decides. All other nodes stay.
    ///
    /// # Errors
    ///
    /// `Failed` where the bays or a disk failed; `Memory` for want of memory; `Refused` as at an opening, but never over disks that
    /// tell: each was opened before.
    pub fn restart(&mut self, node: u32) -> Result<(), NodesFault>
        requires open { IsSome self.old.shape }
        requires stopped { (p : ℕ) → is_up self.old node p ≡ false }
        ensures named { (self.new.shape ≡ self.old.shape) × (self.new.folder ≡ self.old.folder) }
        ensures opened { OnOk result ((shape : Shape) → self.old.shape ≡ Some shape → OpensNodes B.tells B.Disk.tells B.Disk.content B.Disk.size B.home B.out (is_of_node shape node) (settings_of shape) self.old.folder self.old self.new) }
        ensures closed { OnErr result ((shape : Shape) → self.old.shape ≡ Some shape → StayUnopened B.tells B.Disk.tells B.Disk.content B.Disk.size B.home B.out (is_of_node shape node) (settings_of shape) self.old.folder self.old self.new) }
        ensures place { (refusal : Refusal) (shape : Shape) → IsErrOf result (NodesFault.Refused refusal) → self.old.shape ≡ Some shape → is_of_node shape node refusal.node refusal.partition ≡ true }
        ensures refused { (refusal : Refusal) (shape : Shape) → IsErrOf result (NodesFault.Refused refusal) → self.old.shape ≡ Some shape → B.tells
            → IsFirst B.Disk.tells B.Disk.content B.Disk.size (is_of_node shape node) (settings_of shape) (B.home self.old.bays self.old.folder) refusal }
        ensures never { (refusal : Refusal) → IsErrOf result (NodesFault.Refused refusal) → B.Disk.tells → ⊥ }
        ensures failed { IsErrOf result NodesFault.Failed → Rose (B.faults self.old.bays) (B.faults self.new.bays) ⊎ (B.tells → (shape : Shape) → self.old.shape ≡ Some shape → SomeFailed B.Disk.tells B.Disk.content B.Disk.size B.Disk.faults (is_of_node shape node)
            (slot_at B.home B.out self.old.folder self.old) (slot_at B.home B.out self.old.folder self.new)) }
        ensures later { B.faults self.old.bays ≤ B.faults self.new.bays }
        ensures same { B.same self.old.bays self.new.bays }
    {
        let Some(place) = self.place_of(node) else {
            return Ok(());
        };
        let Some(shape) = &self.shape else {
            return Ok(());
        };
        let folder = self.folder.as_str();
        let core = open_node(self.alloc, shape, folder, &mut self.bays, node)?;
        self.nodes[place] = NodeState::Up(core);
        Ok(())
    }

    /// Closes all nodes: the disks of their replicas go home as they are. Each can be started again.
    pub fn close(&mut self)
        requires open { IsSome self.old.shape }
        ensures closes { ClosesNodes B.tells B.Disk.tells B.Disk.content B.Disk.size B.home B.out (λ n. true) false self.old self.new }
        ensures faults { B.faults self.new.bays ≡ B.faults self.old.bays }
        ensures same { B.same self.old.bays self.new.bays }
    {
        close_all(&mut self.bays, &mut self.nodes, false);
    }

    /// Hands the bays back.
    pub fn give_back(self) -> B
        ensures { result ≡ self.bays }
    {
        let LabNodes {
            alloc: _,
            shape: _,
            folder: _,
            bays,
            nodes: _,
        } = self;
        bays
    }
}

/// Asks the replica of a partition of a node, if it runs and has one.
fn ask_state<D: Disk>(state: &mut NodeState<Replica<D>>, partition: u16, ask: Ask) -> Reply
    requires range { AsksInRange ask }
    ensures asked { AsksPorts D.tells D.content D.size D.faults (ports_of (Some state.old)) partition ask result (ports_of (Some state.new)) }
    ensures range { AnswersInRange result }
{
    match state {
        NodeState::Up(core) => core.ask(u32::from(partition), ask),
        NodeState::Stopped => Reply::NoPartition,
    }
}

/// A copy of a name.
fn copy_of(alloc: Global, name: &str) -> Result<String, Memory>
    ensures { IfOk result (λ copy. string_bytes copy ≡ name.now) }
{
    let copy = name.to_string(alloc)?;
    Ok(copy)
}

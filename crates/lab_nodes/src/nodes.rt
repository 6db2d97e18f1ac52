//! The nodes of a cluster, with their bays.

ghost use Rattle.std.specs.Prelude.{◌≡◌, ◌≢◌, ◌⊎◌, ◌≤◌, ◌==◌, ◌&&◌, ◌||◌, not, ℕ, List, Some, None, true, false, IsSome, OnOk, OnErr, IfOk, IfSome, IfNone, IsErrOf, length, string_bytes};
ghost use Rattle.cell_model.specs.Asks.{Answers, AnswersInRange, AsksInRange, CanAnswer, IsRefusal, id_of};
ghost use Rattle.cell_model.specs.Pages.{PagesCells};
ghost use Rattle.cell_model.specs.declared.ask.Reply.{Reply};
ghost use Rattle.disk_core.specs.Homes.{Out};
ghost use Rattle.lab_nodes.specs.Holding.{settings_of};
ghost use Rattle.lab_nodes.specs.Layouts.{HaveLayouts, Layouts, asked_layouts};
ghost use Rattle.lab_nodes.specs.Nodes.{AsksReplica, Holds, IsPlaceOf, OnlyOwnOut, asked_cells, has_replica, is_up, never_opened, replica_at, stands};
ghost use Rattle.lab_nodes.specs.Spots.{DiskFailed, HasFailed, WentHome, slot_at};
ghost use Rattle.lab_nodes.specs.Starting.{IsFirst};
ghost use Rattle.lab_nodes.specs.declared.fault.NodesFault.{NodesFault};
ghost use Rattle.lab_nodes.specs.declared.places.Which.{Which};
ghost use Rattle.replica_core.specs.State.{IsPacked, ReplicaState};
ghost use Rattle.world_model.specs.declared.order.Refusal.{Refusal};
ghost use Rattle.world_model.specs.declared.shape.Shape.{Shape};
ghost use Rattle.world_model.specs.Shape.{IsShape};
ghost use Rattle.world_model.specs.World.{Cells};

use crate::fault::NodesFault;
use crate::places::Which;
use crate::spots::{halt, start};
use blob_id::Memory;
use cell_model::{Ask, ReplicaPort, Reply};
use disk_core::{Bays, Disk};
use replica_core::Replica;
use std::alloc::Global;
use std::marker::Model;
use world_model::Shape;

/// The nodes of a cluster whose disks lie in bays: each has its replicas open, or is stopped and has its disks at home.
#[derive(Drop)]
pub struct LabNodes<B: Bays> {
    alloc: Global,
    shape: Option<Shape>,
    folder: String,
    bays: B,
    slots: Vec<Option<Replica<B::Disk>>>,
}

impl<B: Bays> Model for LabNodes<B> {
    ghost use Rattle.std.specs.String.{string_bytes};
    ghost use Rattle.lab_nodes.specs.Nodes.{IsNodes, NodesState};

    ghost Value = { NodesState B B.Disk };

    ghost view = { λ a. record { shape = a.shape; folder = string_bytes a.folder; bays = a.bays; slots = a.slots.items } };

    ghost invariant = { λ a. IsNodes B.tells B.Disk.tells B.Disk.content B.home B.out a.shape (string_bytes a.folder) a.bays a.slots.items };
}

impl<B: Bays> LabNodes<B>
where
    B::Disk: Drop,
{
    /// Nodes that were never opened. It takes no memory.
    pub fn new(alloc: Global, bays: B) -> LabNodes<B>
        ensures { result ≡ never_opened bays }
    {
        LabNodes {
            alloc,
            shape: None,
            folder: String::new(alloc),
            bays,
            slots: Vec::new(alloc),
        }
    }

    /// Opens the replicas of all nodes of a shape, whose disks lie in a folder. Where one isn't opened, all disks go home: the first by
    /// node and then by partition decides.
    pub fn open(&mut self, shape: &Shape, folder: &str) -> Result<(), NodesFault>
        requires shape { IsShape shape.now }
        requires closed { self.old.shape ≡ None }

        ensures named { OnOk result ((self.new.shape ≡ Some shape.now) × (self.new.folder ≡ folder.now)) }
        ensures up { OnOk result ((n p : ℕ) → is_up self.new n p ≡ has_replica shape.now n p) }
        ensures err { OnErr result (self.new ≡ never_opened self.new.bays) }
        ensures holds { B.Disk.tells → (cells : Cells) → Holds B.Disk.content B.home shape.now folder.now cells self.old → Holds B.Disk.content B.home shape.now folder.now cells self.new }
        ensures layouts { B.Disk.tells → (layouts : Layouts) → HaveLayouts B.Disk.content B.home shape.now folder.now layouts self.old → HaveLayouts B.Disk.content B.home shape.now folder.now layouts self.new }
        ensures out { B.tells → (before : Out) → OnlyOwnOut B.out before self.old → OnlyOwnOut B.out before self.new }
        ensures refused { (refusal : Refusal) → IsErrOf result (NodesFault.Refused refusal) → B.tells → IsFirst B.Disk.tells B.Disk.content B.Disk.size Which.All shape.now folder.now (B.home self.old.bays) refusal }
        ensures failed { IsErrOf result NodesFault.Failed → HasFailed B.Disk.faults (B.faults self.old.bays) (B.faults self.new.bays) }
        ensures later { B.faults self.old.bays ≤ B.faults self.new.bays }
        ensures same { B.same self.old.bays self.new.bays }
    {
        let kept = copy_of(self.alloc, folder)?;
        let mut slots = empty_slots(self.alloc, shape.nodes * shape.partitions)?;
        let which = Which::All;
        match start(self.alloc, shape, folder, &mut self.bays, &mut slots, which) {
            Ok(()) => {}
            Err(fault) => return Err(fault),
        }
        self.shape = Some(*shape);
        self.folder = kept;
        self.slots = slots;
        Ok(())
    }

    /// Asks the replica of a node and a partition. Where none is open, it says so.
    pub fn ask(&mut self, node: u32, partition: u16, ask: Ask) -> Reply
        requires range { AsksInRange ask }
        ensures asked { AsksReplica B.Disk.tells B.Disk.content B.Disk.size B.Disk.faults (replica_at self.old node partition) ask result (replica_at self.new node partition) }
        ensures others { (n p : ℕ) → (n ≢ node) ⊎ (p ≢ partition) → replica_at self.new n p ≡ replica_at self.old n p }
        ensures none { is_up self.old node partition ≡ false → result ≡ Reply.NoPartition }
        ensures some { is_up self.old node partition ≡ true → CanAnswer ask result × (result ≢ Reply.NoPartition) }
        ensures range { AnswersInRange result }
        ensures up { (n p : ℕ) → is_up self.new n p ≡ is_up self.old n p }
        ensures answered { B.Disk.tells → (shape : Shape) (folder : List ℕ) (cells : Cells) → Holds B.Disk.content B.home shape folder cells self.old → result ≢ Reply.Fault → is_up self.old node partition ≡ true
            → Answers (cells node partition (id_of ask)) ask result ⊎ IsRefusal ask result }
        ensures pages { B.Disk.tells → (shape : Shape) (folder : List ℕ) (cells : Cells) → Holds B.Disk.content B.home shape folder cells self.old → PagesCells (cells node partition) result }
        ensures holds { B.Disk.tells → (shape : Shape) (folder : List ℕ) (cells : Cells) → Holds B.Disk.content B.home shape folder cells self.old → result ≢ Reply.Fault
            → Holds B.Disk.content B.home shape folder (asked_cells cells node partition ask result) self.new }
        // The ask is full exactly where its record has no place in the layout, unless memory runs out, and a record that is put is packed behind the others.
        ensures packed { B.Disk.tells → (shape : Shape) (folder : List ℕ) (cells : Cells) (layouts : Layouts) → Holds B.Disk.content B.home shape folder cells self.old → HaveLayouts B.Disk.content B.home shape folder layouts self.old
            → result ≢ Reply.Fault → is_up self.old node partition ≡ true → IsPacked (settings_of shape) (layouts node partition) (cells node partition (id_of ask)) ask result }
        ensures layouts { B.Disk.tells → (shape : Shape) (folder : List ℕ) (cells : Cells) (layouts : Layouts) → Holds B.Disk.content B.home shape folder cells self.old → HaveLayouts B.Disk.content B.home shape folder layouts self.old
            → result ≢ Reply.Fault → HaveLayouts B.Disk.content B.home shape folder (asked_layouts (settings_of shape) cells layouts node partition ask result) self.new }
        ensures fault { result ≡ Reply.Fault → B.Disk.tells → DiskFailed B.Disk.faults }
        ensures named { (self.new.shape ≡ self.old.shape) × (self.new.folder ≡ self.old.folder) }
        ensures bays { self.new.bays ≡ self.old.bays }
    {
        match self.place_of(node, partition) {
            Some(place) => ask_slot(&mut self.slots[place], ask),
            None => Reply::NoPartition,
        }
    }

    /// Stops a node: its disks go home as a stop of the machine leaves them.
    pub fn stop(&mut self, node: u32)
        requires open { IsSome self.old.shape }
        ensures up { (n p : ℕ) → is_up self.new n p ≡ (is_up self.old n p && not (n == node)) }
        ensures named { (self.new.shape ≡ self.old.shape) × (self.new.folder ≡ self.old.folder) }
        ensures holds { B.Disk.tells → (shape : Shape) (folder : List ℕ) (cells : Cells) → Holds B.Disk.content B.home shape folder cells self.old → Holds B.Disk.content B.home shape folder cells self.new }
        ensures layouts { B.Disk.tells → (shape : Shape) (folder : List ℕ) (layouts : Layouts) → HaveLayouts B.Disk.content B.home shape folder layouts self.old → HaveLayouts B.Disk.content B.home shape folder layouts self.new }
        // A disk goes home as a stop of the machine leaves it.
        ensures left { B.tells → (p : ℕ) (replica : ReplicaState B.Disk) → replica_at self.old node p ≡ Some replica → WentHome B.Disk.tells B.Disk.content B.Disk.size true replica (record { slot = None; home = B.home self.new.bays self.new.folder node p; out = B.out self.new.bays node p }) }
        ensures out { B.tells → (before : Out) → OnlyOwnOut B.out before self.old → OnlyOwnOut B.out before self.new }
        ensures faults { B.faults self.new.bays ≡ B.faults self.old.bays }
        ensures same { B.same self.old.bays self.new.bays }
    {
        let which = Which::Node(node);
        if let Some(shape) = &self.shape {
            halt(
                &mut self.bays,
                &mut self.slots,
                shape.partitions,
                which,
                true,
            );
        }
    }

    /// Opens the replicas of a stopped node again, all or none.
    pub fn restart(&mut self, node: u32) -> Result<(), NodesFault>
        requires open { IsSome self.old.shape }
        requires stopped { (p : ℕ) → is_up self.old node p ≡ false }
        ensures up { OnOk result ((n p : ℕ) → is_up self.new n p ≡ (is_up self.old n p || ((n == node) && stands self.old.shape n p))) }
        ensures err { OnErr result ((n p : ℕ) → is_up self.new n p ≡ is_up self.old n p) }
        ensures named { (self.new.shape ≡ self.old.shape) × (self.new.folder ≡ self.old.folder) }
        ensures holds { B.Disk.tells → (shape : Shape) (folder : List ℕ) (cells : Cells) → Holds B.Disk.content B.home shape folder cells self.old → Holds B.Disk.content B.home shape folder cells self.new }
        ensures layouts { B.Disk.tells → (shape : Shape) (folder : List ℕ) (layouts : Layouts) → HaveLayouts B.Disk.content B.home shape folder layouts self.old → HaveLayouts B.Disk.content B.home shape folder layouts self.new }
        ensures out { B.tells → (before : Out) → OnlyOwnOut B.out before self.old → OnlyOwnOut B.out before self.new }
        ensures refused { (refusal : Refusal) → IsErrOf result (NodesFault.Refused refusal) → refusal.node ≡ node }
        ensures failed { IsErrOf result NodesFault.Failed → HasFailed B.Disk.faults (B.faults self.old.bays) (B.faults self.new.bays) }
        ensures later { B.faults self.old.bays ≤ B.faults self.new.bays }
        ensures same { B.same self.old.bays self.new.bays }
    {
        match &self.shape {
            Some(shape) => start(
                self.alloc,
                shape,
                self.folder.as_str(),
                &mut self.bays,
                &mut self.slots,
                Which::Node(node),
            ),
            None => Ok(()),
        }
    }

    /// Closes all nodes: their disks go home as they are.
    pub fn close(&mut self)
        requires open { IsSome self.old.shape }
        ensures up { (n p : ℕ) → is_up self.new n p ≡ false }
        ensures named { (self.new.shape ≡ self.old.shape) × (self.new.folder ≡ self.old.folder) }
        ensures holds { B.Disk.tells → (shape : Shape) (folder : List ℕ) (cells : Cells) → Holds B.Disk.content B.home shape folder cells self.old → Holds B.Disk.content B.home shape folder cells self.new }
        ensures layouts { B.Disk.tells → (shape : Shape) (folder : List ℕ) (layouts : Layouts) → HaveLayouts B.Disk.content B.home shape folder layouts self.old → HaveLayouts B.Disk.content B.home shape folder layouts self.new }
        ensures left { B.tells → (n p : ℕ) (replica : ReplicaState B.Disk) → replica_at self.old n p ≡ Some replica → WentHome B.Disk.tells B.Disk.content B.Disk.size false replica (record { slot = None; home = B.home self.new.bays self.new.folder n p; out = B.out self.new.bays n p }) }
        ensures out { B.tells → (before : Out) → OnlyOwnOut B.out before self.old → OnlyOwnOut B.out before self.new }
        ensures faults { B.faults self.new.bays ≡ B.faults self.old.bays }
        ensures same { B.same self.old.bays self.new.bays }
    {
        if let Some(shape) = &self.shape {
            halt(
                &mut self.bays,
                &mut self.slots,
                shape.partitions,
                Which::All,
                false,
            );
        }
    }

    /// Hands the bays back.
    pub fn give_back(self) -> B
        ensures { result ≡ self.bays }
    {
        let LabNodes {
            alloc: _,
            shape: _,
            folder: _,
            bays,
            slots: _,
        } = self;
        bays
    }

    /// The place of a node and a partition, where there is one.
    fn place_of(&self, node: u32, partition: u16) -> Option<usize>
        ensures some { IfSome result (λ place. IsPlaceOf self.now node partition place) }
        ensures none { IfNone result (replica_at self.now node partition ≡ None) }
    {
        let shape = self.shape.as_ref()?;
        let partition = u32::from(partition);
        if node == 0 || partition >= shape.partitions {
            return None;
        }
        let place = (node as usize - 1) * shape.partitions as usize + partition as usize;
        if place < self.slots.len() {
            Some(place)
        } else {
            None
        }
    }
}

/// A copy of a name.
fn copy_of(alloc: Global, name: &str) -> Result<String, Memory>
    ensures { IfOk result (λ copy. string_bytes copy ≡ name.now) }
{
    let copy = name.to_string(alloc)?;
    Ok(copy)
}

/// So many places, in each of which no replica is open.
fn empty_slots<D: Disk + Drop>(alloc: Global, count: u32) -> Result<Vec<Option<Replica<D>>>, Memory>
    ensures length { IfOk result (λ slots. length slots.items ≡ count) }
    ensures none { IfOk result (λ slots. (place : ℕ) → slot_at slots.items place ≡ None) }
{
    let mut slots = Vec::new(alloc);
    for _ in 0..count {
        slots.push(None)?;
    }
    Ok(slots)
}

/// Asks the replica of a place, if one is open.
fn ask_slot<D: Disk>(slot: &mut Option<Replica<D>>, ask: Ask) -> Reply
    requires { AsksInRange ask }
    ensures { AsksReplica D.tells D.content D.size D.faults slot.old ask result slot.new }
{
    match slot {
        Some(replica) => replica.ask(ask),
        None => Reply::NoPartition,
    }
}

//! The network with its schedule.

ghost use Rattle.std.specs.Prelude.{◌≡◌, ℕ, ◌≤◌, List, [], true, false, Some, None, IsSome, IfOk, OnOk, OnErr, IsErrOf, cond};
ghost use Rattle.std.specs.Option.{is_some};
ghost use Rattle.std.specs.Result.{is_ok};
ghost use Rattle.lab_nodes.specs.Layouts.{HomeHasLayouts, Layouts};
ghost use Rattle.lab_nodes.specs.Nodes.{HomeHolds, is_up, never_opened};
ghost use Rattle.lab_nodes.specs.Spots.{DiskFailed, HasFailed};
ghost use Rattle.lab_nodes.specs.Starting.{IsFirst};
ghost use Rattle.lab_nodes.specs.declared.places.Which.{Which};
ghost use Rattle.outside.specs.Causes.{Rose};
ghost use Rattle.mem_fabric.specs.Advancing.{PlaysOver};
ghost use Rattle.mem_fabric.specs.AdvancingLaws.{over_nothing, over_on, over_anyhow};
ghost use Rattle.mem_fabric.specs.Going.{AreNodesOf, HasTornBy};
ghost use Rattle.mem_fabric.specs.Network.{is_stopped};
ghost use Rattle.mem_fabric.specs.Packing.{PacksFrom};
ghost use Rattle.mem_fabric.specs.Past.{calls_of};
ghost use Rattle.mem_fabric.specs.Played.{AtMostOne};
ghost use Rattle.mem_fabric.specs.Runs.{RunsFrom};
ghost use Rattle.mem_fabric.specs.Sound.{fresh_state, network_of};
ghost use Rattle.mem_fabric.specs.PlayedLaws.{fresh_told};
ghost use Rattle.mem_fabric.specs.Torn.{has_torn};
ghost use Rattle.world_model.specs.Advancing.{Advances, is_whole};
ghost use Rattle.world_model.specs.Fabric.{Gave, HasNode, IsOpening, KeepsRun, NoStepWhereOneWaited, TakesOrder, Tells, TellsOrder, TellsSend};
ghost use Rattle.world_model.specs.declared.order.PullCause.{PullCause};
ghost use Rattle.world_model.specs.declared.order.Refusal.{Refusal};
ghost use Rattle.world_model.specs.declared.order.Told.{Told};
ghost use Rattle.world_model.specs.declared.shape.Shape.{Shape};
ghost use Rattle.world_model.specs.declared.step.Event.{Event};
ghost use Rattle.world_model.specs.Shape.{IsShape};
ghost use Rattle.world_model.specs.World.{Cells};
ghost use Rattle.world_model.specs.declared.fabric.SendFault.{SendFault};
ghost use Rattle.world_model.specs.declared.fabric.StartFault.{StartFault};

use crate::cluster::Cluster;
use blob_id::Memory;
use disk_core::Bays;
use lab_nodes::{LabNodes, NodesFault};
use std::alloc::Global;
use world_model::{Event, Fabric, Moves, Order, SendFault, Shape, StartFault, Told};

/// A network whose disks and whose moves are handed in, with a count of the sends that it refused and of the openings that failed,
/// which stays at its last value.
#[derive(Drop)]
pub struct MemFabric<B: Bays, M> {
    cluster: Cluster,
    nodes: LabNodes<B>,
    faults: u64,
    fresh: bool,
    opened: bool,
    moves: M,
    ghost empty: { fresh ≡ true → cluster ≡ fresh_state },
    ghost closed: { fresh ≡ true → opened ≡ false },
    ghost unopened: { fresh ≡ true → nodes ≡ never_opened nodes.bays },
    ghost shaped: { opened ≡ true → is_some cluster.shape ≡ true },
    ghost of: { opened ≡ true → AreNodesOf cluster nodes },
    ghost torn: { HasTornBy B.Disk.tells B.Disk.faults cluster },
}

impl<B: Bays, M: Moves> MemFabric<B, M>
where
    B::Disk: Drop,
{
    /// A network that was never opened, told no call and has all disks at home, with its schedule. It takes no memory.
    pub fn new(alloc: Global, bays: B, moves: M) -> MemFabric<B, M>
        ensures fresh { ⟦<MemFabric<B, M> as Fabric>⟧.fresh result ≡ true }
        ensures told { ⟦<MemFabric<B, M> as Fabric>⟧.told result ≡ Some [] }
        ensures moves { result.moves ≡ moves }
        ensures nodes { result.nodes ≡ never_opened bays }
        ensures faults { result.faults ≡ 0 }
        ensures holds { (shape : Shape) (folder : List ℕ) (opening : Cells) → (B.Disk.tells → HomeHolds B.Disk.content B.home shape folder bays opening) → ⟦<MemFabric<B, M> as Fabric>⟧.runs result shape folder opening }
        ensures packs { (shape : Shape) (folder : List ℕ) (opening : Cells) (first : Layouts) → (B.Disk.tells → HomeHolds B.Disk.content B.home shape folder bays opening) → (B.Disk.tells → HomeHasLayouts B.Disk.content B.home shape folder bays first)
            → PacksFrom B.Disk.tells B.Disk.content B.home [] result.nodes shape folder opening first }
    {
        MemFabric {
            cluster: Cluster::new(alloc),
            nodes: LabNodes::new(alloc, bays),
            faults: 0,
            fresh: true,
            opened: false,
            moves,
        }
    }

    /// Hands the bays and the schedule back.
    pub fn give_back(self) -> (B, M)
        ensures bays { result.0 ≡ self.nodes.bays }
        ensures moves { result.1 ≡ self.moves }
    {
        let MemFabric {
            cluster: _,
            nodes,
            faults: _,
            fresh: _,
            opened: _,
            moves,
        } = self;
        (nodes.give_back(), moves)
    }

    /// Gives the event of the move that the schedule picks.
    fn move_on(&mut self) -> Result<Event, Memory>
        requires open { IsSome (cond self.old.opened self.old.cluster.shape None) }
        requires calm { self.old.cluster.queue ≡ [] }
        ensures told { IfOk result (λ event. Tells (Some (calls_of self.old.cluster.past)) (Some (calls_of self.new.cluster.past)) (Gave event)) }
        ensures err { OnErr result (Some (calls_of self.new.cluster.past) ≡ Some (calls_of self.old.cluster.past)) }
        ensures net { Advances ⟦<Self as Fabric>⟧.faults ⟦<Self as Fabric>⟧.opened ⟦<Self as Fabric>⟧.runs ⟦<Self as Fabric>⟧.advances self.old self.new (is_ok result) }
        ensures most { OnErr result (AtMostOne (M.given self.old.moves) (M.given self.new.moves)) }
        ensures count { self.new.faults ≡ self.old.faults }
    {
        let shape = self.cluster.shape().unwrap();
        self.moves.ready()?;
        let chosen = self.moves.pick(
            shape.nodes,
            shape.partitions,
            self.cluster.requests(),
            self.cluster.replies(),
        );
        self.cluster.act(&mut self.nodes, chosen)
    }
}

impl<B: Bays, M: Moves> Fabric for MemFabric<B, M>
where
    B::Disk: Drop,
{
    ghost faults = { λ f. f.faults };

    ghost fresh = { λ f. f.fresh };

    ghost opened = { λ f. cond f.opened f.cluster.shape None };

    ghost told = { λ f. Some (calls_of f.cluster.past) };

    ghost knows = { λ f. B.Disk.tells × (has_torn (calls_of f.cluster.past) ≡ false) };

    ghost runs = { λ f shape folder opening. RunsFrom B.Disk.tells B.Disk.content B.home (calls_of f.cluster.past) f.nodes shape folder opening };

    ghost advances = { λ f g whole. PlaysOver B.tells B.Disk.tells B.Disk.content B.home B.out B.same M.given M.seeds M.same f.moves f.cluster f.nodes g.moves g.cluster g.nodes whole };

    /// Opens it for a shape whose disks lie in a folder, all or none: the first disk that isn't opened decides, by node and then by
    /// partition. It is tried once.
    fn open(&mut self, shape: &Shape, folder: &str) -> Result<(), StartFault>
        requires fresh { self.old.fresh ≡ true }
        requires shape { IsShape shape.now }
        ensures later { self.old.faults ≤ self.new.faults }
        ensures cause { IsErrOf result StartFault.Failed → Rose self.old.faults self.new.faults }
        ensures opened { OnOk result (cond self.new.opened self.new.cluster.shape None ≡ Some shape.now) }
        ensures told { OnOk result (Tells (Some (calls_of self.old.cluster.past)) (Some (calls_of self.new.cluster.past)) IsOpening) }
        ensures err { OnErr result (Some (calls_of self.new.cluster.past) ≡ Some (calls_of self.old.cluster.past)) }
        ensures run { OnOk result (KeepsRun (RunsFrom B.Disk.tells B.Disk.content B.home (calls_of self.old.cluster.past) self.old.nodes shape.now folder.now) (RunsFrom B.Disk.tells B.Disk.content B.home (calls_of self.new.cluster.past) self.new.nodes shape.now folder.now)) }
        ensures net { ⟦<Self as Fabric>⟧.advances self.old self.new (is_ok result) }
        ensures count { (IsErrOf result StartFault.Failed → ⊥) → self.new.faults ≡ self.old.faults }
        ensures failed { IsErrOf result StartFault.Failed → HasFailed B.Disk.faults (B.faults self.old.nodes.bays) (B.faults self.new.nodes.bays) }
        ensures refused { (refusal : Refusal) → IsErrOf result (StartFault.Refused refusal) → B.tells → IsFirst B.Disk.tells B.Disk.content B.Disk.size Which.All shape.now folder.now (B.home self.old.nodes.bays) refusal }
        ensures stays { OnErr result (B.Disk.tells → (cells : Cells) → HomeHolds B.Disk.content B.home shape.now folder.now self.old.nodes.bays cells → HomeHolds B.Disk.content B.home shape.now folder.now self.new.nodes.bays cells) }
        ensures standing { OnOk result (IsSome self.new.nodes.shape) }
        ensures packing { (opening : Cells) (first : Layouts) → PacksFrom B.Disk.tells B.Disk.content B.home (calls_of self.old.cluster.past) self.old.nodes shape.now folder.now opening first → PacksFrom B.Disk.tells B.Disk.content B.home (calls_of self.new.cluster.past) self.new.nodes shape.now folder.now opening first }
        ensures shut { OnErr result ((n p : ℕ) → is_up self.new.nodes n p ≡ false) }
        ensures unmoved { OnErr result (self.new.moves ≡ self.old.moves) }
        ensures later_bays { B.faults self.old.nodes.bays ≤ B.faults self.new.nodes.bays }
    {
        self.fresh = false;
        match self.nodes.open(shape, folder) {
            Ok(()) => {
                self.cluster.open(shape);
                self.opened = true;
                Ok(())
            }
            Err(NodesFault::Failed) => {
                self.faults = self.faults.saturating_add(1);
                Err(StartFault::Failed)
            }
            Err(NodesFault::Refused(refusal)) => Err(StartFault::Refused(refusal)),
            Err(NodesFault::Memory) => Err(StartFault::Memory),
        }
    }

    /// Sends a request to a node. `Failed` comes exactly for a stopped node, unless memory runs out.
    fn send(&mut self, node: u32, frame: &[u8]) -> Result<(), SendFault>
        requires node { HasNode (cond self.old.opened self.old.cluster.shape None) node }
        ensures net { Advances ⟦<Self as Fabric>⟧.faults ⟦<Self as Fabric>⟧.opened ⟦<Self as Fabric>⟧.runs ⟦<Self as Fabric>⟧.advances self.old self.new (is_whole result) }
        ensures cause { IsErrOf result SendFault.Failed → Rose self.old.faults self.new.faults }
        ensures told { TellsSend result (Some (calls_of self.old.cluster.past)) (Some (calls_of self.new.cluster.past)) node frame.now }
        ensures refused { IsErrOf result SendFault.Failed → is_stopped (network_of self.old.cluster) node ≡ true }
        ensures ok { OnOk result (is_stopped (network_of self.old.cluster) node ≡ false) }
        ensures count { (IsErrOf result SendFault.Failed → ⊥) → self.new.faults ≡ self.old.faults }
    {
        if self.cluster.is_stopped(node) {
            match self.cluster.refuse(node, frame) {
                Ok(()) => {
                    self.faults = self.faults.saturating_add(1);
                    Err(SendFault::Failed)
                }
                Err(_) => Err(SendFault::Memory),
            }
        } else {
            match self.cluster.send(node, frame) {
                Ok(()) => Ok(()),
                Err(_) => Err(SendFault::Memory),
            }
        }
    }

    /// Gives the oldest event that waits, or that of the move that the schedule picks. Where it finds no memory the schedule gave
    /// one move at most, and it was not made.
    fn next(&mut self) -> Result<Event, Memory>
        requires open { IsSome (cond self.old.opened self.old.cluster.shape None) }
        ensures net { Advances ⟦<Self as Fabric>⟧.faults ⟦<Self as Fabric>⟧.opened ⟦<Self as Fabric>⟧.runs ⟦<Self as Fabric>⟧.advances self.old self.new (is_ok result) }
        ensures told { IfOk result (λ event. Tells (Some (calls_of self.old.cluster.past)) (Some (calls_of self.new.cluster.past)) (Gave event)) }
        ensures waited { OnOk result (NoStepWhereOneWaited (Some (calls_of self.old.cluster.past)) (Some (calls_of self.new.cluster.past))) }
        ensures err { OnErr result (Some (calls_of self.new.cluster.past) ≡ Some (calls_of self.old.cluster.past)) }
        ensures most { OnErr result (AtMostOne (M.given self.old.moves) (M.given self.new.moves)) }
        ensures count { self.new.faults ≡ self.old.faults }
    {
        if self.cluster.queued() == 0 {
            self.move_on()
        } else {
            Ok(self.cluster.give())
        }
    }

    /// Stops a node, or lets it run again, unless its disks aren't opened.
    fn admin(&mut self, order: &Order) -> Result<Told, SendFault>
        requires order { TakesOrder (cond self.old.opened self.old.cluster.shape None) order.now }
        ensures net { Advances ⟦<Self as Fabric>⟧.faults ⟦<Self as Fabric>⟧.opened ⟦<Self as Fabric>⟧.runs ⟦<Self as Fabric>⟧.advances self.old self.new (is_whole result) }
        ensures cause { IsErrOf result SendFault.Failed → Rose self.old.faults self.new.faults }
        ensures told { TellsOrder result (Some (calls_of self.old.cluster.past)) (Some (calls_of self.new.cluster.past)) order.now }
        ensures never { IsErrOf result SendFault.Failed → ⊥ }
        ensures stuck { IfOk result (λ answer. answer ≡ Told.Stuck PullCause.Fault → HasFailed B.Disk.faults (B.faults self.old.nodes.bays) (B.faults self.new.nodes.bays)) }
        ensures later_bays { B.faults self.old.nodes.bays ≤ B.faults self.new.nodes.bays }
        ensures count { self.new.faults ≡ self.old.faults }
    {
        match self.cluster.obey(&mut self.nodes, *order) {
            Ok(answer) => Ok(answer),
            Err(_) => Err(SendFault::Memory),
        }
    }

    fn queued(&self) -> u32 {
        self.cluster.queued()
    }

    /// Closes all nodes: their disks go home as they are.
    fn close(&mut self)
        requires open { IsSome (cond self.old.opened self.old.cluster.shape None) }
        ensures later { self.old.faults ≤ self.new.faults }
        ensures opened { cond self.new.opened self.new.cluster.shape None ≡ None }
        ensures told { Some (calls_of self.new.cluster.past) ≡ Some (calls_of self.old.cluster.past) }
        ensures run { (cluster : Shape) (place : List ℕ) → KeepsRun (RunsFrom B.Disk.tells B.Disk.content B.home (calls_of self.old.cluster.past) self.old.nodes cluster place) (RunsFrom B.Disk.tells B.Disk.content B.home (calls_of self.new.cluster.past) self.new.nodes cluster place) }
        ensures net { ⟦<Self as Fabric>⟧.advances self.old self.new true }
        ensures count { self.new.faults ≡ self.old.faults }
        ensures home { (n p : ℕ) → is_up self.new.nodes n p ≡ false }
        ensures torn { has_torn (calls_of self.new.cluster.past) ≡ true → B.Disk.tells → ∥ DiskFailed B.Disk.faults ∥₁ }
        ensures faults { B.faults self.new.nodes.bays ≡ B.faults self.old.nodes.bays }
    {
        self.nodes.close();
        self.opened = false;
    }

    ghost fresh_did_nothing = { λ a calls f t. fresh_told a.fresh a.cluster calls a.empty f t };

    ghost runs_by_rules = { λ a cluster place opening k r. (r k.0 k.1).run };

    ghost advances_nowhere = { λ f. over_nothing B.tells B.Disk.tells B.Disk.content B.home B.out B.same M.given M.seeds M.same f.moves f.cluster f.nodes (M.same_self f.moves) (B.same_self f.nodes.bays) };

    ghost advances_on = { λ f g h x y. over_on B.tells B.Disk.tells B.Disk.content B.home B.out B.same M.given M.seeds M.same f.moves f.cluster f.nodes g.moves g.cluster g.nodes h.moves h.cluster h.nodes x y (M.same_on f.moves g.moves h.moves) (B.same_on f.nodes.bays g.nodes.bays h.nodes.bays) };

    ghost advances_anyhow = { λ f g x. over_anyhow B.tells B.Disk.tells B.Disk.content B.home B.out B.same M.given M.seeds M.same f.moves f.cluster f.nodes g.moves g.cluster g.nodes x };
}

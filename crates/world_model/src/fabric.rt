//! The network as the router and the session see it.

ghost use Rattle.std.specs.Prelude.{◌≡◌, ℕ, ◌≤◌, Bool, true, false, ◌&&◌, List, [], Option, Some, None, IsSome, IfOk, OnOk, OnErr, IsErrOf};
ghost use Rattle.std.specs.Result.{is_ok};
ghost use Rattle.outside.specs.Causes.{Rose};
ghost use Rattle.world_model.specs.declared.shape.Shape.{Shape};
ghost use Rattle.world_model.specs.declared.step.Called.{Called};
ghost use Rattle.world_model.specs.Advancing.{Advances, is_whole};
ghost use Rattle.world_model.specs.AdvancingLaws.{and_then, anyhow, nowhere};
ghost use Rattle.world_model.specs.Fabric.{Awaits, Gave, HasNode, IsOpening, IsToldRun, KeepsRun, NoStepWhereOneWaited, TakesOrder, Tells, TellsOrder, TellsSend};
ghost use Rattle.world_model.specs.Shape.{IsShape};
ghost use Rattle.world_model.specs.World.{Cells};

use crate::order::{Order, Refusal, Told};
use crate::shape::Shape;
use crate::step::Event;
use blob_id::Memory;
use thiserror::Error;

/// Why a network couldn't be opened.
#[derive(Clone, Copy, Debug, PartialEq, Eq, Error)]
pub enum StartFault {
    #[error("the network failed")]
    Failed,
    /// This disk has another size, or isn't that of such a log.
    #[error("a disk isn't opened")]
    Refused(Refusal),
    #[error("out of memory")]
    Memory,
}

/// Why a frame couldn't be sent.
#[derive(Clone, Copy, Debug, PartialEq, Eq, Error)]
pub enum SendFault {
    #[error("the frame couldn't be sent")]
    Failed,
    #[error("out of memory")]
    Memory,
}

/// A network of nodes. Where `told` is some list, it tells what its calls did, the newest first. Where what it tells is a run
/// of the model from given cells to those that its replicas hold, each call keeps this.
pub trait Fabric {
    /// How often it has failed.
    ghost faults: { Self → ℕ };

    /// Whether it was never opened.
    ghost fresh: { Self → Bool };

    /// The shape that it is open for.
    ghost opened: { Self → Option Shape };

    /// What its calls did, where it tells this. A call that finds no memory and `close` tell nothing.
    ghost told: { Self → Option (List Called) };

    /// Whether what its replicas hold is known: their disks tell it.
    ghost knows: { Self → Type 0 };

    /// For a shape and a folder: from these cells, where it knows what its replicas hold, what it told is a run to that. Before
    /// `open` they are what an opening would find.
    ghost runs: { Self → Shape → List ℕ → Cells → Type 0 };

    /// What a network of this kind may become by its calls. They were `whole` where none found no memory and no opening failed.
    ghost advances: { Self → Self → (whole : Bool) → Type 0 };

    /// Opens it for a cluster whose disks lie in a folder.
    fn open(&mut self, shape: &Shape, folder: &str) -> Result<(), StartFault>
        requires fresh { fresh self.old ≡ true }
        requires shape { IsShape shape.now }
        ensures later { faults self.old ≤ faults self.new }
        ensures cause { IsErrOf result StartFault.Failed → Rose (faults self.old) (faults self.new) }
        ensures opened { OnOk result (opened self.new ≡ Some shape.now) }
        ensures told { OnOk result (Tells (told self.old) (told self.new) IsOpening) }
        ensures err { OnErr result (told self.new ≡ told self.old) }
        ensures run { OnOk result (KeepsRun (runs self.old shape.now folder.now) (runs self.new shape.now folder.now)) }
        ensures net { advances self.old self.new (is_ok result) };

    /// Sends a request to a node. `Failed` is a refusal, which is told; after `Memory` nothing was sent.
    fn send(&mut self, node: u32, frame: &[u8]) -> Result<(), SendFault>
        requires node { HasNode (opened self.old) node }
        ensures net { Advances faults opened runs advances self.old self.new (is_whole result) }
        ensures cause { IsErrOf result SendFault.Failed → Rose (faults self.old) (faults self.new) }
        ensures told { TellsSend result (told self.old) (told self.new) node frame.now };

    /// Gives the oldest event that was made and not given yet, or moves on and gives what comes of it. After `Memory` nothing
    /// was done.
    fn next(&mut self) -> Result<Event, Memory>
        requires open { IsSome (opened self.old) }
        ensures net { Advances faults opened runs advances self.old self.new (is_ok result) }
        ensures told { IfOk result (λ event. Tells (told self.old) (told self.new) (Gave event)) }
        ensures waited { OnOk result (NoStepWhereOneWaited (told self.old) (told self.new)) }
        ensures err { OnErr result (told self.new ≡ told self.old) };

    /// Carries an order out, and waits for what comes of it. The events that it makes are given by `next`. A refusal tells nothing.
    fn admin(&mut self, order: &Order) -> Result<Told, SendFault>
        requires order { TakesOrder (opened self.old) order.now }
        ensures net { Advances faults opened runs advances self.old self.new (is_whole result) }
        ensures cause { IsErrOf result SendFault.Failed → Rose (faults self.old) (faults self.new) }
        ensures told { TellsOrder result (told self.old) (told self.new) order.now };

    /// How many events `next` gives before it moves on.
    fn queued(&self) -> u32
        ensures { Awaits (told self.now) result };

    /// Closes it. It can't be opened again.
    fn close(&mut self)
        requires open { IsSome (opened self.old) }
        ensures later { faults self.old ≤ faults self.new }
        ensures opened { opened self.new ≡ None }
        ensures told { told self.new ≡ told self.old }
        ensures run { (cluster : Shape) (place : List ℕ) → KeepsRun (runs self.old cluster place) (runs self.new cluster place) }
        ensures net { advances self.old self.new true };

    /// A network that was never opened has done nothing.
    ghost fresh_did_nothing: { (a : Self) (calls : List Called) → fresh a ≡ true → told a ≡ Some calls → calls ≡ [] };

    /// A run that is known is one of the model.
    ghost runs_by_rules: { (a : Self) (cluster : Shape) (place : List ℕ) (opening : Cells) → knows a → runs a cluster place opening → IsToldRun opening (told a) };

    ghost advances_nowhere: { (a : Self) → advances a a true };

    ghost advances_on: { (a b c : Self) (x y : Bool) → advances a b x → advances b c y → advances a c (x && y) };

    /// What it became by any calls, it became by calls that may not have been whole.
    ghost advances_anyhow: { (a b : Self) (x : Bool) → advances a b x → advances a b false };

    // What these laws come to between the opening and the closing. An implementation leaves the proofs as they are.

    ghost net_nowhere: { (a : Self) (whole : Bool) → Advances faults opened runs advances a a whole } = { λ a whole. nowhere faults opened runs advances a whole (advances_nowhere a) (advances_anyhow a a true) };

    ghost net_and_then: { (a b c : Self) (whole : Bool) → Advances faults opened runs advances a b true → Advances faults opened runs advances b c whole → Advances faults opened runs advances a c whole } = { λ a b c whole. and_then faults opened runs advances a b c whole (advances_on a b c true whole) };

    ghost net_anyhow: { (a b : Self) (whole : Bool) → Advances faults opened runs advances a b true → Advances faults opened runs advances a b whole } = { λ a b whole. anyhow faults opened runs advances a b whole (advances_anyhow a b true) };
}

/// A network that is lent.
impl<F: Fabric> Fabric for &mut F {
    ghost faults = { λ f. F.faults f.now };

    ghost fresh = { λ f. F.fresh f.now };

    ghost opened = { λ f. F.opened f.now };

    ghost told = { λ f. F.told f.now };

    ghost knows = { λ f. F.knows f.now };

    ghost runs = { λ f cluster place opening. F.runs f.now cluster place opening };

    ghost advances = { λ f g whole. F.advances f.now g.now whole };

    fn open(&mut self, shape: &Shape, folder: &str) -> Result<(), StartFault> {
        (**self).open(shape, folder)
    }

    fn send(&mut self, node: u32, frame: &[u8]) -> Result<(), SendFault> {
        (**self).send(node, frame)
    }

    fn next(&mut self) -> Result<Event, Memory> {
        (**self).next()
    }

    fn admin(&mut self, order: &Order) -> Result<Told, SendFault> {
        (**self).admin(order)
    }

    fn queued(&self) -> u32 {
        (**self).queued()
    }

    fn close(&mut self) {
        (**self).close()
    }

    ghost fresh_did_nothing = { λ a calls f t. F.fresh_did_nothing a.now calls f t };

    ghost runs_by_rules = { λ a cluster place opening k r. F.runs_by_rules a.now cluster place opening k r };

    ghost advances_nowhere = { λ a. F.advances_nowhere a.now };

    ghost advances_on = { λ a b c x y p q. F.advances_on a.now b.now c.now x y p q };

    ghost advances_anyhow = { λ a b x p. F.advances_anyhow a.now b.now x p };
}

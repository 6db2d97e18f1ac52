//! A delete.

ghost use Rattle.std.specs.Prelude.{◌≡◌, ◌≤◌, ◌⊎◌, ℕ, List, []};
ghost use Rattle.delete_op.specs.Deletes.{delete_outcome, delete_plan, removal};
ghost use Rattle.delete_op.specs.Standing.{IsDelete};
ghost use Rattle.operation.specs.Calls.{Call, is_done};
ghost use Rattle.operation.specs.Pieces.{IsPieceOf, Target, failed_at, verdict_at};
ghost use Rattle.operation.specs.Giving.{Gives};
ghost use Rattle.operation.specs.Stages.{IsOrMemory};
ghost use Rattle.blob_id.specs.declared.id.BlobId.{BlobId};
ghost use Rattle.quorum_op.specs.declared.cause.Cause.{Cause};
ghost use Rattle.quorum_op.specs.declared.outcome.Outcome.{Outcome};

use blob_id::{BlobId, Bytes, Memory};
use cell_model::Reply;
use operation::{
    Errand, Operation, Piece, Poll, Sending, Stage, make_room, replicas_below, send_along,
    spell_delete,
};
use quorum_op::{Cause, Outcome, Verdict};
use std::alloc::Global;

/// A delete of an id at a moment, in ms. It asks all replicas of the id at once, and is acknowledged by so many of them as are needed.
#[derive(Drop)]
pub struct DelOp {
    id: BlobId,
    at: u64,
    replicas: u32,
    need: u32,
    piece: Piece,
    /// The number of the next request.
    next: u32,
    /// The replicas were asked.
    asked: bool,
    stage: Stage,
    ghost few: { replicas ≤ 9 },
}

impl DelOp {
    /// A delete that was told nothing yet.
    pub fn new(id: BlobId, at: u64, replicas: u32, need: u32) -> DelOp
        requires some { 1 ≤ need }
        requires enough { need ≤ replicas }
        requires few { replicas ≤ 9 }
        ensures plan { ⟦<DelOp as Operation>⟧.plan result ≡ delete_plan (record { id = id; at = at; replicas = replicas; need = need }) }
        ensures stands { ⟦<DelOp as Operation>⟧.stands result [] }
    {
        DelOp {
            id,
            at,
            replicas,
            need,
            piece: Piece::new(None, 0, Errand::Delete(id, at), replicas, need),
            next: 1,
            asked: false,
            stage: Stage::Running,
        }
    }

    /// Whether it has an outcome.
    fn is_over(&self) -> bool
        ensures { (calls : List Call) → ⟦<DelOp as Operation>⟧.stands self.now calls → result ≡ is_done ((⟦<DelOp as Operation>⟧.plan self.now).outcome calls) }
    {
        self.stage.is_over(ends(self.piece.verdict()))
    }

    /// What it gives now: its outcome, or want of memory for that, unless it was given before.
    fn outcome(&self, alloc: Global) -> Option<Outcome>
        ensures { (calls : List Call) → ⟦<DelOp as Operation>⟧.stands self.now calls → Gives (⟦<DelOp as Operation>⟧.plan self.now) calls result }
    {
        match self.stage {
            Stage::Running => removal(alloc, self.id, &self.piece),
            Stage::Cancelled => Some(Outcome::Cancelled),
            Stage::Starved => Some(Outcome::Memory),
            Stage::Given => None,
        }
    }
}

impl Operation for DelOp {
    ghost use Rattle.delete_op.specs.Meaning.{plan_of, stands_at};

    ghost plan = { plan_of };

    ghost stands = { stands_at };

    fn sends(
        &mut self,
        alloc: Global,
        order: &[u32],
        out: &mut Vec<Sending>,
    ) -> Result<(), Memory> {
        if self.asked || self.is_over() {
            return Ok(());
        }
        if make_room(self.next, self.replicas as usize, out).is_err() {
            self.stage = Stage::Starved;
            return Err(Memory);
        }
        let replicas = replicas_below(self.replicas);
        self.next = send_along(&mut self.piece, self.next, replicas, out);
        self.asked = true;
        Ok(())
    }

    fn spell(
        &mut self,
        alloc: Global,
        sending: &Sending,
        correlation: u64,
    ) -> Result<Bytes, Memory> {
        match sending.errand {
            Errand::Delete(id, at) => spell_delete(alloc, id, at, correlation),
            // It sends none of these.
            Errand::Put(_) | Errand::Get(_) => Ok(Bytes::new(alloc)),
        }
    }

    fn on_reply(&mut self, alloc: Global, request: u32, reply: Reply) -> Result<(), Memory> {
        self.piece.on_reply(request, reply);
        Ok(())
    }

    fn on_fail(&mut self, request: u32, cause: Cause) {
        self.piece.on_fail(request, cause);
    }

    fn cancel(&mut self) {
        if !self.is_over() {
            self.stage = Stage::Cancelled;
        }
    }

    fn poll(&mut self, alloc: Global) -> Poll {
        match self.outcome(alloc) {
            Some(outcome) => {
                self.stage = Stage::Given;
                Poll::Done(outcome)
            }
            None => Poll::Pending,
        }
    }
}

/// Whether a delete with this verdict has an outcome.
fn ends(verdict: Verdict) -> bool
    ensures { (id : BlobId) (failed : List (ℕ × Cause)) → result ≡ is_done (removal id verdict failed) }
{
    match verdict {
        Verdict::Ok | Verdict::Unavailable => true,
        Verdict::Pending | Verdict::Gone | Verdict::NotFound => false,
    }
}

/// What a piece that was deleted comes to, or want of memory for that.
fn removal(alloc: Global, id: BlobId, piece: &Piece) -> Option<Outcome>
    ensures { (t : Target) (calls : List Call) → IsPieceOf t piece.now calls → IsOrMemory (removal id (verdict_at t calls) (failed_at t calls)) result }
{
    match piece.verdict() {
        Verdict::Ok => Some(Outcome::Deleted2),
        Verdict::Unavailable => Some(unavailable(alloc, id, piece)),
        Verdict::Pending | Verdict::Gone | Verdict::NotFound => None,
    }
}

/// That the failed replicas leave no quorum, or want of memory for their list.
fn unavailable(alloc: Global, id: BlobId, piece: &Piece) -> Outcome
    ensures { (t : Target) (calls : List Call) → IsPieceOf t piece.now calls → (result ≡ Outcome.Unavailable id (failed_at t calls)) ⊎ (result ≡ Outcome.Memory) }
{
    match piece.failures(alloc) {
        Ok(failed) => Outcome::Unavailable { id, failed },
        Err(Memory) => Outcome::Memory,
    }
}

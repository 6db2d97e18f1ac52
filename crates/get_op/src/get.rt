//! A get.

ghost use Rattle.std.specs.Prelude.{◌≡◌, ◌⊎◌, ◌≤◌, false, [], List, None, Option, Some, IfOk};
ghost use Rattle.get_op.specs.Gets.{GetStands, GetTask, bytes_of, get_decides, get_outcome, get_plan, get_target};
ghost use Rattle.operation.specs.Calls.{Call, asked_frame, is_done};
ghost use Rattle.operation.specs.Pieces.{IsPieceOf, Target, failed_at};
ghost use Rattle.operation.specs.Stages.{IsOrMemory, is_given};
ghost use Rattle.operation.specs.declared.sending.Errand.{Errand};
ghost use Rattle.operation.specs.declared.sending.Sending.{Sending};
ghost use Rattle.quorum_op.specs.declared.outcome.Outcome.{Outcome};
ghost use Rattle.req_frame.specs.Reading.{frame_of};
ghost use Rattle.req_frame.specs.declared.frame.Body.TheVariants as body;

use blob_id::{Blob, BlobId, Bytes, Memory};
use cell_model::Reply;
use operation::{Errand, Operation, Piece, Poll, Sending, Stage, make_room, send_along};
use quorum_op::{Cause, Outcome, Verdict};
use req_frame::{Body, Frame, encode};
use std::alloc::Global;

/// A get of a blob in one piece.
#[derive(Drop)]
pub struct GetOp {
    id: BlobId,
    replicas: u32,
    need: u32,
    piece: Piece,
    next: u32,
    stage: Stage,
}

impl GetOp {
    /// A get of an id, of which so many replicas have to be found. Nothing was asked yet.
    pub fn new(id: BlobId, replicas: u32, need: u32) -> GetOp
        requires some { 1 ≤ need }
        requires enough { need ≤ replicas }
        requires few { replicas ≤ 9 }
        ensures plan { ⟦<GetOp as Operation>⟧.plan result ≡ get_plan (record { id = id; replicas = replicas; need = need }) }
        ensures stands { ⟦<GetOp as Operation>⟧.stands result [] }
    {
        GetOp {
            id,
            replicas,
            need,
            piece: Piece::new(None, 0, Errand::Get(id), replicas, need),
            next: 1,
            stage: Stage::Running,
        }
    }

    /// Whether it has an outcome.
    fn is_over(&self) -> bool
        ensures { (calls : List Call) → GetStands (record { id = self.now.id; replicas = self.now.replicas; need = self.now.need }) self.now.piece self.now.next self.now.stage calls → result ≡ is_done (get_outcome (record { id = self.now.id; replicas = self.now.replicas; need = self.now.need }) calls) }
    {
        self.stage.is_over(is_read(&self.piece))
    }
}

impl Operation for GetOp {
    ghost use Rattle.get_op.specs.Gets.{plan_of, stands_at};

    ghost plan = { plan_of };

    ghost stands = { stands_at };

    fn sends(
        &mut self,
        alloc: Global,
        order: &[u32],
        out: &mut Vec<Sending>,
    ) -> Result<(), Memory> {
        if self.is_over() {
            return Ok(());
        }
        if make_room(self.next, order.len(), out).is_err() {
            self.stage = Stage::Starved;
            return Err(Memory);
        }
        self.next = send_along(&mut self.piece, self.next, order, out);
        Ok(())
    }

    fn spell(
        &mut self,
        alloc: Global,
        sending: &Sending,
        correlation: u64,
    ) -> Result<Bytes, Memory> {
        match sending.errand {
            Errand::Get(id) => spell_get(alloc, id, correlation),
            // It sends none of these.
            Errand::Put(_) | Errand::Delete(_, _) => Ok(Bytes::new(alloc)),
        }
    }

    fn on_reply(&mut self, alloc: Global, request: u32, reply: Reply) -> Result<(), Memory> {
        self.piece.on_reply(request, reply);
        Ok(())
    }

    fn on_fail(&mut self, request: u32, cause: Cause) {
        self.piece.on_fail(request, cause);
    }

    fn cancel(&mut self) {
        if !self.is_over() {
            self.stage = Stage::Cancelled;
        }
    }

    fn poll(&mut self, alloc: Global) -> Poll {
        match self.stage {
            Stage::Running => match read_outcome(alloc, &mut self.piece, self.id) {
                Some(outcome) => {
                    self.stage = Stage::Given;
                    Poll::Done(outcome)
                }
                None => Poll::Pending,
            },
            Stage::Cancelled => {
                self.stage = Stage::Given;
                Poll::Done(Outcome::Cancelled)
            }
            Stage::Starved => {
                self.stage = Stage::Given;
                Poll::Done(Outcome::Memory)
            }
            Stage::Given => Poll::Pending,
        }
    }
}

/// Whether a piece comes to an outcome of its get.
fn is_read(piece: &Piece) -> bool
    ensures { (task : GetTask) (calls : List Call) → IsPieceOf (get_target task) piece.now calls → result ≡ is_done (get_decides task calls) }
{
    match piece.verdict() {
        Verdict::Pending => false,
        Verdict::Ok => piece.has_blob(),
        Verdict::Gone | Verdict::NotFound | Verdict::Unavailable => true,
    }
}

/// What a piece comes to. The bytes of its blob are moved out.
fn read_outcome(alloc: Global, piece: &mut Piece, id: BlobId) -> Option<Outcome>
    ensures same { piece.new.errand ≡ piece.old.errand }
    ensures comes { (task : GetTask) (calls : List Call) → task.id ≡ id → IsPieceOf (get_target task) piece.old calls → IsOrMemory (get_decides task calls) result }
    ensures none { result ≡ None → piece.new ≡ piece.old }
{
    match piece.verdict() {
        Verdict::Pending => None,
        Verdict::Ok => bytes_of(piece.take_blob()),
        Verdict::Gone => Some(Outcome::Deleted),
        Verdict::NotFound => Some(Outcome::NotFound),
        Verdict::Unavailable => Some(unavailable(alloc, piece, id)),
    }
}

/// The bytes of a blob that came.
fn bytes_of(blob: Option<Blob>) -> Option<Outcome>
    ensures { result ≡ bytes_of blob }
{
    let Blob { body, .. } = blob?;
    Some(Outcome::Bytes(body))
}

/// The failures of a piece, or want of memory for them.
fn unavailable(alloc: Global, piece: &Piece, id: BlobId) -> Outcome
    ensures { (t : Target) (calls : List Call) → IsPieceOf t piece.now calls → (result ≡ Outcome.Unavailable id (failed_at t calls)) ⊎ (result ≡ Outcome.Memory) }
{
    match piece.failures(alloc) {
        Ok(failed) => Outcome::Unavailable { id, failed },
        Err(_) => Outcome::Memory,
    }
}

/// The bytes of a request to get an id.
fn spell_get(alloc: Global, id: BlobId, correlation: u64) -> Result<Bytes, Memory>
    ensures { (sending : Sending) → sending.errand ≡ Errand.Get id → IfOk result (λ bytes. frame_of bytes ≡ Some (asked_frame correlation sending (body.Get id))) }
{
    encode(
        alloc,
        &Frame {
            correlation,
            partition: id.partition(),
            body: Body::Get(id),
        },
    )
}

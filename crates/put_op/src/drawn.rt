//! What was drawn for a put.

ghost use Rattle.std.specs.Prelude.{◌≡◌, ◌⊎◌, ◌++◌, ◌+◌, ◌^◌, ◌<◌, ◌≤◌, ℕ, List, vec_len, vec_capacity};
ghost use Rattle.blob_id.specs.declared.id.BlobId.{BlobId};
ghost use Rattle.operation.specs.Calls.{Call};
ghost use Rattle.operation.specs.Each.{to_each};
ghost use Rattle.operation.specs.Pieces.{IsPieceOf, Target, failed_at, verdict_at};
ghost use Rattle.operation.specs.Stages.{IsOrMemory};
ghost use Rattle.operation.specs.declared.sending.Errand.TheVariants.{Delete};
ghost use Rattle.operation.specs.declared.sending.Purpose.TheVariants.{GivenUp};
ghost use Rattle.put_op.specs.Puts.{storing};
ghost use Rattle.put_op.specs.Standing.{course_of};
ghost use Rattle.quorum_op.specs.declared.cause.Cause.{Cause};
ghost use Rattle.quorum_op.specs.declared.outcome.Outcome.{Outcome};

use blob_id::{BlobId, Kind, Memory};
use operation::{Errand, Piece, Purpose, Sending, add};
use quorum_op::{Outcome, Verdict};
use std::alloc::Global;

/// A piece that an id is to be drawn for: which it is, which attempt at it this is, the kind of its id, and the bytes of the blob that it has.
#[derive(Clone, Copy, Debug, PartialEq, Eq)]
pub struct Want {
    pub piece: u32,
    pub attempt: u32,
    pub kind: Kind,
    pub from: u64,
    pub len: u32,
}

/// The id that was drawn, and the piece that is put under it.
#[derive(Drop)]
pub struct Drawn {
    pub id: BlobId,
    pub piece: Piece,
    /// Its replicas were asked to store it.
    pub asked: bool,
    /// They were asked to delete the id.
    pub given_up: bool,
}

/// How far a put is.
#[derive(Clone, Copy, Debug, PartialEq, Eq)]
pub enum Course {
    Pending,
    Stored,
    /// It ended otherwise.
    Failed,
}

/// How far a put is whose piece comes to this.
pub fn course_of(verdict: Verdict) -> Course
    ensures { (id : BlobId) (failed : List (ℕ × Cause)) → result ≡ course_of (storing id verdict failed) }
{
    match verdict {
        Verdict::Ok => Course::Stored,
        Verdict::Unavailable => Course::Failed,
        Verdict::Pending | Verdict::Gone | Verdict::NotFound => Course::Pending,
    }
}

/// What a put comes to by its piece, or want of memory for that.
pub fn outcome_of(alloc: Global, id: BlobId, piece: &Piece) -> Option<Outcome>
    ensures { (t : Target) (calls : List Call) → IsPieceOf t piece.now calls → IsOrMemory (storing id (verdict_at t calls) (failed_at t calls)) result }
{
    match piece.verdict() {
        Verdict::Ok => Some(Outcome::Put(id)),
        Verdict::Unavailable => Some(unavailable(alloc, id, piece)),
        Verdict::Pending | Verdict::Gone | Verdict::NotFound => None,
    }
}

/// The failures of a piece, or want of memory for them.
fn unavailable(alloc: Global, id: BlobId, piece: &Piece) -> Outcome
    ensures { (t : Target) (calls : List Call) → IsPieceOf t piece.now calls → (result ≡ Outcome.Unavailable id (failed_at t calls)) ⊎ (result ≡ Outcome.Memory) }
{
    match piece.failures(alloc) {
        Ok(failed) => Outcome::Unavailable { id, failed },
        Err(Memory) => Outcome::Memory,
    }
}

/// Asks each of so many replicas to delete an id, by requests that are numbered on from the first.
pub fn ask_removal(id: BlobId, replicas: u32, first: u32, out: &mut Vec<Sending>)
    requires room { vec_len out.old + replicas ≤ vec_capacity out.old }
    requires numbers { first + replicas < 2 ^ 32 }
    ensures { out.new.items ≡ out.old.items ++ to_each GivenUp (Delete id 0) first replicas }
{
    for replica in 0..replicas {
        add(
            out,
            Sending {
                request: first + replica,
                replica,
                purpose: Purpose::GivenUp,
                errand: Errand::Delete(id, 0),
            },
        );
    }
}

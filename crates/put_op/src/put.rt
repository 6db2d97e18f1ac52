//! A put.

ghost use Rattle.std.specs.Prelude.{◌≡◌, ◌≢◌, ◌++◌, ◌∷◌, ◌≤◌, ℕ, List, [], Option, Some, None, length, true};
ghost use Rattle.std.specs.List.{list_all};
ghost use Rattle.blob_id.specs.Blob.{IsBlob, is_type_byte};
ghost use Rattle.blob_id.specs.declared.id.BlobId.{BlobId};
ghost use Rattle.operation.specs.Calls.{Call, Drew, is_done, sent_all, unless_nothing, unless_starved};
ghost use Rattle.operation.specs.Giving.{Gives};
ghost use Rattle.put_op.specs.Puts.{PutTask, put_outcome, put_plan, put_target, put_want, put_wants, storing, whole_piece};
ghost use Rattle.put_op.specs.Standing.{Fits, IsPut, course_of};
ghost use Rattle.put_op.specs.declared.drawn.Course.TheVariants.{Failed, Pending};
ghost use Rattle.quorum_op.specs.declared.outcome.Outcome.{Outcome};

use crate::drawn::{Course, Drawn, Want, ask_removal, course_of, outcome_of};
use crate::spelling::spell_put;
use blob_id::{Blob, BlobId, Bytes, Kind, Memory};
use cell_model::Reply;
use operation::{
    Errand, Operation, Piece, Poll, Sending, Stage, make_room, replicas_below, send_along,
    spell_delete,
};
use quorum_op::{Cause, Outcome};
use std::alloc::Global;
use std::mem;

/// A put of a blob in one piece. Once an id was drawn for it, it asks all replicas at once to store the blob, and is stored by so many of them
/// as are needed. Once it ended otherwise, it gives the id up: it asks all replicas to delete it.
#[derive(Drop)]
pub struct PutOp {
    total: u64,
    replicas: u32,
    need: u32,
    /// The blob, whose body comes with the id.
    blob: Blob,
    drawn: Option<Drawn>,
    /// The number of the next request.
    next: u32,
    stage: Stage,
    /// How far it was when the outcome was given.
    course: Course,
    ghost some: { 1 ≤ need },
    ghost enough: { need ≤ replicas },
    ghost few: { replicas ≤ 9 },
    ghost short: { total ≤ 4194304 },
    ghost fits: { IsBlob blob },
}

impl PutOp {
    /// A put of so many bytes at a moment, in ms, that was told nothing yet. A type has at most 64 printable bytes and isn't a dash alone;
    /// metadata have at most 1,024 bytes.
    pub fn new(
        alloc: Global,
        total: u64,
        replicas: u32,
        need: u32,
        created: u64,
        ctype: Bytes,
        meta: Bytes,
    ) -> PutOp
        requires short { total ≤ 4194304 }
        requires some { 1 ≤ need }
        requires enough { need ≤ replicas }
        requires few { replicas ≤ 9 }
        requires type_length { length ctype ≤ 64 }
        requires type_bytes { list_all is_type_byte ctype ≡ true }
        requires no_dash { ctype ≢ 45 ∷ [] }
        requires meta_length { length meta ≤ 1024 }
        ensures plan { ⟦<PutOp as Operation>⟧.plan result ≡ put_plan (record { total = total; replicas = replicas; need = need; created = created; ctype = ctype; meta = meta }) }
        ensures stands { ⟦<PutOp as Operation>⟧.stands result [] }
        ensures wanted { (task : PutTask) (calls : List Call) → ⟦<PutOp as Operation>⟧.plan result ≡ put_plan task → ⟦<PutOp as Operation>⟧.stands result calls → put_want task calls ≡ Some (whole_piece (record { total = total; replicas = replicas; need = need; created = created; ctype = ctype; meta = meta })) }
    {
        PutOp {
            total,
            replicas,
            need,
            blob: Blob {
                created,
                ctype,
                meta,
                body: Bytes::new(alloc),
            },
            drawn: None,
            next: 1,
            stage: Stage::Running,
            course: Course::Pending,
        }
    }

    /// The piece that an id is to be drawn for, if there is one.
    pub fn wants(&self) -> Option<Want>
        ensures { (task : PutTask) (calls : List Call) → ⟦<PutOp as Operation>⟧.plan self.now ≡ put_plan task → ⟦<PutOp as Operation>⟧.stands self.now calls → result ≡ put_want task calls }
    {
        match self.course() {
            Course::Pending => match &self.drawn {
                None => Some(Want {
                    piece: 0,
                    attempt: 0,
                    kind: Kind::Simple,
                    from: 0,
                    len: self.total as u32,
                }),
                Some(_) => None,
            },
            Course::Stored | Course::Failed => None,
        }
    }

    /// An id was drawn for the piece that is wanted, of its kind. The body has as many bytes as the piece.
    pub fn begin_piece(&mut self, id: BlobId, body: Bytes)
        requires short { length body ≤ 4194304 }
        requires wanted { (task : PutTask) (calls : List Call) → ⟦<PutOp as Operation>⟧.plan self.old ≡ put_plan task → ⟦<PutOp as Operation>⟧.stands self.old calls → Fits (put_want task calls) id body }
        ensures same { ⟦<PutOp as Operation>⟧.plan self.new ≡ ⟦<PutOp as Operation>⟧.plan self.old }
        ensures goes_on { (calls : List Call) → ⟦<PutOp as Operation>⟧.stands self.old calls → ⟦<PutOp as Operation>⟧.stands self.new (Drew id (Some body) ∷ calls) }
    {
        self.blob.body = body;
        self.drawn = Some(Drawn {
            id,
            piece: Piece::new(None, 0, Errand::Put(id), self.replicas, self.need),
            asked: false,
            given_up: false,
        });
    }

    /// How far it is.
    fn course(&self) -> Course
        ensures { (calls : List Call) → ⟦<PutOp as Operation>⟧.stands self.now calls → result ≡ course_of ((⟦<PutOp as Operation>⟧.plan self.now).outcome calls) }
    {
        match self.stage {
            Stage::Running => match &self.drawn {
                Some(drawn) => course_of(drawn.piece.verdict()),
                None => Course::Pending,
            },
            Stage::Cancelled | Stage::Starved => Course::Failed,
            Stage::Given => self.course,
        }
    }

    /// What it gives now: its outcome, or want of memory for that, unless it was given before.
    fn outcome(&self, alloc: Global) -> Option<Outcome>
        ensures { (calls : List Call) → ⟦<PutOp as Operation>⟧.stands self.now calls → Gives (⟦<PutOp as Operation>⟧.plan self.now) calls result }
    {
        match self.stage {
            Stage::Running => match &self.drawn {
                Some(drawn) => outcome_of(alloc, drawn.id, &drawn.piece),
                None => None,
            },
            Stage::Cancelled => Some(Outcome::Cancelled),
            Stage::Starved => Some(Outcome::Memory),
            Stage::Given => None,
        }
    }

    /// Asks all replicas to store what was drawn, once.
    fn store(&mut self, out: &mut Vec<Sending>) -> Result<(), Memory>
        ensures same { ⟦<PutOp as Operation>⟧.plan self.new ≡ ⟦<PutOp as Operation>⟧.plan self.old }
        ensures adds { (calls : List Call) (order : List ℕ) → course_of ((⟦<PutOp as Operation>⟧.plan self.old).outcome calls) ≡ Pending → ⟦<PutOp as Operation>⟧.stands self.old calls → out.new.items ≡ out.old.items ++ unless_nothing result ((⟦<PutOp as Operation>⟧.plan self.old).wants calls order) }
        ensures goes_on { (calls : List Call) (order : List ℕ) → course_of ((⟦<PutOp as Operation>⟧.plan self.old).outcome calls) ≡ Pending → ⟦<PutOp as Operation>⟧.stands self.old calls → ⟦<PutOp as Operation>⟧.stands self.new (unless_starved result (sent_all ((⟦<PutOp as Operation>⟧.plan self.old).wants calls order) calls) calls) }
    {
        match &mut self.drawn {
            Some(drawn) => {
                if drawn.asked {
                    return Ok(());
                }
                if make_room(self.next, self.replicas as usize, out).is_err() {
                    self.stage = Stage::Starved;
                    return Err(Memory);
                }
                let replicas = replicas_below(self.replicas);
                self.next = send_along(&mut drawn.piece, self.next, replicas, out);
                drawn.asked = true;
                Ok(())
            }
            None => Ok(()),
        }
    }

    /// Asks all replicas to delete the id that was drawn, once.
    fn give_up(&mut self, out: &mut Vec<Sending>) -> Result<(), Memory>
        ensures same { ⟦<PutOp as Operation>⟧.plan self.new ≡ ⟦<PutOp as Operation>⟧.plan self.old }
        ensures adds { (calls : List Call) (order : List ℕ) → course_of ((⟦<PutOp as Operation>⟧.plan self.old).outcome calls) ≡ Failed → ⟦<PutOp as Operation>⟧.stands self.old calls → out.new.items ≡ out.old.items ++ unless_nothing result ((⟦<PutOp as Operation>⟧.plan self.old).wants calls order) }
        ensures goes_on { (calls : List Call) (order : List ℕ) → course_of ((⟦<PutOp as Operation>⟧.plan self.old).outcome calls) ≡ Failed → ⟦<PutOp as Operation>⟧.stands self.old calls → ⟦<PutOp as Operation>⟧.stands self.new (unless_starved result (sent_all ((⟦<PutOp as Operation>⟧.plan self.old).wants calls order) calls) calls) }
    {
        match &mut self.drawn {
            Some(drawn) => {
                if drawn.given_up {
                    return Ok(());
                }
                make_room(self.next, self.replicas as usize, out)?;
                ask_removal(drawn.id, self.replicas, self.next, out);
                self.next += self.replicas;
                drawn.given_up = true;
                Ok(())
            }
            None => Ok(()),
        }
    }
}

impl Operation for PutOp {
    ghost use Rattle.put_op.specs.Meaning.{plan_of, stands_at};

    ghost plan = { plan_of };

    ghost stands = { stands_at };

    fn sends(
        &mut self,
        alloc: Global,
        order: &[u32],
        out: &mut Vec<Sending>,
    ) -> Result<(), Memory> {
        match self.course() {
            Course::Pending => self.store(out),
            Course::Stored => Ok(()),
            Course::Failed => self.give_up(out),
        }
    }

    fn spell(
        &mut self,
        alloc: Global,
        sending: &Sending,
        correlation: u64,
    ) -> Result<Bytes, Memory> {
        match sending.errand {
            Errand::Put(id) => spell_put(alloc, id, &mut self.blob, correlation),
            Errand::Delete(id, at) => spell_delete(alloc, id, at, correlation),
            // It sends none of these.
            Errand::Get(_) => Ok(Bytes::new(alloc)),
        }
    }

    fn on_reply(&mut self, alloc: Global, request: u32, reply: Reply) -> Result<(), Memory> {
        if let Some(drawn) = &mut self.drawn {
            drawn.piece.on_reply(request, reply);
        }
        Ok(())
    }

    fn on_fail(&mut self, request: u32, cause: Cause) {
        if let Some(drawn) = &mut self.drawn {
            drawn.piece.on_fail(request, cause);
        }
    }

    fn cancel(&mut self) {
        if self.course() == Course::Pending {
            self.stage = Stage::Cancelled;
        }
    }

    fn poll(&mut self, alloc: Global) -> Poll {
        let course = self.course();
        match self.outcome(alloc) {
            Some(outcome) => {
                self.stage = Stage::Given;
                self.course = course;
                Poll::Done(outcome)
            }
            None => Poll::Pending,
        }
    }
}

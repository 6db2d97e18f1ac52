//! A piece of an operation.

ghost use Rattle.std.specs.Prelude.{◌≡◌, ◌+◌, ◌<◌, ◌≤◌, ◌==◌, ◌∷◌, ◌++◌, [], ℕ, Bool, true, false, nat_lt, ◌&&◌, not, cond, List, Option, Some, None, IfOk, IfSome, IsSome, All, filter, find, length, map};
ghost use Rattle.std.specs.Option.{is_some};
ghost use Rattle.operation.specs.Calls.{Call, Missed, Replied, Sent, id_of, sent_in};
ghost use Rattle.operation.specs.Notes.{count_note, learnt_blob};
ghost use Rattle.operation.specs.Pieces.{IsPieceOf, PieceView, Target, asked_at, asking_of, blob_at, busy_at, failed_at, is_for, kind_of, replica_in, target_of, verdict_at, was_asked};
ghost use Rattle.operation.specs.Wants.{asks, part_of};
ghost use Rattle.operation.specs.declared.sending.Sending.{Sending};
ghost use Rattle.quorum_op.specs.Counts.{count_below, or_else};
ghost use Rattle.quorum_op.specs.Slots.{IsSameTally, IsTallyOf};
ghost use Rattle.quorum_op.specs.Tally.{Note, is_pending, is_state};
ghost use Rattle.quorum_op.specs.declared.cause.TallyKind.{TallyKind};
ghost use Rattle.world_model.specs.Notes.{reply_says};
ghost use Rattle.world_model.specs.declared.asking.Asking.TheVariants as asking;

use crate::asking::Asker;
use crate::saying::reply_finding;
use crate::sending::{Errand, Purpose, Sending};
use arrayvec::ArrayVec;
use blob_id::{Blob, Memory};
use cell_model::Reply;
use quorum_op::{Cause, Failures, Finding, Mark, Tally, TallyKind, Verdict};
use std::alloc::Global;
use std::marker::Model;
use world_model::Asking;

/// An outstanding request: its number, and the replica that it went to.
#[derive(Clone, Copy, Debug, Default, PartialEq, Eq)]
pub struct Open {
    pub request: u32,
    pub replica: u32,
}

/// A piece that is under way: the attempt and what it asks of its replicas, its outstanding requests, the newest first, which replicas were
/// asked, the tally of its notes, and the blob that came. It takes no memory.
#[derive(Drop)]
pub struct Piece {
    chunk: Option<u32>,
    attempt: u32,
    errand: Errand,
    replicas: u32,
    need: u32,
    requests: ArrayVec<Open, 9>,
    asked: [bool; 9],
    tally: Tally,
    blob: Option<Blob>,
}

impl Model for Piece {
    ghost use Rattle.std.specs.Prelude.{◌≡◌, ◌<◌, ◌≤◌, All, length};
    ghost use Rattle.operation.specs.Pieces.{PieceView, asked_at};
    ghost use Rattle.quorum_op.specs.Counts.{count_below};

    ghost Value = { PieceView };

    ghost view = { λ p. record { chunk = p.chunk; attempt = p.attempt; errand = p.errand; requests = p.requests.items; asked = p.asked; tally = p.tally; blob = p.blob } };

    ghost invariant = { λ p. (p.replicas ≡ p.tally.replicas) × (p.need ≡ p.tally.need) × (p.replicas ≤ 9) × (length p.asked ≡ 9) × (length p.requests.items ≤ count_below (length p.asked) (asked_at p.asked)) × All (λ o. o.replica < p.tally.replicas) p.requests.items };
}

impl Piece {
    /// An attempt at the blob itself or at a chunk of it, that asked nothing yet.
    pub fn new(chunk: Option<u32>, attempt: u32, errand: Errand, replicas: u32, need: u32) -> Piece
        requires some { 1 ≤ need }
        requires enough { need ≤ replicas }
        requires few { replicas ≤ 9 }
        ensures errand { result.errand ≡ errand }
        ensures fresh { (t : Target) (calls : List Call) → sent_in calls ≡ [] → t ≡ target_of result → kind_of errand ≡ t.kind → IsPieceOf t result calls }
        ensures target { target_of result ≡ record { chunk = chunk; attempt = attempt; kind = kind_of errand; id = id_of errand; replicas = replicas; need = need } }
    {
        Piece {
            chunk,
            attempt,
            errand,
            replicas,
            need,
            requests: ArrayVec::new(),
            asked: [false; 9],
            tally: Tally::new(kind_of(&errand), replicas, need),
            blob: None,
        }
    }

    /// What its notes come to.
    pub fn verdict(&self) -> Verdict
        ensures { (t : Target) (calls : List Call) → IsPieceOf t self.now calls → result ≡ verdict_at t calls }
    {
        self.tally.verdict()
    }

    /// The replicas that stand at a failure, in replica order, each with its cause.
    pub fn failures(&self, alloc: Global) -> Result<Failures, Memory>
        ensures { IfOk result (λ failures. (t : Target) (calls : List Call) → IsPieceOf t self.now calls → failures ≡ failed_at t calls) }
    {
        let failures = self.tally.failures(alloc)?;
        Ok(failures)
    }

    /// How many replicas are asked and haven't answered, or were found.
    pub fn busy(&self) -> u32
        ensures { (t : Target) (calls : List Call) → IsPieceOf t self.now calls → result ≡ busy_at t calls }
    {
        self.requests.len() as u32 + self.tally.found()
    }

    /// Whether a replica of the piece was asked.
    pub fn was_asked(&self, replica: u32) -> bool
        ensures { (t : Target) (calls : List Call) → IsPieceOf t self.now calls → result ≡ (nat_lt replica t.replicas && was_asked t calls replica) }
    {
        replica < self.replicas && self.is_marked(replica)
    }

    /// Whether a blob came and was not taken out.
    pub fn has_blob(&self) -> bool
        ensures { (t : Target) (calls : List Call) → IsPieceOf t self.now calls → result ≡ is_some (blob_at t calls) }
    {
        self.blob.is_some()
    }

    /// Takes out the blob that came.
    pub fn take_blob(&mut self) -> Option<Blob>
        ensures same { self.new.errand ≡ self.old.errand }
        ensures blob { (t : Target) (calls : List Call) → IsPieceOf t self.old calls → result ≡ blob_at t calls }
        ensures none { result ≡ None → self.new ≡ self.old }
    {
        self.blob.take()
    }

    /// Takes a reply to a request. One to a request that isn't outstanding changes nothing.
    pub fn on_reply(&mut self, request: u32, reply: Reply)
        ensures same { self.new.errand ≡ self.old.errand }
        ensures goes_on { (t : Target) (calls : List Call) → IsPieceOf t self.old calls → IsPieceOf t self.new (Replied request reply ∷ calls) }
    {
        match replica_of(self.requests.as_slice(), request) {
            Some(replica) => {
                let stated = is_state(self.tally.standing(replica));
                let asking = asking_of(&self.errand);
                let finding = reply_finding(stated, asking, &reply);
                let pending = is_pending(self.tally.verdict());
                note(&mut self.tally, replica, finding);
                self.requests = others(self.requests.as_slice(), request);
                keep_blob(&mut self.blob, pending, asking, reply);
            }
            None => {}
        }
    }

    /// Takes the failure of a request. One of a request that isn't outstanding changes nothing.
    pub fn on_fail(&mut self, request: u32, cause: Cause)
        ensures same { self.new.errand ≡ self.old.errand }
        ensures goes_on { (t : Target) (calls : List Call) → IsPieceOf t self.old calls → IsPieceOf t self.new (Missed request cause ∷ calls) }
    {
        match replica_of(self.requests.as_slice(), request) {
            Some(replica) => {
                note(&mut self.tally, replica, Finding::Failed(cause));
                self.requests = others(self.requests.as_slice(), request);
            }
            None => {}
        }
    }

    /// Whether one of the replicas was asked.
    fn is_marked(&self, replica: u32) -> bool
        requires within { replica < self.now.tally.replicas }
        ensures value { result ≡ asked_at self.now.asked replica }
        ensures asked { (t : Target) (calls : List Call) → IsPieceOf t self.now calls → result ≡ was_asked t calls replica }
    {
        self.asked[replica as usize]
    }

    /// Whether a replica is asked now.
    fn is_due(&self, replica: u32) -> bool
        ensures due { (t : Target) (calls : List Call) → IsPieceOf t self.now calls → result ≡ asks t calls replica }
        ensures fresh { result ≡ true → (replica < self.now.tally.replicas) × (asked_at self.now.asked replica ≡ false) }
    {
        if replica >= self.replicas || self.is_marked(replica) {
            return false;
        }
        match self.errand {
            Errand::Get(_) => is_pending(self.tally.verdict()) && self.busy() < self.need,
            Errand::Put(_) | Errand::Delete(_, _) => true,
        }
    }

    /// Takes that a request was sent to a replica that wasn't asked before.
    fn on_sent(&mut self, request: u32, replica: u32)
        requires within { replica < self.old.tally.replicas }
        requires fresh { asked_at self.old.asked replica ≡ false }
        ensures same { (self.new.errand ≡ self.old.errand) × (target_of self.new ≡ target_of self.old) }
        ensures goes_on { (t : Target) (calls : List Call) (sending : Sending) → sending.request ≡ request → sending.replica ≡ replica → is_for t sending ≡ true → IsPieceOf t self.old calls → IsPieceOf t self.new (Sent sending ∷ calls) }
    {
        self.asked[replica as usize] = true;
        self.requests.insert(0, Open { request, replica });
    }
}

/// A piece asks to put or delete all replicas at once, and to get as many as are needed.
impl Asker for Piece {
    ghost passes = { λ t. asks t };

    ghost purpose = { λ t. part_of t };

    ghost errand = { λ p. p.errand };

    ghost stands = { λ p t calls. IsPieceOf t p calls };

    fn ask(&mut self, request: u32, replica: u32) -> Option<Sending> {
        if !self.is_due(replica) {
            return None;
        }
        self.on_sent(request, replica);
        Some(Sending {
            request,
            replica,
            purpose: Purpose::Part {
                chunk: self.chunk,
                attempt: self.attempt,
            },
            errand: self.errand,
        })
    }
}

/// The replica of the newest request of this number.
fn replica_of(requests: &[Open], request: u32) -> Option<u32>
    ensures found { result ≡ replica_in (find (λ o. o.request == request) requests.now) }
    ensures within { (replicas : ℕ) → All (λ o. o.replica < replicas) requests.now → IfSome result (λ replica. replica < replicas) }
{
    match requests.iter().find(|waiting| waiting.request == request) {
        Some(waiting) => Some(waiting.replica),
        None => None,
    }
}

/// The requests of other numbers.
fn others(requests: &[Open], request: u32) -> ArrayVec<Open, 9>
    requires few { length requests.now ≤ 9 }
    ensures { result.items ≡ filter (λ o. not (o.request == request)) requests.now }
{
    let mut left = ArrayVec::new();
    for waiting in requests {
        keep_other(&mut left, *waiting, request);
    }
    left
}

/// Adds a request of another number.
fn keep_other(left: &mut ArrayVec<Open, 9>, waiting: Open, request: u32)
    requires room { length left.old.items < 9 }
    ensures { left.new.items ≡ left.old.items ++ cond (not (waiting.request == request)) (waiting ∷ []) [] }
{
    if waiting.request != request {
        left.push(waiting);
    }
}

/// Notes a finding, if the verdict is Pending.
fn note(tally: &mut Tally, replica: u32, finding: Finding)
    requires within { replica < tally.old.replicas }
    ensures same { IsSameTally tally.old tally.new }
    ensures noted { (notes : List Note) → IsTallyOf tally.old notes → IsTallyOf tally.new (count_note tally.old.kind tally.old.replicas tally.old.need (Some (record { replica = replica; finding = finding })) notes) }
{
    if is_pending(tally.verdict()) {
        note_finding(tally, replica, finding);
    }
}

fn note_finding(tally: &mut Tally, replica: u32, finding: Finding)
    requires within { replica < tally.old.replicas }
    ensures same { IsSameTally tally.old tally.new }
    ensures noted { (notes : List Note) → IsTallyOf tally.old notes → IsTallyOf tally.new (record { replica = replica; finding = finding } ∷ notes) }
{
    match finding {
        Finding::Yes => tally.note(replica, Mark::Yes),
        Finding::State => tally.note(replica, Mark::State),
        Finding::Absent => tally.note(replica, Mark::Absent),
        Finding::Gone => tally.note(replica, Mark::Gone),
        Finding::Failed(cause) => tally.fail(replica, cause),
    }
}

/// Keeps the blob that a reply brings where it counts, if none came before.
fn keep_blob(blob: &mut Option<Blob>, pending: bool, asking: Asking, reply: Reply)
    ensures { (stated : Bool) → blob.new ≡ or_else blob.old (cond pending (learnt_blob (reply_says stated asking reply)) None) }
{
    if pending && blob.is_none() {
        *blob = blob_in(asking, reply);
    }
}

/// The blob that a reply brings.
fn blob_in(asking: Asking, reply: Reply) -> Option<Blob>
    ensures { (stated : Bool) → result ≡ learnt_blob (reply_says stated asking reply) }
{
    match (asking, reply) {
        (Asking::Get, Reply::Blob(blob)) => Some(blob),
        _ => None,
    }
}

fn kind_of(errand: &Errand) -> TallyKind
    ensures { result ≡ kind_of errand.now }
{
    match errand {
        Errand::Put(_) => TallyKind::Put,
        Errand::Get(_) => TallyKind::Get,
        Errand::Delete(_, _) => TallyKind::Delete,
    }
}

fn asking_of(errand: &Errand) -> Asking
    ensures { result ≡ asking_of errand.now }
{
    match errand {
        Errand::Put(_) => Asking::Put,
        Errand::Get(_) => Asking::Get,
        Errand::Delete(_, _) => Asking::Delete,
    }
}

fn is_state(standing: Option<Finding>) -> bool
    ensures { result ≡ is_state standing }
{
    matches!(standing, Some(Finding::State))
}

fn is_pending(verdict: Verdict) -> bool
    ensures { result ≡ is_pending verdict }
{
    matches!(verdict, Verdict::Pending)
}

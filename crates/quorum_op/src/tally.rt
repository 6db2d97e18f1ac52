//! The tally of a piece: a slot for each replica.

ghost use Rattle.std.specs.Prelude.{◌≡◌, ℕ, ◌+◌, ◌<◌, ◌≤◌, List, [], ◌∷◌, length, IfOk, OnOk, ◌++◌};
ghost use Rattle.quorum_op.specs.Slots.{IsTallyOf, IsSameTally, TallyView, failed_in, slots_so};
ghost use Rattle.quorum_op.specs.Tally.{Note, decide, decide_change, decide_get, failed_replicas, failure_at, finding_of, is_absent, is_failed, is_found, is_gone, is_state, is_yes, settle, standing, verdict};
ghost use Rattle.quorum_op.specs.declared.cause.Finding.TheVariants.{Failed};

use crate::cause::{Cause, Finding, Mark, TallyKind, Verdict};
use crate::outcome::Failures;
use blob_id::Memory;
use std::alloc::Global;
use std::marker::Model;

/// What was noted of the replicas of a piece, of which there are at most nine.
#[derive(Debug, Drop)]
pub struct Tally {
    kind: TallyKind,
    replicas: u32,
    need: u32,
    slots: [Option<Finding>; 9],
}

impl Model for Tally {
    ghost Value = { TallyView };

    ghost view = { λ t. record { kind = t.kind; replicas = t.replicas; need = t.need; slots = t.slots } };

    ghost invariant = { λ t. (t.replicas ≤ 9) × (length t.slots ≡ 9) };
}

impl Tally {
    /// A tally with no notes. It takes no memory.
    pub fn new(kind: TallyKind, replicas: u32, need: u32) -> Tally
        requires some { 1 ≤ need }
        requires enough { need ≤ replicas }
        requires few { replicas ≤ 9 }
        ensures shape { (result.kind ≡ kind) × (result.replicas ≡ replicas) × (result.need ≡ need) }
        ensures empty { IsTallyOf result [] }
    {
        Tally {
            kind,
            replicas,
            need,
            slots: [None; 9],
        }
    }

    /// Notes a mark of a replica. The first note stands, but a State yields to Yes, Gone and failures.
    pub fn note(&mut self, replica: u32, mark: Mark)
        requires within { replica < self.old.replicas }
        ensures same { IsSameTally self.old self.new }
        ensures noted { (notes : List Note) → IsTallyOf self.old notes → IsTallyOf self.new (record { replica = replica; finding = finding_of mark } ∷ notes) }
    {
        self.settle(replica, finding_of(mark));
    }

    /// Notes that a request to a replica failed. The first note stands, but a State yields to the failure.
    pub fn fail(&mut self, replica: u32, cause: Cause)
        requires within { replica < self.old.replicas }
        ensures same { IsSameTally self.old self.new }
        ensures noted { (notes : List Note) → IsTallyOf self.old notes → IsTallyOf self.new (record { replica = replica; finding = Failed cause } ∷ notes) }
    {
        self.settle(replica, Finding::Failed(cause));
    }

    /// What the notes come to.
    pub fn verdict(&self) -> Verdict
        ensures { (notes : List Note) → IsTallyOf self.now notes → result ≡ verdict self.now.kind self.now.replicas self.now.need notes }
    {
        decide(
            self.kind,
            self.replicas,
            self.need,
            counted(&self.slots, self.replicas),
        )
    }

    /// Where a replica stands.
    pub fn standing(&self, replica: u32) -> Option<Finding>
        requires within { replica < self.now.replicas }
        ensures { (notes : List Note) → IsTallyOf self.now notes → result ≡ standing notes replica }
    {
        self.slots[replica as usize]
    }

    /// How many replicas were found: they stand at Yes, State or Absent.
    pub fn found(&self) -> u32
        ensures value { result ≡ slots_so self.now.slots is_found self.now.replicas }
        ensures few { result ≤ 9 }
    {
        counted(&self.slots, self.replicas).found
    }

    /// The replicas that stand at a failure, in replica order, each with its cause.
    pub fn failures(&self, alloc: Global) -> Result<Failures, Memory>
        ensures { IfOk result (λ failures. (notes : List Note) → IsTallyOf self.now notes → failures ≡ failed_replicas self.now.replicas notes) }
    {
        let failures = failed_slots(alloc, &self.slots, self.replicas)?;
        Ok(failures)
    }

    fn settle(&mut self, replica: u32, finding: Finding)
        requires within { replica < self.old.replicas }
        ensures same { IsSameTally self.old self.new }
        ensures noted { (notes : List Note) → IsTallyOf self.old notes → IsTallyOf self.new (record { replica = replica; finding = finding } ∷ notes) }
    {
        let place = replica as usize;
        self.slots[place] = settled(self.slots[place], finding);
    }
}

/// A mark as what is noted.
fn finding_of(mark: Mark) -> Finding
    ensures { result ≡ finding_of mark }
{
    match mark {
        Mark::Yes => Finding::Yes,
        Mark::State => Finding::State,
        Mark::Absent => Finding::Absent,
        Mark::Gone => Finding::Gone,
    }
}

/// A slot after one more finding.
fn settled(slot: Option<Finding>, finding: Finding) -> Option<Finding>
    ensures { result ≡ settle slot finding }
{
    match slot {
        None => Some(finding),
        Some(Finding::State) => match finding {
            Finding::State | Finding::Absent => Some(Finding::State),
            Finding::Yes | Finding::Gone | Finding::Failed(_) => Some(finding),
        },
        Some(first) => Some(first),
    }
}

/// How many replicas stand so.
#[derive(Clone, Copy)]
struct Counts {
    yes: u32,
    state: u32,
    found: u32,
    gone: u32,
    failed: u32,
}

/// What so many standings come to.
fn decide(kind: TallyKind, replicas: u32, need: u32, counts: Counts) -> Verdict
    requires few { counts.failed ≤ replicas }
    ensures { result ≡ decide kind replicas need counts.yes counts.state counts.found counts.gone counts.failed }
{
    let left = replicas - counts.failed;
    match kind {
        TallyKind::Put | TallyKind::Delete => decide_change(need, left, counts),
        TallyKind::Get => decide_get(need, left, counts),
    }
}

/// What the standings of a put or delete come to, where so many replicas have not failed.
fn decide_change(need: u32, left: u32, counts: Counts) -> Verdict
    ensures { result ≡ decide_change need left counts.yes }
{
    if need <= counts.yes {
        Verdict::Ok
    } else if left < need {
        Verdict::Unavailable
    } else {
        Verdict::Pending
    }
}

/// What the standings of a get come to, where so many replicas have not failed.
fn decide_get(need: u32, left: u32, counts: Counts) -> Verdict
    ensures { result ≡ decide_get need left counts.yes counts.state counts.found counts.gone }
{
    if 0 < counts.gone {
        Verdict::Gone
    } else if left < need {
        Verdict::Unavailable
    } else if counts.found < need {
        Verdict::Pending
    } else if 0 < counts.yes {
        Verdict::Ok
    } else if 0 < counts.state {
        Verdict::Pending
    } else {
        Verdict::NotFound
    }
}

/// Counts the first slots.
fn counted(slots: &[Option<Finding>], replicas: u32) -> Counts
    requires within { replicas ≤ length slots.now }
    ensures counts { (result.yes ≡ slots_so slots.now is_yes replicas) × (result.state ≡ slots_so slots.now is_state replicas) × (result.found ≡ slots_so slots.now is_found replicas) × (result.gone ≡ slots_so slots.now is_gone replicas) × (result.failed ≡ slots_so slots.now is_failed replicas) }
    ensures few { result.failed ≤ replicas }
    ensures found_few { result.found ≤ replicas }
{
    let mut counts = Counts {
        yes: 0,
        state: 0,
        found: 0,
        gone: 0,
        failed: 0,
    };
    for i in 0..replicas {
        match slots[i as usize] {
            Some(Finding::Yes) => {
                counts.yes += 1;
                counts.found += 1;
            }
            Some(Finding::State) => {
                counts.state += 1;
                counts.found += 1;
            }
            Some(Finding::Absent) => counts.found += 1,
            Some(Finding::Gone) => counts.gone += 1,
            Some(Finding::Failed(_)) => counts.failed += 1,
            None => {}
        }
    }
    counts
}

/// The failures among the first slots.
fn failed_slots(alloc: Global, slots: &[Option<Finding>], replicas: u32) -> Result<Failures, Memory>
    requires within { replicas ≤ length slots.now }
    ensures { IfOk result (λ failures. failures ≡ failed_in slots.now replicas) }
{
    let mut failures = Failures::new(alloc);
    for i in 0..replicas {
        push_failure(&mut failures, i, slots[i as usize])?;
    }
    Ok(failures)
}

/// Adds the failure that a slot has, if it has one.
fn push_failure(failures: &mut Failures, replica: u32, slot: Option<Finding>) -> Result<(), Memory>
    ensures { OnOk result (failures.new ≡ failures.old ++ failure_at replica slot) }
{
    match slot {
        Some(Finding::Failed(cause)) => {
            failures.push((replica, cause))?;
            Ok(())
        }
        Some(_) | None => Ok(()),
    }
}

//! A replica in memory.

ghost use Rattle.std.specs.Prelude.{◌≡◌, ◌≢◌, ◌↔◌, ℕ, List, [], IsTrue, MatchBool};
ghost use Rattle.cell_model.specs.Asks.{IsStep, Refuses, AnswersInRange};
ghost use Rattle.blob_id.specs.Blob.{IsBlob};

use crate::ask::{Ask, Reply};
use crate::cell::Cell;
use crate::port::ReplicaPort;
use blob_id::{Blob, BlobId};
use find_token::{Entries, FindToken, Page};
use std::alloc::Global;
use std::collections::BTreeMap;

/// A replica that keeps its cells in a map, and never refuses.
#[derive(Drop)]
pub struct PlainReplica {
    alloc: Global,
    cells: BTreeMap<BlobId, Cell>,
}

impl PlainReplica {
    ghost use Rattle.cell_model.specs.Cells.{cell_in, HoldsBlob};
    ghost use Rattle.cell_model.specs.Asks.{AsksInRange};
    ghost use Rattle.cell_model.specs.Plain.{plain_told, AllHoldBlobs, PlainAnswers};

    /// A replica that holds nothing.
    pub fn new(alloc: Global) -> Self
        ensures empty { (⟦<PlainReplica as ReplicaPort>⟧.told result).cells ≡ [] }
        ensures ready { ⟦<PlainReplica as ReplicaPort>⟧.ready result }
    {
        PlainReplica {
            alloc,
            cells: BTreeMap::new(alloc),
        }
    }

    /// Sets the cell of an id, and says whether there was memory for it. Where there was none, nothing changed.
    fn set(&mut self, id: BlobId, cell: Cell) -> bool
        ensures set { MatchBool result
            (cell_in self.new.cells.entries id ≡ cell)
            (cell_in self.new.cells.entries id ≡ cell_in self.old.cells.entries id) }
        ensures others { (other : List ℕ) → other ≢ id → cell_in self.new.cells.entries other ≡ cell_in self.old.cells.entries other }
    {
        match self.cells.insert(id, cell) {
            Ok(_) => true,
            Err(_) => false,
        }
    }

    fn put(&mut self, id: BlobId, blob: Blob) -> Reply
        ensures step { IsStep (plain_told self.old) (Ask.Put id blob) result (plain_told self.new) }
        ensures calm { Refuses result → ⊥ }
        ensures range { AnswersInRange result }
    {
        match self.cells.get(&id) {
            Some(Cell::Held(held)) => {
                return if is_same(held, &blob) {
                    Reply::There
                } else {
                    Reply::Clash
                };
            }
            Some(Cell::Gone) => return Reply::Gone,
            Some(Cell::Absent) | None => {}
        }
        if self.set(id, Cell::Held(blob)) {
            Reply::Stored
        } else {
            Reply::Memory
        }
    }

    fn get(&self, id: &BlobId) -> Reply
        requires { AllHoldBlobs self.now }
        ensures step { IsStep (plain_told self.now) (Ask.Get id.now) result (plain_told self.now) }
        ensures calm { Refuses result → ⊥ }
        ensures range { AnswersInRange result }
    {
        match self.cells.get(id) {
            Some(Cell::Held(held)) => match held.copy(self.alloc) {
                Ok(blob) => Reply::Blob(blob),
                Err(_) => Reply::Memory,
            },
            Some(Cell::Gone) => Reply::Gone,
            Some(Cell::Absent) | None => Reply::Absent,
        }
    }

    fn peek(&self, id: &BlobId) -> Reply
        ensures step { IsStep (plain_told self.now) (Ask.Peek id.now) result (plain_told self.now) }
        ensures calm { Refuses result → ⊥ }
        ensures range { AnswersInRange result }
    {
        match self.cells.get(id) {
            Some(Cell::Held(_)) => Reply::There,
            Some(Cell::Gone) => Reply::Gone,
            Some(Cell::Absent) | None => Reply::Absent,
        }
    }

    fn delete(&mut self, id: BlobId, at: u64) -> Reply
        ensures step { IsStep (plain_told self.old) (Ask.Delete id at) result (plain_told self.new) }
        ensures calm { Refuses result → ⊥ }
        ensures range { AnswersInRange result }
    {
        if self.set(id, Cell::Gone) {
            Reply::Done
        } else {
            Reply::Memory
        }
    }

    fn merge(&mut self, id: BlobId, cell: Cell) -> Reply
        ensures step { IsStep (plain_told self.old) (Ask.Merge id cell) result (plain_told self.new) }
        ensures calm { Refuses result → ⊥ }
        ensures range { AnswersInRange result }
    {
        let stays = match (self.cells.get(&id), &cell) {
            (_, Cell::Absent) => true,
            (Some(Cell::Held(_)), Cell::Held(_)) => true,
            (Some(Cell::Gone), _) => true,
            _ => false,
        };
        if stays || self.set(id, cell) {
            Reply::Done
        } else {
            Reply::Memory
        }
    }

    /// It has no log, and so nothing that a peer hasn't seen.
    fn find(&self, token: FindToken, max: u32) -> Reply
        requires { AsksInRange (Ask.Find token max) }
        ensures step { IsStep (plain_told self.now) (Ask.Find token max) result (plain_told self.now) }
        ensures calm { Refuses result → ⊥ }
        ensures range { AnswersInRange result }
        ensures plain { PlainAnswers (Ask.Find token max) result }
    {
        Reply::Page(Page {
            entries: Entries::new(self.alloc),
            next: token,
        })
    }
}

fn is_same(one: &Blob, other: &Blob) -> bool
    ensures { IsTrue result ↔ (one.now ≡ other.now) }
{
    one.created == other.created
        && one.ctype.as_slice() == other.ctype.as_slice()
        && one.meta.as_slice() == other.meta.as_slice()
        && one.body.as_slice() == other.body.as_slice()
}

impl ReplicaPort for PlainReplica {
    ghost use Rattle.std.specs.Prelude.{[], false};
    ghost use Rattle.cell_model.specs.Asks.{AsksInRange, CanAnswer};
    ghost use Rattle.cell_model.specs.Plain.{plain_told, AllHoldBlobs, PlainAnswers};

    ghost tells = { Unit {0} };

    ghost may_refuse = { false };

    ghost told = { plain_told };

    ghost fixed = { λ _. [] };

    ghost faults = { λ _. 0 };

    ghost ready = { AllHoldBlobs };

    ghost asks = { λ _ ask reply _. PlainAnswers ask reply };

    fn ask(&mut self, ask: Ask) -> Reply
        requires ready { AllHoldBlobs self.old }
        requires range { AsksInRange ask }
        ensures kind { CanAnswer ask result }
        ensures step { IsStep (plain_told self.old) ask result (plain_told self.new) }
        ensures range { AnswersInRange result }
        ensures ready { AllHoldBlobs self.new }
        ensures willing { Refuses result → ⊥ }
        // There is no log.
        ensures own { PlainAnswers ask result }
    {
        match ask {
            Ask::Put { id, blob } => self.put(id, blob),
            Ask::Get { id } => self.get(&id),
            Ask::Peek { id } => self.peek(&id),
            Ask::Delete { id, at } => self.delete(id, at),
            Ask::Merge { id, cell } => self.merge(id, cell),
            Ask::Find { token, max } => self.find(token, max),
            Ask::End => Reply::End(0),
            Ask::Token { peer: _ } => Reply::Token(FindToken::Start),
            Ask::SaveToken { peer: _, token: _ } => Reply::Done,
            Ask::CompactBegin => Reply::Nothing,
            Ask::CompactStep { records: _ } | Ask::CompactCommit => Reply::NoPlan,
        }
    }
}

//! How operations begin.

ghost use Rattle.std.specs.Prelude.{◌≡◌, ℕ, ◌+◌, ◌++◌, ◌%◌, ◌^◌, ◌<◌, ◌≤◌, List, [], ◌∷◌, length, true, false, Option, Some, None, OnOk, OnErr, IfOk, IfErr, IfSome};
ghost use Rattle.std.specs.Result.{is_ok};
ghost use Rattle.blob_id.specs.declared.id.BlobId.{BlobId};
ghost use Rattle.blob_id.specs.Id.{partition_of};
ghost use Rattle.world_model.specs.declared.history.Begun.{Begun};
ghost use Rattle.world_model.specs.declared.history.HistoryMark.{HistoryMark};
ghost use Rattle.world_model.specs.declared.history.HistoryMark.TheVariants.{Begin, Drew};
ghost use Rattle.world_model.specs.declared.shape.Shape.{Shape};
ghost use Rattle.world_model.specs.declared.step.Called.{Called};
ghost use Rattle.world_model.specs.Advancing.{Advances};
ghost use Rattle.world_model.specs.Ordered.{marks_of};
ghost use Rattle.world_model.specs.Pieces.{is_chunk, is_composite, is_simple};
ghost use Rattle.world_model.specs.Record.{Record};
ghost use Rattle.world_model.specs.Shape.{IsShape};
ghost use Rattle.world_model.specs.Told.{AllSession};
ghost use Rattle.router_core.specs.Beginning.{BeginsAs, BeginsBeside, IsRefused, begin_items, with_stage};
ghost use Rattle.router_core.specs.Fits.{FitsStage, IsAnswer, number_of};
ghost use Rattle.router_core.specs.Jobs.{IsServed};
ghost use Rattle.router_core.specs.Stands.{Stands, live_in};
ghost use Rattle.router_core.specs.Ties.{Ties};

use crate::ending::settle_stage;
use crate::live::Live;
use crate::router::{Router, Stage};
use blob_id::{BlobId, Bytes, Kind, Memory};
use quorum_op::Outcome;
use std::alloc::Global;
use world_model::{Fabric, Shape};

impl Router {
    /// Begins a put of these bytes, for which this id was drawn, beside the operations that are live, and asks all replicas. After `Memory`
    /// it isn't live.
    pub fn put<F: Fabric>(
        &mut self,
        alloc: Global,
        id: BlobId,
        body: Bytes,
        fabric: &mut F,
    ) -> Result<(), Memory>
        requires room { length (live_in self.old.stages) < 16 }
        requires number { self.old.begun + 1 < 2 ^ 31 }
        requires small { length body ≤ self.old.shape.chunk }
        requires simple { is_simple id ≡ true }
        requires chosen { partition_of id ≡ self.old.begun % self.old.shape.partitions }
        requires open { F.opened fabric.old ≡ Some self.old.shape }
        // The record goes on by the begin, the draw, the requests, and what they came to.
        ensures ties { OnOk result ((marks : List HistoryMark) → Ties (Stands self.old) (F.told fabric.old) marks → Ties (Stands self.new) (F.told fabric.new) (Drew (self.old.begun + 1) id ∷ Begin (self.old.begun + 1) (Begun.Put [] body 0 [] []) ∷ marks)) }
        ensures begun { OnOk result (self.new.begun ≡ self.old.begun + 1) }
        ensures live { OnOk result (live_in self.new.stages ≡ live_in self.old.stages ++ (self.old.begun + 1) ∷ []) }
        ensures shape { self.new.shape ≡ self.old.shape }
        ensures net { Advances F.faults F.opened F.runs F.advances fabric.old fabric.new (is_ok result) }
    {
        let turn = self.next_turn()?;
        let stage = Stage::UnderWay(Live::put(
            alloc,
            &self.shape,
            self.begun + 1,
            id,
            self.clock,
            body,
        ));
        self.begin(alloc, stage, turn, fabric)
    }

    /// Begins a put of so many bytes, which are too many. Nothing is drawn or sent.
    pub fn put_too_large(&mut self, size: u64) -> Result<(), Memory>
        requires room { length (live_in self.old.stages) < 16 }
        requires number { self.old.begun + 1 < 2 ^ 31 }
        requires large { self.old.shape.chunk < size }
        ensures ties { OnOk result ((told : Option (List Called)) (marks : List HistoryMark) (body : List ℕ) → length body ≡ size → Ties (Stands self.old) told marks → Ties (Stands self.new) told (Begin (self.old.begun + 1) (Begun.Put [] body 0 [] []) ∷ marks)) }
        ensures begun { OnOk result (self.new.begun ≡ self.old.begun + 1) }
        ensures live { OnOk result (live_in self.new.stages ≡ live_in self.old.stages ++ (self.old.begun + 1) ∷ []) }
        ensures shape { self.new.shape ≡ self.old.shape }
    {
        let turn = self.next_turn()?;
        let operation = self.begun + 1;
        self.add(
            Stage::Over {
                operation,
                outcome: Outcome::TooLarge(size),
                turn,
            },
            turn,
        )
    }

    /// Begins a get of an id beside the operations that are live, and asks as many replicas as are needed. A get that names no id, an id
    /// of a chunk, or one of no partition is over at once. After `Memory` it isn't live.
    pub fn get<F: Fabric>(
        &mut self,
        alloc: Global,
        id: Option<BlobId>,
        fabric: &mut F,
    ) -> Result<(), Memory>
        requires room { length (live_in self.old.stages) < 16 }
        requires number { self.old.begun + 1 < 2 ^ 31 }
        requires whole { IfSome id (λ id. is_composite id ≡ false) }
        requires open { F.opened fabric.old ≡ Some self.old.shape }
        // The record goes on by the begin, the requests, and what they came to.
        ensures ties { OnOk result ((marks : List HistoryMark) → Ties (Stands self.old) (F.told fabric.old) marks → Ties (Stands self.new) (F.told fabric.new) (Begin (self.old.begun + 1) (Begun.Get id None []) ∷ marks)) }
        ensures begun { OnOk result (self.new.begun ≡ self.old.begun + 1) }
        ensures live { OnOk result (live_in self.new.stages ≡ live_in self.old.stages ++ (self.old.begun + 1) ∷ []) }
        ensures shape { self.new.shape ≡ self.old.shape }
        ensures net { Advances F.faults F.opened F.runs F.advances fabric.old fabric.new (is_ok result) }
    {
        let turn = self.next_turn()?;
        let stage = get_stage(alloc, &self.shape, turn, self.begun + 1, id);
        self.begin(alloc, stage, turn, fabric)
    }

    /// Begins a delete of an id beside the operations that are live, and asks all replicas. A delete that names no id, an id of a chunk, or
    /// one of no partition is over at once. After `Memory` it isn't live.
    pub fn delete<F: Fabric>(
        &mut self,
        alloc: Global,
        id: Option<BlobId>,
        fabric: &mut F,
    ) -> Result<(), Memory>
        requires room { length (live_in self.old.stages) < 16 }
        requires number { self.old.begun + 1 < 2 ^ 31 }
        requires whole { IfSome id (λ id. is_composite id ≡ false) }
        requires open { F.opened fabric.old ≡ Some self.old.shape }
        // The record goes on by the begin, the requests, and what they came to.
        ensures ties { OnOk result ((marks : List HistoryMark) → Ties (Stands self.old) (F.told fabric.old) marks → Ties (Stands self.new) (F.told fabric.new) (Begin (self.old.begun + 1) (Begun.Delete id) ∷ marks)) }
        ensures begun { OnOk result (self.new.begun ≡ self.old.begun + 1) }
        ensures live { OnOk result (live_in self.new.stages ≡ live_in self.old.stages ++ (self.old.begun + 1) ∷ []) }
        ensures shape { self.new.shape ≡ self.old.shape }
        ensures net { Advances F.faults F.opened F.runs F.advances fabric.old fabric.new (is_ok result) }
    {
        let turn = self.next_turn()?;
        let stage = delete_stage(alloc, &self.shape, self.clock, turn, self.begun + 1, id);
        self.begin(alloc, stage, turn, fabric)
    }

    /// An operation begins, which has asked nothing yet or is over at once, and settles beside those that are live.
    fn begin<F: Fabric>(
        &mut self,
        alloc: Global,
        stage: Stage,
        turn: u64,
        fabric: &mut F,
    ) -> Result<(), Memory>
        requires room { length (live_in self.old.stages) < 16 }
        requires number { self.old.begun + 1 < 2 ^ 31 }
        requires turn { turn ≡ self.old.turns + 1 }
        requires fits { FitsStage self.old.shape (self.old.begun + 1) stage }
        requires next { number_of stage ≡ self.old.begun + 1 }
        requires open { F.opened fabric.old ≡ Some self.old.shape }
        ensures ties { OnOk result ((items : Record) (marks : List HistoryMark) → AllSession items → BeginsBeside self.old items stage → Ties (Stands self.old) (F.told fabric.old) marks → Ties (Stands self.new) (F.told fabric.new) (marks_of items ++ marks)) }
        ensures begun { OnOk result (self.new.begun ≡ self.old.begun + 1) }
        ensures live { OnOk result (live_in self.new.stages ≡ live_in self.old.stages ++ (self.old.begun + 1) ∷ []) }
        ensures shape { self.new.shape ≡ self.old.shape }
        ensures net { Advances F.faults F.opened F.runs F.advances fabric.old fabric.new (is_ok result) }
    {
        let mut stage = stage;
        settle_stage(
            &mut stage,
            alloc,
            &self.shape,
            self.clock,
            self.events,
            turn,
            fabric,
        )?;
        self.add(stage, turn)
    }

    /// Keeps an operation that has begun, the last one by its number.
    fn add(&mut self, stage: Stage, turn: u64) -> Result<(), Memory>
        requires room { length (live_in self.old.stages) < 16 }
        requires number { self.old.begun + 1 < 2 ^ 31 }
        requires turn { turn ≡ self.old.turns + 1 }
        requires fits { FitsStage self.old.shape (self.old.begun + 1) stage }
        requires next { number_of stage ≡ self.old.begun + 1 }
        ensures added { OnOk result (self.new ≡ with_stage self.old stage) }
        ensures same { OnErr result (self.new ≡ self.old) }
    {
        self.stages.push(stage)?;
        self.begun += 1;
        self.turns = turn;
        Ok(())
    }
}

/// Where a get begins, in this turn.
fn get_stage(alloc: Global, shape: &Shape, turn: u64, operation: u32, id: Option<BlobId>) -> Stage
    requires shape { IsShape shape.now }
    requires number { operation < 2 ^ 31 }
    requires whole { IfSome id (λ id. is_composite id ≡ false) }
    ensures fits { FitsStage shape.now operation result }
    ensures number { number_of result ≡ operation }
    ensures owns { (clock : ℕ) → BeginsAs shape.now clock turn operation (begin_items operation (Begun.Get id None []) result) result }
{
    match served(shape, id) {
        Ok(id) => Stage::UnderWay(Live::get(alloc, shape, operation, id)),
        Err(outcome) => Stage::Over {
            operation,
            outcome,
            turn,
        },
    }
}

/// Where a delete begins, at a moment in ms, in this turn.
fn delete_stage(
    alloc: Global,
    shape: &Shape,
    clock: u64,
    turn: u64,
    operation: u32,
    id: Option<BlobId>,
) -> Stage
    requires shape { IsShape shape.now }
    requires number { operation < 2 ^ 31 }
    requires whole { IfSome id (λ id. is_composite id ≡ false) }
    ensures fits { FitsStage shape.now operation result }
    ensures number { number_of result ≡ operation }
    ensures owns { BeginsAs shape.now clock turn operation (begin_items operation (Begun.Delete id) result) result }
{
    match served(shape, id) {
        Ok(id) => Stage::UnderWay(Live::delete(alloc, shape, operation, id, clock)),
        Err(outcome) => Stage::Over {
            operation,
            outcome,
            turn,
        },
    }
}

/// The id, where it is one of a whole blob in a partition, or else how an operation on it ends.
fn served(shape: &Shape, id: Option<BlobId>) -> Result<BlobId, Outcome>
    requires whole { IfSome id (λ id. is_composite id ≡ false) }
    ensures ok { IfOk result (λ named. (id ≡ Some named) × IsServed shape.now named) }
    ensures err { IfErr result (λ outcome. IsRefused shape.now id outcome × IsAnswer shape.now outcome) }
{
    let Some(id) = id else {
        return Err(Outcome::NoId);
    };
    if is_chunk(id) {
        return Err(Outcome::NotWhole);
    }
    if u32::from(id.partition()) >= shape.partitions {
        return Err(Outcome::NoPartition);
    }
    Ok(id)
}

fn is_chunk(id: BlobId) -> bool
    ensures { result ≡ is_chunk id }
{
    matches!(id.kind(), Kind::Chunk)
}

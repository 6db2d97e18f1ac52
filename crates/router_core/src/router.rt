//! What a router keeps.

ghost use Rattle.std.specs.Prelude.{◌≡◌, ◌+◌, ◌%◌, ◌<◌, [], IfOk};
ghost use Rattle.world_model.specs.Shape.{IsShape};
ghost use Rattle.router_core.specs.Stands.{Stands};

use crate::live::Live;
use blob_id::Memory;
use quorum_op::Outcome;
use std::alloc::Global;
use std::marker::Model;
use world_model::Shape;

/// Where a live operation stands.
#[derive(Drop)]
pub enum Stage {
    /// It waits for replies.
    UnderWay(Live),
    /// It became done in this turn, and its end wasn't given yet.
    Over {
        operation: u32,
        outcome: Outcome,
        turn: u64,
    },
}

/// A router that has sixteen operations at a time. Operations are numbered from 1.
#[derive(Drop)]
pub struct Router {
    pub(crate) shape: Shape,
    /// The greatest moment that an event told, in ms.
    pub(crate) clock: u64,
    /// How many events it took.
    pub(crate) events: u64,
    /// How many operations began.
    pub(crate) begun: u32,
    /// How many events and script lines there were: operations that began, and orders.
    pub(crate) turns: u64,
    /// The live operations, by their numbers.
    pub(crate) stages: Vec<Stage>,
}

impl Model for Router {
    ghost use Rattle.router_core.specs.Fits.{Fits, RouterView};

    ghost Value = { RouterView };

    ghost view = { λ r. record { shape = r.shape; clock = r.clock; events = r.events; begun = r.begun; turns = r.turns; stages = r.stages.items } };

    ghost invariant = { λ r. Fits (record { shape = r.shape; clock = r.clock; events = r.events; begun = r.begun; turns = r.turns; stages = r.stages.items }) };
}

impl Router {
    /// A router that did nothing yet.
    pub fn new(alloc: Global, shape: Shape) -> Router
        requires shape { IsShape shape }
        ensures stands { Stands result [] }
        ensures shape { result.shape ≡ shape }
        ensures begun { result.begun ≡ 0 }
        ensures idle { result.stages ≡ [] }
    {
        Router {
            shape,
            clock: 0,
            events: 0,
            begun: 0,
            turns: 0,
            stages: Vec::new(alloc),
        }
    }

    /// The most bytes that a put may have.
    pub fn limit(&self) -> u32
        ensures { result ≡ self.now.shape.chunk }
    {
        self.shape.chunk
    }

    /// How many nodes the cluster has.
    pub fn nodes(&self) -> u32
        ensures { result ≡ self.now.shape.nodes }
    {
        self.shape.nodes
    }

    /// The partition in which the next operation draws its id.
    pub fn partition(&self) -> u32
        ensures value { result ≡ self.now.begun % self.now.shape.partitions }
        ensures within { result < self.now.shape.partitions }
    {
        self.begun % self.shape.partitions
    }

    /// The turn that an event or a script line begins. A count that is full ends as want of memory does.
    pub(crate) fn next_turn(&self) -> Result<u64, Memory>
        ensures { IfOk result (λ turn. turn ≡ self.now.turns + 1) }
    {
        match self.turns.checked_add(1) {
            Some(turn) => Ok(turn),
            None => Err(Memory),
        }
    }
}

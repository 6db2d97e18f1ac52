//! Orders to the network.

ghost use Rattle.std.specs.Prelude.{◌≡◌, List, ◌∷◌, Some, IfOk, IfSome, IsSome, IsNone, OnOk, OnErr};
ghost use Rattle.std.specs.Result.{is_ok};
ghost use Rattle.outside.specs.Causes.{Rose};
ghost use Rattle.world_model.specs.declared.history.HistoryMark.{HistoryMark};
ghost use Rattle.world_model.specs.declared.history.HistoryMark.TheVariants.{Ordered};
ghost use Rattle.world_model.specs.Advancing.{Advances};
ghost use Rattle.world_model.specs.Fabric.{Awaits, TakesOrder};
ghost use Rattle.router_core.specs.Stands.{Stands, live_in};
ghost use Rattle.router_core.specs.Ties.{Ties};
ghost use Rattle.router_core.specs.Turning.{one_turn_on};

use crate::router::Router;
use blob_id::Memory;
use std::alloc::Global;
use world_model::{Fabric, Order, SendFault, Told};

impl Router {
    /// Gives the network an order, and takes the events that are queued then, so that the operations under way go on. None where the
    /// network refused it, which leaves all as it was. After an error the order may have been carried out.
    pub fn order<F: Fabric>(
        &mut self,
        alloc: Global,
        order: &Order,
        fabric: &mut F,
    ) -> Result<Option<Told>, Memory>
        requires open { F.opened fabric.old ≡ Some self.old.shape }
        requires order { TakesOrder (F.opened fabric.old) order.now }
        // The record goes on by what the network did, by the order with its answer, and by the events and what they came to.
        ensures ties { IfOk result (λ answer. IfSome answer (λ told. (marks : List HistoryMark) → Ties (Stands self.old) (F.told fabric.old) marks → Ties (Stands self.new) (F.told fabric.new) (Ordered order.now told ∷ marks))) }
        ensures taken { IfOk result (λ answer. IsSome answer → Awaits (F.told fabric.new) 0) }
        ensures failed { IfOk result (λ answer. IsNone answer → (self.new ≡ self.old) × (F.told fabric.new ≡ F.told fabric.old)) }
        ensures cause { IfOk result (λ answer. IsNone answer → Rose (F.faults fabric.old) (F.faults fabric.new)) }
        ensures live { OnOk result (live_in self.new.stages ≡ live_in self.old.stages) }
        ensures begun { self.new.begun ≡ self.old.begun }
        ensures shape { self.new.shape ≡ self.old.shape }
        ensures net { Advances F.faults F.opened F.runs F.advances fabric.old fabric.new (is_ok result) }
    {
        match fabric.admin(order) {
            Ok(told) => {
                self.go_on(alloc, fabric)?;
                Ok(Some(told))
            }
            Err(SendFault::Failed) => Ok(None),
            Err(SendFault::Memory) => Err(Memory),
        }
    }

    /// Counts the order, and takes the events that are queued behind it.
    fn go_on<F: Fabric>(&mut self, alloc: Global, fabric: &mut F) -> Result<(), Memory>
        requires open { F.opened fabric.old ≡ Some self.old.shape }
        ensures ties { OnOk result ((marks : List HistoryMark) → Ties (Stands (one_turn_on self.old)) (F.told fabric.old) marks → Ties (Stands self.new) (F.told fabric.new) marks) }
        ensures taken { OnOk result (Awaits (F.told fabric.new) 0) }
        ensures live { OnOk result (live_in self.new.stages ≡ live_in self.old.stages) }
        ensures begun { self.new.begun ≡ self.old.begun }
        ensures shape { self.new.shape ≡ self.old.shape }
        ensures net { Advances F.faults F.opened F.runs F.advances fabric.old fabric.new (is_ok result) }
    {
        self.turn_on()?;
        self.take_queued(alloc, fabric)?;
        Ok(())
    }

    /// Counts one more turn. After `Memory` the count is full, and stays.
    fn turn_on(&mut self) -> Result<(), Memory>
        ensures on { OnOk result (self.new ≡ one_turn_on self.old) }
        ensures same { OnErr result (self.new ≡ self.old) }
    {
        self.turns = self.next_turn()?;
        Ok(())
    }

    /// Takes events until none is queued. Each turn counts one more event, so it returns at the latest where the count is full.
    fn take_queued<F: Fabric>(&mut self, alloc: Global, fabric: &mut F) -> Result<(), Memory>
        requires open { F.opened fabric.old ≡ Some self.old.shape }
        ensures ties { OnOk result ((marks : List HistoryMark) → Ties (Stands self.old) (F.told fabric.old) marks → Ties (Stands self.new) (F.told fabric.new) marks) }
        ensures taken { OnOk result (Awaits (F.told fabric.new) 0) }
        ensures live { OnOk result (live_in self.new.stages ≡ live_in self.old.stages) }
        ensures begun { self.new.begun ≡ self.old.begun }
        ensures shape { self.new.shape ≡ self.old.shape }
        ensures net { Advances F.faults F.opened F.runs F.advances fabric.old fabric.new (is_ok result) }
    {
        'taking: while fabric.queued() > 0 {
            self.turn(alloc, fabric)?;
        }
        Ok(())
    }
}

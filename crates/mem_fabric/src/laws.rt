//! What holds of every network of this kind. The function does nothing: its contract is the law.

ghost use Rattle.std.specs.Prelude.{◌≡◌, ◌++◌, List, Some, true};
ghost use Rattle.mem_fabric.specs.declared.fabric.MemFabric.{MemFabric};
ghost use Rattle.mem_fabric.specs.Going.{KeepsBays};
ghost use Rattle.mem_fabric.specs.Played.{IsPlayed};
ghost use Rattle.world_model.specs.declared.offers.GivenMove.{GivenMove};
ghost use Rattle.world_model.specs.declared.shape.Shape.{Shape};
ghost use Rattle.world_model.specs.declared.step.Called.{Called};

use crate::fabric::MemFabric;
use disk_core::Bays;
use world_model::{Fabric, Moves};

/// Where a network that was never opened became one that is open for a shape, and this a later one, each by calls that were
/// answered, the calls told are those of the opening, of sends, of orders, of events that waited, and of the moves that were given
/// meanwhile, each picked from what was there and made once, in order and by the rule of moves, the schedule wasn't begun anew, and
/// the bays are the same.
pub fn what_is_told_was_played<B: Bays, M: Moves>()
where
    B::Disk: Drop,
    ensures { (a b d : MemFabric B M _ _ _) (shape : Shape) (calls : List Called)
        → ⟦<MemFabric<B, M> as Fabric>⟧.fresh a ≡ true
        → ⟦<MemFabric<B, M> as Fabric>⟧.advances a b true
        → ⟦<MemFabric<B, M> as Fabric>⟧.opened b ≡ Some shape
        → ⟦<MemFabric<B, M> as Fabric>⟧.advances b d true
        → ⟦<MemFabric<B, M> as Fabric>⟧.told d ≡ Some calls
        → (moves : List GivenMove) × (M.given d.moves ≡ M.given a.moves ++ moves) × IsPlayed shape moves calls × (M.seeds d.moves ≡ M.seeds a.moves) × KeepsBays B.tells B.out B.same a.nodes d.nodes }
{}

//! The seeds that a schedule was begun with, for clauses alone.

ghost use Rattle.std.specs.Prelude.{◌≡◌, ◌++◌, ◌∷◌, []};
ghost use Rattle.world_model.specs.Seeds.{seeds_of};

use std::snapshot::Snapshot;

/// The seeds, the last one outside. It has no bytes: only clauses read it.
#[derive(Drop)]
pub enum Seeds {
    /// It was never begun.
    Unbegun,
    Begun(Snapshot<Seeds>, Snapshot<u64>),
}

impl Seeds {
    /// These, and one more.
    pub(crate) fn with(&self, seed: u64) -> Seeds
        ensures { seeds_of result ≡ seeds_of self.now ++ seed ∷ [] }
    {
        Seeds::Begun(Snapshot::of(self), Snapshot::of(&seed))
    }
}

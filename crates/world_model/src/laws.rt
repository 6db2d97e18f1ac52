//! What holds of every record. The functions do nothing: their contracts are the laws.

ghost use Rattle.world_model.specs.Record.{Record};
ghost use Rattle.world_model.specs.Router.{IsKept};
ghost use Rattle.world_model.specs.Rules.{Rules};
ghost use Rattle.world_model.specs.Safe.{DrawsNew, IsSound, Safe};
ghost use Rattle.world_model.specs.World.{Cells, Run};

/// Where the network ran by its rules from sound cells, the router kept its own, and the ids that it drew were new, the record
/// is safe.
pub fn runs_are_safe()
    ensures { (rules : Rules) (opening : Cells) (record' : Record) → IsSound opening → DrawsNew opening record' → Run opening record' → IsKept rules record' → Safe rules opening record' }
{}

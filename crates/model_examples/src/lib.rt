//! Records that are written out, one a feature of the model: each can come to pass, and so it is safe.
//!
//! # Values
//!
//! The records stand in `specs/`, a file each, the newest item first.
//!
//! # Proved
//!
//! `examples_come_to_pass` does nothing. Its clauses say of each record that it meets every premise of
//! `world_model::runs_are_safe`, that it is safe, and that its marks stand in order (`CanComeToPass`), so that no feature of
//! the model is ruled out by the rules themselves; some say what the record comes to. Each proof is a computation: a search
//! over the record gives the proof, or names the first item that may not come. No crate stands on this one.
#![tactic(auto)]

ghost use Rattle.std.specs.Prelude.{◌≡◌, Some, None};
ghost use Rattle.cell_model.specs.declared.cell.Cell.{Cell};
ghost use Rattle.world_model.specs.Rules.{usual_rules};
ghost use Rattle.world_model.specs.World.{carried, world};
ghost use Rattle.model_examples.specs.Examples.{CanComeToPass};
ghost use Rattle.model_examples.specs.Openings.{cells_of, nothing};
ghost use Rattle.model_examples.specs.Cancel;
ghost use Rattle.model_examples.specs.Chunks;
ghost use Rattle.model_examples.specs.Delete;
ghost use Rattle.model_examples.specs.Drain;
ghost use Rattle.model_examples.specs.Find;
ghost use Rattle.model_examples.specs.Merge;
ghost use Rattle.model_examples.specs.Retry;

/// The written-out records can come to pass.
pub fn examples_come_to_pass()
    // A blob of two chunks is put, and then two bytes across its chunks are read.
    ensures chunks { CanComeToPass (usual_rules Chunks.shape) nothing Chunks.lines }
    // A blob is put and deleted, and a get of it then ends as deleted.
    ensures delete { CanComeToPass (usual_rules Delete.shape) nothing Delete.lines }
    // A put finds its first node stopped, gives its first id up, and is stored by its second attempt.
    ensures retry { CanComeToPass (usual_rules Retry.shape) nothing Retry.lines }
    // A get of a chunk is refused, and a put is cancelled, whose end stands while the get has none. The put gives its id up
    // behind its end.
    ensures cancel { CanComeToPass (usual_rules Cancel.shape) nothing Cancel.lines }
    // A get is withheld, since its node is drained, and a second one breaks with the connection.
    ensures drain { CanComeToPass (usual_rules Drain.shape) nothing Drain.lines }
    // A put is in doubt at its second node, which is stopped and loses it, and then fetches the blob and merges it; once more in
    // doubt, the next restart has it. Both nodes hold the blob at last.
    ensures merge { CanComeToPass (usual_rules Merge.shape) nothing Merge.lines }
    ensures merged { (world nothing Merge.lines).cells 2 0 Merge.id ≡ Cell.Held Merge.stored }
    // A node asks another one what it hasn't seen, and merges the entry of the page that is gone. The entry that is held there
    // carries nothing, and its blob is to be fetched yet.
    ensures find { CanComeToPass (usual_rules Find.shape) (cells_of Find.opening) Find.lines }
    ensures gone { (world (cells_of Find.opening) Find.lines).cells 2 0 Find.gone_id ≡ Cell.Gone }
    ensures held { (world (cells_of Find.opening) Find.lines).cells 2 0 Find.held_id ≡ Cell.Absent }
    ensures carries { carried (Some Find.answered) 1 ≡ None }
{}

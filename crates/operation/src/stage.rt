//! How far an operation is.

ghost use Rattle.std.specs.Prelude.{◌≡◌, false, List, Option};
ghost use Rattle.operation.specs.Calls.{Call, Plan, is_done};
ghost use Rattle.operation.specs.Stages.{StandsAt, is_given, is_over};
ghost use Rattle.quorum_op.specs.declared.outcome.Outcome.{Outcome};

/// How far an operation is.
#[derive(Clone, Copy, Debug, PartialEq, Eq)]
pub enum Stage {
    /// Its notes tell whether there is an outcome.
    Running,
    Cancelled,
    /// There was no memory for a call.
    Starved,
    /// The outcome was given.
    Given,
}

impl Stage {
    /// Whether there is an outcome, where the notes decide or not.
    pub fn is_over(self, decided: bool) -> bool
        ensures value { result ≡ is_over self decided }
        ensures over { (plan : Plan) (decides : List Call → Option Outcome) (calls : List Call) → (is_given self ≡ false → decided ≡ is_done (decides calls)) → StandsAt plan decides self calls → result ≡ is_done (plan.outcome calls) }
    {
        match self {
            Stage::Running => decided,
            Stage::Cancelled | Stage::Starved | Stage::Given => true,
        }
    }
}

//! A replica, by what it answers.

ghost use Rattle.std.specs.Prelude.{ℕ, ◌≡◌, ◌≢◌, ◌≤◌, Bool, true, List};
ghost use Rattle.outside.specs.Causes.{Rose};
ghost use Rattle.cell_model.specs.Told.{Told};
ghost use Rattle.cell_model.specs.declared.ask.Ask.{Ask};
ghost use Rattle.cell_model.specs.declared.ask.Reply.{Reply};
ghost use Rattle.cell_model.specs.Asks.{IsStep, CanAnswer, Refuses, AsksInRange, AnswersInRange};

use crate::ask::{Ask, Reply};

/// A replica. Its type says whether it tells what it holds, and whether it may refuse.
pub trait ReplicaPort {
    /// Whether a replica of this type tells what it holds.
    ghost tells: { Type 0 };

    /// Whether a replica of this type ever answers that it is full, failed or down.
    ghost may_refuse: { Bool };

    /// What it tells.
    ghost told: { Self → Told };

    /// Numbers that no ask changes, whether it tells or not: the settings and the size of a disk, for example.
    ghost fixed: { Self → List ℕ };

    /// How often its device has failed.
    ghost faults: { Self → ℕ };

    /// What it needs to be asked, and keeps: that a function which it was given may be called, for example.
    ghost ready: { Self → Type 0 };

    /// What one ask and its reply make of it, by a relation of its own: what the ask does to a disk, for example.
    ghost asks: { Self → Ask → Reply → Self → Type 0 };

    /// One ask and its reply.
    fn ask(&mut self, ask: Ask) -> Reply
        requires ready { ready self.old }
        requires range { AsksInRange ask }
        ensures kind { CanAnswer ask result }
        ensures step { tells → IsStep (told self.old) ask result (told self.new) }
        ensures range { AnswersInRange result }
        ensures ready { ready self.new }
        ensures refusal { Refuses result → may_refuse ≡ true }
        ensures fault { result ≡ Reply.Fault → Rose (faults self.old) (faults self.new) }
        ensures later { faults self.old ≤ faults self.new }
        ensures calm { result ≢ Reply.Fault → faults self.new ≡ faults self.old }
        ensures kept { fixed self.new ≡ fixed self.old }
        ensures own { asks self.old ask result self.new };
}

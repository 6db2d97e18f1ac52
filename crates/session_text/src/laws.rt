//! Laws of lines and outcomes, as functions that do nothing.

ghost use Rattle.std.specs.Prelude.{◌≡◌, ◌≢◌, ◌≤◌, List, ℕ, length};
ghost use Rattle.std.specs.List.{AllByRecursion};
ghost use Rattle.quorum_op.specs.declared.outcome.Outcome.{Outcome};
ghost use Rattle.world_model.specs.Shape.{IsShape};
ghost use Rattle.session_text.specs.declared.command.Command.{Command as Asks};
ghost use Rattle.session_text.specs.declared.tags.Scope.{Scope as Before};
ghost use Rattle.session_text.specs.Lines.{AreTags, IsCommand, command_line};
ghost use Rattle.session_text.specs.Spelling.{Spells, longest_line};
ghost use Rattle.session_text.specs.Outcomes.{IsOutcome, outcome_words};

/// A line spells one command at most, and only commands that a script may have. Each of these is spelled by a line of its own,
/// where that isn't too long and the tags before it are tags.
pub fn line_laws()
    ensures one { (scope : Before) (line : List ℕ) (a b : Asks) → Spells scope a line → Spells scope b line → a ≡ b }
    ensures valid { (scope : Before) (line : List ℕ) (command : Asks) → Spells scope command line → IsCommand scope command }
    ensures each { (scope : Before) (command : Asks) → IsShape scope.shape → AreTags scope.tags → IsCommand scope command → length (command_line command) ≤ longest_line → Spells scope command (command_line command) }
{}

/// No two outcomes have the same words, and no byte of them ends a line.
pub fn outcome_laws()
    ensures apart { (a b : Outcome) → IsOutcome a → IsOutcome b → outcome_words a ≡ outcome_words b → a ≡ b }
    ensures within { (outcome : Outcome) → IsOutcome outcome → AllByRecursion (λ byte. byte ≢ 10) (outcome_words outcome) }
{}

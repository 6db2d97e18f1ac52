//! Sources, sinks and random words, by what they give and take and how often they failed.

ghost use Rattle.std.specs.Prelude.{List, ℕ, ◌≡◌, Option, OnOk, OnErr, Result};
ghost use Rattle.std.specs.Io.{ReadsAtMost, WritesAtMost};
ghost use Rattle.std.specs.Io.KnownBytes.{ReadConsumes, WriteAppends};
ghost use Rattle.outside.specs.Causes.{HasCause, TakesSome};
ghost use Rattle.outside.specs.Words.{Gives, started};

use crate::failed::Failed;

/// Where bytes come from.
pub trait Source {
    /// The bytes that are left, where the source tells them.
    ghost left: { Self → Option (List ℕ) };

    /// How often it has failed.
    ghost faults: { Self → ℕ };

    /// Fills some of the buffer and says how much. 0 for a buffer that isn't empty is the end. After a failure
    /// nothing was taken.
    fn read(&mut self, buf: &mut [u8]) -> Result<usize, Failed>
        ensures bound { ReadsAtMost result buf.new }
        ensures bytes { ReadConsumes (left self.old) (left self.new) result buf.new }
        ensures cause { HasCause (faults self.old) (faults self.new) result };
}

/// Where bytes go to.
pub trait Sink {
    /// The bytes that were taken, where the sink tells them.
    ghost taken: { Self → Option (List ℕ) };

    /// How often it has failed.
    ghost faults: { Self → ℕ };

    /// Takes some of the bytes, at least one where there is one, and says how many. After a failure none were taken.
    fn write(&mut self, buf: &[u8]) -> Result<usize, Failed>
        ensures bound { WritesAtMost result buf.now }
        ensures some { TakesSome result buf.now }
        ensures bytes { WriteAppends (taken self.old) (taken self.new) result buf.now }
        ensures cause { HasCause (faults self.old) (faults self.new) result };
}

/// Where random words come from.
pub trait Random {
    /// The words that are to come, where they are told: word k is the k-th from now on.
    ghost ahead: { Self → Option (ℕ → ℕ) };

    /// The words that follow a start with this number, where they are told.
    ghost seeded: { ℕ → Option (ℕ → ℕ) };

    /// How often it has failed to start.
    ghost faults: { Self → ℕ };

    /// Begins, with the words of a number that is asked for, or with any. It gives no word. After a failure all is
    /// as before.
    fn start(&mut self, asked: Option<u64>) -> Result<(), Failed>
        ensures begun { OnOk result (ahead self.new ≡ started seeded asked (ahead self.old)) }
        ensures stays { OnErr result (ahead self.new ≡ ahead self.old) }
        ensures cause { HasCause (faults self.old) (faults self.new) result };

    /// The next word.
    fn word(&mut self) -> u64
        ensures given { Gives (ahead self.old) (ahead self.new) result }
        ensures same { faults self.new ≡ faults self.old };
}

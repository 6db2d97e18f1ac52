//! Random words that are counted.

ghost use Rattle.std.specs.Prelude.{◌≡◌, Some};
ghost use Rattle.outside.specs.Words.{counted};

use crate::failed::Failed;
use crate::traits::Random;

/// Gives its nonce and its count in turn, and counts up. A start with a number sets the nonce to it and the count
/// to 0; a start without one leaves both.
#[derive(Clone, Copy, Debug, PartialEq, Eq)]
pub struct CountRandom {
    nonce: u64,
    count: u64,
    /// The count is the next word, since the nonce was given.
    second: bool,
}

impl CountRandom {
    pub fn new(nonce: u64, count: u64) -> Self
        ensures { ⟦<CountRandom as Random>⟧.ahead result ≡ Some (counted nonce count) }
    {
        CountRandom {
            nonce,
            count,
            second: false,
        }
    }
}

impl Random for CountRandom {
    ghost use Rattle.std.specs.Prelude.{Some, None, ◌≡◌, OnOk, OnErr};
    ghost use Rattle.outside.specs.Words.{counted};
    ghost use Rattle.outside.specs.Counted.{counted_ahead};

    ghost ahead = { λ r. Some (counted_ahead r.nonce r.count r.second) };

    ghost seeded = { λ number. Some (counted number 0) };

    ghost faults = { λ _. 0 };

    fn start(&mut self, asked: Option<u64>) -> Result<(), Failed> {
        if let Some(nonce) = asked {
            self.nonce = nonce;
            self.count = 0;
            self.second = false;
        }
        Ok(())
    }

    fn word(&mut self) -> u64 {
        if self.second {
            let count = self.count;
            self.count = count.wrapping_add(1);
            self.second = false;
            count
        } else {
            self.second = true;
            self.nonce
        }
    }
}

/// A source that fails at each start, for tests of what is done where no random words can be had. Its words are zeros.
#[derive(Clone, Copy, Debug, PartialEq, Eq)]
pub struct FailRandom {
    faults: u64,
}

impl FailRandom {
    pub fn new() -> Self
        ensures ahead { ⟦<FailRandom as Random>⟧.ahead result ≡ Some (λ place. 0) }
        ensures faults { ⟦<FailRandom as Random>⟧.faults result ≡ 0 }
    {
        FailRandom { faults: 0 }
    }
}

impl Random for FailRandom {
    ghost use Rattle.std.specs.Prelude.{Some, ◌≡◌, IsErr, OnOk, OnErr};
    ghost use Rattle.outside.specs.Causes.{HasCause};
    ghost use Rattle.outside.specs.Words.{started};

    ghost ahead = { λ _. Some (λ place. 0) };

    ghost seeded = { λ number. Some (λ place. 0) };

    ghost faults = { λ r. r.faults };

    /// Fails always.
    fn start(&mut self, asked: Option<u64>) -> Result<(), Failed>
        ensures cause { HasCause self.old.faults self.new.faults result }
        ensures always { IsErr result }
    {
        self.faults = self.faults.saturating_add(1);
        Err(Failed)
    }

    fn word(&mut self) -> u64 {
        0
    }
}

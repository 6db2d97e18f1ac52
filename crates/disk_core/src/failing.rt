//! Which calls fail, by their numbers.

ghost use Rattle.std.specs.Prelude.{◌≡◌, ◌+◌, ◌-◌, ◌^◌, ◌≤◌, ◌↔◌, [], min, Contains, IsTrue};
ghost use Rattle.std.specs.Bool.{OnTrue, OnFalse};
ghost use Rattle.outside.specs.Causes.{Rose};

/// Counts calls from 1, and the faults among them. Both counts stay at their last value.
#[derive(Drop)]
pub struct Failing {
    listed: Vec<u64>,
    calls: u64,
    pub faults: u64,
}

impl Failing {
    /// The calls with these numbers are to fail.
    pub fn new(listed: Vec<u64>) -> Failing
        ensures listed { result.listed.items ≡ listed.items }
        ensures calls { result.calls ≡ 0 }
        ensures faults { result.faults ≡ 0 }
    {
        Failing {
            listed,
            calls: 0,
            faults: 0,
        }
    }

    /// Counts a call, and says whether it is to fail, which is then a fault.
    pub fn fails(&mut self) -> bool
        ensures exact { IsTrue result ↔ Contains self.old.listed.items self.new.calls }
        ensures fault { OnTrue result (Rose self.old.faults self.new.faults) }
        ensures none { OnFalse result (self.new.faults ≡ self.old.faults) }
        ensures later { self.old.faults ≤ self.new.faults }
        ensures calls { self.new.calls ≡ min (self.old.calls + 1) (2 ^ 64 - 1) }
        ensures listed { self.new.listed.items ≡ self.old.listed.items }
    {
        self.calls = self.calls.saturating_add(1);
        let listed = self.listed.contains(&self.calls);
        if listed {
            self.fault();
        }
        listed
    }

    /// Counts a fault.
    pub fn fault(&mut self)
        ensures later { self.old.faults ≤ self.new.faults }
        ensures rose { Rose self.old.faults self.new.faults }
        ensures same { self.new ≡ record self.old { faults = self.new.faults } }
    {
        self.faults = self.faults.saturating_add(1);
    }
}

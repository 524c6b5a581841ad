ghost use Rattle.std.specs.Prelude.{◌≡◌, ◌⊎◌, true, false, OnOk, OnErr};
ghost use Rattle.oc_io.specs.Faults.{NoFall};
ghost use Rattle.oc_io.specs.Tally.{called, faulted, fresh, IsListed, Passes, Stops};

use crate::fault::Failed;
use std::marker::Model;

/// The calls of an object in memory: the calls that are to fail, the number of calls, and the number of failures.
/// A count that has reached the greatest `u64` stays there.
#[derive(Debug, Drop)]
pub struct CallTally {
    listed: Vec<u64>,
    made: u64,
    faults: u64,
}

impl Model for CallTally {
    ghost use Rattle.oc_io.specs.Tally.{Tally};

    ghost Value = { Tally };

    ghost view = { λ t. record { listed = t.listed.items; made = t.made; faults = t.faults } };
}

impl CallTally {
    /// Starts with no calls. The calls with the numbers `listed` are to fail, counted from 1.
    pub fn new(listed: Vec<u64>) -> CallTally
        ensures { result ≡ fresh listed.items }
    {
        CallTally {
            listed,
            made: 0,
            faults: 0,
        }
    }

    /// Starts the count of calls anew: the calls with these numbers are to fail, counted from 1.
    pub fn list(&mut self, calls: Vec<u64>)
        ensures { self.new ≡ record self.old { listed = calls.items; made = 0 } }
    {
        self.listed = calls;
        self.made = 0;
    }

    /// Counts a call, which fails if it is listed.
    pub fn call(&mut self) -> Result<(), Failed>
        ensures passed { OnOk result (¬ IsListed self.old × (self.new ≡ called self.old)) }
        ensures listed { OnErr result (IsListed self.old × (self.new ≡ faulted (called self.old))) }
        ensures passes { OnOk result (Passes self.old self.new) }
        ensures stops { OnErr result (Stops self.old self.new) }
        ensures count { NoFall self.old.faults self.new.faults }
    {
        self.made = self.made.saturating_add(1);
        if self.listed.contains(&self.made) {
            self.faults = self.faults.saturating_add(1);
            return Err(Failed);
        }
        Ok(())
    }

    /// Counts a call, which fails if it is listed or `can` is false.
    pub fn call_if(&mut self, can: bool) -> Result<(), Failed>
        ensures passed { OnOk result ((can ≡ true) × ¬ IsListed self.old × (self.new ≡ called self.old)) }
        ensures failed { OnErr result (((can ≡ false) ⊎ IsListed self.old) × (self.new ≡ faulted (called self.old))) }
    {
        self.call()?;
        if can { Ok(()) } else { Err(self.fault()) }
    }

    /// Counts a fault of the last call.
    pub fn fault(&mut self) -> Failed
        ensures faulted { self.new ≡ faulted self.old }
        ensures count { NoFall self.old.faults self.new.faults }
    {
        self.faults = self.faults.saturating_add(1);
        Failed
    }
}

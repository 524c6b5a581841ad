ghost use Rattle.std.specs.Prelude.{◌≡◌, ◌↔◌, Some, IsTrue, OnOk, OnErr};
ghost use Rattle.oc_io.specs.Faults.{NoFall};
ghost use Rattle.oc_io.specs.Tally.{fresh, called, faulted, IsListed};
ghost use Rattle.oc_io.specs.Failing.{no_failures, passed, IsStopped};

use crate::call_tally::CallTally;
use crate::fault::Failed;
use std::alloc::Global;
use std::marker::Model;

/// A stop: after `left` more calls of `write_at` and `sync` every such call fails, and a crash leaves the byte
/// `image` in place of each byte that was written since the last sync.
#[derive(Clone, Copy, Debug)]
pub struct Stop {
    pub left: u8,
    pub image: u8,
}

/// The failing calls of a disk in memory: those with listed numbers, and all after a stop.
#[derive(Debug, Drop)]
pub struct Failures {
    calls: CallTally,
    stop: Option<Stop>,
}

impl Model for Failures {
    ghost use Rattle.oc_io.specs.Failing.{Failing};

    ghost Value = { Failing };

    ghost view = { λ f. record { calls = f.calls; stop = f.stop } };
}

impl Failures {
    /// No listed call and no stop.
    pub fn none(alloc: Global) -> Failures
        ensures { result ≡ no_failures }
    {
        Failures {
            calls: CallTally::new(Vec::new(alloc)),
            stop: None,
        }
    }

    /// Lists the calls that are to fail, by their numbers from now on, counted from 1.
    pub fn list(&mut self, calls: Vec<u64>)
        ensures { self.new ≡ record self.old {
          calls = record self.old.calls { listed = calls.items; made = 0 };
        } }
    {
        self.calls.list(calls);
    }

    /// Sets a stop.
    pub fn stop(&mut self, stop: Stop)
        ensures { self.new ≡ record self.old { stop = Some stop } }
    {
        self.stop = Some(stop);
    }

    /// The stop, if one was set.
    pub fn stop_set(&self) -> Option<Stop>
        ensures { result ≡ self.now.stop }
    {
        self.stop
    }

    /// Counts a call, which fails if it is listed.
    pub fn call(&mut self) -> Result<(), Failed>
        ensures passed { OnOk result
            (¬ IsListed self.old.calls × (self.new ≡ record self.old { calls = called self.old.calls })) }
        ensures listed { OnErr result
            (IsListed self.old.calls
            × (self.new ≡ record self.old { calls = faulted (called self.old.calls) })) }
        ensures count { NoFall self.old.calls.faults self.new.calls.faults }
    {
        self.calls.call()
    }

    /// Counts a fault of the last call.
    pub fn fault(&mut self) -> Failed
        ensures faulted { self.new ≡ record self.old { calls = faulted self.old.calls } }
        ensures count { NoFall self.old.calls.faults self.new.calls.faults }
    {
        self.calls.fault()
    }

    /// Whether every further call of `write_at` and `sync` fails.
    pub fn is_stopped(&self) -> bool
        ensures { IsTrue result ↔ IsStopped self.now.stop }
    {
        match self.stop {
            None => false,
            Some(stop) => stop.left == 0,
        }
    }

    /// Counts a successful call towards the stop.
    pub fn pass(&mut self)
        ensures { self.new ≡ record self.old { stop = passed self.old.stop } }
    {
        if let Some(stop) = self.stop {
            self.stop = Some(Stop {
                left: stop.left.saturating_sub(1),
                image: stop.image,
            });
        }
    }
}

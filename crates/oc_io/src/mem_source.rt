ghost use Rattle.std.specs.Prelude.{◌≡◌, ℕ, ◌+◌, ◌<◌, ◌≤◌, ◌↔◌, [], length, min, take, IfOk, IsErr, OnErr, OnOk};
ghost use Rattle.oc_io.specs.Faults.{NoFall, Rose};
ghost use Rattle.oc_io.specs.SourceView.{source_of, GivesFront, FailsBehind, IsEmptied, GivesFront-nothing, GivesFront-then, GivesFront-fails};
ghost use Rattle.oc_io.specs.Tally.{called, faulted, IsListed};

use crate::call_tally::CallTally;
use crate::fault::Failed;
use crate::source::Source;
use std::marker::Model;

/// A source over bytes in memory; listed calls fail.
#[derive(Debug, Drop)]
pub struct MemSource {
    bytes: Vec<u8>,
    at: usize,
    calls: CallTally,
}

impl Model for MemSource {
    ghost use Rattle.std.specs.Prelude.{◌≤◌, drop, vec_len};
    ghost use Rattle.oc_io.specs.SourceView.{SourceView};

    ghost Value = { SourceView };

    ghost view = { λ s. record { left = drop s.at s.bytes.items; calls = s.calls } };

    ghost invariant = { λ s. s.at ≤ vec_len s.bytes };
}

impl MemSource {
    /// A source of these bytes. The calls with the numbers `fails` fail, counted from 1.
    pub fn new(bytes: Vec<u8>, fails: Vec<u64>) -> MemSource
        ensures { result ≡ source_of bytes.items fails.items }
    {
        MemSource {
            bytes,
            at: 0,
            calls: CallTally::new(fails),
        }
    }
}

impl Source for MemSource {
    ghost gives = { GivesFront };

    ghost fails = { FailsBehind };

    ghost ended = { IsEmptied };

    ghost calls = { λ s. s.calls.made };

    ghost faults = { λ s. s.calls.faults };

    ghost gives_nothing = { GivesFront-nothing };

    ghost gives_then = { GivesFront-then };

    ghost gives_fails = { GivesFront-fails };

    fn read(&mut self, buf: &mut [u8]) -> Result<usize, Failed>
        ensures within { IfOk result (λ n. n ≤ length buf.old) }
        ensures gives { IfOk result (λ n. GivesFront self.old (take n buf.new) self.new) }
        ensures fails { OnErr result (FailsBehind self.old [] self.new) }
        ensures end { IfOk result (λ n. n ≡ 0 → 0 < length buf.old → IsEmptied self.new) }
        ensures turn { self.new.calls.made ≤ self.old.calls.made + 1 }
        ensures count { NoFall self.old.calls.faults self.new.calls.faults }
        ensures cause { OnErr result (Rose self.old.calls.faults self.new.calls.faults) }

        // As many bytes as are left and fit, and a failure exactly if the call is listed.
        ensures most { IfOk result (λ n. n ≡ min (length buf.old) (length self.old.left)) }
        ensures passed { OnOk result (¬ IsListed self.old.calls × (self.new.calls ≡ called self.old.calls)) }
        ensures listed { OnErr result (IsListed self.old.calls × (self.new.calls ≡ faulted (called self.old.calls))) }
    {
        self.calls.call()?;
        let left = &self.bytes[self.at..];
        let count = left.len().min(buf.len());
        buf[..count].copy_from_slice(&left[..count]);
        self.at += count;
        Ok(count)
    }
}

ghost use Rattle.std.specs.Prelude.{◌≡◌, ◌-◌, ℕ, ◌+◌, ◌<◌, ◌≤◌, ◌⊎◌, [], length, min, take, IfOk, OnErr};
ghost use Rattle.oc_io.specs.Faults.{NoFall, Rose};
ghost use Rattle.oc_io.specs.SinkView.{sink_of, TakesBehind, FailsFull, IsFull, TakesBehind-nothing, TakesBehind-then, TakesBehind-fails};
ghost use Rattle.oc_io.specs.Tally.{called, faulted, IsListed};

use crate::call_tally::CallTally;
use crate::fault::Failed;
use crate::sink::Sink;
use std::alloc::{AllocError, Global};
use std::marker::Model;

/// A sink that keeps its text in memory; listed calls fail.
#[derive(Debug, Drop)]
pub struct MemSink {
    text: Vec<u8>,
    room: usize,
    calls: CallTally,
}

impl Model for MemSink {
    ghost use Rattle.std.specs.Prelude.{◌≤◌, vec_len, vec_capacity};
    ghost use Rattle.oc_io.specs.SinkView.{SinkView};

    ghost Value = { SinkView };

    ghost view = { λ s. record { text = s.text.items; room = s.room; calls = s.calls } };

    ghost invariant = { λ s. (vec_len s.text ≤ s.room) × (s.room ≤ vec_capacity s.text) };
}

impl MemSink {
    /// A sink with room for `room` bytes, whose memory is taken here. The calls with the numbers `fails`
    /// fail, counted from 1, and so does a call that finds the room full.
    pub fn new(alloc: Global, room: usize, fails: Vec<u64>) -> Result<MemSink, AllocError>
        ensures { IfOk result (λ sink. sink ≡ sink_of room fails.items) }
    {
        Ok(MemSink {
            text: Vec::with_capacity(alloc, room)?,
            room,
            calls: CallTally::new(fails),
        })
    }

    /// The text so far.
    pub fn text(&self) -> &[u8]
        ensures { result.now ≡ self.now.text }
    {
        &self.text
    }
}

impl Sink for MemSink {
    ghost takes = { TakesBehind };

    ghost fails = { FailsFull };

    ghost calls = { λ s. s.calls.made };

    ghost faults = { λ s. s.calls.faults };

    ghost takes_nothing = { TakesBehind-nothing };

    ghost takes_then = { TakesBehind-then };

    ghost takes_fails = { TakesBehind-fails };

    fn write(&mut self, bytes: &[u8]) -> Result<usize, Failed>
        ensures within { IfOk result (λ n. n ≤ length bytes.now) }
        ensures takes { IfOk result (λ n. TakesBehind self.old (take n bytes.now) self.new) }
        ensures some { IfOk result (λ n. 0 < length bytes.now → 0 < n) }
        ensures fails { OnErr result (FailsFull self.old [] self.new) }
        ensures count { NoFall self.old.calls.faults self.new.calls.faults }
        ensures cause { OnErr result (Rose self.old.calls.faults self.new.calls.faults) }

        // As many bytes as there is room for, and a failure exactly if the call is listed or finds
        // the room full.
        ensures most { IfOk result (λ n. n ≡ min (length bytes.now) (self.old.room - length self.old.text)) }
        ensures passed { IfOk result (λ _. ¬ IsListed self.old.calls × (self.new.calls ≡ called self.old.calls)) }
        ensures stopped { OnErr result (self.new.calls ≡ faulted (called self.old.calls)) }
        ensures why { OnErr result (IsListed self.old.calls ⊎ ((0 < length bytes.now) × IsFull self.old)) }
    {
        self.calls.call()?;
        let count = bytes.len().min(self.room - self.text.len());
        if count == 0 && !bytes.is_empty() {
            return Err(self.calls.fault());
        }
        self.text.extend_from_slice(&bytes[..count]).unwrap();
        Ok(count)
    }
}

ghost use Rattle.std.specs.Prelude.{◌≡◌, ◌↔◌, ◌+◌, ◌<◌, ◌≤◌, [], length, take, IsTrue, IfOk, OnErr};
ghost use Rattle.oc_io.specs.Faults.{NoFall, Rose};

use crate::retrying::read_once;
use crate::traffic::Traffic;
use crate::{Failed, Source};
use std::io::Read;

/// A reader as a source. It counts the bytes that came and the calls that failed, and notes whether the
/// last read with room found nothing.
#[derive(Drop)]
pub struct ReaderSource<R> {
    reader: R,
    passed: u64,
    at_end: bool,
    faults: u64,
}

impl<R> ReaderSource<R> {
    ghost use Rattle.std.specs.Prelude.{◌≡◌, false};

    /// A source of all bytes that the reader gives from now on.
    pub fn new(reader: R) -> ReaderSource<R>
        ensures reader { result.reader ≡ reader }
        ensures passed { result.passed ≡ 0 }
        ensures at_end { result.at_end ≡ false }
        ensures faults { result.faults ≡ 0 }
    {
        ReaderSource {
            reader,
            passed: 0,
            at_end: false,
            faults: 0,
        }
    }

    /// The numbers of bytes and faults so far.
    pub fn traffic(&self) -> Traffic
        ensures bytes { result.bytes ≡ self.now.passed }
        ensures faults { result.faults ≡ self.now.faults }
    {
        Traffic {
            bytes: self.passed,
            faults: self.faults,
        }
    }
}

impl<R: Read> Source for ReaderSource<R> {
    ghost use Rattle.oc_io.specs.Readers.{Came, CameAndFailed, HasEnded, Came-nothing, Came-then, Came-fails};

    ghost gives = { Came R.remaining };

    ghost fails = { CameAndFailed R.remaining };

    ghost ended = { HasEnded R.remaining };

    ghost calls = { λ source. 0 };

    ghost faults = { λ source. source.faults };

    ghost gives_nothing = { Came-nothing R.remaining };

    ghost gives_then = { Came-then R.remaining };

    ghost gives_fails = { Came-fails R.remaining };

    fn read(&mut self, buf: &mut [u8]) -> Result<usize, Failed>
        ensures within { IfOk result (λ n. n ≤ length buf.old) }
        ensures gives { IfOk result (λ n. Came R.remaining self.old (take n buf.new) self.new) }
        ensures fails { OnErr result (CameAndFailed R.remaining self.old [] self.new) }
        ensures end { IfOk result (λ n. n ≡ 0 → 0 < length buf.old → HasEnded R.remaining self.new) }
        ensures turn { 0 ≤ 0 + 1 }
        ensures count { NoFall self.old.faults self.new.faults }
        ensures cause { OnErr result (Rose self.old.faults self.new.faults) }

        // The end exactly where a read with room finds nothing.
        ensures at_end { IfOk result (λ n. 0 < length buf.old → (IsTrue self.new.at_end ↔ (n ≡ 0))) }
    {
        match read_once(&mut self.reader, buf) {
            Ok(count) => {
                self.passed = self.passed.saturating_add(count as u64);
                self.at_end = count == 0 && !buf.is_empty();
                Ok(count)
            }
            Err(Failed) => {
                self.faults = self.faults.saturating_add(1);
                Err(Failed)
            }
        }
    }
}

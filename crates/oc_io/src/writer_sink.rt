use crate::retrying::write_once;
use crate::traffic::Traffic;
use crate::{Failed, Sink};
use std::io::Write;

/// A writer as a sink. It counts the bytes that went and the calls that failed.
#[derive(Drop)]
pub struct WriterSink<W> {
    writer: W,
    passed: u64,
    faults: u64,
}

impl<W> WriterSink<W> {
    ghost use Rattle.std.specs.Prelude.{◌≡◌};

    /// A sink that passes its bytes to this writer.
    pub fn new(writer: W) -> WriterSink<W>
        ensures writer { result.writer ≡ writer }
        ensures passed { result.passed ≡ 0 }
        ensures faults { result.faults ≡ 0 }
    {
        WriterSink {
            writer,
            passed: 0,
            faults: 0,
        }
    }

    /// The numbers of bytes and faults so far.
    pub fn traffic(&self) -> Traffic
        ensures bytes { result.bytes ≡ self.now.passed }
        ensures faults { result.faults ≡ self.now.faults }
    {
        Traffic {
            bytes: self.passed,
            faults: self.faults,
        }
    }

    /// Hands back the writer, after all bytes that went.
    pub fn into_writer(self) -> W
        ensures { result ≡ self.writer }
    {
        let WriterSink {
            writer,
            passed: _,
            faults: _,
        } = self;
        writer
    }
}

impl<W: Write> Sink for WriterSink<W> {
    ghost use Rattle.oc_io.specs.Writers.{Went, WentAndFailed, Went-nothing, Went-then, Went-fails};

    ghost takes = { Went W.contents };

    ghost fails = { WentAndFailed W.contents };

    ghost calls = { λ sink. 0 };

    ghost faults = { λ sink. sink.faults };

    ghost takes_nothing = { Went-nothing W.contents };

    ghost takes_then = { Went-then W.contents };

    ghost takes_fails = { Went-fails W.contents };

    fn write(&mut self, bytes: &[u8]) -> Result<usize, Failed> {
        match write_once(&mut self.writer, bytes) {
            Ok(count) => {
                self.passed = self.passed.saturating_add(count as u64);
                Ok(count)
            }
            Err(Failed) => {
                self.faults = self.faults.saturating_add(1);
                Err(Failed)
            }
        }
    }
}

//! Progress lines of a client.

ghost use Rattle.std.specs.Prelude.{◌≡◌, ◌-◌, ◌*◌, ◌^◌, ◌<◌, ◌≤◌, OnOk, OnErr};
ghost use Rattle.oc_client.specs.Lines.{Tells, WritesFront, progress_line, lines_after};
ghost use Rattle.oc_client.specs.declared.progress_lines.TheConstants.{PROGRESS_STEP};
ghost use Rattle.oc_client.specs.ProgressLines.{Grows};

use itoa::Buffer;
use oc_io::{Failed, Sink, write_all};

/// The distance between two progress lines, in bytes.
pub const PROGRESS_STEP: u64 = 16_777_216;

/// A sink of lines that report the number of bytes so far. After a failed write no more lines are
/// written, and nothing else changes.
#[derive(Drop)]
pub struct ProgressLines<E> {
    pub sink: E,
    /// Whether lines are wanted and no write failed.
    pub active: bool,
    /// The number of bytes so far.
    pub count: u64,
}

impl<E: Sink> ProgressLines<E> {
    /// Begins with no bytes. Writes no lines at all unless `wanted`.
    pub fn new(sink: E, wanted: bool) -> ProgressLines<E>
        ensures sink { result.sink ≡ sink }
        ensures active { result.active ≡ wanted }
        ensures count { result.count ≡ 0 }
    {
        ProgressLines {
            sink,
            active: wanted,
            count: 0,
        }
    }

    /// The number of bytes so far.
    pub fn count(&self) -> u64
        ensures { result ≡ self.now.count }
    {
        self.count
    }

    /// Counts `more` bytes. A line is written for each multiple of `PROGRESS_STEP` that is reached or passed.
    pub fn add(&mut self, more: u64)
        ensures { Grows E.takes E.fails self.old more self.new }
    {
        let old = self.count;
        self.count = old.saturating_add(more);
        if self.active {
            let last = self.count / PROGRESS_STEP;
            self.active = write_lines(&mut self.sink, old / PROGRESS_STEP, last).is_ok();
        }
    }

    /// Writes a last line for all bytes.
    pub fn finish(&mut self)
        ensures count { self.new.count ≡ self.old.count }
        ensures told { Tells E.takes E.fails self.old.sink self.new.sink self.old.active self.new.active (progress_line self.old.count) }
    {
        if self.active {
            self.active = write_line(&mut self.sink, self.count).is_ok();
        }
    }

    /// The sink, with all lines that were written.
    pub fn into_sink(self) -> E
        ensures { result ≡ self.sink }
    {
        let ProgressLines {
            sink,
            active: _,
            count: _,
        } = self;
        sink
    }
}

/// Writes the lines of the multiples after number `done`, up to number `last`.
fn write_lines<E: Sink>(sink: &mut E, done: u64, last: u64) -> Result<(), Failed>
    requires ahead { done ≤ last }
    requires fits { last * PROGRESS_STEP < 2 ^ 64 }
    ensures written { OnOk result (E.takes sink.old (lines_after done (last - done)) sink.new) }
    ensures front { OnErr result (WritesFront E.fails sink.old sink.new (lines_after done (last - done))) }
{
    let mut at = done;
    'lines: while at < last {
        at += 1;
        write_line(sink, at * PROGRESS_STEP)?;
    }
    Ok(())
}

/// Writes the line that reports `count` bytes.
fn write_line<E: Sink>(sink: &mut E, count: u64) -> Result<(), Failed>
    ensures written { OnOk result (E.takes sink.old (progress_line count) sink.new) }
    ensures front { OnErr result (WritesFront E.fails sink.old sink.new (progress_line count)) }
{
    let mut buffer = Buffer::new();
    let digits = buffer.format(count);
    write_all(sink, b"overcast: ")?;
    write_all(sink, digits.as_bytes())?;
    write_all(sink, b" bytes\n")
}

ghost use Rattle.std.specs.Prelude.{◌≡◌};
ghost use Rattle.oc_merge.specs.Limits.{most_of, most_text};

use oc_base::{Memory, Why};
use std::alloc::{AllocError, AllocFailed};
use std::error::Error;
use std::fmt;

/// The greatest number of lines in records.
pub const MAX_RECORD_LINES: u32 = 10_000_000;

/// The greatest length of records in bytes: 2^32.
pub const MAX_RECORD_BYTES: u64 = 4_294_967_296;

/// The greatest number of bytes that the publish lines of records may have together: 2^32.
pub const MAX_RECORD_PUBLISHED: u64 = 4_294_967_296;

/// The reason why a text is not records of running nodes.
#[derive(Clone, Copy, Debug, PartialEq, Eq)]
pub enum RecordsFault {
    /// This line, counted from 1, is refused for this reason.
    Line { line: u32, cause: Cause },
    /// The text exceeds a limit.
    Limit(Most),
    /// Memory ran out.
    Memory,
}

/// The reason why a line is refused.
#[derive(Clone, Copy, Debug, PartialEq, Eq)]
pub enum Cause {
    /// The line is refused as a line of a schedule.
    Said(Why),
    /// A node starts in areas that are not those of the first record.
    Areas,
}

/// The limits on records.
#[derive(Clone, Copy, Debug, PartialEq, Eq)]
pub enum Most {
    /// The number of lines, skipped ones included.
    Lines,
    /// The number of bytes.
    Bytes,
    /// The number of bytes in publish lines.
    Published,
}

impl Most {
    /// The word that names the limit in an error line.
    pub fn word(self) -> &'static str
        ensures { result.now ≡ most_text self }
    {
        match self {
            Most::Lines => "lines",
            Most::Bytes => "bytes",
            Most::Published => "published",
        }
    }

    /// The greatest number that is allowed.
    pub fn most(self) -> u64
        ensures { result ≡ most_of self }
    {
        match self {
            Most::Lines => u64::from(MAX_RECORD_LINES),
            Most::Bytes => MAX_RECORD_BYTES,
            Most::Published => MAX_RECORD_PUBLISHED,
        }
    }
}

impl fmt::Display for Most {
    fn fmt<W: fmt::Write>(&self, f: &mut fmt::Formatter<W>) -> fmt::Result {
        let word = self.word();
        let most = self.most();
        write!(f, "{word} {most}")
    }
}

impl fmt::Display for Cause {
    fn fmt<W: fmt::Write>(&self, f: &mut fmt::Formatter<W>) -> fmt::Result {
        match self {
            Cause::Said(why) => write!(f, "{why}"),
            Cause::Areas => write!(f, "area"),
        }
    }
}

impl fmt::Display for RecordsFault {
    fn fmt<W: fmt::Write>(&self, f: &mut fmt::Formatter<W>) -> fmt::Result {
        match self {
            RecordsFault::Line { line, cause } => write!(f, "line {line}: {cause}"),
            RecordsFault::Limit(most) => write!(f, "limit {most}"),
            RecordsFault::Memory => write!(f, "out of memory"),
        }
    }
}

impl Error for RecordsFault {}

impl From<AllocError> for RecordsFault {
    ghost use Rattle.oc_merge.specs.declared.fault.RecordsFault.TheVariants.{Memory};

    ghost from_gives = { λ _ fault. fault ≡ Memory };

    fn from(_error: AllocError) -> RecordsFault {
        RecordsFault::Memory
    }
}

impl<T: Drop> From<AllocFailed<T>> for RecordsFault {
    ghost use Rattle.oc_merge.specs.declared.fault.RecordsFault.TheVariants.{Memory};

    ghost from_gives = { λ _ fault. fault ≡ Memory };

    fn from(_error: AllocFailed<T>) -> RecordsFault {
        RecordsFault::Memory
    }
}

impl From<Memory> for RecordsFault {
    ghost use Rattle.oc_merge.specs.declared.fault.RecordsFault.TheVariants.{Memory};

    ghost from_gives = { λ _ fault. fault ≡ Memory };

    fn from(_error: Memory) -> RecordsFault {
        RecordsFault::Memory
    }
}

ghost use Rattle.std.specs.Prelude.{◌≡◌};
ghost use Rattle.oc_schedule.specs.Limits.{what_text};
ghost use Rattle.oc_schedule.specs.Reading.{fault_at};

use oc_base::Why;
use std::alloc::{AllocError, AllocFailed};
use std::error::Error;
use std::fmt;

/// The fault for which a text is no schedule.
#[derive(Clone, Copy, Debug, PartialEq, Eq)]
pub enum ScheduleFault {
    /// The line with this number, counted from 1, is refused for this cause.
    Line { line: u32, why: Why },
    /// The text has more of these than its scale allows.
    Limit(What),
    /// Memory ran out.
    Memory,
}

/// The counts of a text that have a limit.
#[derive(Clone, Copy, Debug, PartialEq, Eq)]
pub enum What {
    /// Lines, including those that are skipped.
    Lines,
    /// Bytes.
    Bytes,
    /// Bytes that the events publish.
    Published,
    /// Lines that settle or heal.
    Settles,
}

impl What {
    /// The word that names the limit in an error line.
    pub fn word(self) -> &'static str
        ensures { result.now ≡ what_text self }
    {
        match self {
            What::Lines => "lines",
            What::Bytes => "bytes",
            What::Published => "published",
            What::Settles => "settles",
        }
    }
}

impl fmt::Display for What {
    fn fmt<W: fmt::Write>(&self, f: &mut fmt::Formatter<W>) -> fmt::Result {
        write!(f, "{}", self.word())
    }
}

impl fmt::Display for ScheduleFault {
    fn fmt<W: fmt::Write>(&self, f: &mut fmt::Formatter<W>) -> fmt::Result {
        match self {
            ScheduleFault::Line { line, why } => write!(f, "line {line}: {why}"),
            ScheduleFault::Limit(what) => write!(f, "past the limit on {what}"),
            ScheduleFault::Memory => write!(f, "out of memory"),
        }
    }
}

impl Error for ScheduleFault {}

impl From<AllocError> for ScheduleFault {
    ghost use Rattle.oc_schedule.specs.declared.fault.ScheduleFault.TheVariants.{Memory};

    ghost from_gives = { λ _ fault. fault ≡ Memory };

    fn from(_error: AllocError) -> ScheduleFault {
        ScheduleFault::Memory
    }
}

impl<T: Drop> From<AllocFailed<T>> for ScheduleFault {
    ghost use Rattle.oc_schedule.specs.declared.fault.ScheduleFault.TheVariants.{Memory};

    ghost from_gives = { λ _ fault. fault ≡ Memory };

    fn from(_error: AllocFailed<T>) -> ScheduleFault {
        ScheduleFault::Memory
    }
}

/// The fault for which a line is not read, while its number is not known.
#[derive(Clone, Copy, Debug, PartialEq, Eq)]
pub enum LineFault {
    /// The line is refused for this cause.
    Cause(Why),
    /// Memory ran out.
    Memory,
}

impl LineFault {
    /// The fault of the text, with this number for the line.
    pub fn at(self, line: u32) -> ScheduleFault
        ensures { result ≡ fault_at line self }
    {
        match self {
            LineFault::Cause(why) => ScheduleFault::Line { line, why },
            LineFault::Memory => ScheduleFault::Memory,
        }
    }
}

impl From<Why> for LineFault {
    ghost use Rattle.oc_schedule.specs.declared.fault.LineFault.TheVariants.{Cause};

    ghost from_gives = { λ why fault. fault ≡ Cause why };

    fn from(why: Why) -> LineFault {
        LineFault::Cause(why)
    }
}

impl From<AllocError> for LineFault {
    ghost use Rattle.oc_schedule.specs.declared.fault.LineFault.TheVariants.{Memory};

    ghost from_gives = { λ _ fault. fault ≡ Memory };

    fn from(_error: AllocError) -> LineFault {
        LineFault::Memory
    }
}

impl<T: Drop> From<AllocFailed<T>> for LineFault {
    ghost use Rattle.oc_schedule.specs.declared.fault.LineFault.TheVariants.{Memory};

    ghost from_gives = { λ _ fault. fault ≡ Memory };

    fn from(_error: AllocFailed<T>) -> LineFault {
        LineFault::Memory
    }
}

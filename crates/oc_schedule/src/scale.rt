ghost use Rattle.std.specs.Prelude.{◌≡◌, ◌≤◌};
ghost use Rattle.oc_schedule.specs.declared.fault.What.TheVariants.{Bytes, Lines, Published};
ghost use Rattle.oc_schedule.specs.declared.scale.TheConstants.{MAX_LARGE_LINES, MAX_LARGE_PUBLISHED};
ghost use Rattle.oc_schedule.specs.Limits.{is_large, most_of};

use crate::What;
use oc_base::{
    MAX_SCHEDULE_BYTES, MAX_SCHEDULE_LINES, MAX_SCHEDULE_PUBLISHED, MAX_SCHEDULE_SETTLES,
};

/// The greatest number of lines of a large schedule.
pub const MAX_LARGE_LINES: u32 = 10_000_000;

/// The greatest number of bytes of a large schedule: 2^32.
pub const MAX_LARGE_BYTES: usize = 4_294_967_296;

/// The greatest number of bytes that the publish lines of a large schedule have together: 2^32.
pub const MAX_LARGE_PUBLISHED: usize = 4_294_967_296;

/// The size of a schedule, which sets its limits.
#[derive(Clone, Copy, Debug, PartialEq, Eq)]
pub enum Scale {
    /// The size of a schedule that is written by hand or generated: playing it takes little memory.
    Usual,
    /// The size of a schedule that running nodes record.
    Large,
}

impl Scale {
    /// The greatest number of these.
    pub fn most(self, what: What) -> usize
        ensures { result ≡ most_of self what }
    {
        match what {
            What::Lines => self.lines() as usize,
            What::Bytes => self.bytes(),
            What::Published => self.published(),
            What::Settles => MAX_SCHEDULE_SETTLES as usize,
        }
    }

    /// Whether this is the scale of a large schedule.
    pub(crate) fn is_large(self) -> bool
        ensures { result ≡ is_large self }
    {
        matches!(self, Scale::Large)
    }

    /// The greatest number of lines.
    pub(crate) fn lines(self) -> u32
        ensures exact { result ≡ most_of self Lines }
        ensures few { result ≤ MAX_LARGE_LINES }
    {
        match self {
            Scale::Usual => MAX_SCHEDULE_LINES,
            Scale::Large => MAX_LARGE_LINES,
        }
    }

    /// The greatest number of bytes.
    fn bytes(self) -> usize
        ensures { result ≡ most_of self Bytes }
    {
        match self {
            Scale::Usual => MAX_SCHEDULE_BYTES,
            Scale::Large => MAX_LARGE_BYTES,
        }
    }

    /// The greatest number of bytes that all publish lines together have.
    pub(crate) fn published(self) -> usize
        ensures exact { result ≡ most_of self Published }
        ensures few { result ≤ MAX_LARGE_PUBLISHED }
    {
        match self {
            Scale::Usual => MAX_SCHEDULE_PUBLISHED,
            Scale::Large => MAX_LARGE_PUBLISHED,
        }
    }
}

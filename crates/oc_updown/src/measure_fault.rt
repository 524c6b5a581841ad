ghost use Rattle.std.specs.Prelude.{◌≡◌};

use oc_base::Why;
use std::alloc::{AllocError, AllocFailed};
use std::error::Error;
use std::fmt;

/// The reason why a text is not a list of measure lines.
#[derive(Clone, Copy, Debug, PartialEq, Eq)]
pub enum MeasureFault {
    /// The first refused line, counted from 1, and the cause.
    Line { line: u32, why: Why },
    /// Memory ran out.
    Memory,
}

impl fmt::Display for MeasureFault {
    fn fmt<W: fmt::Write>(&self, f: &mut fmt::Formatter<W>) -> fmt::Result {
        match self {
            MeasureFault::Line { line, why } => write!(f, "measure {line}: {why}"),
            MeasureFault::Memory => write!(f, "out of memory"),
        }
    }
}

impl Error for MeasureFault {}

impl From<AllocError> for MeasureFault {
    ghost use Rattle.oc_updown.specs.declared.measure_fault.MeasureFault.TheVariants.{Memory};

    ghost from_gives = { λ _ fault. fault ≡ Memory };

    fn from(_error: AllocError) -> MeasureFault {
        MeasureFault::Memory
    }
}

impl<T: Drop> From<AllocFailed<T>> for MeasureFault {
    ghost use Rattle.oc_updown.specs.declared.measure_fault.MeasureFault.TheVariants.{Memory};

    ghost from_gives = { λ _ fault. fault ≡ Memory };

    fn from(_error: AllocFailed<T>) -> MeasureFault {
        MeasureFault::Memory
    }
}

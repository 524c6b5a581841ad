ghost use Rattle.std.specs.Prelude.{◌≡◌};
ghost use Rattle.oc_record.specs.declared.fault.RecordFault.TheVariants.{Memory as RecordMemory};
ghost use Rattle.oc_record.specs.Faults.{fault_of};

use oc_base::{FieldFault, Memory};
use std::alloc::{AllocError, AllocFailed};
use std::error::Error;
use std::fmt;

/// The reason why bytes are not a list of control records: the first fault from the left.
#[derive(Clone, Copy, Debug, PartialEq, Eq)]
pub enum RecordFault {
    /// No kind has this code.
    Kind(u8),
    /// Too few bytes are left for a field.
    Short,
    /// A field is out of its range.
    Value,
    /// Memory ran out.
    Memory,
}

impl fmt::Display for RecordFault {
    fn fmt<W: fmt::Write>(&self, f: &mut fmt::Formatter<W>) -> fmt::Result {
        match self {
            RecordFault::Kind(code) => write!(f, "no record has the code {code}"),
            RecordFault::Short => write!(f, "a record is cut off"),
            RecordFault::Value => write!(f, "a field of a record is out of range"),
            RecordFault::Memory => write!(f, "out of memory"),
        }
    }
}

impl Error for RecordFault {}

impl From<FieldFault> for RecordFault {
    ghost from_gives = { λ field fault. fault ≡ fault_of field };

    fn from(fault: FieldFault) -> RecordFault {
        match fault {
            FieldFault::Short => RecordFault::Short,
            FieldFault::Value => RecordFault::Value,
            FieldFault::Memory => RecordFault::Memory,
        }
    }
}

impl From<Memory> for RecordFault {
    ghost from_gives = { λ _ fault. fault ≡ RecordMemory };

    fn from(_memory: Memory) -> RecordFault {
        RecordFault::Memory
    }
}

impl From<AllocError> for RecordFault {
    ghost from_gives = { λ _ fault. fault ≡ RecordMemory };

    fn from(_error: AllocError) -> RecordFault {
        RecordFault::Memory
    }
}

impl<T: Drop> From<AllocFailed<T>> for RecordFault {
    ghost from_gives = { λ _ fault. fault ≡ RecordMemory };

    fn from(_error: AllocFailed<T>) -> RecordFault {
        RecordFault::Memory
    }
}

ghost use Rattle.std.specs.Prelude.{◌≡◌};
ghost use Rattle.oc_base.specs.declared.field_fault.FieldFault.TheVariants.{Memory as FieldMemory, Short as FieldShort};

use crate::{Memory, Short};
use std::alloc::{AllocError, AllocFailed};

/// Why a field of a binary format can't be read.
#[derive(Clone, Copy, Debug, PartialEq, Eq)]
pub enum FieldFault {
    /// Too few bytes are left for the field.
    Short,
    /// The field is out of its range.
    Value,
    /// Memory ran out.
    Memory,
}

impl From<Short> for FieldFault {
    ghost from_gives = { λ _ fault. fault ≡ FieldShort };

    fn from(_short: Short) -> FieldFault {
        FieldFault::Short
    }
}

impl From<Memory> for FieldFault {
    ghost from_gives = { λ _ fault. fault ≡ FieldMemory };

    fn from(_memory: Memory) -> FieldFault {
        FieldFault::Memory
    }
}

impl From<AllocError> for FieldFault {
    ghost from_gives = { λ _ fault. fault ≡ FieldMemory };

    fn from(_error: AllocError) -> FieldFault {
        FieldFault::Memory
    }
}

impl<T: Drop> From<AllocFailed<T>> for FieldFault {
    ghost from_gives = { λ _ fault. fault ≡ FieldMemory };

    fn from(_error: AllocFailed<T>) -> FieldFault {
        FieldFault::Memory
    }
}

ghost use Rattle.std.specs.Prelude.{◌≡◌};
ghost use Rattle.oc_io.specs.declared.read_fault.ReadFault.TheVariants.{Failed as CallFailed, Memory};

use crate::fault::Failed;
use std::alloc::{AllocError, AllocFailed};

/// The reason why a source could not be read to its end.
#[derive(Clone, Copy, Debug, PartialEq, Eq)]
pub enum ReadFault {
    /// A call on the source failed.
    Failed,
    /// More bytes came than are allowed.
    TooMany,
    /// Memory ran out.
    Memory,
}

impl From<Failed> for ReadFault {
    ghost from_gives = { λ _ fault. fault ≡ CallFailed };

    fn from(_failed: Failed) -> ReadFault {
        ReadFault::Failed
    }
}

impl From<AllocError> for ReadFault {
    ghost from_gives = { λ _ fault. fault ≡ Memory };

    fn from(_error: AllocError) -> ReadFault {
        ReadFault::Memory
    }
}

impl<T: Drop> From<AllocFailed<T>> for ReadFault {
    ghost from_gives = { λ _ fault. fault ≡ Memory };

    fn from(_error: AllocFailed<T>) -> ReadFault {
        ReadFault::Memory
    }
}

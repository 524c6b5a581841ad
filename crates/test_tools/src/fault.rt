use oc_base::Memory;
use std::alloc::{AllocError, AllocFailed};
use std::fmt;

/// The reason why a row gave no words.
#[derive(Clone, Copy)]
pub enum Fault {
    /// A field of the row is missing, or does not have the expected form.
    Field,
    /// The state that the row prepares was not reached.
    Unready,
    /// Memory ran out.
    Memory,
}

impl fmt::Display for Fault {
    fn fmt<W: fmt::Write>(&self, f: &mut fmt::Formatter<W>) -> fmt::Result {
        f.write_str(match self {
            Fault::Field => "a field is missing or wrong",
            Fault::Unready => "it could not be made ready",
            Fault::Memory => "out of memory",
        })
    }
}

impl From<AllocError> for Fault {
    fn from(_error: AllocError) -> Fault {
        Fault::Memory
    }
}

impl<T: Drop> From<AllocFailed<T>> for Fault {
    fn from(_error: AllocFailed<T>) -> Fault {
        Fault::Memory
    }
}

impl From<Memory> for Fault {
    fn from(_error: Memory) -> Fault {
        Fault::Memory
    }
}

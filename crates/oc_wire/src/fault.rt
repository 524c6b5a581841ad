ghost use Rattle.std.specs.Prelude.{◌≡◌};
ghost use Rattle.oc_wire.specs.declared.fault.WireFault.TheVariants.{Memory as WireMemory, Short as WireShort};
ghost use Rattle.oc_wire.specs.MessageFaults.{fault_of};

use oc_base::{FieldFault, Memory, Short};
use std::alloc::{AllocError, AllocFailed};

/// The first fault of bytes that are no message, in the order of these.
#[derive(Clone, Copy)]
pub enum WireFault {
    /// The sender or the receiver is none of the nodes.
    Stranger,
    /// No kind has this code.
    Kind(u8),
    /// Too few bytes are left: for sender, receiver and kind, which comes first of all, or for a field.
    Short,
    /// A field is out of its range.
    Value,
    /// There are bytes after the last field.
    Trailing,
    /// Memory ran out.
    Memory,
}

impl From<FieldFault> for WireFault {
    ghost from_gives = { λ field fault. fault ≡ fault_of field };

    fn from(fault: FieldFault) -> WireFault {
        match fault {
            FieldFault::Short => WireFault::Short,
            FieldFault::Value => WireFault::Value,
            FieldFault::Memory => WireFault::Memory,
        }
    }
}

impl From<Short> for WireFault {
    ghost from_gives = { λ _ fault. fault ≡ WireShort };

    fn from(_short: Short) -> WireFault {
        WireFault::Short
    }
}

impl From<Memory> for WireFault {
    ghost from_gives = { λ _ fault. fault ≡ WireMemory };

    fn from(_memory: Memory) -> WireFault {
        WireFault::Memory
    }
}

impl From<AllocError> for WireFault {
    ghost from_gives = { λ _ fault. fault ≡ WireMemory };

    fn from(_error: AllocError) -> WireFault {
        WireFault::Memory
    }
}

impl<T: Drop> From<AllocFailed<T>> for WireFault {
    ghost from_gives = { λ _ fault. fault ≡ WireMemory };

    fn from(_error: AllocFailed<T>) -> WireFault {
        WireFault::Memory
    }
}

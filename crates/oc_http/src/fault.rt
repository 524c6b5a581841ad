ghost use Rattle.std.specs.Prelude.{◌≡◌};
ghost use Rattle.oc_http.specs.Reads.{fault_of_read};
ghost use Rattle.oc_http.specs.declared.fault.HttpFault.TheVariants.{Memory as HttpMemory, Source as HttpSource};

use oc_base::Memory;
use oc_io::{Failed, ReadFault};
use std::alloc::{AllocError, AllocFailed};

/// The cause for which a message was not read. The faults that a head can have at once come in this order.
#[derive(Clone, Copy)]
pub enum HttpFault {
    /// A call on the source failed.
    Source,
    /// The source ended before the head or the body was whole.
    Ended,
    /// The bytes are no head, and no bytes after them make them one.
    Head,
    /// The head is longer than `MAX_HEAD_BYTES`.
    HeadLong,
    /// The head has more than `MAX_FIELDS` fields.
    Fields,
    /// There are several Host fields, or none in a request of version 1.1 (RFC 9112, section 3.2).
    Host,
    /// The body has a transfer coding that is not understood (RFC 9112, section 6.1).
    Coding {
        /// There is a Content-Length too.
        both: bool,
    },
    /// The Content-Length is unusable (RFC 9112, section 6.3), or it is missing where it is required
    /// (RFC 9110, section 15.5.12).
    Length {
        /// The field is missing, and is not just unusable.
        missing: bool,
    },
    /// The body is longer than `MAX_BODY_BYTES`.
    BodyLong,
    /// Memory ran out.
    Memory,
}

impl From<Failed> for HttpFault {
    ghost from_gives = { λ _ fault. fault ≡ HttpSource };

    fn from(_failed: Failed) -> HttpFault {
        HttpFault::Source
    }
}

impl From<Memory> for HttpFault {
    ghost from_gives = { λ _ fault. fault ≡ HttpMemory };

    fn from(_memory: Memory) -> HttpFault {
        HttpFault::Memory
    }
}

impl From<AllocError> for HttpFault {
    ghost from_gives = { λ _ fault. fault ≡ HttpMemory };

    fn from(_error: AllocError) -> HttpFault {
        HttpFault::Memory
    }
}

impl<T: Drop> From<AllocFailed<T>> for HttpFault {
    ghost from_gives = { λ _ fault. fault ≡ HttpMemory };

    fn from(_error: AllocFailed<T>) -> HttpFault {
        HttpFault::Memory
    }
}

impl From<ReadFault> for HttpFault {
    ghost from_gives = { λ read fault. fault ≡ fault_of_read read };

    fn from(fault: ReadFault) -> HttpFault {
        match fault {
            ReadFault::Failed => HttpFault::Source,
            ReadFault::TooMany => HttpFault::BodyLong,
            ReadFault::Memory => HttpFault::Memory,
        }
    }
}

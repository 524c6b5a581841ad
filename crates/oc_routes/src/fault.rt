ghost use Rattle.std.specs.Prelude.{◌≡◌};
ghost use Rattle.oc_routes.specs.Refusals.{fault_of_http};
ghost use Rattle.oc_routes.specs.declared.fault.RouteFault.TheVariants.{Memory as RouteMemory, Refused as RouteRefused};

use crate::Refused;
use oc_base::Memory;
use oc_http::HttpFault;
use std::alloc::{AllocError, AllocFailed};
use std::error::Error;
use std::fmt;

/// The cause that a request gave nothing.
#[derive(Clone, Copy, Debug, PartialEq, Eq)]
pub enum RouteFault {
    /// The request is refused.
    Refused(Refused),
    /// Memory ran out.
    Memory,
}

impl fmt::Display for RouteFault {
    fn fmt<W: fmt::Write>(&self, f: &mut fmt::Formatter<W>) -> fmt::Result {
        match self {
            RouteFault::Refused(_) => write!(f, "the request is refused"),
            RouteFault::Memory => write!(f, "out of memory"),
        }
    }
}

impl Error for RouteFault {}

impl From<Refused> for RouteFault {
    ghost from_gives = { λ refused fault. fault ≡ RouteRefused refused };

    fn from(refused: Refused) -> RouteFault {
        RouteFault::Refused(refused)
    }
}

impl From<HttpFault> for RouteFault {
    ghost from_gives = { λ http fault. fault ≡ fault_of_http http };

    fn from(fault: HttpFault) -> RouteFault {
        RouteFault::Refused(match fault {
            HttpFault::Source => Refused::Source,
            HttpFault::Ended => Refused::Ended,
            HttpFault::Head => Refused::Head,
            HttpFault::HeadLong => Refused::HeadLong,
            HttpFault::Fields => Refused::Fields,
            HttpFault::Host => Refused::Host,
            HttpFault::Coding { both } => Refused::Coding { both },
            HttpFault::Length { missing } => Refused::Length { missing },
            HttpFault::BodyLong => Refused::BodyLong,
            HttpFault::Memory => return RouteFault::Memory,
        })
    }
}

impl From<Memory> for RouteFault {
    ghost from_gives = { λ _ fault. fault ≡ RouteMemory };

    fn from(_memory: Memory) -> RouteFault {
        RouteFault::Memory
    }
}

impl From<AllocError> for RouteFault {
    ghost from_gives = { λ _ fault. fault ≡ RouteMemory };

    fn from(_error: AllocError) -> RouteFault {
        RouteFault::Memory
    }
}

impl<T: Drop> From<AllocFailed<T>> for RouteFault {
    ghost from_gives = { λ _ fault. fault ≡ RouteMemory };

    fn from(_error: AllocFailed<T>) -> RouteFault {
        RouteFault::Memory
    }
}

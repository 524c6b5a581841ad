ghost use Rattle.std.specs.Prelude.{◌≡◌};
ghost use Rattle.oc_wire.specs.Faults.{fault_of_http, fault_of_wire};

use crate::WireFault;
use oc_http::HttpFault;

/// The first fault of a request that brings no message, in the order of these.
#[derive(Clone, Copy)]
pub enum HttpWireFault {
    /// The bytes are no request with its whole body.
    NotHttp,
    /// The request is no POST to `/!overcast` without a query.
    Route,
    /// The body is no message, for this fault, which is not `Memory`.
    Wire(WireFault),
    /// Memory ran out.
    Memory,
}

impl From<HttpFault> for HttpWireFault {
    ghost from_gives = { λ http fault. fault ≡ fault_of_http http };

    fn from(fault: HttpFault) -> HttpWireFault {
        match fault {
            HttpFault::Memory => HttpWireFault::Memory,
            _ => HttpWireFault::NotHttp,
        }
    }
}

impl From<WireFault> for HttpWireFault {
    ghost from_gives = { λ wire fault. fault ≡ fault_of_wire wire };

    fn from(fault: WireFault) -> HttpWireFault {
        match fault {
            WireFault::Memory => HttpWireFault::Memory,
            fault => HttpWireFault::Wire(fault),
        }
    }
}

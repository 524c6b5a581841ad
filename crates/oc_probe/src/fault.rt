ghost use Rattle.std.specs.Prelude.{◌≡◌};
ghost use Rattle.oc_probe.specs.Faults.{fault_of_http};

use oc_http::HttpFault;
use std::error::Error;
use std::fmt;

/// The reason why a probe gave no rate.
#[derive(Clone, Copy, Debug, PartialEq, Eq)]
pub enum ProbeFault {
    /// A call of the dial failed.
    Link,
    /// The bytes that came are no response of status 200 with a body of `PROBE_BYTES` bytes.
    Reply,
    /// Memory ran out.
    Memory,
}

impl fmt::Display for ProbeFault {
    fn fmt<W: fmt::Write>(&self, f: &mut fmt::Formatter<W>) -> fmt::Result {
        let text = match self {
            ProbeFault::Link => "the dial failed",
            ProbeFault::Reply => "what came is no answer to a probe",
            ProbeFault::Memory => "out of memory",
        };
        write!(f, "{text}")
    }
}

impl Error for ProbeFault {}

impl From<HttpFault> for ProbeFault {
    ghost from_gives = { λ http fault. fault ≡ fault_of_http http };

    fn from(fault: HttpFault) -> ProbeFault {
        match fault {
            HttpFault::Source => ProbeFault::Link,
            HttpFault::Memory => ProbeFault::Memory,
            _ => ProbeFault::Reply,
        }
    }
}

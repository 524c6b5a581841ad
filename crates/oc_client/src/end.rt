ghost use Rattle.std.specs.Prelude.{◌≡◌};
ghost use Rattle.oc_client.specs.Ends.{end_of_http};
ghost use Rattle.oc_client.specs.declared.end.GetEnd.TheVariants.{Memory as MemoryEnd};

use oc_base::Memory;
use oc_http::HttpFault;
use std::alloc::AllocError;

/// The end of a download.
#[derive(Clone, Copy, Debug, PartialEq, Eq)]
pub enum GetEnd {
    /// The whole content was read and written.
    Done,
    /// The address is no URL, its scheme is not `http`, the host is missing, or a user or a
    /// password is given. Nothing was dialled.
    BadUrl,
    /// The reply has this status, neither 200 nor 302.
    Refused(u16),
    /// The reply redirects, and no more redirections are followed.
    Redirects,
    /// The reply is not valid, broke off or has a content that is not accepted, or its Location is
    /// no URL that can be asked.
    Reply,
    /// A call on the link failed.
    Link,
    /// A call on the sink failed.
    Sink,
    /// Memory ran out.
    Memory,
}

impl From<Memory> for GetEnd {
    ghost from_gives = { λ _ end. end ≡ MemoryEnd };

    fn from(_memory: Memory) -> GetEnd {
        GetEnd::Memory
    }
}

impl From<AllocError> for GetEnd {
    ghost from_gives = { λ _ end. end ≡ MemoryEnd };

    fn from(_error: AllocError) -> GetEnd {
        GetEnd::Memory
    }
}

impl From<HttpFault> for GetEnd {
    ghost from_gives = { λ fault end. end ≡ end_of_http fault };

    fn from(fault: HttpFault) -> GetEnd {
        match fault {
            HttpFault::Source => GetEnd::Link,
            HttpFault::Memory => GetEnd::Memory,
            _ => GetEnd::Reply,
        }
    }
}

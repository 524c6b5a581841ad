//! The meaning of a reply for a client that publishes.

ghost use Rattle.std.specs.Prelude.{◌≡◌};
ghost use Rattle.oc_client.specs.PutReplies.{answer_to_ask, answer_to_publish, as_length, as_status, failure_of};

use oc_http::{HttpFault, Reply, ReplyHead};

/// The answer that a reply gives.
#[derive(Clone, Copy)]
pub(crate) enum PutAnswer {
    /// The server took the bytes.
    Taken,
    /// The length of the group, in bytes.
    Length(u64),
    /// Any other status.
    Refused(u16),
}

/// The reason why a request has no answer.
#[derive(Clone, Copy)]
pub(crate) enum Failure {
    /// A call on the link failed.
    Link,
    /// The bytes that came are no valid reply.
    Reply,
    /// The reply has status 503: the request can be tried again.
    Unavailable,
    /// Memory ran out.
    Memory,
}

impl From<HttpFault> for Failure {
    ghost from_gives = { λ fault failure. failure ≡ failure_of fault };

    fn from(fault: HttpFault) -> Failure {
        match fault {
            HttpFault::Source => Failure::Link,
            HttpFault::Memory => Failure::Memory,
            _ => Failure::Reply,
        }
    }
}

/// The answer in the head of a reply to a query for the length. The body is not read (RFC 9110,
/// section 9.3.2).
pub(crate) fn answer_to_ask(head: &ReplyHead) -> Result<PutAnswer, Failure>
    ensures { result ≡ answer_to_ask head.now }
{
    match head.status {
        _ if head.chunked => Err(Failure::Reply),
        200 => as_length(head.length),
        404 => Ok(PutAnswer::Length(0)),
        status => as_status(status),
    }
}

/// The answer in the reply to a request that sent bytes.
pub(crate) fn answer_to_publish(reply: &Reply) -> Result<PutAnswer, Failure>
    ensures { result ≡ answer_to_publish reply.now }
{
    match reply.status {
        200 => Ok(PutAnswer::Taken),
        409 => as_length(reply.group_length),
        status => as_status(status),
    }
}

/// A reply of another status.
fn as_status(status: u16) -> Result<PutAnswer, Failure>
    ensures { result ≡ as_status status }
{
    match status {
        503 => Err(Failure::Unavailable),
        other => Ok(PutAnswer::Refused(other)),
    }
}

/// The answer of a reply that must give a length.
fn as_length(length: Option<u64>) -> Result<PutAnswer, Failure>
    ensures { result ≡ as_length length }
{
    match length {
        Some(length) => Ok(PutAnswer::Length(length)),
        None => Err(Failure::Reply),
    }
}

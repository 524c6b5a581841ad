ghost use Rattle.std.specs.Prelude.{◌≡◌};
ghost use Rattle.oc_routes.specs.Connections.{awaits_continue, connection_for, is_last, kept_after, kept_after_head};

use oc_http::{Head, Persistence};

/// The greatest number of requests on one connection.
pub const MAX_REQUESTS: u64 = 1_000;

/// The text before the body is read, where the client waits for it (RFC 9110, section 15.2.1).
pub const CONTINUE: &[u8] = b"HTTP/1.1 100 Continue\r\n\r\n";

/// Whether the request of this number, counted from 1, is the last of its connection whatever it asks: the client closes
/// the connection (RFC 9112, section 9.6), or does not keep it by itself, or this is the last that there may be.
pub fn is_last(head: &Head, number: u64) -> bool
    ensures { result ≡ is_last head.now number }
{
    head.closes || head.minor == 0 || number >= MAX_REQUESTS
}

/// The fate of a connection after a reply; `last` says that its request is the last.
pub(crate) fn connection_for(last: bool) -> Persistence
    ensures { result ≡ connection_for last }
{
    if last {
        Persistence::Close
    } else {
        Persistence::Keep
    }
}

/// The number of bytes of a refused request that was read whole, where its connection is kept.
pub(crate) fn kept_after(last: bool, count: u64) -> Option<u64>
    ensures { result ≡ kept_after last count }
{
    if last { None } else { Some(count) }
}

/// The number of bytes of a request that its head refuses, where its connection is kept: its body is not read.
pub(crate) fn kept_after_head(head: &Head, number: u64, count: u64) -> Option<u64>
    ensures { result ≡ kept_after_head head.now number count }
{
    if head.length == 0 {
        kept_after(is_last(head, number), count)
    } else {
        None
    }
}

/// Whether [`CONTINUE`] is written before the body is read.
pub fn awaits_continue(head: &Head) -> bool
    ensures { result ≡ awaits_continue head.now }
{
    head.expects && head.length != 0
}

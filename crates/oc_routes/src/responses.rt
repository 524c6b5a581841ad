//! The parts of the replies of the routes.

ghost use Rattle.std.specs.Prelude.{◌≡◌, [], IfOk};
ghost use Rattle.oc_http.specs.Writing.{HasPhrase, head_text};
ghost use Rattle.oc_routes.specs.Responses.{is_head_alone, status_alone, told, typed, typed_as, whole, whole_for};

use crate::connections::connection_for;
use crate::manner::Manner;
use crate::reasons::{bare, reply_text, telling};
use crate::response::Response;
use oc_base::{Bytes, Memory, Text};
use oc_http::{ContentType, Framing, Persistence, Reply, write_reply_head, write_response};
use std::alloc::Global;

/// A whole reply; `last` says that its request is the last of its connection.
pub(crate) fn whole(alloc: Global, reply: &Reply, last: bool) -> Result<Response, Memory>
    requires { HasPhrase reply.now.status }
    ensures { IfOk result (λ response. response ≡ whole reply.now last) }
{
    let connection = connection_for(last);
    Ok(Response {
        text: Text::of(write_response(alloc, reply, connection)?),
        content: None,
        connection,
    })
}

/// A whole reply; to a HEAD without its body.
pub(crate) fn whole_for(
    alloc: Global,
    manner: Manner,
    reply: &Reply,
    last: bool,
) -> Result<Response, Memory>
    requires { HasPhrase reply.now.status }
    ensures { IfOk result (λ response. response ≡ whole_for manner reply.now last) }
{
    let connection = connection_for(last);
    Ok(Response {
        text: Text::of(reply_text(alloc, is_head_alone(manner), reply, connection)?),
        content: None,
        connection,
    })
}

fn is_head_alone(manner: Manner) -> bool
    ensures { result ≡ is_head_alone manner }
{
    manner == Manner::HeadAlone
}

/// A status alone.
pub(crate) fn status_alone(alloc: Global, status: u16, last: bool) -> Result<Response, Memory>
    requires { HasPhrase status }
    ensures { IfOk result (λ response. response ≡ status_alone status last) }
{
    whole(alloc, &bare(alloc, status), last)
}

/// A status of 400 or above, with its line.
pub(crate) fn told(
    alloc: Global,
    status: u16,
    line: Vec<u8>,
    last: bool,
) -> Result<Response, Memory>
    requires { HasPhrase status }
    ensures { IfOk result (λ response. response ≡ told status line.items last) }
{
    whole(alloc, &telling(status, line), last)
}

/// A 200 with a body of this type.
pub(crate) fn typed_as(content_type: ContentType, body: Vec<u8>) -> Reply
    ensures { result ≡ typed_as content_type body.items }
{
    Reply {
        status: 200,
        location: None,
        content_type: Some(content_type),
        body: Bytes::of(body),
        rule: None,
        content_range: None,
        etag: None,
        accepts_ranges: false,
        group_length: None,
        mac: None,
    }
}

/// A 200 whose body is a message, or the content of a probe.
pub(crate) fn typed(body: Vec<u8>) -> Reply
    ensures { result ≡ typed body.items }
{
    typed_as(ContentType::Octets, body)
}

/// The head of a 200 whose body is a message, or the content of a probe.
pub(crate) fn typed_head(
    alloc: Global,
    framing: Framing,
    connection: Persistence,
) -> Result<Vec<u8>, Memory>
    ensures { IfOk result (λ text. text.items ≡ head_text (typed []) framing connection) }
{
    write_reply_head(alloc, &typed(Vec::new(alloc)), framing, connection)
}

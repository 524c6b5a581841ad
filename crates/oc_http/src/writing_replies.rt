//! The replies of a node.

ghost use Rattle.std.specs.Prelude.{◌≡◌, IfOk};
ghost use Rattle.oc_http.specs.Parts.{line_text};
ghost use Rattle.oc_http.specs.Writing.{HasPhrase, phrase_text, head_text, to_head_text, response_text, text_line, location_line, allow_line, challenge_line, rule_line, type_name, content_type_line, accept_ranges_line, group_length_line, content_line, connection_line};

use crate::content_type::ContentType;
use crate::field_line::{FieldLine, field_line, no_line};
use crate::framing::{Framing, Persistence};
use crate::reply::Reply;
use crate::responses::has_no_body;
use crate::texts::join;
use itoa::Buffer;
use oc_base::{Memory, Text};
use std::alloc::Global;

/// A reply with its body.
pub fn write_response(
    alloc: Global,
    reply: &Reply,
    connection: Persistence,
) -> Result<Vec<u8>, Memory>
    requires { HasPhrase reply.now.status }
    ensures { IfOk result (λ text. text.items ≡ response_text reply.now connection) }
{
    let mut out = write_response_to_head(alloc, reply, connection)?;
    out.extend_from_slice(reply.body.items())?;
    Ok(out)
}

/// The same reply to HEAD: its head, with the length of the body, and no body (RFC 9110, section 9.3.2).
pub fn write_response_to_head(
    alloc: Global,
    reply: &Reply,
    connection: Persistence,
) -> Result<Vec<u8>, Memory>
    requires { HasPhrase reply.now.status }
    ensures { IfOk result (λ text. text.items ≡ to_head_text reply.now connection) }
{
    let length = reply.body.items().len() as u64;
    write_reply_head(alloc, reply, Framing::Length(length), connection)
}

/// The head of a reply whose content is told by the framing, as those with which a content begins that is sent in pieces.
pub fn write_reply_head(
    alloc: Global,
    reply: &Reply,
    framing: Framing,
    connection: Persistence,
) -> Result<Vec<u8>, Memory>
    requires { HasPhrase reply.now.status }
    ensures { IfOk result (λ text. text.items ≡ head_text reply.now framing connection) }
{
    let mut status = Buffer::new();
    let mut rule = Buffer::new();
    let mut group_length = Buffer::new();
    let mut length = Buffer::new();
    let status = status.format(reply.status);
    let location = location_line(reply.status, &reply.location);
    let rule = rule_line(reply.rule, &mut rule);
    let content_type = content_type_line(&reply.content_type);
    let content_range = text_line(b"Content-Range: ", &reply.content_range);
    let etag = text_line(b"ETag: ", &reply.etag);
    let group_length = group_length_line(reply.group_length, &mut group_length);
    let content = content_line(reply.status, framing, &mut length);
    let mac = text_line(b"Overcast-Mac: ", &reply.mac);
    join(
        alloc,
        &[
            b"HTTP/1.1 ",
            status.as_bytes(),
            phrase_of(reply.status).as_bytes(),
            location.name,
            location.value,
            location.end,
            allow_line(reply.status),
            challenge_line(reply.status),
            rule.name,
            rule.value,
            rule.end,
            content_type.name,
            content_type.value,
            content_type.end,
            content_range.name,
            content_range.value,
            content_range.end,
            etag.name,
            etag.value,
            etag.end,
            accept_ranges_line(reply.accepts_ranges),
            group_length.name,
            group_length.value,
            group_length.end,
            content.name,
            content.value,
            content.end,
            connection_line(connection),
            mac.name,
            mac.value,
            mac.end,
            b"\r\n",
        ],
    )
}

/// The name of a status, between the space before it and the end of its line.
fn phrase_of<'a>(status: u16) -> &'a str
    requires { HasPhrase status }
    ensures { result.now ≡ phrase_text status }
{
    match status {
        200 => " OK\r\n",
        204 => " No Content\r\n",
        206 => " Partial Content\r\n",
        302 => " Found\r\n",
        304 => " Not Modified\r\n",
        400 => " Bad Request\r\n",
        401 => " Unauthorized\r\n",
        403 => " Forbidden\r\n",
        404 => " Not Found\r\n",
        405 => " Method Not Allowed\r\n",
        409 => " Conflict\r\n",
        411 => " Length Required\r\n",
        412 => " Precondition Failed\r\n",
        413 => " Content Too Large\r\n",
        416 => " Range Not Satisfiable\r\n",
        431 => " Request Header Fields Too Large\r\n",
        501 => " Not Implemented\r\n",
        503 => " Service Unavailable\r\n",
        _ => unreachable!(),
    }
}

/// `Connection: close`, except where the connection is kept.
fn connection_line<'a>(connection: Persistence) -> &'a [u8]
    ensures { result.now ≡ connection_line connection }
{
    match connection {
        Persistence::Close => b"Connection: close\r\n",
        Persistence::Keep => b"",
    }
}

/// `Location`, of a 302.
fn location_line(status: u16, location: &Option<Text>) -> FieldLine<'_>
    ensures { line_text result ≡ location_line status location.now }
{
    match location {
        Some(location) if status == 302 => field_line(b"Location: ", location.items()),
        _ => no_line(),
    }
}

/// `Allow`, of a 405.
fn allow_line<'a>(status: u16) -> &'a [u8]
    ensures { result.now ≡ allow_line status }
{
    if status == 405 {
        b"Allow: GET, HEAD, POST\r\n"
    } else {
        b""
    }
}

/// `WWW-Authenticate`, of a 401 (RFC 6750, section 3).
fn challenge_line<'a>(status: u16) -> &'a [u8]
    ensures { result.now ≡ challenge_line status }
{
    if status == 401 {
        b"WWW-Authenticate: Bearer\r\n"
    } else {
        b""
    }
}

/// `Overcast-Rule`, where a rule denied the request.
fn rule_line(rule: Option<u32>, digits: &mut Buffer) -> FieldLine<'_>
    ensures { line_text result ≡ rule_line rule }
{
    match rule {
        Some(number) => field_line(b"Overcast-Rule: ", digits.format(number).as_bytes()),
        None => no_line(),
    }
}

/// `Content-Type`, where it is given.
fn content_type_line(content_type: &Option<ContentType>) -> FieldLine<'_>
    ensures { line_text result ≡ content_type_line content_type.now }
{
    match content_type {
        Some(content_type) => field_line(b"Content-Type: ", type_name(content_type).as_bytes()),
        None => no_line(),
    }
}

/// The name of a type of content.
fn type_name<'a>(content_type: &'a ContentType) -> &'a str
    ensures { result.now ≡ type_name content_type.now }
{
    match content_type {
        ContentType::Octets => "application/octet-stream",
        ContentType::Json => "application/json",
        ContentType::Metrics => "text/plain; version=0.0.4",
        ContentType::Html => "text/html; charset=utf-8",
        ContentType::Text => "text/plain; charset=utf-8",
        ContentType::Media(media_type) => media_type.name(),
    }
}

/// A field with this text as its value, where there is one.
fn text_line<'a>(name: &'a [u8], text: &'a Option<Text>) -> FieldLine<'a>
    ensures { line_text result ≡ text_line name.now text.now }
{
    match text {
        Some(text) => field_line(name, text.items()),
        None => no_line(),
    }
}

/// `Accept-Ranges`, where a client may ask for parts of the content.
fn accept_ranges_line<'a>(accepts: bool) -> &'a [u8]
    ensures { result.now ≡ accept_ranges_line accepts }
{
    if accepts {
        b"Accept-Ranges: bytes\r\n"
    } else {
        b""
    }
}

/// `Overcast-Length`, where the length of a group is told.
fn group_length_line(length: Option<u64>, digits: &mut Buffer) -> FieldLine<'_>
    ensures { line_text result ≡ group_length_line length }
{
    match length {
        Some(count) => field_line(b"Overcast-Length: ", digits.format(count).as_bytes()),
        None => no_line(),
    }
}

/// The line that tells the end of the content, where there is a content.
fn content_line(status: u16, framing: Framing, digits: &mut Buffer) -> FieldLine<'_>
    ensures { line_text result ≡ content_line status framing }
{
    if has_no_body(status) {
        return no_line();
    }
    match framing {
        Framing::Length(count) => field_line(b"Content-Length: ", digits.format(count).as_bytes()),
        Framing::Chunked => field_line(b"Transfer-Encoding: ", b"chunked"),
    }
}

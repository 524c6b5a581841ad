//! The body of a reply of status 400 or above: one line with the cause and a remedy. It is made of the cause of a
//! refusal or the answer of a step, with the number of a rule, the name and the length of a group and the
//! address of the source; no byte of a token, of a key or of a field is given to these functions.

ghost use Rattle.std.specs.Prelude.{◌≡◌, ◌++◌, IfOk, OnOk};
ghost use Rattle.oc_http.specs.Writing.{HasPhrase};
ghost use Rattle.oc_routes.specs.Reasons.{at_line, bare, bytes_text, coding_line, condition_line, denied_line, length_line, no_group_line, nowhere_line, past_line, plain_line, publish_line, range_line, refused_line, reply_text, seal_line, source_url, telling};

use crate::Refused;
use oc_base::{Bytes, GroupName, Memory, put, put_with_number};
use oc_http::{ContentType, Persistence, Reply, write_response, write_response_to_head};
use oc_model::Answer;
use std::alloc::Global;

/// A reply without a body.
pub(crate) fn bare(alloc: Global, status: u16) -> Reply
    ensures { result ≡ bare status }
{
    Reply {
        status,
        location: None,
        content_type: None,
        body: Bytes::of(Vec::new(alloc)),
        rule: None,
        content_range: None,
        etag: None,
        accepts_ranges: false,
        group_length: None,
        mac: None,
    }
}

/// A reply whose body is this line.
pub(crate) fn telling(status: u16, line: Vec<u8>) -> Reply
    ensures { result ≡ telling status line.items }
{
    Reply {
        status,
        location: None,
        content_type: Some(ContentType::Text),
        body: Bytes::of(line),
        rule: None,
        content_range: None,
        etag: None,
        accepts_ranges: false,
        group_length: None,
        mac: None,
    }
}

/// The text of a reply: to a HEAD its head alone, with the length of the body.
pub(crate) fn reply_text(
    alloc: Global,
    head_alone: bool,
    reply: &Reply,
    connection: Persistence,
) -> Result<Vec<u8>, Memory>
    requires { HasPhrase reply.now.status }
    ensures { IfOk result (λ text. text.items ≡ reply_text head_alone reply.now connection) }
{
    if head_alone {
        write_response_to_head(alloc, reply, connection)
    } else {
        write_response(alloc, reply, connection)
    }
}

/// The line of a refused request; none where there is no reply.
pub(crate) fn refused_line(alloc: Global, refused: Refused) -> Result<Vec<u8>, Memory>
    ensures { IfOk result (λ line. line.items ≡ refused_line refused) }
{
    let mut line = Vec::new(alloc);
    match refused {
        Refused::Coding { both } => put(&mut line, coding_line(both))?,
        Refused::Length { missing } => put(&mut line, length_line(missing))?,
        Refused::Denied { rule, needs_token } => put_denied(&mut line, rule, needs_token)?,
        Refused::At(length) => put_at(&mut line, length)?,
        refused => put(&mut line, plain_line(refused))?,
    }
    Ok(line)
}

/// The line of a request that is refused for this alone.
fn plain_line(refused: Refused) -> &'static [u8]
    ensures { result.now ≡ plain_line refused }
{
    match refused {
        Refused::Head =>
            b"this is no request of HTTP/1.1 or 1.0: send a request line and fields as RFC 9112 has them\n",
        Refused::HeadLong => b"the head is too long: send at most 8192 bytes\n",
        Refused::Fields => b"the head has too many fields: send at most 64\n",
        Refused::Host => b"Host is missing, or there are several: send one\n",
        Refused::BodyLong => b"the body is too long: publish at most 1000000 bytes at a time\n",
        Refused::Method => b"there is no such method here: use GET, HEAD or POST\n",
        Refused::Path =>
            b"no group can have this path, and no page has it: look at /-/status for the names of groups\n",
        Refused::Query =>
            b"a number of the query is none, or too great: look at start, area, of and at\n",
        Refused::Mac =>
            b"the message has not the MAC of this network's key: give all nodes the same key\n",
        Refused::Message =>
            b"the body is no message to this node: only nodes of this network post here\n",
        Refused::Body => b"a request to seal has no body: publish first, then seal\n",
        _ => b"",
    }
}

/// The line for a body with a transfer coding, by whether a length is given too.
fn coding_line(both: bool) -> &'static [u8]
    ensures { result.now ≡ coding_line both }
{
    if both {
        b"the body has a transfer coding beside its length: give Content-Length alone\n"
    } else {
        b"transfer codings are not read: give Content-Length\n"
    }
}

/// The line for a Content-Length, by whether it is missing.
fn length_line(missing: bool) -> &'static [u8]
    ensures { result.now ≡ length_line missing }
{
    if missing {
        b"the length of the body is missing: give Content-Length\n"
    } else {
        b"Content-Length is no number, or there are several: give one\n"
    }
}

/// Puts the line of a request that a rule denies, by whether a token would do.
fn put_denied(line: &mut Vec<u8>, rule: u32, needs_token: bool) -> Result<(), Memory>
    ensures { OnOk result (line.new.items ≡ line.old.items ++ denied_line rule needs_token) }
{
    put_with_number(line, b"access rule ", u64::from(rule))?;
    if needs_token {
        put(
            line,
            b" denies this without a token: send the field Authorization: Bearer TOKEN\n",
        )
    } else {
        put(line, b" denies this: ask who runs this node\n")
    }
}

/// Puts the line of a request whose condition is not met.
fn put_at(line: &mut Vec<u8>, length: u64) -> Result<(), Memory>
    ensures { OnOk result (line.new.items ≡ line.old.items ++ at_line length) }
{
    put(line, b"the group has ")?;
    put_bytes(line, length)?;
    put_with_number(line, b": at=", length)?;
    put(line, b" appends\n")
}

/// Puts a number of bytes.
fn put_bytes(line: &mut Vec<u8>, count: u64) -> Result<(), Memory>
    ensures { OnOk result (line.new.items ≡ line.old.items ++ bytes_text count) }
{
    if count == 1 {
        return put(line, b"1 byte");
    }
    put_with_number(line, b"", count)?;
    put(line, b" bytes")
}

/// The line of a publish by the answer of its step.
pub(crate) fn publish_line(
    alloc: Global,
    answer: Answer,
    source: &str,
    group: &GroupName,
) -> Result<Vec<u8>, Memory>
    ensures { IfOk result (λ line. line.items ≡ publish_line answer source.now group.now) }
{
    let mut line = Vec::new(alloc);
    match answer {
        Answer::NotSource => {
            put(
                &mut line,
                b"this node is not the source: publish at the source",
            )?;
            put_source_url(&mut line, source, group, b"")?;
            put(&mut line, b"\n")?;
        }
        Answer::Sealed => put(
            &mut line,
            b"the group is sealed, and takes no more: publish another group\n",
        )?,
        Answer::Groups => put(
            &mut line,
            b"64 groups are held, the most: publish into a group that is held\n",
        )?,
        Answer::TooLong => put(
            &mut line,
            b"the group would be too long: at most 1099511627776 bytes fit\n",
        )?,
        _ => {}
    }
    Ok(line)
}

/// The line of a seal by the answer of its step.
pub(crate) fn seal_line(
    alloc: Global,
    answer: Answer,
    source: &str,
    group: &GroupName,
) -> Result<Vec<u8>, Memory>
    ensures { IfOk result (λ line. line.items ≡ seal_line answer source.now group.now) }
{
    let mut line = Vec::new(alloc);
    match answer {
        Answer::NotSource => {
            put(
                &mut line,
                b"this node is not the source: seal at the source",
            )?;
            put_source_url(&mut line, source, group, b"?seal")?;
            put(&mut line, b"\n")?;
        }
        Answer::NoGroup => put(&mut line, b"there is no such group: publish it first\n")?,
        _ => {}
    }
    Ok(line)
}

/// Puts the URL of a group at the source, with a query after it; nothing where the source has no address.
fn put_source_url(
    line: &mut Vec<u8>,
    source: &str,
    group: &GroupName,
    query: &[u8],
) -> Result<(), Memory>
    ensures { OnOk result (line.new.items ≡ line.old.items ++ source_url source.now group.now query.now) }
{
    if source.is_empty() {
        return Ok(());
    }
    put(line, b", http://")?;
    put(line, source.as_bytes())?;
    put(line, group.bytes())?;
    put(line, query)
}

/// The line to a client that asks for a group which is not here.
pub(crate) fn no_group_line(alloc: Global) -> Result<Vec<u8>, Memory>
    ensures { IfOk result (λ line. line.items ≡ no_group_line) }
{
    let mut line = Vec::new(alloc);
    put(
        &mut line,
        b"there is no such group here: look at /-/status for the names of groups\n",
    )?;
    Ok(line)
}

/// The line to a client that follows a group, where the node that has more bytes has no address.
pub(crate) fn nowhere_line(alloc: Global) -> Result<Vec<u8>, Memory>
    ensures { IfOk result (λ line. line.items ≡ nowhere_line) }
{
    let mut line = Vec::new(alloc);
    put(
        &mut line,
        b"the node that has more of this group has no address: ask again later, or ask another node\n",
    )?;
    Ok(line)
}

/// The line to a client whose start is past the end of a sealed group of this length.
pub(crate) fn past_line(alloc: Global, length: u64) -> Result<Vec<u8>, Memory>
    ensures { IfOk result (λ line. line.items ≡ past_line length) }
{
    let mut line = Vec::new(alloc);
    put(&mut line, b"the group has ")?;
    put_bytes(&mut line, length)?;
    put_with_number(&mut line, b", and is sealed: start=", length)?;
    put(&mut line, b" is the last start\n")?;
    Ok(line)
}

/// The line to a client whose condition does not hold.
pub(crate) fn condition_line(alloc: Global) -> Result<Vec<u8>, Memory>
    ensures { IfOk result (λ line. line.items ≡ condition_line) }
{
    let mut line = Vec::new(alloc);
    put(
        &mut line,
        b"the group is not what If-Match names: ask for it without this field\n",
    )?;
    Ok(line)
}

/// The line to a client whose range has no byte of a group of this length.
pub(crate) fn range_line(alloc: Global, length: u64) -> Result<Vec<u8>, Memory>
    ensures { IfOk result (λ line. line.items ≡ range_line length) }
{
    let mut line = Vec::new(alloc);
    put(&mut line, b"the group has ")?;
    put_bytes(&mut line, length)?;
    put(
        &mut line,
        b", and none of them is in the range: ask for one that begins before its end\n",
    )?;
    Ok(line)
}

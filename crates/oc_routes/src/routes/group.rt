//! A GET or HEAD of a group: a client is given its bytes from a byte on, or a part of them, or is sent to another node.

ghost use Rattle.std.specs.Prelude.{◌≡◌, ◌++◌, ◌+◌, ◌<◌, ◌^◌, IfOk, Some};
ghost use Rattle.oc_http.specs.Writing.{HasPhrase};
ghost use Rattle.oc_routes.specs.Group.{framing_for, is_chunked, known_reply, of_group, part_head, part_served, past_reply, range_reply, redirection, served, tagged, whole_head};
ghost use Rattle.oc_routes.specs.Reasons.{condition_line, no_group_line, nowhere_line, telling};
ghost use Rattle.oc_routes.specs.Responses.{whole, whole_for};
ghost use Rattle.oc_select.specs.Tags.{tag_of};
ghost use Rattle.oc_select.specs.Texts.{no_range, part_range};

use crate::connections::connection_for;
use crate::manner::Manner;
use crate::reasons::{
    bare, condition_line, no_group_line, nowhere_line, past_line, range_line, telling,
};
use crate::response::{GroupRange, Response};
use crate::responses::{whole, whole_for};
use crate::showing::Client;
use oc_base::{GroupName, Memory, Text};
use oc_http::{ContentType, Framing, MediaType, Reply, write_reply_head};
use oc_select::{Content, media_type, put_no_range, put_part, put_tag};
use std::alloc::Global;

/// Sends a client to a URL.
pub(crate) fn sent_to(alloc: Global, location: Vec<u8>, last: bool) -> Result<Response, Memory>
    ensures { IfOk result (λ response. response ≡ whole (redirection location.items) last) }
{
    whole(alloc, &redirection(alloc, location), last)
}

/// The redirection of a client to a URL.
fn redirection(alloc: Global, location: Vec<u8>) -> Reply
    ensures { result ≡ redirection location.items }
{
    let mut reply = bare(alloc, 302);
    reply.location = Some(Text::of(location));
    reply
}

/// Tells a client that there is no such group here.
pub(crate) fn no_group(alloc: Global, manner: Manner, last: bool) -> Result<Response, Memory>
    ensures { IfOk result (λ response. response ≡ whole_for manner (telling 404 no_group_line) last) }
{
    let reply = telling(404, no_group_line(alloc)?);
    whole_for(alloc, manner, &reply, last)
}

/// Tells a client that follows a group that the node which has more bytes of the group has no address.
pub(crate) fn nowhere(alloc: Global, manner: Manner, last: bool) -> Result<Response, Memory>
    ensures { IfOk result (λ response. response ≡ whole_for manner (telling 503 nowhere_line) last) }
{
    let reply = telling(503, nowhere_line(alloc)?);
    whole_for(alloc, manner, &reply, last)
}

/// Tells a client that its condition does not hold.
pub(crate) fn not_met(alloc: Global, manner: Manner, last: bool) -> Result<Response, Memory>
    ensures { IfOk result (λ response. response ≡ whole_for manner (telling 412 condition_line) last) }
{
    let reply = telling(412, condition_line(alloc)?);
    whole_for(alloc, manner, &reply, last)
}

/// Tells a client that it has the content.
pub(crate) fn known(alloc: Global, content: &Content, last: bool) -> Result<Response, Memory>
    ensures { IfOk result (λ response. response ≡ whole (known_reply content.now) last) }
{
    let tag = tag_text(alloc, content)?;
    let mut reply = bare(alloc, 304);
    reply.etag = Some(tag);
    whole(alloc, &reply, last)
}

/// Tells a client that its start is past the end of a sealed group of this length.
pub(crate) fn past(
    alloc: Global,
    manner: Manner,
    length: u64,
    last: bool,
) -> Result<Response, Memory>
    ensures { IfOk result (λ response. response ≡ whole_for manner (past_reply length) last) }
{
    let line = past_line(alloc, length)?;
    let range = no_range_text(alloc, length)?;
    whole_for(alloc, manner, &ranged(line, range), last)
}

/// Tells a client that its range has no byte of a group of this length.
pub(crate) fn out_of_range(
    alloc: Global,
    manner: Manner,
    length: u64,
    last: bool,
) -> Result<Response, Memory>
    ensures { IfOk result (λ response. response ≡ whole_for manner (range_reply length) last) }
{
    let line = range_line(alloc, length)?;
    let range = no_range_text(alloc, length)?;
    whole_for(alloc, manner, &ranged(line, range), last)
}

/// The reply 416 with this line and this value of Content-Range.
fn ranged(line: Vec<u8>, range: Text) -> Reply
    ensures { result ≡ record (telling 416 line.items) { content_range = Some range } }
{
    let mut reply = telling(416, line);
    reply.content_range = Some(range);
    reply
}

/// The value of Content-Range where no byte of a range is there.
fn no_range_text(alloc: Global, length: u64) -> Result<Text, Memory>
    ensures { IfOk result (λ text. text ≡ no_range length) }
{
    let mut text = Vec::new(alloc);
    put_no_range(&mut text, length)?;
    Ok(Text::of(text))
}

/// The value of Content-Range with a part of a content.
fn part_text(alloc: Global, content: &Content, start: u64, count: u64) -> Result<Text, Memory>
    requires some { 0 < count }
    requires fits { start + count < 2 ^ 64 }
    ensures { IfOk result (λ text. text ≡ part_range content.now start count) }
{
    let mut text = Vec::new(alloc);
    put_part(&mut text, content, start, count)?;
    Ok(Text::of(text))
}

/// The value of ETag of a content.
fn tag_text(alloc: Global, content: &Content) -> Result<Text, Memory>
    ensures { IfOk result (λ text. text ≡ tag_of content.now) }
{
    let mut text = Vec::new(alloc);
    put_tag(&mut text, content)?;
    Ok(Text::of(text))
}

/// A reply whose content is bytes of a group.
fn of_group(alloc: Global, status: u16, group: &GroupName) -> Reply
    ensures { result ≡ of_group status group.now }
{
    let mut reply = bare(alloc, status);
    reply.content_type = Some(ContentType::Media(MediaType::of(media_type(group.bytes()))));
    reply
}

/// A reply whose content is bytes of a group, with its tag, and of which parts may be asked for.
fn tagged(alloc: Global, status: u16, group: &GroupName, content: &Content) -> Result<Reply, Memory>
    ensures { IfOk result (λ reply. reply ≡ tagged status group.now content.now) }
{
    let tag = tag_text(alloc, content)?;
    let mut reply = of_group(alloc, status, group);
    reply.etag = Some(tag);
    reply.accepts_ranges = true;
    Ok(reply)
}

/// The head of a content that is given whole.
fn whole_head(
    alloc: Global,
    manner: Manner,
    group: &GroupName,
    content: &Content,
) -> Result<Reply, Memory>
    ensures { IfOk result (λ reply. reply ≡ whole_head manner group.now content.now) }
{
    match manner {
        Manner::Follow => Ok(of_group(alloc, 200, group)),
        Manner::Once | Manner::HeadAlone => tagged(alloc, 200, group, content),
    }
}

/// The head of a part of a content.
fn part_head(
    alloc: Global,
    group: &GroupName,
    content: &Content,
    start: u64,
    count: u64,
) -> Result<Reply, Memory>
    requires some { 0 < count }
    requires fits { start + count < 2 ^ 64 }
    ensures { IfOk result (λ reply. reply ≡ part_head group.now content.now start count) }
{
    let range = part_text(alloc, content, start, count)?;
    let mut reply = tagged(alloc, 206, group, content)?;
    reply.content_range = Some(range);
    Ok(reply)
}

/// Gives a client `count` bytes of a content from its start on.
pub(crate) fn served(
    alloc: Global,
    client: &Client,
    sealed: bool,
    count: u64,
    content: &Content,
) -> Result<Response, Memory>
    ensures { IfOk result (λ response. response ≡ served client.now sealed count content.now) }
{
    let chunked = is_chunked(client.manner, sealed);
    let connection = connection_for(client.last);
    let reply = whole_head(alloc, client.manner, &client.group, content)?;
    let head = write_reply_head(alloc, &reply, framing_for(chunked, count), connection)?;
    Ok(Response {
        text: Text::of(head),
        content: client.manner.content_for(GroupRange {
            start: client.start,
            count,
            chunked,
        }),
        connection,
    })
}

/// Gives a client a part of a content.
pub(crate) fn part_served(
    alloc: Global,
    client: &Client,
    content: &Content,
    start: u64,
    count: u64,
) -> Result<Response, Memory>
    requires some { 0 < count }
    requires fits { start + count < 2 ^ 64 }
    ensures { IfOk result (λ response. response ≡ part_served client.now content.now start count) }
{
    let connection = connection_for(client.last);
    let reply = part_head(alloc, &client.group, content, start, count)?;
    let head = write_reply_head(alloc, &reply, Framing::Length(count), connection)?;
    Ok(Response {
        text: Text::of(head),
        content: client.manner.content_for(GroupRange {
            start,
            count,
            chunked: false,
        }),
        connection,
    })
}

/// Whether a content is sent in chunks.
fn is_chunked(manner: Manner, sealed: bool) -> bool
    ensures { result ≡ is_chunked manner sealed }
{
    manner == Manner::Follow && !sealed
}

/// The framing of a content: in chunks, or by its length.
fn framing_for(chunked: bool, count: u64) -> Framing
    ensures { result ≡ framing_for chunked count }
{
    if chunked {
        Framing::Chunked
    } else {
        Framing::Length(count)
    }
}

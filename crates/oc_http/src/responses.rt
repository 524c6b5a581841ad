//! The head of a response.

ghost use Rattle.std.specs.Prelude.{◌≡◌, ◌&&◌, [], not, IfOk};
ghost use Rattle.httparse.specs.Grammar.{ReadsResponse, ResponseHead};
ghost use Rattle.oc_http.specs.Fields.{first_of, locations, length_of, lengths, number_of, group_lengths, is_present, codings};
ghost use Rattle.oc_http.specs.Lengths.{fault_or};
ghost use Rattle.oc_http.specs.Gives.{Gives};
ghost use Rattle.oc_http.specs.Responses.{is_chunked, reply_head_fault, reply_head_of, read_reply_head, whole_fault, has_no_body, body_length};
ghost use Rattle.oc_http.specs.Lines.{IsResponseTaken};

use crate::fault::HttpFault;
use crate::lengths::content_length;
use crate::reply::ReplyHead;
use crate::texts::{copy, copy_some};
use crate::{FieldMatch, Fields, length_of};
use httparse::spans::{HeaderSpan, ResponseSpans};
use oc_base::{MAX_BODY_BYTES, Memory, Text};
use std::alloc::Global;

/// The contents of a response's head, or its first fault, for a reader that understands chunks. The head
/// is all of the bytes.
pub(crate) fn read_response_head(
    alloc: Global,
    bytes: &[u8],
    spans: &[HeaderSpan],
    parts: ResponseSpans,
) -> Result<ReplyHead, HttpFault>
    requires { IsResponseTaken bytes.now spans.now parts }
    ensures { (head : ResponseHead) × ReadsResponse bytes.now head [] × Gives result (read_reply_head head) }
{
    let fields = Fields::of(bytes, &spans[..parts.headers]);
    read_reply_head(alloc, parts.code, &fields)
}

/// The fault that a head can still have for a reader of whole messages, which understands no transfer coding.
pub(crate) fn whole_fault(head: &ReplyHead) -> Option<HttpFault>
    ensures { result ≡ whole_fault head.now }
{
    if head.chunked {
        return Some(HttpFault::Coding { both: false });
    }
    match head.length {
        Some(length) if length > MAX_BODY_BYTES => Some(HttpFault::BodyLong),
        _ => None,
    }
}

/// The length of the body in bytes, `None` where it goes to the end of the source (RFC 9112, section 6.3). A 204 and a 304
/// have none.
pub fn body_length(head: &ReplyHead) -> Option<u64>
    ensures { result ≡ body_length head.now }
{
    if has_no_body(head.status) {
        Some(0)
    } else {
        head.length
    }
}

/// Whether a response with this status has no body, whatever its head tells (RFC 9110, sections 15.3.5 and 15.4.5).
pub(crate) fn has_no_body(status: u16) -> bool
    ensures { result ≡ has_no_body status }
{
    status == 204 || status == 304
}

/// The head that a status and fields give, or their first fault, for a reader that understands chunks.
fn read_reply_head(alloc: Global, status: u16, fields: &Fields) -> Result<ReplyHead, HttpFault>
    ensures { Gives result (fault_or (reply_head_of status fields.now) (reply_head_fault fields.now)) }
{
    let length = reply_length(fields)?;
    Ok(ReplyHead {
        status,
        location: location(alloc, fields)?,
        length,
        chunked: is_chunked(fields),
        closes: fields.closes(),
        group_length: group_length(fields),
        mac: copy_some(alloc, fields.only("overcast-mac"))?,
    })
}

/// The length of the body in bytes, where it is given, or the first fault of the head.
fn reply_length(fields: &Fields) -> Result<Option<u64>, HttpFault>
    ensures { result ≡ fault_or (length_of (lengths fields.now)) (reply_head_fault fields.now) }
{
    if fields.are_too_many() {
        return Err(HttpFault::Fields);
    }
    if has_strange_coding(fields) {
        return Err(HttpFault::Coding {
            both: fields.is_present("content-length"),
        });
    }
    content_length(fields)
}

/// Whether there is a transfer coding other than `chunked` alone.
fn has_strange_coding(fields: &Fields) -> bool
    ensures { result ≡ (is_present (codings fields.now) && not (is_chunked fields.now)) }
{
    fields.is_present("transfer-encoding") && !is_chunked(fields)
}

/// Whether the body is sent in chunks, with no length beside.
fn is_chunked(fields: &Fields) -> bool
    ensures { result ≡ is_chunked fields.now }
{
    fields.has_only("transfer-encoding", "chunked") && !fields.is_present("content-length")
}

/// The number in the Overcast-Length field, where there is just one.
fn group_length(fields: &Fields) -> Option<u64>
    ensures { result ≡ number_of (group_lengths fields.now) }
{
    match fields.find("overcast-length") {
        FieldMatch::One(value) => length_of(value),
        FieldMatch::Absent | FieldMatch::Several(_) => None,
    }
}

/// The value of the first Location field.
fn location(alloc: Global, fields: &Fields) -> Result<Option<Text>, Memory>
    ensures { IfOk result (λ location. location ≡ first_of (locations fields.now)) }
{
    match fields.find("location") {
        FieldMatch::Absent => Ok(None),
        FieldMatch::One(first) | FieldMatch::Several(first) => Ok(Some(copy(alloc, first)?)),
    }
}

//! The end of a message, as far as its head tells. The sockets know no more of HTTP; the rest of a
//! head is for other readers.

ghost use Rattle.std.specs.Prelude.{◌≡◌, false, length, unwrap_or};
ghost use Rattle.oc_http.specs.Fields.{is_unusable, length_of, lengths};
ghost use Rattle.oc_system.specs.Extent.{AreWholeLines, IsLinesExtent, IsReplyExtent, IsRequestExtent, body_end, body_length};

use httparse::spans::{HeaderSpan, parse_request, parse_response};
use httparse::{Error, Status};
use oc_http::{FieldMatch, Fields, length_of};

/// The parts of a request's head that tell its extent.
#[derive(Clone, Copy)]
pub(crate) struct Outline {
    /// The length of the head, in bytes.
    pub(crate) head: usize,
    /// The Content-Length; 0 where it is no number, and none where there is no such field.
    pub(crate) body: Option<u64>,
    /// Whether the body is sent only after `100 Continue`.
    pub(crate) expects: bool,
    /// Whether a field other than the Content-Length determines the end of the body.
    pub(crate) coded: bool,
}

/// The end of the body of a reply.
#[derive(Clone, Copy)]
pub(crate) enum BodyEnd {
    /// After this number of bytes.
    Length(u64),
    /// At the end of its transfer coding.
    Coding,
    /// At the end of the connection.
    Connection,
}

/// The parts of a reply's head that tell its extent.
#[derive(Clone, Copy)]
pub(crate) struct ReplyOutline {
    /// The length of the head, in bytes.
    pub(crate) head: usize,
    pub(crate) body: BodyEnd,
    /// Whether the peer waits for another request after the reply: it is of version 1.1, and no
    /// Connection field lists `close` (RFC 9112, section 9.3).
    pub(crate) keeps: bool,
}

/// The progress of a request.
#[derive(Clone, Copy)]
pub(crate) enum HeadProgress {
    /// The head is not complete.
    Open,
    /// No head can begin with these bytes.
    Never,
    /// The head is complete.
    Begun(Outline),
}

/// The progress of a request (RFC 9112, sections 2 to 6), for a reader who looks at the head at the
/// end of each line: an unfinished line tells nothing. The spans are room for the fields; a head
/// with more fields is refused.
pub(crate) fn request_extent(bytes: &[u8], spans: &mut [HeaderSpan]) -> HeadProgress
    ensures { IsRequestExtent (length spans.old) bytes.now result }
{
    let lines = whole_lines(bytes);
    if lines.is_empty() {
        return HeadProgress::Open;
    }
    lines_extent(lines, spans)
}

/// The progress of a request, given its finished lines.
fn lines_extent(lines: &[u8], spans: &mut [HeaderSpan]) -> HeadProgress
    ensures { IsLinesExtent (length spans.old) lines.now result }
{
    match parse_request(lines, spans) {
        Ok(Status::Complete(parts)) => {
            let fields = Fields::of(lines, &spans[..parts.headers]);
            let expects = parts.version == 1 && fields.has_only("expect", "100-continue");
            HeadProgress::Begun(Outline {
                head: parts.len,
                body: told_length(&fields),
                expects,
                coded: fields.is_present("transfer-encoding"),
            })
        }
        Ok(Status::Partial) => HeadProgress::Open,
        Err(Error::TooManyHeaders) => HeadProgress::Never,
        Err(_) => HeadProgress::Never,
    }
}

/// The finished lines of these bytes.
fn whole_lines(bytes: &[u8]) -> &[u8]
    ensures { AreWholeLines bytes.now result.now }
{
    let mut lines = bytes;
    'lines: while let [front @ .., last] = lines
        && *last != b'\n'
    {
        lines = front;
    }
    lines
}

/// The outline of a response (RFC 9112, sections 2 to 6), once its head is complete. The spans are
/// room for the fields; a head with more fields has no outline.
pub(crate) fn reply_extent(bytes: &[u8], spans: &mut [HeaderSpan]) -> Option<ReplyOutline>
    ensures { IsReplyExtent (length spans.old) bytes.now result }
{
    match parse_response(bytes, spans) {
        Ok(Status::Complete(parts)) => {
            let fields = Fields::of(bytes, &spans[..parts.headers]);
            Some(ReplyOutline {
                head: parts.len,
                body: body_end(parts.code, &fields),
                keeps: parts.version == 1 && !fields.closes(),
            })
        }
        Ok(Status::Partial) => None,
        Err(Error::TooManyHeaders) => None,
        Err(_) => None,
    }
}

/// The end of the body of a response with this status. A 204 and a 304 have none, and a transfer
/// coding decides before a Content-Length (RFC 9112, section 6.3).
fn body_end(status: u16, fields: &Fields) -> BodyEnd
    ensures { result ≡ body_end status fields.now }
{
    if status == 204 || status == 304 {
        return BodyEnd::Length(0);
    }
    if fields.is_present("transfer-encoding") {
        return BodyEnd::Coding;
    }
    match told_length(fields) {
        Some(length) => BodyEnd::Length(length),
        None => BodyEnd::Connection,
    }
}

/// The number in the first Content-Length: the length of the body, if a reader of heads finds no
/// fault in it.
fn told_length(fields: &Fields) -> Option<u64>
    ensures number { result ≡ body_length (lengths fields.now) }
    ensures read { is_unusable (lengths fields.now) ≡ false → unwrap_or result 0 ≡ unwrap_or (length_of (lengths fields.now)) 0 }
{
    match fields.find("content-length") {
        FieldMatch::Absent => None,
        FieldMatch::One(first) | FieldMatch::Several(first) => Some(length_of(first).unwrap_or(0)),
    }
}

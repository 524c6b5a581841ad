//! Heads of HTTP messages, and what is read from them, however their bytes come.

use crate::wire::pieces::Pieces;
use crate::wire::words::{put, put_value};
use oc_base::Text;
use oc_http::{
    Head, HttpFault, Method, Reply, ReplyHead, begins_with_head, read_body, read_head,
    read_response, read_response_head,
};
use oc_io::{MemSource, Source, read_all};
use std::alloc::Global;
use test_tools::{Fault, RowFields, put_spelled, spelled_in};

/// A longer source is cut at its first and its last places alone.
const MOST_PLACES: usize = 1000;

/// How many of the first and of the last places these are.
const EDGE: usize = 4;

/// More bytes than a row has.
const MOST_BYTES: usize = 2_000_000;

/// What a source is read as.
#[derive(Clone, Copy)]
enum Form {
    Request,
    Message,
    Response,
    Reply,
    /// A reply of which it is not said how many bytes are left after it.
    Flood,
}

/// How a source is read, and the number of its call that fails, 0 where none does.
#[derive(Clone, Copy)]
struct Reader {
    form: Form,
    failing: u64,
}

/// Puts the words of a row: what is read, and what is read otherwise where the bytes come in other pieces.
pub fn put_words(alloc: Global, given: &str, said: &mut String) -> Result<(), Fault> {
    let (word, text) = given.split_once(' ').unwrap_or((given, ""));
    let bytes = spelled_in(alloc, text)?;
    if word == "first" {
        return put_value(said, "head=", begins_with_head(&bytes));
    }
    let reader = reader_of(word)?;
    put_source(alloc, said, reader, &bytes, MOST_BYTES, MOST_BYTES)?;
    put_alone(alloc, said, reader, &bytes)?;
    put_cuts(alloc, said, reader, &bytes)
}

/// Puts what is read from single bytes, where that is something other than the words so far.
fn put_alone(alloc: Global, said: &mut String, reader: Reader, bytes: &[u8]) -> Result<(), Fault> {
    let alone = words_of(alloc, reader, bytes, 1, 1)?;
    if alone.as_str() == said.as_str() {
        return Ok(());
    }
    put(said, ", and byte by byte ")?;
    put(said, alone.as_str())
}

/// The reader of a word such as `request`, or `request/7`, where call 7 fails.
fn reader_of(word: &str) -> Result<Reader, Fault> {
    let (form, failing) = word.split_once('/').unwrap_or((word, "0"));
    Ok(Reader {
        form: form_of(form)?,
        failing: RowFields::of(failing, ' ').number()?,
    })
}

fn form_of(word: &str) -> Result<Form, Fault> {
    match word {
        "request" => Ok(Form::Request),
        "message" => Ok(Form::Message),
        "response" => Ok(Form::Response),
        "reply" => Ok(Form::Reply),
        "flood" => Ok(Form::Flood),
        _ => Err(Fault::Field),
    }
}

/// Puts the first place at which a cut has something else read than the words so far.
fn put_cuts(alloc: Global, said: &mut String, reader: Reader, bytes: &[u8]) -> Result<(), Fault> {
    let length = bytes.len();
    for at in 1..length {
        if length > MOST_PLACES && EDGE <= at && at < length - EDGE {
            continue;
        }
        if put_cut(alloc, said, reader, bytes, at)? {
            break;
        }
    }
    Ok(())
}

/// Puts what is read with a cut at this place, where that is something other than the words so far. Says whether it is.
fn put_cut(
    alloc: Global,
    said: &mut String,
    reader: Reader,
    bytes: &[u8],
    at: usize,
) -> Result<bool, Fault> {
    let cut = words_of(alloc, reader, bytes, at, MOST_BYTES)?;
    if cut.as_str() == said.as_str() {
        return Ok(false);
    }
    write!(said, ", and cut at {at} ")?;
    put(said, cut.as_str())?;
    Ok(true)
}

/// The words of what is read, where the bytes come in a piece of this length and then in further ones of
/// `piece` bytes.
fn words_of(
    alloc: Global,
    reader: Reader,
    bytes: &[u8],
    first: usize,
    piece: usize,
) -> Result<String, Fault> {
    let mut said = String::new(alloc);
    put_source(alloc, &mut said, reader, bytes, first, piece)?;
    Ok(said)
}

/// Puts these words.
fn put_source(
    alloc: Global,
    said: &mut String,
    reader: Reader,
    bytes: &[u8],
    first: usize,
    piece: usize,
) -> Result<(), Fault> {
    let source = source_of(alloc, reader.failing, bytes)?;
    put_all(
        alloc,
        said,
        reader.form,
        &mut Pieces::new(source, first, piece.max(1)),
    )
}

/// A source of these bytes, of which this call fails.
fn source_of(alloc: Global, failing: u64, bytes: &[u8]) -> Result<MemSource, Fault> {
    let bytes = bytes.to_vec(alloc)?;
    Ok(MemSource::new(bytes, vec![in alloc; failing]?))
}

/// Puts what is read from a source, and how many bytes are left of it.
fn put_all<S: Source>(
    alloc: Global,
    said: &mut String,
    form: Form,
    source: &mut S,
) -> Result<(), Fault> {
    put_read(alloc, said, form, source)?;
    match form {
        Form::Flood => Ok(()),
        _ => put_rest(alloc, said, source),
    }
}

/// Puts how many bytes are left of a source.
fn put_rest<S: Source>(alloc: Global, said: &mut String, source: &mut S) -> Result<(), Fault> {
    match read_all(alloc, source, MOST_BYTES) {
        Ok(rest) => put_value(said, " rest=", rest.len()),
        Err(_) => Err(Fault::Unready),
    }
}

/// Puts what is read from a source.
fn put_read<S: Source>(
    alloc: Global,
    said: &mut String,
    form: Form,
    source: &mut S,
) -> Result<(), Fault> {
    match form {
        Form::Request => put_request(alloc, said, source),
        Form::Message => put_message(alloc, said, source),
        Form::Response => put_response(alloc, said, source),
        Form::Reply | Form::Flood => put_whole_response(alloc, said, source),
    }
}

/// Puts the head of a request.
fn put_request<S: Source>(alloc: Global, said: &mut String, source: &mut S) -> Result<(), Fault> {
    match read_head(alloc, source) {
        Ok(head) => put_head(said, &head),
        Err(fault) => put_fault(said, fault),
    }
}

/// Puts the head and the body of a request.
fn put_message<S: Source>(alloc: Global, said: &mut String, source: &mut S) -> Result<(), Fault> {
    match read_head(alloc, source) {
        Ok(head) => put_body(alloc, said, source, &head),
        Err(fault) => put_fault(said, fault),
    }
}

/// Puts the head of a request and the body after it.
fn put_body<S: Source>(
    alloc: Global,
    said: &mut String,
    source: &mut S,
    head: &Head,
) -> Result<(), Fault> {
    match read_body(alloc, source, head) {
        Ok(body) => {
            put_head(said, head)?;
            put(said, " body=")?;
            put_spelled(said, &body)
        }
        Err(fault) => put_fault(said, fault),
    }
}

/// Puts the head of a response.
fn put_response<S: Source>(alloc: Global, said: &mut String, source: &mut S) -> Result<(), Fault> {
    match read_response_head(alloc, source) {
        Ok(head) => put_reply_head(said, &head),
        Err(fault) => put_fault(said, fault),
    }
}

/// Puts a response with its body.
fn put_whole_response<S: Source>(
    alloc: Global,
    said: &mut String,
    source: &mut S,
) -> Result<(), Fault> {
    match read_response(alloc, source) {
        Ok(reply) => put_reply(said, &reply),
        Err(fault) => put_fault(said, fault),
    }
}

fn put_head(said: &mut String, head: &Head) -> Result<(), Fault> {
    put(
        said,
        match head.method {
            Method::Get => "method=GET path=",
            Method::Head => "method=HEAD path=",
            Method::Post => "method=POST path=",
            Method::Other => "method=OTHER path=",
        },
    )?;
    put_text_or_none(said, &head.path)?;
    put(said, " query=")?;
    put_spelled(said, head.query.items())?;
    put_value(said, " length=", head.length)?;
    put_value(said, " expects=", head.expects)?;
    put_value(said, " minor=", head.minor)?;
    put_value(said, " closes=", head.closes)?;
    put_authorization(said, head)?;
    put_some(said, " mac=", &head.mac)?;
    put_selectors(said, head)
}

/// Puts the values of the fields that select.
fn put_selectors(said: &mut String, head: &Head) -> Result<(), Fault> {
    let selectors = &head.selectors;
    put_values(said, " if_match=", selectors.if_match.items())?;
    put_values(said, " if_none_match=", selectors.if_none_match.items())?;
    put_values(
        said,
        " if_modified_since=",
        selectors.if_modified_since.items(),
    )?;
    put_values(
        said,
        " if_unmodified_since=",
        selectors.if_unmodified_since.items(),
    )?;
    put_values(said, " if_range=", selectors.if_range.items())?;
    put_values(said, " range=", selectors.range.items())
}

/// Puts each value of a name, with the name.
fn put_values(said: &mut String, name: &str, values: &[Text]) -> Result<(), Fault> {
    for value in values {
        put(said, name)?;
        put_spelled(said, value.items())?;
    }
    Ok(())
}

/// Puts the value of the one Authorization field, or that there are several.
fn put_authorization(said: &mut String, head: &Head) -> Result<(), Fault> {
    if head.has_authorization && head.authorization.is_none() {
        return put(said, " authorizations");
    }
    put_some(said, " authorization=", &head.authorization)
}

/// Puts a text with its name, where there is one.
fn put_some(said: &mut String, name: &str, text: &Option<Text>) -> Result<(), Fault> {
    match text {
        Some(text) => {
            put(said, name)?;
            put_spelled(said, text.items())
        }
        None => Ok(()),
    }
}

/// Puts how many bytes a group has, where that is told.
fn put_group_length(said: &mut String, length: Option<u64>) -> Result<(), Fault> {
    match length {
        Some(length) => put_value(said, " group=", length),
        None => Ok(()),
    }
}

fn put_reply_head(said: &mut String, head: &ReplyHead) -> Result<(), Fault> {
    put_status(said, head.status, &head.location)?;
    match head.length {
        Some(length) => put_value(said, " length=", length)?,
        None => put(said, " length=none")?,
    }
    put_value(said, " chunked=", head.chunked)?;
    put_value(said, " closes=", head.closes)?;
    put_group_length(said, head.group_length)?;
    put_some(said, " mac=", &head.mac)
}

/// Puts a reply that was read; reading gives neither a content type nor a rule, nor a range or a tag of the content.
fn put_reply(said: &mut String, reply: &Reply) -> Result<(), Fault> {
    put_status(said, reply.status, &reply.location)?;
    put(said, " body=")?;
    put_spelled(said, reply.body.items())?;
    if has_more(reply) {
        put(said, " and more")?;
    }
    put_group_length(said, reply.group_length)?;
    put_some(said, " mac=", &reply.mac)
}

/// Whether a reply has what reading does not give.
fn has_more(reply: &Reply) -> bool {
    reply.content_type.is_some()
        || reply.rule.is_some()
        || reply.content_range.is_some()
        || reply.etag.is_some()
        || reply.accepts_ranges
}

fn put_status(said: &mut String, status: u16, location: &Option<Text>) -> Result<(), Fault> {
    put_value(said, "status=", status)?;
    put(said, " location=")?;
    put_text_or_none(said, location)
}

fn put_text_or_none(said: &mut String, text: &Option<Text>) -> Result<(), Fault> {
    match text {
        Some(text) => put_spelled(said, text.items()),
        None => put(said, "none"),
    }
}

fn put_fault(said: &mut String, fault: HttpFault) -> Result<(), Fault> {
    match fault {
        HttpFault::Coding { both } => put_value(said, "fault=coding both=", both),
        HttpFault::Length { missing } => put_value(said, "fault=length missing=", missing),
        HttpFault::Memory => Err(Fault::Memory),
        _ => put(said, plain_fault(fault)),
    }
}

/// The words of a fault without its fields.
fn plain_fault(fault: HttpFault) -> &'static str {
    match fault {
        HttpFault::Source => "fault=source",
        HttpFault::Ended => "fault=ended",
        HttpFault::Head => "fault=head",
        HttpFault::HeadLong => "fault=headlong",
        HttpFault::Fields => "fault=fields",
        HttpFault::Host => "fault=host",
        HttpFault::Coding { .. } => "fault=coding",
        HttpFault::Length { .. } => "fault=length",
        HttpFault::BodyLong => "fault=bodylong",
        HttpFault::Memory => "fault=memory",
    }
}

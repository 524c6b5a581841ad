//! The texts of requests and replies.

ghost use Rattle.std.specs.Prelude.{IfOk, IsTrue};
ghost use Rattle.oc_http.specs.Writing.{HasPhrase};

use crate::wire::words::put_text;
use oc_base::{Bytes, Text};
use oc_http::{
    ContentType, Framing, MediaType, Persistence, Reply, put_path, write_follow, write_get,
    write_probe, write_reply_head, write_request, write_response, write_response_to_head,
};
use std::alloc::Global;
use test_tools::{Fault, RowFields, spelled_in};

/// Puts the words of a row: the text that is written.
pub fn put_words(alloc: Global, given: &str, said: &mut String) -> Result<(), Fault> {
    let mut fields = RowFields::of(given, ' ');
    match fields.text() {
        "request" => put_request(alloc, fields, said),
        "get" => put_get(alloc, fields, said),
        "probe" => put_text(said, write_probe(alloc, fields.text())),
        "follow" => put_follow(alloc, fields, said),
        "reply" => put_reply(alloc, fields, Persistence::Close, said),
        "kept" => put_reply(alloc, fields, Persistence::Keep, said),
        "told" => put_told(alloc, fields, said),
        "about" => put_about(alloc, fields, said),
        "to_head" => put_to_head(alloc, fields, said),
        "path" => put_path_text(alloc, fields, said),
        "stream" => put_stream(alloc, fields, said),
        _ => Err(Fault::Field),
    }
}

fn put_request(alloc: Global, mut fields: RowFields<'_>, said: &mut String) -> Result<(), Fault> {
    if fields.text() != "node2" {
        return Err(Fault::Field);
    }
    let body = spelled_in(alloc, fields.text())?;
    put_text(said, write_request(alloc, "node2", &body, None))
}

fn put_get(alloc: Global, mut fields: RowFields<'_>, said: &mut String) -> Result<(), Fault> {
    let path = fields.text();
    let query = some_text(fields.text());
    put_text(said, write_get(alloc, path, query, fields.text()))
}

fn put_follow(alloc: Global, mut fields: RowFields<'_>, said: &mut String) -> Result<(), Fault> {
    let path = fields.text();
    let start = fields.number()?;
    let area = some_text(fields.text());
    put_text(said, write_follow(alloc, path, start, area, fields.text()))
}

fn put_reply(
    alloc: Global,
    fields: RowFields<'_>,
    connection: Persistence,
    said: &mut String,
) -> Result<(), Fault> {
    let reply = reply_in(alloc, fields)?;
    put_text(said, write_response(alloc, &reply, connection))
}

fn put_told(alloc: Global, mut fields: RowFields<'_>, said: &mut String) -> Result<(), Fault> {
    let group_length = group_length_in(fields.text())?;
    let mac = fields.text();
    let mac = some_text_in(alloc, mac)?;
    let mut reply = reply_in(alloc, fields)?;
    reply.group_length = group_length;
    reply.mac = mac;
    put_text(said, write_response(alloc, &reply, Persistence::Close))
}

fn put_about(alloc: Global, mut fields: RowFields<'_>, said: &mut String) -> Result<(), Fault> {
    let content_range = some_text_in(alloc, fields.text())?;
    let etag = some_text_in(alloc, fields.text())?;
    let accepts_ranges = fields.text() == "yes";
    let mut reply = reply_in(alloc, fields)?;
    reply.content_range = content_range;
    reply.etag = etag;
    reply.accepts_ranges = accepts_ranges;
    put_text(said, write_response(alloc, &reply, Persistence::Close))
}

fn put_to_head(alloc: Global, fields: RowFields<'_>, said: &mut String) -> Result<(), Fault> {
    let reply = reply_in(alloc, fields)?;
    put_text(
        said,
        write_response_to_head(alloc, &reply, Persistence::Close),
    )
}

fn put_path_text(alloc: Global, mut fields: RowFields<'_>, said: &mut String) -> Result<(), Fault> {
    let path = spelled_in(alloc, fields.text())?;
    Ok(put_path(said, &path)?)
}

fn put_stream(alloc: Global, mut fields: RowFields<'_>, said: &mut String) -> Result<(), Fault> {
    let framing = framing_in(fields.text())?;
    let connection = connection_in(fields.text())?;
    let reply = reply_in(alloc, fields)?;
    put_text(said, write_reply_head(alloc, &reply, framing, connection))
}

fn framing_in(text: &str) -> Result<Framing, Fault> {
    match text {
        "chunked" => Ok(Framing::Chunked),
        length => Ok(Framing::Length(RowFields::of(length, ' ').number()?)),
    }
}

fn connection_in(text: &str) -> Result<Persistence, Fault> {
    match text {
        "close" => Ok(Persistence::Close),
        "keep" => Ok(Persistence::Keep),
        _ => Err(Fault::Field),
    }
}

/// The reply of the next fields: its status, its location, the type of its content, the rule, and the body.
fn reply_in(alloc: Global, mut fields: RowFields<'_>) -> Result<Reply, Fault>
    ensures { IfOk result (λ reply. HasPhrase reply.status) }
{
    let status = status_in(fields.small()?)?;
    let location = fields.text();
    let content_type = content_type_in(fields.text())?;
    let rule = rule_in(fields.text())?;
    let location = some_text_in(alloc, location)?;
    Ok(Reply {
        status,
        location,
        content_type,
        body: Bytes::of(spelled_in(alloc, fields.text())?),
        rule,
        content_range: None,
        etag: None,
        accepts_ranges: false,
        group_length: None,
        mac: None,
    })
}

fn content_type_in(text: &str) -> Result<Option<ContentType>, Fault> {
    match text {
        "-" => Ok(None),
        "octets" => Ok(Some(ContentType::Octets)),
        "json" => Ok(Some(ContentType::Json)),
        "metrics" => Ok(Some(ContentType::Metrics)),
        "html" => Ok(Some(ContentType::Html)),
        "text" => Ok(Some(ContentType::Text)),
        "png" => Ok(Some(ContentType::Media(MediaType::of("image/png")))),
        _ => Err(Fault::Field),
    }
}

fn group_length_in(text: &str) -> Result<Option<u64>, Fault> {
    match some_text(text) {
        Some(text) => Ok(Some(RowFields::of(text, ' ').number()?)),
        None => Ok(None),
    }
}

/// A status that has a phrase.
fn status_in(number: u32) -> Result<u16, Fault>
    ensures { IfOk result (λ status. HasPhrase status) }
{
    match u16::try_from(number) {
        Ok(status) if has_phrase(status) => Ok(status),
        _ => Err(Fault::Field),
    }
}

/// The text of a field; none for `-`.
fn some_text_in(alloc: Global, text: &str) -> Result<Option<Text>, Fault> {
    match some_text(text) {
        Some(text) => Ok(Some(Text::of(spelled_in(alloc, text)?))),
        None => Ok(None),
    }
}

fn rule_in(text: &str) -> Result<Option<u32>, Fault> {
    match some_text(text) {
        Some(text) => Ok(Some(RowFields::of(text, ' ').small()?)),
        None => Ok(None),
    }
}

/// The text, or none for `-`.
fn some_text(text: &str) -> Option<&str> {
    if text == "-" { None } else { Some(text) }
}

/// Whether a status has a phrase.
fn has_phrase(status: u16) -> bool
    ensures { IsTrue result → HasPhrase status }
{
    matches!(
        status,
        200 | 204
            | 206
            | 302
            | 304
            | 400
            | 401
            | 403
            | 404
            | 405
            | 409
            | 411
            | 412
            | 413
            | 416
            | 431
            | 501
            | 503
    )
}

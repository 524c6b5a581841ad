//! Requests, and what they select.

ghost use Rattle.std.specs.Prelude.{◌<◌, ◌+◌, ◌^◌};

use crate::contents::content_in;
use oc_base::Text;
use oc_select::{
    Content, RequestLine, Selection, Selectors, Values, put_no_range, put_part, select,
};
use std::alloc::Global;
use test_tools::{Fault, RowFields, put_spelled, spelled_in};

/// More fields than a row has.
const MOST_FIELDS: usize = 1_000;

/// The fields of a row, by their names.
#[derive(Drop)]
struct RowSelectors {
    if_match: Vec<Text>,
    if_none_match: Vec<Text>,
    if_modified_since: Vec<Text>,
    if_unmodified_since: Vec<Text>,
    if_range: Vec<Text>,
    range: Vec<Text>,
}

/// Appends the words of a row: what its request selects.
pub fn put_words(alloc: Global, given: &str, said: &mut String) -> Result<(), Fault> {
    let mut fields = RowFields::of(given, ';');
    let line = line_in(fields.text())?;
    let content = content_in(fields.text())?;
    let selectors = selectors_in(alloc, fields)?;
    let selection = select(alloc, &content, line, &selectors)?;
    put_selection(alloc, said, &content, selection)
}

/// `get` or `head`, and `start` after it where the query has a start.
fn line_in(text: &str) -> Result<RequestLine, Fault> {
    let (method, query) = text.split_once(' ').unwrap_or((text, ""));
    let is_get = match method {
        "get" => true,
        "head" => false,
        _ => return Err(Fault::Field),
    };
    Ok(RequestLine {
        is_get,
        has_start: query == "start",
    })
}

/// The fields of a request, each a name, a colon and a value.
fn selectors_in(alloc: Global, fields: RowFields<'_>) -> Result<Selectors, Fault> {
    let mut all = RowSelectors {
        if_match: Vec::new(alloc),
        if_none_match: Vec::new(alloc),
        if_modified_since: Vec::new(alloc),
        if_unmodified_since: Vec::new(alloc),
        if_range: Vec::new(alloc),
        range: Vec::new(alloc),
    };
    let mut fields = fields;
    for _ in 0..MOST_FIELDS {
        if fields.is_empty() {
            break;
        }
        add_field(alloc, &mut all, fields.text())?;
    }
    Ok(Selectors {
        if_match: Values::of(all.if_match),
        if_none_match: Values::of(all.if_none_match),
        if_modified_since: Values::of(all.if_modified_since),
        if_unmodified_since: Values::of(all.if_unmodified_since),
        if_range: Values::of(all.if_range),
        range: Values::of(all.range),
    })
}

fn add_field(alloc: Global, all: &mut RowSelectors, field: &str) -> Result<(), Fault> {
    let (name, value) = field.split_once(':').unwrap_or((field, ""));
    let value = Text::of(spelled_in(alloc, value.trim())?);
    match name {
        "if-match" => Ok(all.if_match.push(value)?),
        "if-none-match" => Ok(all.if_none_match.push(value)?),
        "if-modified-since" => Ok(all.if_modified_since.push(value)?),
        "if-unmodified-since" => Ok(all.if_unmodified_since.push(value)?),
        "if-range" => Ok(all.if_range.push(value)?),
        "range" => Ok(all.range.push(value)?),
        _ => Err(Fault::Field),
    }
}

/// Appends the status of the reply, and for a part its place and its length, and the value of Content-Range.
fn put_selection(
    alloc: Global,
    said: &mut String,
    content: &Content,
    selection: Selection,
) -> Result<(), Fault> {
    match selection {
        Selection::Whole => Ok(said.push_str("200")?),
        Selection::NotModified => Ok(said.push_str("304")?),
        Selection::PreconditionFailed => Ok(said.push_str("412")?),
        Selection::Part { start, count } => put_range(alloc, said, content, start, count),
        Selection::Unsatisfiable => {
            let mut text = Vec::new(alloc);
            put_no_range(&mut text, content.length)?;
            said.push_str("416 ")?;
            put_spelled(said, &text)
        }
    }
}

/// Appends the words of a part.
fn put_range(
    alloc: Global,
    said: &mut String,
    content: &Content,
    start: u64,
    count: u64,
) -> Result<(), Fault> {
    if count == 0 || start > content.length || count > content.length - start {
        return Err(Fault::Unready);
    }
    let mut text = Vec::new(alloc);
    put_part(&mut text, content, start, count)?;
    write!(said, "206 {start} {count} ")?;
    put_spelled(said, &text)
}

//! The values of the fields of replies.

use crate::contents::content_in;
use oc_select::{Source, media_type, put_change, put_tag};
use std::alloc::Global;
use test_tools::{Fault, put_spelled, spelled_in};

/// Appends the values of ETag, and of Last-Modified where there is one, of a content.
pub fn put_values(alloc: Global, given: &str, said: &mut String) -> Result<(), Fault> {
    let content = content_in(given)?;
    let mut text = Vec::new(alloc);
    put_tag(&mut text, &content)?;
    if let Source::File {
        changed: Some(change),
        ..
    } = content.source
    {
        text.extend_from_slice(b", ")?;
        put_change(&mut text, change)?;
    }
    put_spelled(said, &text)
}

/// Appends the media type of the content of a path.
pub fn put_type(alloc: Global, given: &str, said: &mut String) -> Result<(), Fault> {
    let path = spelled_in(alloc, given)?;
    Ok(said.push_str(media_type(&path))?)
}

//! The values of the fields of a reply.

ghost use Rattle.std.specs.Prelude.{◌≡◌, ◌++◌, ◌+◌, ◌^◌, ◌<◌, OnOk};
ghost use Rattle.httpdate.specs.Date.{date_text};
ghost use Rattle.oc_select.specs.Tags.{hexadecimal, tag_name, tag_of};
ghost use Rattle.oc_select.specs.Texts.{length_told, no_range, part_range};

use crate::content::{Content, Source};
use httpdate::HttpDate;
use oc_base::{Memory, put, put_number};
use std::io::Write;

/// Puts the value of ETag of a content.
pub fn put_tag(out: &mut Vec<u8>, content: &Content) -> Result<(), Memory>
    ensures { OnOk result (out.new.items ≡ out.old.items ++ tag_of content.now) }
{
    put(out, b"\"")?;
    put_tag_name(out, content.length, content.source)?;
    put(out, b"\"")
}

/// Puts what the tag of a content of this length has between its quotes.
fn put_tag_name(out: &mut Vec<u8>, length: u64, source: Source) -> Result<(), Memory>
    ensures { OnOk result (out.new.items ≡ out.old.items ++ tag_name length source) }
{
    match source {
        Source::Group { .. } => put_number(out, length),
        Source::File { at, name_len, .. } => {
            put_hexadecimal(out, at)?;
            put(out, b"-")?;
            put_hexadecimal(out, length)?;
            put(out, b"-")?;
            put_hexadecimal(out, name_len)
        }
    }
}

/// Puts a number in hexadecimal, in lower case.
fn put_hexadecimal(out: &mut Vec<u8>, number: u64) -> Result<(), Memory>
    ensures { OnOk result (out.new.items ≡ out.old.items ++ hexadecimal number) }
{
    write!(out, "{number:x}").map_err(|_| Memory)
}

/// Puts the value of Last-Modified of a file that changed at this time.
pub fn put_change(out: &mut Vec<u8>, change: HttpDate) -> Result<(), Memory>
    ensures { OnOk result (out.new.items ≡ out.old.items ++ date_text change) }
{
    put(out, change.to_bytes().as_slice())
}

/// Puts the value of Content-Range with a part of a content, which has at least one byte.
pub fn put_part(out: &mut Vec<u8>, content: &Content, start: u64, count: u64) -> Result<(), Memory>
    requires some { 0 < count }
    requires fits { start + count < 2 ^ 64 }
    ensures { OnOk result (out.new.items ≡ out.old.items ++ part_range content.now start count) }
{
    put(out, b"bytes ")?;
    put_number(out, start)?;
    put(out, b"-")?;
    put_number(out, start + count - 1)?;
    put(out, b"/")?;
    put_length(out, content.length, content.source)
}

/// Puts the length of a content, and `*` where it is open.
fn put_length(out: &mut Vec<u8>, length: u64, source: Source) -> Result<(), Memory>
    ensures { OnOk result (out.new.items ≡ out.old.items ++ length_told length source) }
{
    match source {
        Source::Group { is_open: true } => put(out, b"*"),
        _ => put_number(out, length),
    }
}

/// Puts the value of Content-Range of a content of this length that has no byte of a range.
pub fn put_no_range(out: &mut Vec<u8>, length: u64) -> Result<(), Memory>
    ensures { OnOk result (out.new.items ≡ out.old.items ++ no_range length) }
{
    put(out, b"bytes */")?;
    put_number(out, length)
}

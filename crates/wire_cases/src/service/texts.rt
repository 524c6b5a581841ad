//! Texts as they are written in a row.

use std::alloc::Global;
use test_tools::{Fault, RowFields};

/// The bytes of a text, in which `~` is written for `=`, `;` for the end of a line, `^` for a carriage
/// return and `%` for a byte that UTF-8 never has; `-` alone is no text.
pub(crate) fn text_in(alloc: Global, written: &str) -> Result<Vec<u8>, Fault> {
    let mut text = Vec::new(alloc);
    if written == "-" {
        return Ok(text);
    }
    for byte in written.bytes() {
        text.push(match byte {
            b'~' => b'=',
            b';' => b'\n',
            b'^' => b'\r',
            b'%' => 0xff,
            _ => byte,
        })?;
    }
    Ok(text)
}

/// The bytes of the fields, each in hexadecimal, with `N*` before it if it occurs N times.
pub(crate) fn bytes_in(alloc: Global, mut fields: RowFields<'_>) -> Result<Vec<u8>, Fault> {
    let mut bytes = Vec::new(alloc);
    for _ in 0..100u8 {
        if fields.is_empty() {
            break;
        }
        let field = fields.text();
        let (times, part) = field.split_once('*').unwrap_or(("1", field));
        let times = RowFields::of(times, ' ').small()?;
        let part = RowFields::of(part, ' ').bytes(alloc)?;
        for _ in 0..times {
            bytes.extend_from_slice(&part)?;
        }
    }
    Ok(bytes)
}

//! Texts of heads and bodies in the fields of a row. `~` means a space, `|` CR LF, `!` a `=`, `^`
//! the byte 255, and `*` 70,000 bytes `x`; `_` is the empty text.

use std::alloc::Global;
use test_tools::{Fault, RowFields};

/// The most items of a list.
const MOST: u32 = 100;

/// The number of bytes that `*` means.
const MANY: usize = 70_000;

/// The most bytes of a text that is printed.
const MOST_PRINTED: usize = 500;

/// A text.
pub fn text_in(alloc: Global, field: &str) -> Result<Vec<u8>, Fault> {
    let mut text = Vec::new(alloc);
    for byte in field.bytes() {
        match byte {
            b'~' => text.push(b' ')?,
            b'|' => text.extend_from_slice(b"\r\n")?,
            b'!' => text.push(b'=')?,
            b'^' => text.push(255)?,
            b'*' => text.extend_from_slice(&vec![in alloc; b'x'; MANY]?)?,
            b'_' => {}
            _ => text.push(byte)?,
        }
    }
    Ok(text)
}

/// The texts of a list.
pub fn texts_in(alloc: Global, mut list: RowFields<'_>) -> Result<Vec<Vec<u8>>, Fault> {
    let mut texts = Vec::new(alloc);
    for _ in 0..MOST {
        if list.is_empty() {
            break;
        }
        texts.push(text_in(alloc, list.text())?)?;
    }
    Ok(texts)
}

/// Appends a text as rows write it, except that `=` is itself, and for a long text its length.
pub fn put_text(out: &mut String, text: &[u8]) -> Result<(), Fault> {
    let length = text.len();
    if length == 0 {
        out.push_str("_")?;
    }
    if length > MOST_PRINTED {
        write!(out, "{length}")?;
        return Ok(());
    }
    for byte in text {
        match byte {
            b'\r' => {}
            b'\n' => out.push('|')?,
            b' ' => out.push('~')?,
            b'!'..=b'~' => out.push(char::from(*byte))?,
            _ => out.push('?')?,
        }
    }
    Ok(())
}

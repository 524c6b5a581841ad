//! Comparison of texts with the expected ones.

use std::alloc::Global;
use std::io;

/// The number, from 1 on, and the text of the first line that is not as expected.
pub fn first_difference<'a>(seen: &'a [u8], wanted: &[u8]) -> Option<(usize, &'a [u8])> {
    if seen == wanted {
        return None;
    }
    let mut number: usize = 1;
    let mut rest = wanted;
    for line in seen.split(is_end) {
        let (other, behind) = cut_line(rest);
        if line != other {
            return Some((number, line));
        }
        rest = behind;
        number = number.saturating_add(1);
    }
    Some((number, b""))
}

/// The first line of a text, without its line end, and the text after it.
pub fn cut_line(text: &[u8]) -> (&[u8], &[u8]) {
    cut(text, b'\n')
}

/// The bytes before the first byte `end`, and the bytes after it.
fn cut(text: &[u8], end: u8) -> (&[u8], &[u8]) {
    for at in 0..text.len() {
        if let Some((front, [byte, behind @ ..])) = text.split_at_checked(at) {
            if *byte == end {
                return (front, behind);
            }
        }
    }
    (text, b"")
}

/// The end of a report, beginning with the first event of the expected end, or nothing.
pub fn from_event<'a>(report: &'a [u8], wanted: &[u8]) -> &'a [u8] {
    let event = first_word(wanted);
    let mut rest = report;
    for _ in 0..report.len() {
        if first_word(rest) == event {
            return rest;
        }
        rest = cut_line(rest).1;
    }
    b""
}

/// The bytes before the first space.
fn first_word(text: &[u8]) -> &[u8] {
    cut(text, b' ').0
}

/// The excerpt of a text that has the lines of another excerpt: a line `bytes` with the text's length, and then
/// lines of it, each after its number.
pub fn excerpt(alloc: Global, text: &[u8], like: &[u8]) -> io::Result<Vec<u8>> {
    let mut out = Vec::new(alloc);
    let length = format!(in alloc; "bytes {}\n", text.len())?;
    out.extend_from_slice(length.as_bytes())?;
    for line in like.split(is_end) {
        if let Some(number) = number_of(line) {
            put_line(alloc, &mut out, text, number)?;
        }
    }
    Ok(out)
}

/// The first of the expected lines that a text does not have, after the ones before it.
pub fn first_missing<'w>(text: &[u8], wanted: &'w [u8]) -> Option<&'w [u8]> {
    let mut rest = text;
    for line in wanted.split(is_end) {
        match behind_line(rest, line) {
            Some(behind) => rest = behind,
            None => return Some(line),
        }
    }
    None
}

/// The text after the first line equal to this one.
fn behind_line<'a>(text: &'a [u8], wanted: &[u8]) -> Option<&'a [u8]> {
    let mut rest = text;
    for _ in 0..text.len().saturating_add(1) {
        let (line, behind) = cut_line(rest);
        if line == wanted {
            return Some(behind);
        }
        rest = behind;
    }
    None
}

/// The number with which a line begins.
fn number_of(line: &[u8]) -> Option<usize> {
    std::str::from_utf8(first_word(line))
        .ok()?
        .parse::<usize>()
        .ok()
}

/// Appends a line of a text after its number.
fn put_line(alloc: Global, out: &mut Vec<u8>, text: &[u8], number: usize) -> io::Result<()> {
    if let Some(line) = line_of(text, number) {
        let front = format!(in alloc; "{number} ")?;
        out.extend_from_slice(front.as_bytes())?;
        out.extend_from_slice(line)?;
        out.push(b'\n')?;
    }
    Ok(())
}

/// The line of this number. Lines are counted from 1.
fn line_of(text: &[u8], number: usize) -> Option<&[u8]> {
    text.split(is_end).nth(number.checked_sub(1)?)
}

/// Whether a byte ends a line.
fn is_end(byte: &u8) -> bool {
    *byte == b'\n'
}

//! Chunked texts, written, and read however they are cut.

use crate::service::texts::bytes_in;
use oc_chunked::{ChunkFault, Unchunker, chunk_text};
use std::alloc::Global;
use test_tools::{Fault, RowFields, put_hex};

/// Appends the words of a row: the text that was written, or the result of reading the text.
pub fn put_words(alloc: Global, given: &str, said: &mut String) -> Result<(), Fault> {
    let mut fields = RowFields::of(given, ' ');
    let kind = fields.text();
    let text = bytes_in(alloc, fields.list())?;
    put_result(alloc, said, kind, &text)
}

fn put_result(alloc: Global, said: &mut String, kind: &str, text: &[u8]) -> Result<(), Fault> {
    match kind {
        "write" => put_hex(said, &chunk_text(alloc, text)?),
        "size" => put_size(said, &chunk_text(alloc, text)?),
        "whole" => put_fed(said, &result_of(alloc, text, text.len(), 1)?),
        "bytes" => put_fed(said, &result_of(alloc, text, 1, 1)?),
        "every" => put_every(said, alloc, text),
        "back" => put_back(said, alloc, text),
        "again" => put_again(said, alloc, text),
        _ => Err(Fault::Field),
    }
}

/// Appends the result of a text that is written, and fed in pieces of seven bytes.
fn put_back(said: &mut String, alloc: Global, text: &[u8]) -> Result<(), Fault> {
    let written = chunk_text(alloc, text)?;
    put_fed(said, &result_of(alloc, &written, 7, 7)?)
}

/// The result of a text: the number of bytes taken, their content, and whether the text ended, or
/// the fault.
#[derive(Drop)]
struct Fed {
    taken: usize,
    content: Vec<u8>,
    end: TextEnd,
}

#[derive(Clone, Copy, PartialEq)]
enum TextEnd {
    Open,
    Ended,
    Bad,
    Long,
}

/// Feeds a text in a piece of `first` bytes and then in pieces of `size` bytes, up to its end or its fault.
fn result_of(alloc: Global, text: &[u8], first: usize, size: usize) -> Result<Fed, Fault> {
    let mut reader = Unchunker::new(alloc)?;
    let mut content = Vec::new(alloc);
    let (taken, end) = feed_all(&mut reader, text, first, size, &mut content)?;
    Ok(Fed {
        taken,
        content,
        end,
    })
}

/// Feeds the text; gives the number of bytes taken, and whether the text ended, or the fault.
fn feed_all(
    reader: &mut Unchunker,
    text: &[u8],
    first: usize,
    size: usize,
    content: &mut Vec<u8>,
) -> Result<(usize, TextEnd), Fault> {
    let mut taken: usize = 0;
    let mut rest = text;
    let mut next = first;
    for _ in 0..text.len().saturating_add(1) {
        if rest.is_empty() {
            break;
        }
        let (piece, behind) = rest.split_at(next.min(rest.len()));
        match feed(reader, piece, content)? {
            Ok(count) => taken = taken.saturating_add(count),
            Err(fault) => return Ok((taken, fault)),
        }
        rest = behind;
        next = size.max(1);
    }
    let end = if reader.ended() {
        TextEnd::Ended
    } else {
        TextEnd::Open
    };
    Ok((taken, end))
}

/// Feeds a piece; gives the number of bytes taken, or the fault of the text.
fn feed(
    reader: &mut Unchunker,
    piece: &[u8],
    content: &mut Vec<u8>,
) -> Result<Result<usize, TextEnd>, Fault> {
    match reader.feed(piece, content) {
        Ok(count) => Ok(Ok(count)),
        Err(ChunkFault::Bad) => Ok(Err(TextEnd::Bad)),
        Err(ChunkFault::Long) => Ok(Err(TextEnd::Long)),
        Err(ChunkFault::Memory) => Err(Fault::Memory),
    }
}

/// Puts the result of a text.
fn put_fed(said: &mut String, fed: &Fed) -> Result<(), Fault> {
    match fed.end {
        TextEnd::Open => put_taken(said, fed),
        TextEnd::Ended => {
            put_taken(said, fed)?;
            Ok(said.push_str(" ended")?)
        }
        TextEnd::Bad => Ok(said.push_str("bad")?),
        TextEnd::Long => Ok(said.push_str("long")?),
    }
}

/// Appends the number of bytes taken, and their content, or its length.
fn put_taken(said: &mut String, fed: &Fed) -> Result<(), Fault> {
    let taken = fed.taken;
    write!(said, "{taken} ")?;
    if fed.content.len() <= 32 {
        return put_hex(said, &fed.content);
    }
    let count = fed.content.len();
    Ok(write!(said, "{count} bytes")?)
}

/// Appends the length of a text, and its first and last bytes.
fn put_size(said: &mut String, text: &[u8]) -> Result<(), Fault> {
    let count = text.len();
    write!(said, "{count} ")?;
    put_hex(said, &text[..count.min(8)])?;
    said.push_str(" ")?;
    put_hex(said, &text[count.saturating_sub(8)..])
}

/// Appends the result of a text that is fed in two pieces, cut at each offset, if it is always the
/// same as when the text is fed whole.
fn put_every(said: &mut String, alloc: Global, text: &[u8]) -> Result<(), Fault> {
    let length = text.len();
    let whole = result_of(alloc, text, length, length)?;
    for at in 0..length {
        if !are_alike(&result_of(alloc, text, at, length)?, &whole) {
            return Ok(write!(said, "another when it is cut at {at}")?);
        }
    }
    put_fed(said, &whole)
}

/// Whether two results of a text are equal. If the text is refused, the content is left out, since
/// the pieces before the refused one have given theirs.
fn are_alike(one: &Fed, other: &Fed) -> bool {
    one.end == other.end
        && (matches!(one.end, TextEnd::Bad | TextEnd::Long)
            || one.taken == other.taken && one.content == other.content)
}

/// Puts the result of a text that is refused, and of the end of a good one after it.
fn put_again(said: &mut String, alloc: Global, text: &[u8]) -> Result<(), Fault> {
    let mut reader = Unchunker::new(alloc)?;
    let mut content = Vec::new(alloc);
    for piece in [text, b"0\r\n\r\n".as_slice(), b"".as_slice()] {
        let end = match feed(&mut reader, piece, &mut content)? {
            Ok(_) => "taken ",
            Err(TextEnd::Bad) => "bad ",
            Err(TextEnd::Long) => "long ",
            Err(_) => "refused ",
        };
        said.push_str(end)?;
    }
    Ok(())
}

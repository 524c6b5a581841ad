ghost use Rattle.std.specs.Prelude.{◌≡◌, ◌++◌, ◌<◌, ◌≤◌, false, IfOk, OnOk, length};
ghost use Rattle.std.specs.Fmt.{digits};
ghost use Rattle.httparse.specs.Ascii.{crlf_bytes};
ghost use Rattle.oc_chunked.specs.Chunked.{IsChunked};
ghost use Rattle.oc_chunked.specs.Texts.{chunk_written, chunked_text};

use crate::limits::WRITTEN_BYTES;
use oc_base::{Memory, put};
use std::alloc::Global;
use std::io::Write;

/// The chunked text of a content (RFC 9112, section 7.1): chunks of 4,096 bytes and one of the rest,
/// without extensions or trailer fields.
pub fn chunk_text(alloc: Global, bytes: &[u8]) -> Result<Vec<u8>, Memory>
    ensures text { IfOk result (λ text. text.items ≡ chunked_text bytes.now) }
    ensures chunked { IfOk result (λ text. IsChunked text.items bytes.now) }
{
    let mut text = Vec::new(alloc);
    let mut rest = bytes;
    'chunks: while !rest.is_empty() {
        let (chunk, behind) = rest.split_at(rest.len().min(WRITTEN_BYTES));
        put_chunk(&mut text, chunk)?;
        rest = behind;
    }
    put(&mut text, b"0\r\n\r\n")?;
    Ok(text)
}

/// Appends a chunk.
fn put_chunk(text: &mut Vec<u8>, bytes: &[u8]) -> Result<(), Memory>
    ensures { OnOk result (text.new.items ≡ text.old.items ++ chunk_written bytes.now) }
{
    put_size(text, bytes.len() as u64)?;
    put(text, bytes)?;
    put(text, b"\r\n")
}

/// Appends a size line.
fn put_size(text: &mut Vec<u8>, size: u64) -> Result<(), Memory>
    ensures { OnOk result (text.new.items ≡ text.old.items ++ (digits 16 false size ++ crlf_bytes)) }
{
    write!(text, "{size:x}\r\n").map_err(|_| Memory)
}

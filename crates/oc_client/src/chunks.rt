//! A chunked content, passed on as it comes.

ghost use Rattle.std.specs.Prelude.{◌≡◌, ◌⊎◌, ◌++◌, ◌<◌, ◌≤◌, ℕ, List, [], length, take, IfOk, IfErr, OnOk, OnErr, IsErrOf};
ghost use Rattle.oc_client.specs.Chunks.{EndsWritten, IsPut, StopsPiece, TakesPiece};
ghost use Rattle.oc_client.specs.Passing.{IsPassed, StopsPassing};
ghost use Rattle.oc_client.specs.declared.reply_framing.ReplyFraming.TheVariants.{Chunked as ChunkedFraming};
ghost use Rattle.oc_io.specs.Faults.{NoFall, Rose};
ghost use Rattle.oc_chunked.specs.Stages.{wanted_at};

use crate::end::GetEnd;
use crate::reply_framing::MAX_OPEN_BYTES;
use crate::room::PIECE_BYTES;
use oc_chunked::{ChunkFault, Unchunker};
use oc_io::{Sink, Source, write_all};
use std::alloc::Global;

/// Passes a chunked content on from a source to a sink, at most `MAX_OPEN_BYTES`. Bytes after the
/// content belong to the next reply, so no read asks for more than the content must still have. The
/// content is gathered and written in pieces of `PIECE_BYTES`. Gives its length in bytes.
pub(crate) fn pass_chunked<S: Source, K: Sink>(
    alloc: Global,
    source: &mut S,
    sink: &mut K,
    buffer: &mut [u8],
    content: &mut Vec<u8>,
) -> Result<u64, GetEnd>
    requires { length buffer.old ≡ PIECE_BYTES }
    ensures passed { IfOk result (λ count. IsPassed S.gives S.ended K.takes ChunkedFraming source.old source.new sink.old sink.new count) }
    ensures stopped { IfErr result (λ end. StopsPassing S.gives S.fails S.ended K.takes K.fails ChunkedFraming source.old source.new sink.old sink.new end) }
    ensures source_count { NoFall (S.faults source.old) (S.faults source.new) }
    ensures sink_count { NoFall (K.faults sink.old) (K.faults sink.new) }
    ensures source_cause { IsErrOf result GetEnd.Link → Rose (S.faults source.old) (S.faults source.new) }
    ensures sink_cause { IsErrOf result GetEnd.Sink → Rose (K.faults sink.old) (K.faults sink.new) }
{
    let mut unchunker = Unchunker::new(alloc)?;
    let mut passed = 0;
    content.clear();
    'pieces: for _ in 0..u64::MAX {
        let wanted = unchunker.wanted();
        if wanted == 0 {
            let last = put(sink, content)?;
            return Ok(passed + last);
        }
        let most = wanted.min(PIECE_BYTES - content.len());
        if let Err(end) = take_piece(&mut unchunker, source, &mut buffer[..most], content) {
            return Err(put_before(end, sink, content));
        }
        if content.len() as u64 > MAX_OPEN_BYTES - passed {
            return Err(GetEnd::Reply);
        }
        passed += put_piece(sink, content)?;
    }
    Err(GetEnd::Memory)
}

/// Writes the gathered bytes once they fill a piece. Gives the number of bytes written, and leaves
/// the rest, which is less than a piece.
fn put_piece<K: Sink>(sink: &mut K, content: &mut Vec<u8>) -> Result<u64, GetEnd>
    ensures put { IfOk result (λ count. IsPut K.takes sink.old sink.new content.old.items content.new.items count) }
    ensures short { OnOk result (length content.new.items < PIECE_BYTES) }
    ensures unsent { OnErr result ((n : ℕ) × K.fails sink.old (take n content.old.items) sink.new) }
    ensures end { IfErr result (λ end. end ≡ GetEnd.Sink) }
    ensures count { NoFall (K.faults sink.old) (K.faults sink.new) }
    ensures cause { OnErr result (Rose (K.faults sink.old) (K.faults sink.new)) }
{
    if content.len() < PIECE_BYTES {
        return Ok(0);
    }
    let written = put(sink, content)?;
    content.clear();
    Ok(written)
}

/// Writes the gathered bytes. Gives their number.
fn put<K: Sink>(sink: &mut K, content: &[u8]) -> Result<u64, GetEnd>
    ensures put { IfOk result (λ count. IsPut K.takes sink.old sink.new content.now [] count) }
    ensures unsent { OnErr result ((n : ℕ) × K.fails sink.old (take n content.now) sink.new) }
    ensures end { IfErr result (λ end. end ≡ GetEnd.Sink) }
    ensures count { NoFall (K.faults sink.old) (K.faults sink.new) }
    ensures cause { OnErr result (Rose (K.faults sink.old) (K.faults sink.new)) }
{
    match write_all(sink, content) {
        Ok(()) => Ok(content.len() as u64),
        Err(_) => Err(GetEnd::Sink),
    }
}

/// Writes the bytes gathered before the content broke off, unless the link failed. Gives the end of
/// the download: `Sink` if the write fails too.
fn put_before<K: Sink>(end: GetEnd, sink: &mut K, content: &[u8]) -> GetEnd
    ensures written { EndsWritten K.takes K.fails sink.old sink.new content.now end result }
    ensures count { NoFall (K.faults sink.old) (K.faults sink.new) }
    ensures cause { result ≡ GetEnd.Sink → (end ≡ GetEnd.Sink) ⊎ Rose (K.faults sink.old) (K.faults sink.new) }
{
    match end {
        GetEnd::Link => end,
        _ => match put(sink, content) {
            Ok(_) => end,
            Err(failed) => failed,
        },
    }
}

/// Reads the next bytes of a chunked text, at most as many as fit the buffer, and gathers their
/// content.
fn take_piece<S: Source>(
    unchunker: &mut Unchunker,
    source: &mut S,
    buffer: &mut [u8],
    content: &mut Vec<u8>,
) -> Result<(), GetEnd>
    requires some { 0 < length buffer.old }
    requires wanted { length buffer.old ≤ wanted_at unchunker.old }
    ensures takes { OnOk result ((more : List ℕ) × (content.new.items ≡ content.old.items ++ more)
        × TakesPiece S.gives source.old source.new unchunker.old unchunker.new more) }
    ensures unused { OnErr result (content.new.items ≡ content.old.items) }
    ensures stops { IfErr result (λ end. StopsPiece S.gives S.fails S.ended source.old source.new unchunker.old end) }
    ensures count { NoFall (S.faults source.old) (S.faults source.new) }
    ensures cause { IsErrOf result GetEnd.Link → Rose (S.faults source.old) (S.faults source.new) }
{
    let Ok(count) = source.read(buffer) else {
        return Err(GetEnd::Link);
    };
    if count == 0 {
        return Err(GetEnd::Reply);
    }
    match unchunker.feed(&buffer[..count], content) {
        Ok(_) => Ok(()),
        Err(ChunkFault::Memory) => Err(GetEnd::Memory),
        Err(ChunkFault::Bad | ChunkFault::Long) => Err(GetEnd::Reply),
    }
}

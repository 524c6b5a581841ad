//! The content of a reply, passed on in pieces as it comes.

ghost use Rattle.std.specs.Prelude.{◌≡◌, ◌<◌, ◌≤◌, length, IfOk, IfErr, OnOk, IsErrOf};
ghost use Rattle.oc_client.specs.Passing.{IsMoved, IsHalted, IsPassed, StopsPassing};
ghost use Rattle.oc_client.specs.declared.reply_framing.ReplyFraming.TheVariants.{Counted as CountedFraming, ToTheEnd as OpenFraming};
ghost use Rattle.oc_io.specs.Faults.{NoFall, Rose};

use crate::chunks::pass_chunked;
use crate::end::GetEnd;
use crate::reply_framing::{MAX_OPEN_BYTES, ReplyFraming};
use crate::room::Room;
use oc_io::{Sink, Source, write_all};

/// Passes the content of a reply on from a source to a sink, through a buffer. Gives its length in
/// bytes.
pub(crate) fn pass_content<S: Source, K: Sink>(
    framing: ReplyFraming,
    source: &mut S,
    sink: &mut K,
    room: &mut Room,
) -> Result<u64, GetEnd>
    ensures passed { IfOk result (λ count. IsPassed S.gives S.ended K.takes framing source.old source.new sink.old sink.new count) }
    ensures stopped { IfErr result (λ end. StopsPassing S.gives S.fails S.ended K.takes K.fails framing source.old source.new sink.old sink.new end) }
    ensures source_count { NoFall (S.faults source.old) (S.faults source.new) }
    ensures sink_count { NoFall (K.faults sink.old) (K.faults sink.new) }
    ensures source_cause { IsErrOf result GetEnd.Link → Rose (S.faults source.old) (S.faults source.new) }
    ensures sink_cause { IsErrOf result GetEnd.Sink → Rose (K.faults sink.old) (K.faults sink.new) }
{
    match framing {
        ReplyFraming::Counted(count) => {
            pass_counted(count, source, sink, &mut room.buffer)?;
            Ok(count)
        }
        ReplyFraming::Chunked => pass_chunked(
            room.alloc,
            source,
            sink,
            &mut room.buffer,
            &mut room.content,
        ),
        ReplyFraming::ToTheEnd => pass_open(source, sink, &mut room.buffer),
    }
}

/// Passes `count` bytes on.
fn pass_counted<S: Source, K: Sink>(
    count: u64,
    source: &mut S,
    sink: &mut K,
    buffer: &mut [u8],
) -> Result<(), GetEnd>
    requires { 0 < length buffer.old }
    ensures passed { OnOk result (IsPassed S.gives S.ended K.takes (CountedFraming count) source.old source.new sink.old sink.new count) }
    ensures stopped { IfErr result (λ end. StopsPassing S.gives S.fails S.ended K.takes K.fails (CountedFraming count) source.old source.new sink.old sink.new end) }
    ensures source_count { NoFall (S.faults source.old) (S.faults source.new) }
    ensures sink_count { NoFall (K.faults sink.old) (K.faults sink.new) }
    ensures source_cause { IsErrOf result GetEnd.Link → Rose (S.faults source.old) (S.faults source.new) }
    ensures sink_cause { IsErrOf result GetEnd.Sink → Rose (K.faults sink.old) (K.faults sink.new) }
{
    let mut left = count;
    'pieces: while left > 0 {
        let most = left.min(buffer.len() as u64) as usize;
        let moved = move_piece(source, sink, &mut buffer[..most])?;
        if moved == 0 {
            return Err(GetEnd::Reply);
        }
        left -= moved as u64;
    }
    Ok(())
}

/// Passes on all bytes up to the end of the source, at most `MAX_OPEN_BYTES`.
fn pass_open<S: Source, K: Sink>(
    source: &mut S,
    sink: &mut K,
    buffer: &mut [u8],
) -> Result<u64, GetEnd>
    requires { 0 < length buffer.old }
    ensures passed { IfOk result (λ count. IsPassed S.gives S.ended K.takes OpenFraming source.old source.new sink.old sink.new count) }
    ensures stopped { IfErr result (λ end. StopsPassing S.gives S.fails S.ended K.takes K.fails OpenFraming source.old source.new sink.old sink.new end) }
    ensures source_count { NoFall (S.faults source.old) (S.faults source.new) }
    ensures sink_count { NoFall (K.faults sink.old) (K.faults sink.new) }
    ensures source_cause { IsErrOf result GetEnd.Link → Rose (S.faults source.old) (S.faults source.new) }
    ensures sink_cause { IsErrOf result GetEnd.Sink → Rose (K.faults sink.old) (K.faults sink.new) }
{
    let mut moved_bytes = 0;
    'pieces: loop {
        let moved = move_piece(source, sink, buffer)?;
        if moved == 0 {
            return Ok(moved_bytes);
        }
        if moved as u64 > MAX_OPEN_BYTES - moved_bytes {
            return Err(GetEnd::Reply);
        }
        moved_bytes += moved as u64;
    }
}

/// Moves the next piece from a source to a sink. Gives its length in bytes, at most that of the buffer,
/// and 0 at the end of the source.
fn move_piece<S: Source, K: Sink>(
    source: &mut S,
    sink: &mut K,
    buffer: &mut [u8],
) -> Result<usize, GetEnd>
    requires { 0 < length buffer.old }
    ensures within { IfOk result (λ count. count ≤ length buffer.old) }
    ensures moved { IfOk result (λ count. IsMoved S.gives K.takes source.old source.new sink.old sink.new count) }
    ensures end { IfOk result (λ count. count ≡ 0 → S.ended source.new) }
    ensures halted { IfErr result (λ end. IsHalted S.gives S.fails K.takes K.fails (length buffer.old) source.old source.new sink.old sink.new end) }
    ensures source_count { NoFall (S.faults source.old) (S.faults source.new) }
    ensures sink_count { NoFall (K.faults sink.old) (K.faults sink.new) }
    ensures source_cause { IsErrOf result GetEnd.Link → Rose (S.faults source.old) (S.faults source.new) }
    ensures sink_cause { IsErrOf result GetEnd.Sink → Rose (K.faults sink.old) (K.faults sink.new) }
{
    let Ok(count) = source.read(buffer) else {
        return Err(GetEnd::Link);
    };
    match write_all(sink, &buffer[..count]) {
        Ok(()) => Ok(count),
        Err(_) => Err(GetEnd::Sink),
    }
}

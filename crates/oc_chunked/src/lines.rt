//! The lines of a chunked text. `httparse` is asked at the end of each.

ghost use Rattle.std.specs.Prelude.{◌≡◌, ◌≤◌, ℕ, List, [], ◌∷◌, ◌++◌, length};
ghost use Rattle.oc_chunked.specs.declared.limits.TheConstants.{FIELD_ROOM};
ghost use Rattle.oc_chunked.specs.Stages.{in_size, in_chunk, in_trailer, stage_at};
ghost use Rattle.oc_chunked.specs.Taken.{Takes};
ghost use Rattle.oc_chunked.specs.Views.{GoesOn, behind_size_line, behind_fields, state_within};

use crate::limits::{MAX_CHUNK_SIZE, MAX_SIZE_LINE_BYTES, MAX_TRAILER_BYTES};
use crate::state::{BadText, State};
use httparse::spans::{HeaderSpan, parse_headers};
use httparse::{Status, parse_chunk_size};
use oc_base::MAX_FIELDS;

/// The state after the bytes of a size line so far, the last of which is `byte`; `None` within that
/// line.
pub(crate) fn behind_size(line: &[u8], byte: u8) -> Option<State>
    ensures { (before : List ℕ) → line.now ≡ before ++ byte ∷ [] → GoesOn in_size before byte result }
{
    if byte != b'\n' {
        return state_within(line, MAX_SIZE_LINE_BYTES);
    }
    match parse_chunk_size(line) {
        Ok(Status::Complete((_, size))) => Some(behind_size_line(size)),
        Ok(Status::Partial) => state_within(line, MAX_SIZE_LINE_BYTES),
        Err(_) => Some(State::Refused(BadText::Bad)),
    }
}

/// The state after a size line with this size.
fn behind_size_line(size: u64) -> State
    ensures { result ≡ behind_size_line size }
{
    if size == 0 {
        State::Trailer
    } else if size <= MAX_CHUNK_SIZE {
        State::Chunk {
            left: size as u32 + 2,
        }
    } else {
        State::Refused(BadText::Bad)
    }
}

/// The state after the bytes of the trailer fields so far, the last of which is `byte`; `None`
/// within these fields.
pub(crate) fn behind_trailer(line: &[u8], spans: &mut [HeaderSpan], byte: u8) -> Option<State>
    requires { FIELD_ROOM ≤ length spans.old }
    ensures { (before : List ℕ) → line.now ≡ before ++ byte ∷ [] → GoesOn in_trailer before byte result }
{
    if byte != b'\n' {
        return state_within(line, MAX_TRAILER_BYTES);
    }
    match parse_headers(line, spans) {
        Ok(Status::Complete((_, count))) => Some(behind_fields(count)),
        Ok(Status::Partial) => state_within(line, MAX_TRAILER_BYTES),
        Err(_) => Some(State::Refused(BadText::Bad)),
    }
}

/// The state after `count` trailer fields.
fn behind_fields(count: usize) -> State
    ensures { result ≡ behind_fields count }
{
    if count <= MAX_FIELDS {
        State::End
    } else {
        State::Refused(BadText::Bad)
    }
}

/// The state within lines that have no end so far, and must have fewer bytes than `most`: `None` if
/// they go on.
fn state_within(line: &[u8], most: usize) -> Option<State>
    ensures { result ≡ state_within (length line.now) most }
{
    if line.len() < most {
        None
    } else {
        Some(State::Refused(BadText::Long))
    }
}

/// The state after a byte of the CR LF that follows a chunk, of which `left` bytes were left.
pub(crate) fn behind_end(left: u32, byte: u8) -> State
    requires { left ≤ 2 }
    ensures { Takes (in_chunk left) (byte ∷ []) [] (stage_at result []) }
{
    match (left, byte) {
        (2, b'\r') => State::Chunk { left: 1 },
        (1, b'\n') => State::Size,
        _ => State::Refused(BadText::Bad),
    }
}

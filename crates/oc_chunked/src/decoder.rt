ghost use Rattle.std.specs.Prelude.{◌≡◌, ◌+◌, ◌<◌, ◌≤◌, [], ◌∷◌, ◌++◌, length, take, IfOk, true, false, not, vec_len, vec_capacity};
ghost use Rattle.oc_chunked.specs.declared.limits.TheConstants.{MAX_TRAILER_BYTES, FIELD_ROOM};

use crate::fault::ChunkFault;
use crate::limits::{FIELD_ROOM, MAX_TRAILER_BYTES};
use crate::lines::{behind_end, behind_size, behind_trailer};
use crate::reserved::put_reserved;
use crate::state::State;
use httparse::spans::{EMPTY_HEADER_SPAN, HeaderSpan};
use oc_base::{Memory, push_reserved};
use std::alloc::Global;

/// The progress of reading a chunked text.
#[derive(Drop)]
pub(crate) struct Decoder {
    state: State,
    /// The bytes so far of the size line or of the trailer fields.
    line: Vec<u8>,
    /// Room for the trailer fields.
    spans: Vec<HeaderSpan>,
    ghost line_fits: { vec_len line < MAX_TRAILER_BYTES },
    ghost room: { MAX_TRAILER_BYTES ≤ vec_capacity line },
    ghost spans_fit: { FIELD_ROOM ≤ vec_len spans },
}

impl Decoder {
    ghost use Rattle.oc_chunked.specs.Stages.{in_size, is_ended, is_final, fault_in, wanted_at, StillWants};
    ghost use Rattle.oc_chunked.specs.Taken.{Takes};
    ghost use Rattle.oc_chunked.specs.Views.{stage_of, Advances, IsLine};
    ghost use Rattle.oc_chunked.specs.declared.state.State.TheVariants.{Chunk};

    /// A decoder at the beginning of a text.
    pub(crate) fn new(alloc: Global) -> Result<Decoder, Memory>
        ensures { IfOk result (λ p. stage_of p ≡ in_size []) }
    {
        let mut line = Vec::new(alloc);
        line.reserve(MAX_TRAILER_BYTES)?;
        let spans = vec![in alloc; EMPTY_HEADER_SPAN; FIELD_ROOM]?;
        Ok(Decoder {
            state: State::Size,
            line,
            spans,
        })
    }

    /// The reason why the bytes so far are refused, if they are.
    pub(crate) fn fault(&self) -> Option<ChunkFault>
        ensures { result ≡ fault_in (stage_of self.now) }
    {
        match self.state {
            State::Refused(refusal) => Some(refusal.fault()),
            _ => None,
        }
    }

    /// Whether the bytes so far are a whole text.
    pub(crate) fn is_ended(&self) -> bool
        ensures { result ≡ is_ended (stage_of self.now) }
    {
        matches!(self.state, State::End)
    }

    /// The number of further bytes that must belong to the text; one if the text is refused.
    pub(crate) fn wanted(&self) -> usize
        ensures { result ≡ wanted_at (stage_of self.now) }
    {
        match self.state {
            State::Chunk { left } => (left as usize).saturating_sub(2).max(1),
            State::End => 0,
            _ => 1,
        }
    }

    /// Takes the bytes of a piece that belong to the text, up to the byte at which it is refused,
    /// and appends their content to `out`, which has room for it. Gives the number of bytes taken.
    pub(crate) fn take(&mut self, piece: &[u8], out: &mut Vec<u8>) -> usize
        requires { vec_len out.old + length piece.now ≤ vec_capacity out.old }
        ensures within { result ≤ length piece.now }
        ensures takes { Advances self.old self.new (take result piece.now) out.old.items out.new.items }
        ensures whole { result < length piece.now → is_final (stage_of self.new) ≡ true }
        ensures wants { StillWants (stage_of self.old) result (stage_of self.new) }
    {
        let mut taken = 0;
        'bytes: while taken < piece.len() && self.is_open() {
            taken += self.advance(&piece[taken..], out);
        }
        taken
    }

    /// Whether more bytes can be taken.
    fn is_open(&self) -> bool
        ensures { result ≡ not (is_final (stage_of self.now)) }
    {
        !matches!(self.state, State::End | State::Refused(_))
    }

    /// Takes some bytes, at least one, of the rest of a piece.
    fn advance(&mut self, rest: &[u8], out: &mut Vec<u8>) -> usize
        requires some { 0 < length rest.now }
        requires open { is_final (stage_of self.old) ≡ false }
        requires room { vec_len out.old + length rest.now ≤ vec_capacity out.old }
        ensures some { 0 < result }
        ensures within { result ≤ length rest.now }
        ensures takes { Advances self.old self.new (take result rest.now) out.old.items out.new.items }
        ensures room { vec_len out.new + length rest.now ≤ vec_capacity out.new + result }
        ensures wants { StillWants (stage_of self.old) result (stage_of self.new) }
    {
        match self.state {
            State::Chunk { left } if left > 2 => self.take_content(left, rest, out),
            State::Chunk { left } => {
                self.take_end(left, rest[0]);
                1
            }
            _ => {
                self.take_line_byte(rest[0]);
                1
            }
        }
    }

    /// Takes bytes of a chunk with `left` bytes left, its CR LF included.
    fn take_content(&mut self, left: u32, rest: &[u8], out: &mut Vec<u8>) -> usize
        requires state { self.old.state ≡ Chunk left }
        requires more { 2 < left }
        requires some { 0 < length rest.now }
        requires room { vec_len out.old + length rest.now ≤ vec_capacity out.old }
        ensures some { 0 < result }
        ensures within { result ≤ length rest.now }
        ensures given { out.new.items ≡ out.old.items ++ take result rest.now }
        ensures takes { Takes (stage_of self.old) (take result rest.now) (take result rest.now) (stage_of self.new) }
        ensures room { vec_len out.new + length rest.now ≤ vec_capacity out.new + result }
        ensures wants { wanted_at (stage_of self.old) ≤ result + wanted_at (stage_of self.new) }
    {
        let count = rest.len().min(left as usize - 2);
        put_reserved(out, &rest[..count]);
        self.state = State::Chunk {
            left: left - count as u32,
        };
        count
    }

    /// Takes a byte of the CR LF after a chunk.
    fn take_end(&mut self, left: u32, byte: u8)
        requires state { self.old.state ≡ Chunk left }
        requires few { left ≤ 2 }
        ensures { Takes (stage_of self.old) (byte ∷ []) [] (stage_of self.new) }
    {
        self.line.clear();
        self.state = behind_end(left, byte);
    }

    /// Takes a byte of a size line or of the trailer fields.
    fn take_line_byte(&mut self, byte: u8)
        requires { IsLine self.old.state }
        ensures { Takes (stage_of self.old) (byte ∷ []) [] (stage_of self.new) }
    {
        push_reserved(&mut self.line, byte);
        let next = match self.state {
            State::Size => behind_size(&self.line, byte),
            _ => behind_trailer(&self.line, &mut self.spans, byte),
        };
        if let Some(state) = next {
            self.line.clear();
            self.state = state;
        }
    }
}

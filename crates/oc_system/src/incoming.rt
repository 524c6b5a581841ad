ghost use Rattle.std.specs.Prelude.{◌≡◌, ◌≤◌, false, length, true};

use crate::extent::{HeadProgress, Outline, request_extent};
use crate::limits::{MOST_MESSAGE, MOST_READS};
use crate::socket::{Moved, read_some};
use crate::tools::Tools;
use mio::net::TcpStream;
use oc_base::{MAX_BODY_BYTES, MAX_HEAD_BYTES};
use std::alloc::Global;
use std::mem;

/// The result of reading the bytes that came.
#[derive(Clone, Copy)]
pub(crate) struct Intake {
    /// Whether anything came.
    pub(crate) has_come: bool,
    /// Whether all bytes that came were read.
    pub(crate) is_drained: bool,
}

/// The bytes that came on a connection and were not taken as a request, with the progress of the
/// request that they begin.
#[derive(Drop)]
pub(crate) struct Incoming {
    pub(crate) bytes: Vec<u8>,
    /// The outline of the head, once it is complete.
    pub(crate) outline: Option<Outline>,
    /// Whether no head can begin with these bytes, or the head is longer than a head may be.
    is_hopeless: bool,
    /// Whether the request was reported in its present state and left, so that more bytes are
    /// wanted.
    was_left: bool,
    /// Whether the system reported that the peer sends no more: then the end comes after the bytes.
    pub(crate) is_ending: bool,
    /// Whether the end was read, and whether a call failed.
    pub(crate) has_ended: bool,
    pub(crate) has_failed: bool,
}

impl Incoming {
    pub(crate) fn new(alloc: Global) -> Incoming {
        Incoming {
            bytes: Vec::new(alloc),
            outline: None,
            is_hopeless: false,
            was_left: false,
            is_ending: false,
            has_ended: false,
            has_failed: false,
        }
    }

    pub(crate) fn len(&self) -> usize {
        self.bytes.len()
    }

    /// Whether nothing more can come.
    pub(crate) fn is_over(&self) -> bool {
        self.has_ended || self.has_failed
    }

    /// Reads until there are `most` bytes or the request can be looked at.
    pub(crate) fn read(
        &mut self,
        stream: &mut TcpStream,
        tools: &mut Tools,
        most: usize,
        permitted: bool,
    ) -> Intake {
        let mut has_come = false;
        for _ in 0..MOST_READS {
            if self.is_over() || self.is_ripe(permitted) || self.bytes.len() >= most {
                break;
            }
            let room = self.room(tools, most);
            match self.read_piece(stream, tools, room) {
                // The system reports what comes after a read that got less than it might have.
                Moved::Bytes(count) if count < room && !self.is_ending => {
                    return Intake {
                        has_come: true,
                        is_drained: true,
                    };
                }
                Moved::Bytes(_) => has_come = true,
                Moved::Nothing => {
                    return Intake {
                        has_come,
                        is_drained: true,
                    };
                }
                Moved::End => self.has_ended = true,
                Moved::Failed => self.has_failed = true,
            }
        }
        Intake {
            has_come,
            is_drained: false,
        }
    }

    /// The length of the next piece to read, if there may be `most` bytes in all.
    fn room(&self, tools: &Tools, most: usize) -> usize
        ensures { result ≤ length tools.now.piece.items }
    {
        most.saturating_sub(self.bytes.len()).min(tools.piece.len())
    }

    /// Reads one piece, and looks at it. Lack of memory counts as a failure, as of a call.
    fn read_piece(&mut self, stream: &mut TcpStream, tools: &mut Tools, room: usize) -> Moved
        requires { room ≤ length tools.old.piece.items }
    {
        let moved = read_some(stream, &mut tools.piece[..room]);
        if let Moved::Bytes(count) = moved {
            let before = self.bytes.len();
            self.was_left = false;
            let piece = tools.piece.get(..count).unwrap_or(&[]);
            if self.bytes.extend_from_slice(piece).is_err() {
                return Moved::Failed;
            }
            self.look(tools, before);
        }
        moved
    }

    /// Looks at the head, if one of its lines ended after the first `before` bytes or the head has
    /// its greatest length. So the head is looked at once a line, however slowly its bytes come. An
    /// unfinished line tells nothing: a reader of heads waits for its end.
    pub(crate) fn look(&mut self, tools: &mut Tools, before: usize) {
        if self.outline.is_some() || self.is_hopeless {
            return;
        }
        let newly = self.bytes.get(before..).unwrap_or(&[]);
        if !newly.contains(&b'\n') && self.bytes.len() < MAX_HEAD_BYTES {
            return;
        }
        let end = self.bytes.len().min(MAX_HEAD_BYTES);
        let head = self.bytes.get(..end).unwrap_or(&[]);
        match request_extent(head, &mut tools.spans) {
            HeadProgress::Begun(outline) => self.outline = Some(outline),
            HeadProgress::Never => self.is_hopeless = true,
            HeadProgress::Open => self.is_hopeless = end >= MAX_HEAD_BYTES,
        }
    }

    /// Whether the request can be looked at: it is whole, or its head asks for the permission to
    /// send the body, or names a transfer coding, for which a reader refuses the request, or it is longer
    /// than a request may be, or no head can begin with its bytes. A request that was left can be
    /// looked at only after more bytes of it came.
    pub(crate) fn is_ripe(&self, permitted: bool) -> bool
        ensures left { self.now.was_left ≡ true → result ≡ false }
    {
        if self.was_left {
            return false;
        }
        match &self.outline {
            Some(outline) => {
                let body = outline.body.unwrap_or(0);
                outline.coded
                    || body > MAX_BODY_BYTES
                    || (outline.expects && body > 0 && !permitted)
                    || self.bytes.len() as u64 >= body.saturating_add(outline.head as u64)
            }
            None => self.is_hopeless || self.bytes.len() >= MOST_MESSAGE,
        }
    }

    /// Whether the request is whole, has `count` bytes, and is all that came, which is `bytes`.
    pub(crate) fn is_all(&self, bytes: &[u8], count: u64) -> bool {
        match &self.outline {
            Some(outline) => {
                let body = outline.body.unwrap_or(0);
                !outline.coded
                    && count == body.saturating_add(outline.head as u64)
                    && count == bytes.len() as u64
            }
            None => false,
        }
    }

    /// Lends the bytes that came, which are given back or taken.
    pub(crate) fn lend(&mut self, tools: &Tools) -> Vec<u8> {
        mem::replace(&mut self.bytes, Vec::new(tools.alloc))
    }

    /// Takes back lent bytes that were not taken. If the request was left, more bytes are wanted
    /// before it is reported again.
    pub(crate) fn take_back(&mut self, bytes: Vec<u8>, was_left: bool)
        ensures { self.new.was_left ≡ was_left }
    {
        self.bytes = bytes;
        self.was_left = was_left;
    }

    /// Takes the first `count` of these bytes, which are all that came, as a request, and looks at
    /// the rest. False if there is no memory.
    pub(crate) fn take(&mut self, tools: &mut Tools, bytes: &[u8], count: usize) -> bool {
        self.bytes = Vec::new(tools.alloc);
        self.outline = None;
        self.is_hopeless = false;
        self.was_left = false;
        let rest = bytes.get(count..).unwrap_or(&[]);
        let is_kept = self.bytes.extend_from_slice(rest).is_ok();
        self.look(tools, 0);
        is_kept
    }
}

use crate::extent::{BodyEnd, ReplyOutline, reply_extent};
use crate::limits::MOST_MESSAGE;
use crate::reply_body::ReplyBody;
use crate::socket::{Moved, read_some};
use crate::tools::Tools;
use mio::net::TcpStream;
use oc_base::{MAX_BODY_BYTES, MAX_HEAD_BYTES};
use std::alloc::{AllocError, Global};
use std::mem;

/// The reply to a dial, as far as it came.
#[derive(Drop)]
pub(crate) struct Reply {
    /// The bytes that came. Once the head gives the length, there is room for the rest after them,
    /// so that the rest is read into its final place.
    bytes: Vec<u8>,
    count: usize,
    /// The outline and the body, once the head is complete.
    outline: Option<ReplyOutline>,
    body: Option<ReplyBody>,
}

impl Reply {
    pub(crate) fn new(alloc: Global) -> Reply {
        Reply {
            bytes: Vec::new(alloc),
            count: 0,
            outline: None,
            body: None,
        }
    }

    /// Whether no byte has come.
    pub(crate) fn is_empty(&self) -> bool {
        self.count == 0
    }

    /// Reads some of the bytes that came, and gives the result of the call: `Failed` also if there
    /// is no memory for them.
    pub(crate) fn read(&mut self, stream: &mut TcpStream, tools: &mut Tools) -> Moved {
        if self.count < self.bytes.len() {
            let moved = read_some(stream, &mut self.bytes[self.count..]);
            if let Moved::Bytes(count) = moved {
                let before = self.count;
                self.count = self.count.saturating_add(count);
                self.pass(before);
            }
            return moved;
        }
        let moved = read_some(stream, &mut tools.piece);
        match moved {
            Moved::Bytes(count) if !self.keep(tools, count) => Moved::Failed,
            _ => moved,
        }
    }

    /// Keeps the first `count` bytes of the piece, and looks for the head; false if there is no
    /// memory for them.
    fn keep(&mut self, tools: &mut Tools, count: usize) -> bool {
        let piece = tools.piece.get(..count).unwrap_or(&[]);
        let before = self.count;
        if self.bytes.extend_from_slice(piece).is_err() {
            return false;
        }
        self.count = self.bytes.len();
        if self.outline.is_some() {
            self.pass(before);
            return true;
        }
        let end = self.count.min(MAX_HEAD_BYTES);
        let head = self.bytes.get(..end).unwrap_or(&[]);
        match reply_extent(head, &mut tools.spans) {
            Some(outline) => self.begin(tools, outline),
            None => true,
        }
    }

    /// Begins the body after a complete head; false if there is no memory.
    fn begin(&mut self, tools: &Tools, outline: ReplyOutline) -> bool {
        let Ok(body) = ReplyBody::new(tools.alloc, outline.body) else {
            return false;
        };
        self.outline = Some(outline);
        self.body = Some(body);
        self.pass(outline.head);
        self.make_room(tools, outline)
    }

    /// Notes the bytes of the body from this index on.
    fn pass(&mut self, from: usize) {
        let newly = self.bytes.get(from..self.count).unwrap_or(&[]);
        if let Some(body) = &mut self.body {
            body.pass(newly);
        }
    }

    /// Makes room for the rest of the reply; false if there is no memory.
    fn make_room(&mut self, tools: &Tools, outline: ReplyOutline) -> bool {
        let body = told_length(&outline).min(MAX_BODY_BYTES) as usize;
        let whole = body.saturating_add(outline.head);
        if whole <= self.count {
            return true;
        }
        // Pushing the bytes one by one would take ten times as long.
        let made: Result<Vec<u8>, AllocError> = Vec::from_elem(tools.alloc, 0u8, whole);
        let Ok(mut bytes) = made else {
            return false;
        };
        let count = self.bytes.len().min(whole);
        bytes[..count].copy_from_slice(&self.bytes[..count]);
        self.bytes = bytes;
        true
    }

    /// Whether the whole reply has come, as its head tells the end: by its length, or by its chunks.
    pub(crate) fn is_whole(&self) -> bool {
        match &self.body {
            Some(body) => body.is_whole(),
            None => false,
        }
    }

    /// Whether the connection of the whole reply can be used for another request: nothing came
    /// after the reply, and the peer keeps the connection.
    pub(crate) fn may_keep(&self) -> bool {
        match (&self.outline, &self.body) {
            (Some(outline), Some(body)) => outline.keeps && body.is_exact(),
            _ => false,
        }
    }

    /// Whether the reply is, or will be, longer than a reply may be.
    pub(crate) fn is_too_long(&self) -> bool {
        match &self.outline {
            Some(outline) => told_length(outline) > MAX_BODY_BYTES || self.count > MOST_MESSAGE,
            None => self.count >= MAX_HEAD_BYTES,
        }
    }

    /// The bytes that came.
    pub(crate) fn take(&mut self, tools: &Tools) -> Vec<u8> {
        let mut bytes = mem::replace(&mut self.bytes, Vec::new(tools.alloc));
        bytes.truncate(self.count);
        self.count = 0;
        bytes
    }
}

/// The length of the body, if the head gives it.
fn told_length(outline: &ReplyOutline) -> u64 {
    match outline.body {
        BodyEnd::Length(length) => length,
        BodyEnd::Coding | BodyEnd::Connection => 0,
    }
}

use crate::extent::{BodyEnd, reply_extent};
use crate::limits::FIELD_ROOM;
use crate::reply_body::ReplyBody;
use httparse::spans::{EMPTY_HEADER_SPAN, HeaderSpan};
use oc_base::{MAX_HEAD_BYTES, Memory};
use std::alloc::Global;

/// A reply that passes in pieces to a reader who does not tell where it ends.
#[derive(Drop)]
pub(crate) struct PassingReply {
    alloc: Global,
    /// Whether the request was for a head alone, whose reply has no body.
    is_head_alone: bool,
    /// The bytes so far, up to the end of the head.
    head: Vec<u8>,
    spans: Vec<HeaderSpan>,
    /// The body, once the head is complete, and whether the peer keeps the connection after it.
    body: Option<ReplyBody>,
    keeps: bool,
}

impl PassingReply {
    /// The reply to no request.
    pub(crate) fn none(alloc: Global) -> PassingReply {
        PassingReply {
            alloc,
            is_head_alone: false,
            head: Vec::new(alloc),
            spans: Vec::new(alloc),
            body: None,
            keeps: false,
        }
    }

    /// Begins the reply to this request.
    pub(crate) fn begin(&mut self, request: &[u8]) {
        self.is_head_alone = request.starts_with(b"HEAD ");
        self.head.clear();
        self.body = None;
        self.keeps = false;
    }

    /// Notes a piece that came. Without memory the reply goes up to the end of the connection.
    pub(crate) fn pass(&mut self, piece: &[u8]) {
        match &mut self.body {
            Some(body) => body.pass(piece),
            None => {
                if self.pass_head(piece).is_err() {
                    self.keeps = false;
                }
            }
        }
    }

    /// Notes a piece before the head is complete.
    fn pass_head(&mut self, piece: &[u8]) -> Result<(), Memory> {
        if self.head.len() >= MAX_HEAD_BYTES {
            return Ok(());
        }
        self.head.extend_from_slice(piece)?;
        if self.spans.is_empty() {
            self.spans = Vec::from_elem(self.alloc, EMPTY_HEADER_SPAN, FIELD_ROOM)?;
        }
        let end = self.head.len().min(MAX_HEAD_BYTES);
        let lines = self.head.get(..end).unwrap_or(&[]);
        let Some(outline) = reply_extent(lines, &mut self.spans) else {
            return Ok(());
        };
        let body_end = if self.is_head_alone {
            BodyEnd::Length(0)
        } else {
            outline.body
        };
        let mut body = ReplyBody::new(self.alloc, body_end)?;
        body.pass(self.head.get(outline.head..).unwrap_or(&[]));
        self.body = Some(body);
        self.keeps = outline.keeps;
        Ok(())
    }

    /// Whether the whole reply has come, as its head tells the end.
    pub(crate) fn is_whole(&self) -> bool {
        match &self.body {
            Some(body) => body.is_whole(),
            None => false,
        }
    }

    /// Whether the whole reply has come, nothing after it, and the peer keeps the connection.
    pub(crate) fn may_keep(&self) -> bool {
        match &self.body {
            Some(body) => self.keeps && body.is_exact(),
            None => false,
        }
    }
}

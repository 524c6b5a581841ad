use crate::socket::{Moved, write_some};
use crate::tools::Tools;
use mio::net::TcpStream;
use std::alloc::Global;

/// The bytes that a connection was given and its socket has not taken.
///
/// The buffer is given back whenever it is empty, so only connections that wait for their peer hold
/// memory.
#[derive(Drop)]
pub(crate) struct Unsent {
    bytes: Vec<u8>,
    sent: usize,
}

impl Unsent {
    pub(crate) fn new(alloc: Global) -> Unsent {
        Unsent {
            bytes: Vec::new(alloc),
            sent: 0,
        }
    }

    /// The number of bytes.
    pub(crate) fn len(&self) -> usize {
        self.bytes.len().saturating_sub(self.sent)
    }

    pub(crate) fn is_empty(&self) -> bool {
        self.len() == 0
    }

    /// Appends bytes to send; false if there is no memory for them. Sent bytes are dropped first,
    /// so that the buffer is not longer than the bytes to send.
    pub(crate) fn put(&mut self, tools: &Tools, bytes: &[u8]) -> bool {
        if self.sent == 0 {
            return self.bytes.extend_from_slice(bytes).is_ok();
        }
        let mut rest = Vec::new(tools.alloc);
        let left = self.bytes.get(self.sent..).unwrap_or(&[]);
        if rest.extend_from_slice(left).is_err() || rest.extend_from_slice(bytes).is_err() {
            return false;
        }
        self.bytes = rest;
        self.sent = 0;
        true
    }

    /// Sends the bytes that the socket takes now, and gives the result of the last call: `Bytes` if
    /// all went out.
    pub(crate) fn send(&mut self, stream: &mut TcpStream, tools: &Tools) -> Moved {
        let mut moved = Moved::Nothing;
        for _ in 0..self.bytes.len() {
            if self.is_empty() {
                break;
            }
            let rest = self.bytes.get(self.sent..).unwrap_or(&[]);
            moved = write_some(stream, rest);
            let Moved::Bytes(count) = moved else {
                return moved;
            };
            self.sent = self.sent.saturating_add(count);
        }
        self.clear(tools);
        moved
    }

    /// Drops all bytes.
    pub(crate) fn clear(&mut self, tools: &Tools) {
        self.bytes = Vec::new(tools.alloc);
        self.sent = 0;
    }
}

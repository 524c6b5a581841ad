//! Single calls on a socket that does not block.

ghost use Rattle.std.specs.Prelude.{◌≤◌, length};
ghost use Rattle.oc_system.specs.Moved.{MovesAtMost};

use crate::limits::MOST_TRIES;
use mio::net::TcpStream;
use std::io::{ErrorKind, Read, Write};

/// The result of a call on a socket.
#[derive(Clone, Copy)]
pub(crate) enum Moved {
    /// The number of bytes moved, at least one.
    Bytes(usize),
    /// The call would have blocked.
    Nothing,
    /// The peer sends no more.
    End,
    /// The call failed, for example by a reset.
    Failed,
}

/// Reads the bytes that came into the front of the buffer. An interrupted call is repeated: no bytes
/// are lost.
pub(crate) fn read_some(stream: &mut TcpStream, buf: &mut [u8]) -> Moved
    ensures within { MovesAtMost (length buf.old) result }
    ensures length { length buf.new ≤ length buf.old }
{
    for _ in 0..MOST_TRIES {
        match stream.read(buf) {
            Ok(0) => return Moved::End,
            Ok(count) => return Moved::Bytes(count),
            Err(error) => match error.kind() {
                ErrorKind::Interrupted => {}
                ErrorKind::WouldBlock => return Moved::Nothing,
                _ => return Moved::Failed,
            },
        }
    }
    Moved::Failed
}

/// Writes as many of the bytes as the socket takes. A write that takes none of some bytes counts as
/// a failure, so that nobody waits for it.
pub(crate) fn write_some(stream: &mut TcpStream, bytes: &[u8]) -> Moved
    ensures within { MovesAtMost (length bytes.now) result }
{
    for _ in 0..MOST_TRIES {
        match stream.write(bytes) {
            Ok(0) => return Moved::Failed,
            Ok(count) => return Moved::Bytes(count),
            Err(error) => match error.kind() {
                ErrorKind::Interrupted => {}
                ErrorKind::WouldBlock => return Moved::Nothing,
                _ => return Moved::Failed,
            },
        }
    }
    Moved::Failed
}

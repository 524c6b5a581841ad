ghost use Rattle.std.specs.Prelude.{◌≡◌, ◌≤◌, length, IfOk};

use crate::limits::{ADDRESS_MILLIS, CALL_MILLIS, MOST_TRIES, PIECE};
use crate::times::Watch;
use std::alloc::Global;
use std::io::{self, ErrorKind, Read, Write};
use std::net::{Net, TcpStream, ToSocketAddrs};
use std::rt::Clock;
use std::time::Duration;

/// An outgoing connection whose calls have time limits. Reads come in large pieces, however small
/// the pieces asked for are.
#[derive(Drop)]
pub(crate) struct TimedStream {
    stream: TcpStream,
    piece: Vec<u8>,
    /// The range of bytes that came and were not given yet: from `given` to `came`.
    given: usize,
    came: usize,
}

impl TimedStream {
    /// Connects to the address, a host or an IP address with a port. Each of its addresses is tried
    /// in turn.
    pub(crate) fn reach<R: Net<Stream = TcpStream> + Clock>(
        rt: &R,
        alloc: Global,
        address: &str,
    ) -> io::Result<TimedStream> {
        let stream = connected(rt, address)?;
        stream.set_nodelay(true)?;
        Ok(TimedStream {
            stream,
            piece: Vec::from_elem(alloc, 0u8, PIECE)?,
            given: 0,
            came: 0,
        })
    }

    /// Writes all these bytes.
    pub(crate) fn write_all<R: Clock>(&mut self, rt: &R, bytes: &[u8]) -> io::Result<()> {
        let until = deadline(rt);
        let mut written = 0usize;
        for _ in 0..MOST_TRIES {
            let rest = bytes.get(written..).unwrap_or(&[]);
            if rest.is_empty() {
                return Ok(());
            }
            match self.write_some(rt, rest, until) {
                Err(error) if error.kind() == ErrorKind::Interrupted => {}
                Err(error) => return Err(error),
                Ok(0) => break,
                Ok(count) => written = written.saturating_add(count),
            }
        }
        Err(io::Error::from(ErrorKind::WriteZero))
    }

    /// Writes a prefix of these bytes, until the deadline `until`.
    fn write_some<R: Clock>(&mut self, rt: &R, bytes: &[u8], until: u64) -> io::Result<usize> {
        self.stream.set_write_timeout(Some(time_left(rt, until)?))?;
        in_time(self.stream.write(bytes))
    }

    /// Copies bytes that came and were not given yet; none if there are none.
    pub(crate) fn give(&mut self, buf: &mut [u8]) -> usize
        ensures within { result ≤ length buf.old }
    {
        let count = copy_front(self.waiting(), buf);
        self.given = self.given.saturating_add(count);
        count
    }

    /// Reads another piece from the system. Gives its length in bytes, and 0 at the end.
    pub(crate) fn fill<R: Clock>(&mut self, rt: &R) -> io::Result<usize> {
        let until = deadline(rt);
        self.given = 0;
        self.came = 0;
        for _ in 0..MOST_TRIES {
            match self.read_piece(rt, until) {
                Err(error) if error.kind() == ErrorKind::Interrupted => {}
                read => return read,
            }
        }
        Err(io::Error::from(ErrorKind::Interrupted))
    }

    fn read_piece<R: Clock>(&mut self, rt: &R, until: u64) -> io::Result<usize> {
        self.stream.set_read_timeout(Some(time_left(rt, until)?))?;
        self.came = in_time(self.stream.read(&mut self.piece))?;
        Ok(self.came)
    }

    /// Whether the connection can be used for another request: neither a byte nor the end has come
    /// after what was given.
    pub(crate) fn is_silent(&self) -> bool {
        if !self.waiting().is_empty() || self.stream.set_nonblocking(true).is_err() {
            return false;
        }
        let mut byte = [0u8; 1];
        let would_wait = match self.stream.peek(&mut byte) {
            Err(error) => error.kind() == ErrorKind::WouldBlock,
            Ok(_) => false,
        };
        would_wait && self.stream.set_nonblocking(false).is_ok()
    }

    /// The bytes that came and were not given yet.
    pub(crate) fn waiting(&self) -> &[u8] {
        self.piece.get(self.given..self.came).unwrap_or(&[])
    }
}

/// A connection to the first of the addresses that can be connected.
fn connected<R: Net<Stream = TcpStream> + Clock>(rt: &R, address: &str) -> io::Result<TcpStream> {
    let until = deadline(rt);
    let mut last = io::Error::from(ErrorKind::AddrNotAvailable);
    for each in address.to_socket_addrs(rt)? {
        let end = millis(rt).saturating_add(ADDRESS_MILLIS).min(until);
        let patience = time_left(rt, end)?;
        match TcpStream::connect_timeout(rt, &each, patience) {
            Ok(stream) => return Ok(stream),
            Err(error) => last = error,
        }
    }
    Err(last)
}

/// The deadline of a call that begins now, in milliseconds.
fn deadline<R: Clock>(rt: &R) -> u64 {
    millis(rt).saturating_add(CALL_MILLIS)
}

/// The time in milliseconds, from a moment of the system's choice; 0 if the system does not give
/// it.
fn millis<R: Clock>(rt: &R) -> u64 {
    Watch::new().millis(rt)
}

/// The time that a call may still wait until this deadline in milliseconds. A call without time
/// left fails.
fn time_left<R: Clock>(rt: &R, until: u64) -> io::Result<Duration> {
    let left = until.saturating_sub(millis(rt));
    if left == 0 {
        return Err(io::Error::from(ErrorKind::TimedOut));
    }
    Ok(Duration::from_millis(left))
}

/// The result of a call with a time limit. The system reports that a call would block when its time
/// is over.
fn in_time(answer: io::Result<usize>) -> io::Result<usize> {
    match answer {
        Err(error) if error.kind() == ErrorKind::WouldBlock => {
            Err(io::Error::from(ErrorKind::TimedOut))
        }
        _ => answer,
    }
}

/// Puts a prefix of the bytes at the front of the buffer, as many as fit.
fn copy_front(bytes: &[u8], buf: &mut [u8]) -> usize
    ensures within { result ≤ length buf.old }
    ensures length { length buf.new ≡ length buf.old }
{
    let count = bytes.len().min(buf.len());
    buf[..count].copy_from_slice(&bytes[..count]);
    count
}

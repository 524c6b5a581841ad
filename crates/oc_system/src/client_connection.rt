ghost use Rattle.std.specs.Prelude.{◌≡◌, ◌≤◌, length, IfOk};

use crate::limits::{MOST_SPARE, SPARE_MILLIS};
use crate::passing::PassingReply;
use crate::timed_stream::TimedStream;
use crate::times::Watch;
use std::alloc::Global;
use std::collections::VecDeque;
use std::io::{self, ErrorKind};
use std::mem;
use std::net::{Net, TcpStream};
use std::rt::Clock;

/// A connection that is kept for the next request to its address.
#[derive(Drop)]
struct Spare {
    stream: TimedStream,
    address: String,
    since: u64,
}

/// The outgoing connection of a client: one at a time. Others are kept for a while, at most one to
/// an address, the oldest first.
#[derive(Drop)]
pub(crate) struct ClientConnection<'a, R> {
    rt: &'a R,
    alloc: Global,
    outgoing: Option<TimedStream>,
    /// The address of the outgoing connection, and the further request on it as long as no byte of
    /// its reply has come.
    address: String,
    asked: Vec<u8>,
    /// The reply that comes on it.
    reply: PassingReply,
    spares: VecDeque<Spare>,
}

impl<'a, R: Net<Stream = TcpStream> + Clock> ClientConnection<'a, R> {
    /// Starts without a connection, over the sockets of this runtime.
    pub(crate) fn new(rt: &'a R, alloc: Global) -> ClientConnection<'a, R> {
        ClientConnection {
            rt,
            alloc,
            outgoing: None,
            address: String::new(alloc),
            asked: Vec::new(alloc),
            reply: PassingReply::none(alloc),
            spares: VecDeque::new(alloc),
        }
    }

    /// The address of the outgoing connection, or of the last one.
    pub(crate) fn address(&self) -> &str {
        self.address.as_str()
    }

    /// Connects, or takes the kept connection to the address, and writes the first bytes. If the peer
    /// gave that connection up meanwhile, the request is made once more on a new one, so a request
    /// that changes something has a connection of its own.
    pub(crate) fn reach(&mut self, address: &str, bytes: &[u8]) -> io::Result<()> {
        self.hang_up();
        self.asked.clear();
        self.address.clear();
        self.address.push_str(address)?;
        if is_safe(bytes) {
            self.outgoing = self.take_spare();
        }
        if self.outgoing.is_some() {
            return self.ask(bytes);
        }
        self.reply.begin(bytes);
        self.connect()?;
        self.say(bytes)
    }

    /// The kept connection to the address, if there is one of use.
    fn take_spare(&mut self) -> Option<TimedStream> {
        let address = self.address.as_str();
        let at = self
            .spares
            .iter()
            .position(|spare| spare.address.as_str() == address)?;
        let spare = self.spares.remove(at)?;
        let age = self.millis().saturating_sub(spare.since);
        (age < SPARE_MILLIS && spare.stream.is_silent()).then_some(spare.stream)
    }

    /// The time in milliseconds.
    fn millis(&self) -> u64 {
        Watch::new().millis(self.rt)
    }

    /// Makes the outgoing connection, and drops the previous one.
    fn connect(&mut self) -> io::Result<()> {
        self.outgoing = None;
        let made = TimedStream::reach(self.rt, self.alloc, self.address.as_str())?;
        self.outgoing = Some(made);
        Ok(())
    }

    /// Writes all these bytes on the outgoing connection.
    fn say(&mut self, bytes: &[u8]) -> io::Result<()> {
        match &mut self.outgoing {
            Some(outgoing) => outgoing.write_all(self.rt, bytes),
            None => Err(io::Error::from(ErrorKind::NotConnected)),
        }
    }

    /// Makes a further request on the outgoing connection. Its peer may have ended the connection
    /// meanwhile; then the request is made on a new one (RFC 9112, section 9.3.1).
    pub(crate) fn ask(&mut self, bytes: &[u8]) -> io::Result<()> {
        self.asked.clear();
        self.asked.extend_from_slice(bytes)?;
        self.reply.begin(bytes);
        match self.say(bytes) {
            Err(error) if is_end(&error) => self.ask_anew(),
            said => said,
        }
    }

    /// Repeats the further request on a new connection, once.
    fn ask_anew(&mut self) -> io::Result<()> {
        self.connect()?;
        let asked = mem::replace(&mut self.asked, Vec::new(self.alloc));
        self.say(asked.as_slice())
    }

    /// Reads from the outgoing connection.
    pub(crate) fn hear(&mut self, buf: &mut [u8]) -> io::Result<usize>
        ensures within { IfOk result (λ n. n ≤ length buf.old) }
    {
        let count = self.give(buf);
        if count > 0 || buf.is_empty() || self.outgoing.is_none() || self.reply.is_whole() {
            return Ok(count);
        }
        self.refill_asked()?;
        Ok(self.give(buf))
    }

    /// Copies bytes that were read from the outgoing connection and not given yet.
    fn give(&mut self, buf: &mut [u8]) -> usize
        ensures within { result ≤ length buf.old }
        ensures length { length buf.new ≡ length buf.old }
    {
        match &mut self.outgoing {
            Some(outgoing) => outgoing.give(buf),
            None => 0,
        }
    }

    /// Reads another piece, from a new connection where this one ended before a further request was answered.
    fn refill_asked(&mut self) -> io::Result<usize> {
        let filled = self.refill();
        if !self.asked.is_empty() && has_ended(&filled) {
            self.ask_anew()?;
            return self.refill();
        }
        if filled.is_ok() {
            self.asked.clear();
        }
        filled
    }

    /// Reads another piece from the outgoing connection. Gives its length in bytes.
    fn refill(&mut self) -> io::Result<usize> {
        match &mut self.outgoing {
            Some(outgoing) => {
                let count = outgoing.fill(self.rt)?;
                self.reply.pass(outgoing.waiting());
                Ok(count)
            }
            None => Ok(0),
        }
    }

    /// Ends the outgoing connection, or keeps it for the next request to its address.
    pub(crate) fn hang_up(&mut self) {
        let Some(stream) = self.outgoing.take() else {
            return;
        };
        if self.reply.may_keep() {
            self.keep(stream);
        }
    }

    /// Keeps a connection to the address, in place of an earlier one. Without memory it is closed.
    fn keep(&mut self, stream: TimedStream) {
        let mut address = String::new(self.alloc);
        if address.push_str(self.address.as_str()).is_err() {
            return;
        }
        let since = self.millis();
        let wanted = self.address.as_str();
        self.spares.retain(|spare| spare.address.as_str() != wanted);
        if self.spares.len() >= MOST_SPARE {
            let _closed = self.spares.pop_front();
        }
        let spare = Spare {
            stream,
            address,
            since,
        };
        let _kept = self.spares.push_back(spare).is_ok();
    }
}

/// Whether a read found that the peer ended the connection.
fn has_ended(read: &io::Result<usize>) -> bool {
    match read {
        Ok(count) => *count == 0,
        Err(error) => is_end(error),
    }
}

/// Whether the peer ended the connection.
fn is_end(error: &io::Error) -> bool {
    matches!(
        error.kind(),
        ErrorKind::ConnectionReset | ErrorKind::ConnectionAborted | ErrorKind::BrokenPipe
    )
}

/// Whether a request changes nothing at its server, and so may be made twice (RFC 9110, section
/// 9.2.1).
fn is_safe(request: &[u8]) -> bool {
    request.starts_with(b"GET ") || request.starts_with(b"HEAD ")
}

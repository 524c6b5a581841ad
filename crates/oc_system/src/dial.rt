use crate::limits::{BEGIN_MILLIS, CONNECT_MILLIS, DIAL_MILLIS, DIAL_PAUSE_MILLIS, MOST_READS};
use crate::reply::Reply;
use crate::socket::{Moved, write_some};
use crate::times::Deadline;
use crate::tools::Tools;
use mio::net::TcpStream;
use oc_link::{Coming, DialId};
use std::io::ErrorKind;
use std::net::SocketAddr;

/// The stage of a dial.
#[derive(Clone, Copy, PartialEq, Eq)]
pub(crate) enum DialStage {
    /// The connection is not made yet.
    Connecting,
    /// The request goes out.
    Asking,
    /// The reply has not begun.
    Waiting,
    /// The reply comes.
    Hearing,
    /// This address could not be connected; another one may be tried.
    Refused,
    /// The dial is finished.
    Over,
}

/// An outgoing request, on a connection of its own or on one that was kept. No call on it blocks.
///
/// If a kept connection ends or fails before the first byte of the reply, the peer may have given
/// it up before the request came, and the request is made once more on a new one (RFC 9112, section
/// 9.3.1).
#[derive(Drop)]
pub(crate) struct Dial {
    pub(crate) id: DialId,
    stream: Option<TcpStream>,
    pub(crate) stage: DialStage,
    /// The addresses to try, and the number of those tried.
    addresses: Vec<SocketAddr>,
    tried: usize,
    /// Whether the connection was kept from an earlier dial.
    is_reused: bool,
    request: Vec<u8>,
    /// The number of bytes of the request that went out, and whether sending them failed.
    sent: usize,
    is_cut: bool,
    reply: Reply,
    /// The end of the reply, once the stage is `Over`.
    coming: Coming,
    begun: u64,
    deadline: Deadline,
    pub(crate) is_readable: bool,
    pub(crate) is_writable: bool,
}

impl Dial {
    /// A dial with a request and no connection yet. It is finished at once if there is no memory
    /// for the request.
    pub(crate) fn new(
        tools: &Tools,
        id: DialId,
        addresses: Vec<SocketAddr>,
        bytes: &[u8],
        now: u64,
    ) -> Dial {
        let mut request = Vec::new(tools.alloc);
        let is_kept = request.extend_from_slice(bytes).is_ok();
        Dial {
            id,
            stream: None,
            stage: if is_kept {
                DialStage::Refused
            } else {
                DialStage::Over
            },
            addresses,
            tried: 0,
            is_reused: false,
            request,
            sent: 0,
            is_cut: false,
            reply: Reply::new(tools.alloc),
            coming: Coming::Failed,
            begun: now,
            deadline: Deadline::after(now, CONNECT_MILLIS),
            is_readable: false,
            is_writable: false,
        }
    }

    /// Notes the stream that is being connected, and starts the time for one address.
    pub(crate) fn begin(&mut self, stream: TcpStream, now: u64) {
        self.stream = Some(stream);
        self.stage = DialStage::Connecting;
        let end = self.left(now, BEGIN_MILLIS).min(CONNECT_MILLIS);
        self.deadline = Deadline::after(now, end);
        self.is_readable = false;
        self.is_writable = false;
    }

    /// Goes on with a kept connection to the address of this index.
    pub(crate) fn resume(&mut self, stream: TcpStream, index: usize, now: u64) {
        self.stream = Some(stream);
        self.tried = index.saturating_add(1);
        self.is_reused = true;
        self.begin_request(now);
        self.is_readable = false;
        self.is_writable = true;
    }

    /// Whether the dial may use a kept connection. A GET asks for a probe, whose time tells how
    /// well the peer is reached: it is comparable only if each probe makes its connection.
    pub(crate) fn may_resume(&self) -> bool {
        self.stage == DialStage::Refused && !self.request.starts_with(b"GET ")
    }

    /// The addresses to try.
    pub(crate) fn addresses(&self) -> &[SocketAddr] {
        self.addresses.as_slice()
    }

    /// The next address to try.
    pub(crate) fn next_address(&mut self) -> Option<SocketAddr> {
        let address = self.addresses.get(self.tried).copied()?;
        self.tried = self.tried.saturating_add(1);
        Some(address)
    }

    /// Ends the dial as failed.
    pub(crate) fn fail(&mut self) {
        self.end(Coming::Failed);
    }

    /// Ends the dial with this end of its reply.
    fn end(&mut self, coming: Coming) {
        self.stage = DialStage::Over;
        self.coming = coming;
    }

    /// Ends the dial, as its connection ended or failed, or begins it once more.
    fn lose(&mut self, coming: Coming) {
        if !self.is_reused || !self.reply.is_empty() {
            self.end(coming);
            return;
        }
        self.is_reused = false;
        self.stage = DialStage::Refused;
        self.tried = 0;
        self.sent = 0;
        self.is_cut = false;
    }

    /// The connection of a dial that is finished, with its address, if it can be used for another
    /// one.
    pub(crate) fn kept(&mut self) -> Option<(TcpStream, SocketAddr)> {
        let stream = self.stream.take()?;
        let is_asked = self.sent >= self.request.len() && !self.is_cut;
        if !is_asked || !self.reply.may_keep() {
            return None;
        }
        let address = self.addresses.get(self.tried.checked_sub(1)?).copied()?;
        Some((stream, address))
    }

    /// Makes all progress that is possible now.
    pub(crate) fn advance(&mut self, tools: &mut Tools, now: u64) {
        let Some(mut stream) = self.stream.take() else {
            return;
        };
        if self.stage == DialStage::Connecting {
            self.connect(&mut stream, now);
        }
        if self.stage == DialStage::Asking {
            self.ask(&mut stream, now);
        }
        if matches!(
            self.stage,
            DialStage::Asking | DialStage::Waiting | DialStage::Hearing
        ) {
            self.hear(&mut stream, tools, now);
        }
        // A connection on which the whole reply came may be kept.
        if self.stage != DialStage::Refused {
            self.stream = Some(stream);
        }
    }

    /// Checks whether the connection is made. The system reports a socket as writable once it is
    /// connected, and also if connecting failed.
    fn connect(&mut self, stream: &mut TcpStream, now: u64) {
        if !self.is_writable {
            return;
        }
        if !matches!(stream.take_error(), Ok(None)) {
            self.stage = DialStage::Refused;
            return;
        }
        match stream.peer_addr() {
            Ok(peer) => {
                if is_own(stream, peer) {
                    self.stage = DialStage::Refused;
                    return;
                }
                // Without this option a request that is written in two pieces may wait for an
                // acknowledgement.
                let _set = stream.set_nodelay(true).is_ok();
                self.begin_request(now);
            }
            Err(error) if error.kind() == ErrorKind::NotConnected => self.is_writable = false,
            Err(_) => self.stage = DialStage::Refused,
        }
    }

    /// Notes that the connection is there, and starts the time for the request.
    fn begin_request(&mut self, now: u64) {
        self.stage = DialStage::Asking;
        let end = self.left(now, BEGIN_MILLIS);
        self.deadline = Deadline::after(now, end).with_pause(now, DIAL_PAUSE_MILLIS);
    }

    /// The rest of a time limit that is counted from the beginning of the dial, in milliseconds.
    fn left(&self, now: u64, time: u64) -> u64 {
        self.begun.saturating_add(time).saturating_sub(now)
    }

    /// Sends the request. A reply may have come before a write fails: a peer that refuses a request
    /// need not read the whole request.
    fn ask(&mut self, stream: &mut TcpStream, now: u64) {
        let before = self.sent;
        self.send(stream);
        if self.sent > before {
            self.deadline.progress(now);
        }
        if self.sent >= self.request.len() || self.is_cut {
            self.stage = DialStage::Waiting;
            self.deadline = Deadline::after(now, self.left(now, BEGIN_MILLIS));
        }
    }

    /// Sends the bytes of the request that the socket takes now.
    fn send(&mut self, stream: &mut TcpStream) {
        for _ in 0..self.request.len() {
            let rest = self.request.get(self.sent..).unwrap_or(&[]);
            if rest.is_empty() || !self.is_writable {
                return;
            }
            match write_some(stream, rest) {
                Moved::Bytes(count) => self.sent = self.sent.saturating_add(count),
                Moved::Nothing => self.is_writable = false,
                Moved::Failed | Moved::End => {
                    self.is_cut = true;
                    self.is_readable = true;
                    return;
                }
            }
        }
    }

    /// Reads the bytes that came of the reply.
    fn hear(&mut self, stream: &mut TcpStream, tools: &mut Tools, now: u64) {
        for _ in 0..MOST_READS {
            if !self.is_readable || matches!(self.stage, DialStage::Refused | DialStage::Over) {
                return;
            }
            match self.reply.read(stream, tools) {
                Moved::Bytes(_) => {
                    self.note_progress(now);
                    if self.reply.is_whole() {
                        self.end(Coming::Ended);
                    } else if self.reply.is_too_long() {
                        self.end(Coming::Open);
                    }
                }
                Moved::Nothing => self.is_readable = false,
                Moved::End => self.lose(Coming::Ended),
                Moved::Failed => self.lose(Coming::Failed),
            }
        }
    }

    /// Notes progress of the reply.
    fn note_progress(&mut self, now: u64) {
        if self.stage != DialStage::Hearing {
            self.stage = DialStage::Hearing;
            let end = self.left(now, DIAL_MILLIS);
            self.deadline = Deadline::after(now, end).with_pause(now, DIAL_PAUSE_MILLIS);
        }
        self.deadline.progress(now);
    }

    /// Whether the dial's time has run out.
    pub(crate) fn is_due(&self, now: u64) -> bool {
        self.stage != DialStage::Over && self.deadline.is_over(now)
    }

    /// Ends the dial if its time has run out. If nobody answered at one address, another one may be
    /// tried: some addresses of a name may lead nowhere.
    pub(crate) fn expire(&mut self, now: u64) {
        if !self.is_due(now) {
            return;
        }
        let is_apart = matches!(self.stage, DialStage::Connecting | DialStage::Refused);
        if is_apart && self.left(now, BEGIN_MILLIS) > 0 {
            self.stage = DialStage::Refused;
            self.stream = None;
        } else {
            self.end(Coming::Failed);
        }
    }

    /// Whether there may be more to read than `advance` read: the system would not report it again.
    pub(crate) fn is_busy(&self) -> bool {
        self.is_readable && matches!(self.stage, DialStage::Waiting | DialStage::Hearing)
    }

    /// The reply so far, and its end.
    pub(crate) fn outcome(&mut self, tools: &Tools) -> (Coming, Vec<u8>) {
        (self.coming, self.reply.take(tools))
    }

    /// The stream, for registration.
    pub(crate) fn stream_mut(&mut self) -> Option<&mut TcpStream> {
        self.stream.as_mut()
    }
}

/// Whether a socket is connected to itself. For a port of this machine at which nobody listens, the
/// system may have chosen the same port for this side, and the node that owns the port could not
/// listen there.
fn is_own(stream: &TcpStream, peer: SocketAddr) -> bool {
    match stream.local_addr() {
        Ok(own) => own == peer,
        Err(_) => false,
    }
}

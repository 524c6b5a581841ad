ghost use Rattle.std.specs.Prelude.{◌≡◌, IsSome, false, true};
ghost use Rattle.oc_system.specs.declared.connection.ConnectionStage.TheVariants as stages;

use crate::incoming::Incoming;
use crate::limits::{
    BODY_MILLIS, BODY_PAUSE_MILLIS, HEAD_MILLIS, LARGE_BYTES, LARGE_BYTES_A_MILLI, LINGER_BYTES,
    LINGER_MILLIS, MOST_AHEAD, MOST_MESSAGE, MOST_READS, MOST_UNSENT, REPLY_PAUSE_MILLIS,
    SHORT_REPLY,
};
use crate::socket::{Moved, read_some, write_some};
use crate::times::Deadline;
use crate::tools::Tools;
use crate::unsent::Unsent;
use mio::net::TcpStream;
use mio::{Interest, Registry, Token};
use oc_link::{Arrival, Coming, ConnectionId, Ending, LinkEvent};
use std::alloc::Global;
use std::net::Shutdown;

/// The stage of a connection.
#[derive(Clone, Copy, PartialEq, Eq)]
pub(crate) enum ConnectionStage {
    /// The connection waits for its next request; the reply before it is complete, and may still go
    /// out.
    Awaiting,
    /// The request was taken, and the reply is not complete.
    Answering,
    /// The last reply is complete, and goes out.
    Finishing,
    /// All bytes went out, and the peer was told so; bytes that still come are dropped.
    Lingering,
    /// The connection is finished.
    Over,
}

/// The next action for a connection.
#[derive(Clone, Copy)]
pub(crate) enum Fate {
    /// Nothing: the connection waits for its peer or for its answer.
    Stays,
    /// The event is reported.
    Tells(LinkEvent),
    /// The connection is dropped, and its failure is reported.
    Lost,
    /// The connection is dropped.
    Over,
}

/// The kinds of connections that hold a place, in the order in which they give way.
#[derive(Clone, Copy, PartialEq, Eq, PartialOrd, Ord)]
pub(crate) enum ClaimKind {
    /// A connection whose remaining bytes are read and dropped.
    ReadOut,
    /// A connection whose replies have gone out, and of whose next request no byte has come.
    Kept,
    /// A connection whose request is not complete.
    Request,
    /// A connection whose replies have not gone out.
    Content,
    /// A connection whose request was taken, and that was sent nothing so far.
    Follower,
}

/// The claim of a connection to its place: its kind, and the time since when. Within one kind the
/// oldest gives way first.
#[derive(Clone, Copy, PartialEq, Eq, PartialOrd, Ord)]
pub(crate) struct Claim {
    kind: ClaimKind,
    since: u64,
}

/// An incoming connection. No call on it blocks.
#[derive(Drop)]
pub(crate) struct Connection {
    stream: TcpStream,
    pub(crate) id: u64,
    pub(crate) stage: ConnectionStage,
    /// The number of the request that is awaited or answered.
    number: u64,
    pub(crate) incoming: Incoming,
    /// Whether the connection has one of the places for large requests, and since when.
    pub(crate) is_large: bool,
    large_at: u64,
    /// Whether the request in its present state was reported.
    is_told: bool,
    /// Whether the connection's time ran out.
    is_late: bool,
    /// Whether the connection was given bytes since its request was awaited or taken, or since
    /// there was room.
    is_fed: bool,
    /// Whether the reply has begun, and when bytes were last given.
    has_begun: bool,
    fed_at: u64,
    /// Whether the loss of a complete reply that has not gone out whole is to be reported.
    pub(crate) is_watched: bool,
    /// Whether a write failed, so that no reply goes out any more.
    is_cut: bool,
    /// Whether the request was all that came, and the number of bytes of the replies.
    is_all: bool,
    went: usize,
    /// The number of bytes that were read and dropped after the last reply.
    dropped: usize,
    unsent: Unsent,
    /// The time since when the connection is at its stage, and the time until which it may be.
    since: u64,
    deadline: Deadline,
    /// Whether a read and a write may make progress.
    pub(crate) is_readable: bool,
    pub(crate) is_writable: bool,
    /// Whether the system reports when the socket is ready.
    is_registered: bool,
}

impl Connection {
    /// A connection of this stream, which is set not to block.
    pub(crate) fn new(stream: TcpStream, alloc: Global, id: u64, now: u64) -> Connection {
        Connection {
            stream,
            id,
            stage: ConnectionStage::Awaiting,
            number: 1,
            incoming: Incoming::new(alloc),
            is_large: false,
            large_at: now,
            is_told: false,
            is_late: false,
            is_fed: false,
            has_begun: false,
            fed_at: now,
            is_watched: false,
            is_cut: false,
            is_all: false,
            went: 0,
            dropped: 0,
            unsent: Unsent::new(alloc),
            since: now,
            deadline: Deadline::after(now, HEAD_MILLIS),
            is_readable: true,
            is_writable: true,
            is_registered: false,
        }
    }

    /// Registers the socket with the system, which then reports when it is ready. Most connections
    /// need no registration, since their request comes at once and their reply goes out at once:
    /// that saves a call for each. The system reports bytes from before the registration at once.
    pub(crate) fn register(&mut self, registry: &Registry, token: usize) {
        if self.is_registered {
            return;
        }
        self.is_registered = true;
        // Without this option the end of a piece may wait until the peer acknowledges earlier
        // bytes. A connection that ends at once does without: its end sends all bytes.
        let _set = self.stream.set_nodelay(true).is_ok();
        let both = Interest::READABLE | Interest::WRITABLE;
        if registry
            .register(&mut self.stream, Token(token), both)
            .is_err()
        {
            self.incoming.has_failed = true;
        }
    }

    /// Makes all progress that is possible now: sends, and then reads up to `most` bytes, or ends
    /// the connection.
    pub(crate) fn advance(&mut self, tools: &mut Tools, now: u64, most: usize) {
        self.send(tools, now);
        match self.stage {
            ConnectionStage::Awaiting => self.receive(tools, now, most),
            ConnectionStage::Finishing => self.end(now),
            _ => {}
        }
        if self.stage == ConnectionStage::Lingering {
            self.drain(tools);
        }
    }

    /// Sends the bytes that the socket takes now.
    fn send(&mut self, tools: &mut Tools, now: u64) {
        if !self.is_writable || self.unsent.is_empty() {
            return;
        }
        let before = self.unsent.len();
        match self.unsent.send(&mut self.stream, tools) {
            Moved::Nothing => self.is_writable = false,
            Moved::Failed | Moved::End => self.cut(),
            Moved::Bytes(_) => {}
        }
        if self.unsent.len() < before {
            self.deadline.progress(now);
        }
        if self.unsent.is_empty() {
            self.note_sent(now);
        }
    }

    /// Notes that nothing can be sent any more.
    fn cut(&mut self) {
        self.incoming.has_failed = true;
        self.is_cut = true;
    }

    /// Notes that all given bytes have gone out. If the next request is awaited, its time begins
    /// now.
    fn note_sent(&mut self, now: u64) {
        self.deadline = Deadline::never();
        self.is_watched = false;
        if self.stage == ConnectionStage::Awaiting && !self.is_fed {
            self.begin_head(now);
        } else if self.stage == ConnectionStage::Awaiting {
            self.begin_body(now);
        }
    }

    fn begin_head(&mut self, now: u64) {
        self.since = now;
        self.large_at = now;
        self.deadline = Deadline::after(now, HEAD_MILLIS);
        if self.incoming.outline.is_some() {
            self.begin_body(now);
        }
    }

    fn begin_body(&mut self, now: u64) {
        self.deadline = Deadline::after(now, BODY_MILLIS).with_pause(now, BODY_PAUSE_MILLIS);
    }

    /// Reads the bytes that came of the next request. While too much of the replies has not gone
    /// out, they wait in the socket.
    fn receive(&mut self, tools: &mut Tools, now: u64, most: usize) {
        if !self.is_readable || self.is_behind() || self.incoming.is_over() {
            return;
        }
        let had_head = self.incoming.outline.is_some();
        let intake = self
            .incoming
            .read(&mut self.stream, tools, most, self.is_fed);
        self.is_readable = !intake.is_drained;
        // Nothing more comes after an end, so an end counts as new, too.
        if intake.has_come || self.incoming.is_over() {
            self.is_told = false;
        }
        // As long as a reply goes out, the time limit is the reply's.
        if !self.unsent.is_empty() {
            return;
        }
        if intake.has_come {
            self.deadline.progress(now);
        }
        if !had_head && self.incoming.outline.is_some() {
            self.begin_body(now);
        }
    }

    /// Whether so much of the replies has not gone out that the next request has to wait.
    fn is_behind(&self) -> bool {
        self.unsent.len() >= MOST_AHEAD
    }

    /// Whether the request has as many bytes as it may have without one of the places for large
    /// requests.
    pub(crate) fn is_held(&self) -> bool {
        self.stage == ConnectionStage::Awaiting
            && !self.is_large
            && self.incoming.len() >= LARGE_BYTES
            && !self.incoming.is_ripe(self.is_fed)
    }

    /// Gives the connection one of the places for large requests.
    pub(crate) fn enlarge(&mut self, now: u64) {
        self.is_large = true;
        self.large_at = now;
    }

    /// Whether the connection has held its place for large requests longer than the received bytes
    /// allow.
    pub(crate) fn is_slow(&self, now: u64) -> bool {
        let worth = self.incoming.len() as u64 / LARGE_BYTES_A_MILLI;
        self.stage == ConnectionStage::Awaiting
            && self.is_large
            && !self.incoming.is_ripe(self.is_fed)
            && now.saturating_sub(self.large_at) > HEAD_MILLIS.saturating_add(worth)
    }

    /// Sends bytes: those that the socket takes go out at once, and the rest is kept. A connection
    /// with too many bytes to keep fails.
    pub(crate) fn give(&mut self, tools: &mut Tools, bytes: &[u8], now: u64) {
        let is_open = matches!(
            self.stage,
            ConnectionStage::Awaiting | ConnectionStage::Answering
        );
        if self.incoming.has_failed || !is_open {
            return;
        }
        self.is_fed = true;
        self.is_told = false;
        self.has_begun = true;
        self.fed_at = now;
        self.went = self.went.saturating_add(bytes.len());
        let rest = self.write(bytes);
        if rest.is_empty() {
            if self.stage == ConnectionStage::Awaiting {
                self.begin_body(now);
            }
            return;
        }
        if self.unsent.is_empty() {
            self.deadline = Deadline::never().with_pause(now, REPLY_PAUSE_MILLIS);
        }
        let length = self.unsent.len().saturating_add(rest.len());
        if length > MOST_UNSENT || !self.unsent.put(tools, rest) {
            self.cut();
        }
    }

    /// Writes the bytes that the socket takes now, if no earlier bytes wait; gives the rest.
    fn write<'b>(&mut self, bytes: &'b [u8]) -> &'b [u8] {
        let mut rest = bytes;
        for _ in 0..bytes.len() {
            if rest.is_empty() || !self.is_writable || !self.unsent.is_empty() {
                break;
            }
            match write_some(&mut self.stream, rest) {
                Moved::Bytes(count) => {
                    rest = rest.get(count..).unwrap_or(&[]);
                }
                Moved::Nothing => self.is_writable = false,
                Moved::Failed | Moved::End => {
                    self.cut();
                    return &[];
                }
            }
        }
        rest
    }

    /// Takes back lent bytes of the request that were not taken: the request was left, unless it
    /// got the permission to send more.
    pub(crate) fn take_back(&mut self, bytes: Vec<u8>)
        ensures { self.new.incoming.was_left ≡ self.old.is_told }
    {
        self.incoming.take_back(bytes, self.is_told);
    }

    /// Takes the first `count` of these bytes, which are all that came, as the request. Its reply
    /// is under way then.
    pub(crate) fn take(&mut self, tools: &mut Tools, bytes: &[u8], count: u64, now: u64) {
        self.is_all = self.incoming.is_all(bytes, count);
        let count = usize::try_from(count).unwrap_or(usize::MAX);
        if !self.incoming.take(tools, bytes, count) {
            self.incoming.has_failed = true;
        }
        self.stage = ConnectionStage::Answering;
        self.is_told = false;
        self.is_late = false;
        self.is_fed = false;
        self.has_begun = false;
        self.since = now;
        self.fed_at = now;
        if self.unsent.is_empty() {
            self.deadline = Deadline::never();
        }
    }

    /// Notes that the reply is complete.
    pub(crate) fn finish(&mut self, ending: Ending, now: u64) {
        self.is_fed = false;
        self.is_watched = self.is_watched || ending.watched;
        if ending.keeps {
            self.number = self.number.saturating_add(1);
            self.stage = ConnectionStage::Awaiting;
            if self.unsent.is_empty() && !self.incoming.has_failed {
                self.note_sent(now);
            }
        } else {
            self.stage = ConnectionStage::Finishing;
            self.end(now);
        }
    }

    /// Ends a connection without a reply to its last request. The replies before go out whole;
    /// without any the connection is over at once.
    pub(crate) fn leave(&mut self, now: u64) {
        if self.number <= 1 || self.incoming.has_failed {
            self.stage = ConnectionStage::Over;
            return;
        }
        self.is_fed = false;
        self.is_all = false;
        self.is_late = false;
        self.stage = ConnectionStage::Finishing;
        self.end(now);
    }

    /// Once all bytes went out, tells the peer that nothing more comes, and gives it time to end.
    /// Closing a socket while bytes still come makes the system send a reset, which may overtake
    /// the reply. After the peer's end, or after a whole request with nothing after it and a short
    /// reply, a close does no harm.
    fn end(&mut self, now: u64) {
        if !self.unsent.is_empty() || self.incoming.has_failed {
            return;
        }
        let is_quiet = self.is_all && self.went <= SHORT_REPLY;
        if is_quiet || self.incoming.has_ended {
            self.stage = ConnectionStage::Over;
            return;
        }
        self.stage = ConnectionStage::Lingering;
        self.since = now;
        self.deadline = Deadline::after(now, LINGER_MILLIS);
        self.is_late = false;
        if self.stream.shutdown(Shutdown::Write).is_err() {
            self.stage = ConnectionStage::Over;
        }
    }

    /// Drops incoming bytes, up to the peer's end or the greatest number of bytes to drop.
    fn drain(&mut self, tools: &mut Tools) {
        for _ in 0..MOST_READS {
            if !self.is_readable || self.stage != ConnectionStage::Lingering {
                return;
            }
            let room = LINGER_BYTES.saturating_sub(self.dropped);
            let most = room.min(tools.piece.len());
            if most == 0 {
                self.stage = ConnectionStage::Over;
                return;
            }
            match read_some(&mut self.stream, &mut tools.piece[..most]) {
                Moved::Bytes(count) => self.dropped = self.dropped.saturating_add(count),
                Moved::Nothing => self.is_readable = false,
                Moved::End | Moved::Failed => self.stage = ConnectionStage::Over,
            }
        }
    }

    /// Whether the connection's time has run out and nothing was done about that so far. A wait for
    /// other requests does not count as a time without progress.
    pub(crate) fn is_due(&mut self, now: u64) -> bool {
        if self.is_held() {
            self.deadline.progress(now);
        }
        !self.is_late && self.deadline.is_over(now)
    }

    /// Notes that the connection's time has run out, if it has. Its request is reported as failed,
    /// unless it is complete enough to be looked at and was not reported yet.
    pub(crate) fn expire(&mut self, now: u64) {
        if !self.is_due(now) {
            return;
        }
        match self.stage {
            ConnectionStage::Awaiting if self.unsent.is_empty() => {
                self.is_late = !self.incoming.is_ripe(self.is_fed);
                self.is_told = false;
            }
            ConnectionStage::Lingering => self.stage = ConnectionStage::Over,
            _ => self.incoming.has_failed = true,
        }
    }

    /// The next action for the connection.
    pub(crate) fn fate(&self) -> Fate {
        if self.incoming.has_failed && self.is_missed() {
            return Fate::Lost;
        }
        match self.stage {
            ConnectionStage::Awaiting => self.fate_of_request(),
            ConnectionStage::Answering if self.is_fed && self.unsent.is_empty() => {
                Fate::Tells(LinkEvent::Room(ConnectionId(self.id)))
            }
            ConnectionStage::Finishing if self.incoming.has_failed => Fate::Over,
            ConnectionStage::Over => Fate::Over,
            ConnectionStage::Answering | ConnectionStage::Finishing | ConnectionStage::Lingering =>
                Fate::Stays,
        }
    }

    /// The next action while the next request is awaited. A connection that ends, fails or runs out
    /// of time without a byte of a request is dropped without a report once its replies have gone
    /// out; so is one that fails before that, if nobody asked for a report. If the permission to
    /// send a body did not go out, the request has failed.
    fn fate_of_request(&self) -> Fate {
        let has_failed = self.incoming.has_failed;
        let is_sent = self.unsent.is_empty();
        if has_failed && !self.is_fed && (self.is_cut || !is_sent) {
            return Fate::Over;
        }
        if self.is_behind() && !has_failed {
            return Fate::Stays;
        }
        let is_over = self.incoming.is_over() || self.is_late;
        if self.incoming.len() == 0 && is_over {
            return if is_sent || has_failed {
                Fate::Over
            } else {
                Fate::Stays
            };
        }
        let is_full = self.incoming.len() >= MOST_MESSAGE;
        if self.is_told || !(is_over || is_full || self.incoming.is_ripe(self.is_fed)) {
            return Fate::Stays;
        }
        Fate::Tells(LinkEvent::Request(self.arrival()))
    }

    /// The event that reports the request. For a whole request the bytes after it do not matter.
    fn arrival(&self) -> Arrival {
        let is_ripe = self.incoming.is_ripe(self.is_fed);
        let coming = if !is_ripe && (self.incoming.has_failed || self.is_late) {
            Coming::Failed
        } else if !is_ripe && self.incoming.has_ended {
            Coming::Ended
        } else {
            Coming::Open
        };
        Arrival {
            connection: ConnectionId(self.id),
            number: self.number,
            permitted: self.is_fed,
            coming,
        }
    }

    /// Notes that the pending event was reported.
    pub(crate) fn note_told(&mut self)
        ensures { self.old.stage ≡ stages.Awaiting → self.new.is_told ≡ true }
    {
        match self.stage {
            ConnectionStage::Awaiting => self.is_told = true,
            _ => self.is_fed = false,
        }
    }

    /// Whether there may be more to read than `advance` read: the system would not report it again.
    pub(crate) fn is_busy(&self, most: usize) -> bool {
        let is_read = match self.stage {
            ConnectionStage::Awaiting => {
                !self.is_behind()
                    && !self.incoming.is_over()
                    && self.incoming.len() < most
                    && !self.incoming.is_ripe(self.is_fed)
            }
            ConnectionStage::Lingering => true,
            _ => false,
        };
        self.is_readable && is_read
    }

    /// Notes the system's report that the socket failed. If the socket is still read, the read
    /// shows the failure.
    pub(crate) fn note_failure(&mut self) {
        if matches!(
            self.stage,
            ConnectionStage::Answering | ConnectionStage::Finishing
        ) {
            self.cut();
        }
    }

    /// Whether bytes have still to go out, or the peer has still to end.
    pub(crate) fn is_leaving(&self) -> bool {
        !self.unsent.is_empty() || self.stage == ConnectionStage::Lingering
    }

    /// Whether dropping the connection is to be reported: its reply is not complete, or did not go
    /// out whole and is watched. Once all bytes went out the connection is no longer watched, or
    /// leaves these stages.
    pub(crate) fn is_missed(&self) -> bool {
        match self.stage {
            ConnectionStage::Answering => true,
            ConnectionStage::Awaiting | ConnectionStage::Finishing => self.is_watched,
            ConnectionStage::Lingering | ConnectionStage::Over => false,
        }
    }

    /// The claim of the connection to its place, if it may be asked to give way. A connection whose
    /// request has come and was not taken may not be asked, unless the request was left; nor one
    /// that has bytes to read, since they may be its request, unless they wait for one of the
    /// places for large requests. Otherwise each of many new connections would drop the one before.
    pub(crate) fn claim(&self) -> Option<Claim>
        ensures left { self.now.stage ≡ stages.Awaiting → self.now.incoming.was_left ≡ true
            → self.now.is_readable ≡ false → IsSome result }
    {
        let (kind, since) = match self.stage {
            ConnectionStage::Lingering | ConnectionStage::Over => (ClaimKind::ReadOut, self.since),
            _ if !self.unsent.is_empty() => (ClaimKind::Content, self.fed_at),
            ConnectionStage::Awaiting => {
                if self.incoming.is_ripe(self.is_fed) || (self.is_readable && !self.is_held()) {
                    return None;
                }
                (self.kind_of_waiting(), self.since)
            }
            _ if self.has_begun => (ClaimKind::Content, self.fed_at),
            _ => (ClaimKind::Follower, self.since),
        };
        Some(Claim { kind, since })
    }

    /// The kind of a connection that waits for its request.
    fn kind_of_waiting(&self) -> ClaimKind {
        if self.is_kept() {
            ClaimKind::Kept
        } else {
            ClaimKind::Request
        }
    }

    /// Whether all replies have gone out, at least one, and no byte of the next request was read.
    fn is_kept(&self) -> bool {
        self.stage == ConnectionStage::Awaiting
            && self.number > 1
            && self.unsent.is_empty()
            && self.incoming.len() == 0
    }

    /// Whether a connection that may be asked to give way has something to be looked at first: a
    /// byte of the next request came that was not read, or the end.
    pub(crate) fn has_news(&mut self, tools: &mut Tools) -> bool {
        if !self.is_kept() {
            return false;
        }
        let intake = self.incoming.read(&mut self.stream, tools, 1, false);
        if !intake.has_come {
            return false;
        }
        // A byte was read; the rest of the request is still in the socket.
        self.is_readable = true;
        self.is_told = false;
        true
    }

    /// Whether the request was reported, with nothing more to come, and was not taken.
    pub(crate) fn is_left(&self) -> bool {
        self.stage == ConnectionStage::Awaiting
            && self.is_told
            && (self.incoming.is_over() || self.is_late || self.incoming.len() >= MOST_MESSAGE)
    }
}

mod accepting;
mod calls;
mod dialling;
mod looking;

use crate::connection::ConnectionStage;
use crate::dial::Dial;
use crate::limits::{
    DIALS, MOST_IN_A_ROW, MOST_LARGE, MOST_TRIES, PLACES, SHUT_MILLIS, SWEEP_MILLIS,
};
use crate::places::ConnectionPlaces;
use crate::poller::Poller;
use crate::send_buffer::shorten_send_buffers;
use crate::spares::SpareConnections;
use crate::times::Watch;
use crate::tools::Tools;
use crate::turn_queue::TurnQueue;
use mio::net::TcpListener;
use mio::{Interest, Registry, Token};
use oc_link::{ConnectionId, LinkEvent, Loss};
use std::alloc::Global;
use std::collections::VecDeque;
use std::io::{self, ErrorKind};
use std::net::{Net, SocketAddr, TcpStream, ToSocketAddrs};
use std::rt::Clock;

/// The token of the listener. The token of a connection is its place; the tokens of dials follow.
const LISTENER: usize = PLACES + DIALS;

/// An event, and the bytes that it lends.
#[derive(Drop)]
pub(crate) struct SocketEvent {
    pub(crate) event: LinkEvent,
    pub(crate) bytes: Vec<u8>,
}

/// A connection that was dropped before its reply had gone out.
#[derive(Clone, Copy)]
struct Lost {
    connection: ConnectionId,
    loss: Loss,
    /// Whether the loss of an earlier reply is to be reported, too.
    is_watched: bool,
}

/// The sockets of a running node: those of incoming connections, those of its dials, and the
/// listener. One wait serves them all.
///
/// Each place at which progress may be possible is in one queue, once, and is looked at in its
/// turn: progress is made, and an event is reported if there is one. So no connection is served
/// twice while another waits.
#[derive(Drop)]
pub(crate) struct Sockets {
    poller: Poller,
    listener: TcpListener,
    /// Whether a connection may wait to be accepted, and until when none is accepted.
    knocks: bool,
    shut_until: u64,
    /// A spare descriptor, given up when the system has no more.
    spare: Option<Registry>,
    places: ConnectionPlaces,
    dials: Vec<Option<Dial>>,
    spares: SpareConnections,
    turns: TurnQueue,
    /// The places that wait for one of the places for large requests, and the number of those
    /// taken.
    held: TurnQueue,
    large: usize,
    gone: VecDeque<Lost>,
    tools: Tools,
    /// The number of places looked at since the last wait for sockets.
    in_a_row: u32,
    /// The time of the next look for connections and dials whose time has run out.
    sweep_at: u64,
}

impl Sockets {
    /// Waits for connections at this address from now on.
    pub(crate) fn listen<R: Net<Stream = TcpStream>>(
        rt: &R,
        alloc: Global,
        address: &str,
    ) -> io::Result<Sockets> {
        let poller = Poller::new(rt, alloc)?;
        let mut listener = bound(rt, address)?;
        shorten_send_buffers(&listener);
        poller
            .registry()
            .register(&mut listener, Token(LISTENER), Interest::READABLE)?;
        let spare = poller.registry().try_clone()?;
        let mut dials = Vec::with_capacity(alloc, DIALS)?;
        for _ in 0..DIALS {
            dials.push(None)?;
        }
        Ok(Sockets {
            poller,
            listener,
            knocks: true,
            shut_until: 0,
            spare: Some(spare),
            places: ConnectionPlaces::new(alloc)?,
            dials,
            spares: SpareConnections::new(alloc)?,
            turns: TurnQueue::new(alloc, PLACES + DIALS)?,
            held: TurnQueue::new(alloc, PLACES)?,
            large: 0,
            gone: VecDeque::with_capacity(alloc, PLACES)?,
            tools: Tools::new(alloc)?,
            in_a_row: 0,
            sweep_at: 0,
        })
    }

    /// The next event, by the end of the wait.
    pub(crate) fn next<R: Net<Stream = TcpStream> + Clock>(
        &mut self,
        rt: &R,
        watch: &mut Watch,
        wait: u64,
    ) -> io::Result<SocketEvent> {
        let mut now = watch.millis(rt);
        let until = now.saturating_add(wait);
        let mut looked = 0usize;
        for _ in 0..MOST_TRIES {
            if self.turns.is_empty() || self.in_a_row >= MOST_IN_A_ROW {
                now = self.pump(rt, watch, until.saturating_sub(now))?;
            }
            if let Some(happened) = self.look(rt, now) {
                return Ok(happened);
            }
            looked = looked.saturating_add(1);
            if now >= until && (self.turns.is_empty() || looked >= PLACES) {
                break;
            }
        }
        Ok(self.with_nothing(LinkEvent::Quiet))
    }

    /// An event that lends nothing.
    fn with_nothing(&self, event: LinkEvent) -> SocketEvent {
        SocketEvent {
            event,
            bytes: Vec::new(self.tools.alloc),
        }
    }

    /// Waits until a socket is ready, at most for `longest`; then notes the ready sockets, accepts
    /// connections, and looks for those whose time has run out. Gives the time after that.
    fn pump<R: Clock>(&mut self, rt: &R, watch: &mut Watch, longest: u64) -> io::Result<u64> {
        self.in_a_row = 0;
        let patience = self.patience(longest);
        self.poller.wait(patience)?;
        let now = watch.millis(rt);
        self.note_woken();
        self.accept(now);
        if now >= self.sweep_at {
            self.sweep_at = now.saturating_add(SWEEP_MILLIS);
            self.sweep(now);
        }
        Ok(now)
    }

    /// The time to wait for sockets: none if progress is possible; at most `SHUT_MILLIS` while
    /// waiting connections are not accepted; otherwise at most the time between two looks for those
    /// whose time has run out.
    fn patience(&self, longest: u64) -> u64 {
        if !self.turns.is_empty() || !self.gone.is_empty() {
            return 0;
        }
        if self.knocks {
            return if self.shut_until == 0 {
                0
            } else {
                longest.min(SHUT_MILLIS)
            };
        }
        longest.min(SWEEP_MILLIS)
    }

    /// Notes the sockets that the last wait found ready.
    fn note_woken(&mut self) {
        for at in 0..self.poller.len() {
            let Some(woken) = self.poller.woken(at) else {
                return;
            };
            if woken.token == LISTENER {
                self.knocks = true;
            } else if let Some(connection) = self.places.get_mut(woken.token) {
                connection.is_readable = connection.is_readable || woken.is_readable;
                connection.is_writable = connection.is_writable || woken.is_writable;
                let incoming = &mut connection.incoming;
                incoming.is_ending = incoming.is_ending || woken.is_ending;
                if woken.has_failed {
                    connection.note_failure();
                }
                if connection.stage == ConnectionStage::Awaiting {
                    self.turns.push_asking(woken.token);
                } else {
                    self.turns.push(woken.token);
                }
            } else if let Some(dial) = dial_at(&mut self.dials, woken.token) {
                dial.is_readable = dial.is_readable || woken.is_readable;
                dial.is_writable = dial.is_writable || woken.is_writable;
                self.turns.push_asking(woken.token);
            }
        }
    }

    /// Looks for connections and dials whose time has run out. They are looked at in their turn,
    /// and bytes that have come or may go out by then count: a node that waited for its disk, or
    /// was stopped for a while, finds its peers' answers there.
    fn sweep(&mut self, now: u64) {
        for place in 0..PLACES {
            if let Some(connection) = self.places.get_mut(place) {
                if connection.is_due(now) {
                    connection.is_readable = true;
                    self.turns.push(place);
                }
            }
        }
        if self.large >= MOST_LARGE && !self.held.is_empty() {
            if let Some(place) = self.places.slow_one(now) {
                self.lose(place, Loss::GaveWay);
            }
        }
        self.spares.drop_old(now);
        // A connection that waited may be gone meanwhile, and its free place still be free.
        for _ in self.large..MOST_LARGE {
            if let Some(place) = self.held.pop() {
                self.turns.push(place);
            }
        }
        for place in PLACES..LISTENER {
            if let Some(dial) = dial_at(&mut self.dials, place) {
                if dial.is_due(now) {
                    // An interrupted wait does not show which bytes have come.
                    dial.is_readable = true;
                    self.turns.push(place);
                }
            }
        }
    }

    /// Sends the remaining bytes, until all have gone out and the peers have ended, and at the
    /// latest until the deadline.
    pub(crate) fn send_rest<R: Net<Stream = TcpStream> + Clock>(
        &mut self,
        rt: &R,
        watch: &mut Watch,
        time: u64,
    ) {
        let mut now = watch.millis(rt);
        let until = now.saturating_add(time);
        self.leave();
        for _ in 0..MOST_TRIES {
            if !self.is_leaving() || now >= until {
                return;
            }
            match self.pump(rt, watch, until.saturating_sub(now)) {
                Ok(time) => now = time,
                Err(_) => return,
            }
            for _ in 0..PLACES {
                let _told = self.look(rt, now).is_some();
            }
            self.leave();
        }
    }

    /// Drops all connections except those that have bytes to send, or to be read and dropped.
    fn leave(&mut self) {
        for place in 0..PLACES {
            let is_done = match self.places.get(place) {
                Some(connection) => !connection.is_leaving(),
                None => false,
            };
            if is_done {
                self.drop_at(place);
            }
        }
    }

    fn is_leaving(&self) -> bool {
        !self.places.are_empty()
    }
}

/// The dial at this place. The places of dials follow those of the connections.
fn dial_at(dials: &mut [Option<Dial>], place: usize) -> Option<&mut Dial> {
    dials.get_mut(place.checked_sub(PLACES)?)?.as_mut()
}

/// A listener at the first address that can be bound.
fn bound<R: Net<Stream = TcpStream>>(rt: &R, address: &str) -> io::Result<TcpListener> {
    let mut last = io::Error::from(ErrorKind::AddrNotAvailable);
    for each in address.to_socket_addrs(rt)? {
        let each: SocketAddr = each;
        match TcpListener::bind(rt, each) {
            Ok(listener) => return Ok(listener),
            Err(error) => last = error,
        }
    }
    Err(last)
}

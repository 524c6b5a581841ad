//! The dials of a node.

use super::accepting::is_out_of_files;
use super::{SocketEvent, Sockets, dial_at};
use crate::dial::{Dial, DialStage};
use crate::limits::{MOST_ADDRESSES, PLACES};
use mio::net::TcpStream as Stream;
use mio::{Interest, Token};
use oc_link::{DialId, LinkEvent};
use std::io;
use std::net::{Net, SocketAddr, TcpStream};

impl Sockets {
    /// Begins a dial to the first of these addresses that can be connected; false if there is no
    /// place for it.
    pub(crate) fn dial<R: Net<Stream = TcpStream>>(
        &mut self,
        rt: &R,
        id: DialId,
        addresses: Vec<SocketAddr>,
        bytes: &[u8],
        now: u64,
    ) -> bool {
        let Some(slot) = self.dials.iter().position(|dial| dial.is_none()) else {
            return false;
        };
        let dial = Dial::new(&self.tools, id, addresses, bytes, now);
        if let Some(place) = self.dials.get_mut(slot) {
            *place = Some(dial);
        }
        let place = PLACES.saturating_add(slot);
        self.resume(place, now);
        self.connect(rt, place, now);
        self.turns.push(place);
        true
    }

    /// Lets a new dial use a kept connection, if there is one to its address.
    fn resume(&mut self, place: usize, now: u64) {
        let Some(dial) = dial_at(&mut self.dials, place) else {
            return;
        };
        if !dial.may_resume() {
            return;
        }
        let Some((index, mut stream)) = self.spares.take(dial.addresses(), now) else {
            return;
        };
        // The system reported the socket with the place of an earlier dial.
        let both = Interest::READABLE | Interest::WRITABLE;
        let registry = self.poller.registry();
        if registry.reregister(&mut stream, Token(place), both).is_ok() {
            dial.resume(stream, index, now);
        }
    }

    /// Begins to connect a dial to the next of its addresses, and fails it if there is no further
    /// one.
    fn connect<R: Net<Stream = TcpStream>>(&mut self, rt: &R, place: usize, now: u64) {
        for _ in 0..MOST_ADDRESSES {
            let address = match dial_at(&mut self.dials, place) {
                Some(dial) if dial.stage == DialStage::Refused => dial.next_address(),
                _ => return,
            };
            let Some(address) = address else {
                break;
            };
            if let Ok(stream) = self.stream_to(rt, address) {
                self.watch_dial(place, stream, now);
            }
        }
        if let Some(dial) = dial_at(&mut self.dials, place) {
            if dial.stage == DialStage::Refused {
                dial.fail();
            }
        }
    }

    /// A socket that is being connected. If the system has no more files, a connection is closed: a
    /// node that can't dial loses its place in the tree, while a client comes again.
    fn stream_to<R: Net<Stream = TcpStream>>(
        &mut self,
        rt: &R,
        address: SocketAddr,
    ) -> io::Result<Stream> {
        match Stream::connect(rt, address) {
            Err(error) if is_out_of_files(&error) && self.free_file() => {
                Stream::connect(rt, address)
            }
            made => made,
        }
    }

    /// Registers the socket of a dial with the system.
    fn watch_dial(&mut self, place: usize, stream: Stream, now: u64) {
        let Some(dial) = dial_at(&mut self.dials, place) else {
            return;
        };
        dial.begin(stream, now);
        let both = Interest::READABLE | Interest::WRITABLE;
        let is_watched = match dial.stream_mut() {
            Some(stream) => self
                .poller
                .registry()
                .register(stream, Token(place), both)
                .is_ok(),
            None => false,
        };
        if !is_watched {
            dial.fail();
        }
    }

    /// Makes progress on the dial at this place, and reports its reply once it is over.
    pub(super) fn look_at_dial<R: Net<Stream = TcpStream>>(
        &mut self,
        rt: &R,
        place: usize,
        now: u64,
    ) -> Option<SocketEvent> {
        let dial = dial_at(&mut self.dials, place)?;
        dial.advance(&mut self.tools, now);
        dial.expire(now);
        if dial.stage == DialStage::Refused {
            self.connect(rt, place, now);
        }
        let dial = dial_at(&mut self.dials, place)?;
        if dial.is_busy() {
            self.turns.push(place);
        }
        if dial.stage != DialStage::Over {
            return None;
        }
        if let Some((stream, address)) = dial.kept() {
            self.spares.keep(stream, address, now);
        }
        let (coming, bytes) = dial.outcome(&self.tools);
        let event = LinkEvent::Reply(dial.id, coming);
        if let Some(slot) = self.dials.get_mut(place.saturating_sub(PLACES)) {
            *slot = None;
        }
        Some(SocketEvent { event, bytes })
    }
}

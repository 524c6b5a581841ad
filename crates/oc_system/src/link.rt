ghost use Rattle.std.specs.Prelude.{◌≡◌};
ghost use Rattle.oc_link.specs.Counts.{no_counts};

use crate::config_watch::ConfigWatch;
use crate::failures::LastFailure;
use crate::limits::FINISH_MILLIS;
use crate::names::addresses_of;
use crate::sockets::{SocketEvent, Sockets};
use crate::times::Watch;
use crate::trouble::Trouble;
use oc_io::Failed;
use oc_link::{Coming, ConnectionId, DialId, Ending, Link, LinkCounts, LinkEvent, Look};
use std::alloc::Global;
use std::collections::VecDeque;
use std::fs::File;
use std::net::{Net, TcpStream};
use std::rt::{Clock, Files};
use std::time::Duration;
use std::{io, mem};

/// A link over sockets. It tells no story.
#[derive(Drop)]
pub struct SocketLink<'a, R> {
    rt: &'a R,
    alloc: Global,
    watch: Watch,
    /// The sockets; none before the link listens.
    sockets: Option<Sockets>,
    /// Dials that could not begin, and are still to be reported.
    stray: VecDeque<DialId>,
    /// The bytes that the last event lends, and their connection as long as they were not taken.
    lent: Vec<u8>,
    lender: Option<ConnectionId>,
    counts: LinkCounts,
    /// The node that waits for connections, if one runs.
    node: Option<u64>,
    /// The file of its configuration, if it was named.
    config: Option<ConfigWatch<'a>>,
    /// The address and the error of the last failure to listen.
    failure: LastFailure,
}

impl<'a, R: Net<Stream = TcpStream> + Clock + Eprint + Files<File = File>> SocketLink<'a, R> {
    /// A link over the sockets of this runtime, for the node of this id if one runs, which was configured by the file at
    /// this path if one was named.
    pub fn new(
        rt: &'a R,
        alloc: Global,
        node: Option<u64>,
        config: Option<&'a str>,
    ) -> SocketLink<'a, R>
        ensures counts { result.counts ≡ no_counts }
    {
        SocketLink {
            rt,
            alloc,
            watch: Watch::new(),
            sockets: None,
            stray: VecDeque::new(alloc),
            lent: Vec::new(alloc),
            lender: None,
            counts: LinkCounts::none(),
            node,
            config: watched(config),
            failure: LastFailure::none(alloc),
        }
    }

    /// The reason why the link could not listen, if it could not.
    pub fn trouble(&self) -> Option<Trouble<'_>> {
        self.failure.trouble()
    }

    /// Sends for a short time the bytes that have not gone out. Replies that are not complete are
    /// broken off, and so are dials.
    pub fn send_rest(&mut self) {
        if let Some(sockets) = &mut self.sockets {
            sockets.send_rest(self.rt, &mut self.watch, FINISH_MILLIS);
        }
    }

    /// Gives the lent bytes of the last event back to their connection, if they were not taken.
    fn give_back(&mut self) {
        let bytes = mem::replace(&mut self.lent, Vec::new(self.alloc));
        if let Some(lender) = self.lender.take() {
            if let Some(sockets) = &mut self.sockets {
                sockets.give_back(lender, bytes);
            }
        }
    }

    /// The next event. Without sockets the link only waits.
    fn happened(&mut self, wait: u64) -> io::Result<SocketEvent> {
        if let Some(dial) = self.stray.pop_front() {
            return Ok(SocketEvent {
                event: LinkEvent::Reply(dial, Coming::Failed),
                bytes: Vec::new(self.alloc),
            });
        }
        match &mut self.sockets {
            Some(sockets) => sockets.next(self.rt, &mut self.watch, wait),
            None => {
                self.rt.sleep(Duration::from_millis(wait));
                Ok(SocketEvent {
                    event: LinkEvent::Quiet,
                    bytes: Vec::new(self.alloc),
                })
            }
        }
    }
}

/// The file of a configuration, to be looked at.
fn watched(path: Option<&str>) -> Option<ConfigWatch<'_>> {
    match path {
        Some(path) => Some(ConfigWatch::new(path)),
        None => None,
    }
}

/// Reports on the error output the address at which a node waits for connections. A failure of the
/// output changes nothing.
fn announce<R: Eprint>(rt: &R, node: Option<u64>, address: &str) {
    if let Some(id) = node {
        let _ = eprintln!(rt; "overcast: node {id} listens at {address}");
    }
}

impl<R: Net<Stream = TcpStream> + Clock + Eprint + Files<File = File>> Link for SocketLink<'_, R> {
    ghost use Rattle.std.specs.Prelude.{None};

    ghost story = { λ link. None };

    ghost counts = { λ link. link.counts };

    ghost lends = { λ link. link.lent.items };

    fn listen(&mut self, address: &str) -> Result<(), Failed> {
        match Sockets::listen(self.rt, self.alloc, address) {
            Ok(sockets) => {
                self.sockets = Some(sockets);
                announce(self.rt, self.node, address);
                let now = self.watch.millis(self.rt);
                if let Some(config) = &mut self.config {
                    config.begin(now);
                }
                Ok(())
            }
            Err(error) => {
                self.failure.keep(address, error);
                self.counts = self.counts.with_failure();
                Err(Failed)
            }
        }
    }

    fn next(&mut self, wait: u64) -> Result<LinkEvent, Failed> {
        let counts = self.counts;
        self.give_back();
        let begun = self.watch.millis(self.rt);
        match self.happened(wait) {
            Ok(happened) => {
                let event = happened.event;
                let counted = happened.event;
                let lender = lender_of(&event);
                let waited = self.watch.millis(self.rt).saturating_sub(begun).min(wait);
                self.counts = counts.with_event(counted, waited);
                self.lender = lender;
                self.lent = happened.bytes;
                Ok(event)
            }
            Err(_) => {
                self.counts = counts.with_failure();
                Err(Failed)
            }
        }
    }

    fn lent(&self) -> &[u8] {
        self.lent.as_slice()
    }

    fn take(&mut self, connection: ConnectionId, count: u64) {
        let now = self.watch.millis(self.rt);
        let Some(sockets) = &mut self.sockets else {
            return;
        };
        if self.lender != Some(connection) {
            let bytes = sockets.lend(connection);
            sockets.take(connection, bytes.as_slice(), count, now);
            return;
        }
        self.lender = None;
        sockets.take(connection, self.lent.as_slice(), count, now);
    }

    fn give(&mut self, connection: ConnectionId, bytes: &[u8]) {
        let now = self.watch.millis(self.rt);
        if let Some(sockets) = &mut self.sockets {
            sockets.give(connection, bytes, now);
        }
    }

    fn finish(&mut self, connection: ConnectionId, ending: Ending) {
        let now = self.watch.millis(self.rt);
        if let Some(sockets) = &mut self.sockets {
            sockets.finish_reply(connection, ending, now);
        }
    }

    fn break_off(&mut self, connection: ConnectionId) {
        let now = self.watch.millis(self.rt);
        if let Some(sockets) = &mut self.sockets {
            sockets.break_off(connection, now);
        }
    }

    fn dial(&mut self, dial: DialId, address: &str, bytes: &[u8]) {
        let now = self.watch.millis(self.rt);
        let addresses = addresses_of(self.rt, self.alloc, address);
        let has_begun = match &mut self.sockets {
            Some(sockets) => sockets.dial(self.rt, dial, addresses, bytes, now),
            None => false,
        };
        if !has_begun {
            // At most `DIALS` dials are under way, so there is a place for it; and memory is needed
            // only before the link listens.
            let _noted = self.stray.push_back(dial).is_ok();
        }
    }

    fn now(&mut self) -> u64 {
        self.watch.read(self.rt).as_secs()
    }

    fn millis(&mut self) -> u64 {
        self.watch.millis(self.rt)
    }

    fn look(&mut self) -> Look {
        let now = self.watch.millis(self.rt);
        let Some(config) = &mut self.config else {
            return Look::Nothing;
        };
        let look = config.look(self.rt, self.alloc, now);
        if let Look::Failed = &look {
            let path = config.path();
            let _ = eprintln!(self.rt; "overcast: input failed: {path}");
        }
        look
    }

    fn report(&mut self, line: &[u8]) {
        if let Ok(text) = str::from_utf8(line) {
            let _ = eprint!(self.rt; "{text}");
        }
    }
}

/// The connection whose bytes an event lends.
fn lender_of(event: &LinkEvent) -> Option<ConnectionId> {
    match event {
        LinkEvent::Request(arrival) => Some(arrival.connection),
        _ => None,
    }
}

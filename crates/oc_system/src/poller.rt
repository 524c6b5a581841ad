use crate::limits::EVENTS;
use mio::event::Event;
use mio::{Events, Poll, Registry};
use std::alloc::Global;
use std::io;
use std::net::{Net, TcpStream};
use std::time::Duration;

/// A socket that the last wait found ready: its token, and the operations it is ready for.
#[derive(Clone, Copy)]
pub(crate) struct Woken {
    pub(crate) token: usize,
    pub(crate) is_readable: bool,
    pub(crate) is_writable: bool,
    /// Whether the peer sends no more.
    pub(crate) is_ending: bool,
    pub(crate) has_failed: bool,
}

impl Woken {
    fn of(event: &Event) -> Woken {
        let has_failed = event.is_error();
        let is_ending = has_failed || event.is_read_closed();
        Woken {
            token: event.token().0,
            is_readable: is_ending || event.is_readable(),
            is_writable: has_failed || event.is_writable() || event.is_write_closed(),
            is_ending,
            has_failed,
        }
    }
}

/// The system's reports on ready sockets. The system reports a socket once, when it becomes ready.
#[derive(Drop)]
pub(crate) struct Poller {
    poll: Poll,
    events: Events,
    woken: Vec<Woken>,
}

impl Poller {
    /// Begins without sockets.
    pub(crate) fn new<R: Net<Stream = TcpStream>>(rt: &R, alloc: Global) -> io::Result<Poller> {
        Ok(Poller {
            poll: Poll::new(rt)?,
            events: Events::with_capacity(alloc, EVENTS)?,
            woken: Vec::with_capacity(alloc, EVENTS)?,
        })
    }

    /// The registry for sockets that are to be watched.
    pub(crate) fn registry(&self) -> &Registry {
        self.poll.registry()
    }

    /// Waits until a socket is ready or `millis` milliseconds are over. A signal ends a wait
    /// without events.
    pub(crate) fn wait(&mut self, millis: u64) -> io::Result<()> {
        self.poll
            .poll(&mut self.events, Some(Duration::from_millis(millis)))?;
        self.woken.clear();
        for event in self.events.iter() {
            // There is room for as many as one wait gives.
            let _noted = self.woken.push(Woken::of(event)).is_ok();
        }
        Ok(())
    }

    /// The number of sockets that the last wait found ready, and each of them.
    pub(crate) fn len(&self) -> usize {
        self.woken.len()
    }

    pub(crate) fn woken(&self, at: usize) -> Option<Woken> {
        self.woken.get(at).copied()
    }
}

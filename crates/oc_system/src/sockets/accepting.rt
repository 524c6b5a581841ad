//! Accepting of connections, and the choice of those that give way.

use super::{Lost, Sockets};
use crate::connection::Connection;
use crate::limits::{MOST_ACCEPTED, PLACES, SHUT_MILLIS};
use libc::EMFILE;
use mio::net::TcpStream as Stream;
use oc_link::{ConnectionId, Loss};
use std::io::{self, ErrorKind};

/// The error number of POSIX for a system without free files.
const ENFILE: i32 = 23;

impl Sockets {
    /// Accepts the connections that wait.
    ///
    /// A system without free descriptors reports so even if no connection waits, so a connection
    /// that gave way might have done so for nothing. Therefore a spare descriptor is given up
    /// first: that shows whether one waits, and only after it was accepted another gives way, for
    /// the next spare one.
    pub(super) fn accept(&mut self, now: u64) {
        if now < self.shut_until {
            return;
        }
        self.shut_until = 0;
        for _ in 0..MOST_ACCEPTED {
            // Room is needed for the connections that give way, which are reported one by one.
            if !self.knocks || self.gone.len() >= PLACES {
                return;
            }
            match self.listener.accept() {
                Ok((stream, _)) => {
                    self.welcome(stream, now);
                    self.restore_spare();
                }
                Err(error) if is_out_of_files(&error) => {
                    if self.spare.take().is_none() && !self.free_file() {
                        self.shut(now);
                        return;
                    }
                }
                Err(error) => match error.kind() {
                    ErrorKind::WouldBlock => {
                        self.knocks = false;
                        self.restore_spare();
                    }
                    // The connection that waited is over, or the call was interrupted: go on with
                    // the next one.
                    ErrorKind::ConnectionAborted | ErrorKind::Interrupted => {}
                    // Memory ran out, or another cause that does not pass by asking again at once.
                    _ => {
                        self.shut(now);
                        return;
                    }
                },
            }
        }
    }

    /// Accepts no connection for a while. No event would show when it is possible again.
    fn shut(&mut self, now: u64) {
        self.shut_until = now.saturating_add(SHUT_MILLIS);
    }

    /// Takes a spare descriptor, if there is none. A connection is closed for it.
    fn restore_spare(&mut self) {
        if self.spare.is_some() {
            return;
        }
        self.spare = self.poller.registry().try_clone().ok();
        if self.spare.is_none() && self.free_file() {
            self.spare = self.poller.registry().try_clone().ok();
        }
    }

    /// Keeps a new connection. If all places are taken, another one gives way; if none may be asked
    /// to, since the requests of all have come, the new one is dropped.
    fn welcome(&mut self, stream: Stream, now: u64) {
        if self.places.are_full() && !self.give_way() {
            return;
        }
        let Some((place, id)) = self.places.reserve() else {
            return;
        };
        let connection = Connection::new(stream, self.tools.alloc, id, now);
        self.places.put(place, connection);
        self.turns.push_asking(place);
    }

    /// Closes a connection when the system has no more files: one that is kept for the next dial,
    /// or else the one that has to give way first. False if there is none.
    pub(super) fn free_file(&mut self) -> bool {
        self.spares.drop_oldest() || self.give_way()
    }

    /// Drops the connection that has to give way first; false if none may be asked to. A request
    /// that came on a kept connection and was not read yet is not dropped for another one.
    pub(super) fn give_way(&mut self) -> bool {
        for _ in 0..PLACES {
            let Some(place) = self.places.first_to_yield() else {
                return false;
            };
            if !self.has_news(place) {
                self.lose(place, Loss::GaveWay);
                return true;
            }
            self.turns.push_asking(place);
        }
        false
    }

    /// Whether a kept connection at this place has something to be looked at first.
    fn has_news(&mut self, place: usize) -> bool {
        match self.places.get_mut(place) {
            Some(connection) => connection.has_news(&mut self.tools),
            None => false,
        }
    }

    /// Drops the connection at this place, and notes a loss if its reply was under way.
    pub(super) fn lose(&mut self, place: usize, loss: Loss) {
        if let Some(connection) = self.places.get(place) {
            if connection.is_missed() {
                let lost = Lost {
                    connection: ConnectionId(connection.id),
                    loss,
                    is_watched: connection.is_watched,
                };
                // There is room: no more connections are accepted once as many losses wait to be
                // reported as there are places.
                let _noted = self.gone.push_back(lost).is_ok();
            }
        }
        self.drop_at(place);
    }

    /// Drops the connection at this place.
    pub(super) fn drop_at(&mut self, place: usize) {
        if let Some(connection) = self.places.remove(place) {
            if connection.is_large {
                self.free_large();
            }
        }
    }

    /// Frees one of the places for large requests, and lets a connection that waits for one go on.
    pub(super) fn free_large(&mut self) {
        self.large = self.large.saturating_sub(1);
        if let Some(place) = self.held.pop() {
            self.turns.push(place);
        }
    }
}

/// Whether the system, or the limit of this program, has no more descriptors.
pub(super) fn is_out_of_files(error: &io::Error) -> bool {
    matches!(error.raw_os_error(), Some(EMFILE | ENFILE))
}

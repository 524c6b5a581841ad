//! The calls of the layer above on a connection.

use super::Sockets;
use crate::connection::ConnectionStage;
use crate::limits::LARGE_BYTES;
use oc_link::{ConnectionId, Ending};

impl Sockets {
    /// Lends the bytes that came on a connection, which are given back or taken.
    pub(crate) fn lend(&mut self, connection: ConnectionId) -> Vec<u8> {
        if let Some(place) = self.places.place_of(connection.0) {
            if let Some(lender) = self.places.get_mut(place) {
                return lender.incoming.lend(&self.tools);
            }
        }
        Vec::new(self.tools.alloc)
    }

    /// Takes back lent bytes that were not taken.
    pub(crate) fn give_back(&mut self, connection: ConnectionId, bytes: Vec<u8>) {
        let Some(place) = self.places.place_of(connection.0) else {
            return;
        };
        if let Some(lender) = self.places.get_mut(place) {
            lender.take_back(bytes);
            self.turns.push(place);
        }
    }

    /// Takes the first `count` of the bytes that came on a connection.
    pub(crate) fn take(&mut self, connection: ConnectionId, bytes: &[u8], count: u64, now: u64) {
        let Some(place) = self.places.place_of(connection.0) else {
            return;
        };
        let Some(taker) = self.places.get_mut(place) else {
            return;
        };
        taker.take(&mut self.tools, bytes, count, now);
        let is_smaller = taker.is_large && taker.incoming.len() <= LARGE_BYTES;
        taker.is_large = taker.is_large && !is_smaller;
        self.turns.push(place);
        if is_smaller {
            self.free_large();
        }
    }

    /// Gives a connection bytes to send.
    pub(crate) fn give(&mut self, connection: ConnectionId, bytes: &[u8], now: u64) {
        let Some(place) = self.places.place_of(connection.0) else {
            return;
        };
        if let Some(taker) = self.places.get_mut(place) {
            taker.give(&mut self.tools, bytes, now);
            self.turns.push(place);
        }
    }

    /// Notes that the reply of a connection is complete. A connection that was lost meanwhile is
    /// reported only if that was asked for.
    pub(crate) fn finish_reply(&mut self, connection: ConnectionId, ending: Ending, now: u64) {
        let Some(place) = self.places.place_of(connection.0) else {
            if !ending.watched {
                self.forget(connection);
            }
            return;
        };
        if let Some(finished) = self.places.get_mut(place) {
            finished.finish(ending, now);
            if finished.stage == ConnectionStage::Over {
                self.drop_at(place);
            } else {
                self.turns.push(place);
            }
        }
    }

    /// Ends a connection, after the replies to its earlier requests.
    pub(crate) fn break_off(&mut self, connection: ConnectionId, now: u64) {
        match self.places.place_of(connection.0) {
            Some(place) => self.leave_off(place, now),
            None => self.forget(connection),
        }
    }

    /// Ends the connection at this place without a reply to its last request.
    pub(super) fn leave_off(&mut self, place: usize, now: u64) {
        let Some(connection) = self.places.get_mut(place) else {
            return;
        };
        connection.leave(now);
        if connection.stage == ConnectionStage::Over {
            self.drop_at(place);
        } else {
            self.turns.push(place);
        }
    }

    /// Drops the report that a connection was lost, if it concerns its last reply alone.
    fn forget(&mut self, connection: ConnectionId) {
        self.gone
            .retain(|lost| lost.connection != connection || lost.is_watched);
    }
}

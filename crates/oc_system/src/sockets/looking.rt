//! The work at one place, in its turn.

use super::{SocketEvent, Sockets};
use crate::connection::Fate;
use crate::limits::{LARGE_BYTES, MOST_LARGE, MOST_MESSAGE, PLACES};
use oc_link::{LinkEvent, Loss};
use std::net::{Net, TcpStream};

impl Sockets {
    /// Looks at one place, and reports an event there, if there is one. Lost connections are
    /// reported first, once each.
    pub(super) fn look<R: Net<Stream = TcpStream>>(
        &mut self,
        rt: &R,
        now: u64,
    ) -> Option<SocketEvent> {
        if let Some(lost) = self.gone.pop_front() {
            return Some(self.with_nothing(LinkEvent::Gone(lost.connection, lost.loss)));
        }
        let place = self.turns.pop()?;
        self.in_a_row = self.in_a_row.saturating_add(1);
        if place < PLACES {
            self.look_at(place, now)
        } else {
            self.look_at_dial(rt, place, now)
        }
    }

    /// Makes progress on the connection at this place, and reports an event on it, if there is one.
    fn look_at(&mut self, place: usize, now: u64) -> Option<SocketEvent> {
        let connection = self.places.get_mut(place)?;
        let most = if connection.is_large || self.large < MOST_LARGE {
            MOST_MESSAGE
        } else {
            LARGE_BYTES
        };
        connection.advance(&mut self.tools, now, most);
        connection.expire(now);
        if connection.is_left() {
            self.leave_off(place, now);
            return None;
        }
        if connection.incoming.len() > LARGE_BYTES && !connection.is_large {
            connection.enlarge(now);
            self.large = self.large.saturating_add(1);
        }
        match connection.fate() {
            Fate::Stays => self.leave_at(place, most),
            Fate::Lost => self.lose(place, Loss::Failed),
            Fate::Over => self.drop_at(place),
            Fate::Tells(event) => {
                connection.note_told();
                if let LinkEvent::Request(_) = event {
                    let bytes = connection.incoming.lend(&self.tools);
                    return Some(SocketEvent { event, bytes });
                }
                return Some(self.with_nothing(event));
            }
        }
        // A connection that was lost is reported at the next look.
        None
    }

    /// Leaves a place without progress for now: the system is asked to report when its socket is
    /// ready.
    fn leave_at(&mut self, place: usize, most: usize) {
        let Some(connection) = self.places.get_mut(place) else {
            return;
        };
        if connection.is_held() {
            self.held.push(place);
        }
        connection.register(self.poller.registry(), place);
        if connection.is_busy(most) || connection.incoming.has_failed {
            self.turns.push(place);
        }
    }
}

ghost use Rattle.std.specs.Prelude.{◌≡◌, ◌+◌, ◌-◌, ◌<◌, ◌≤◌, Option, None, Some, [], ◌++◌, not, ◌==◌, length, min, take, drop, map, IfOk, IsSome, is_some, slice_get, option_to_list};
ghost use Rattle.std.specs.Option.{option_copied, option_map};
ghost use Rattle.oc_link.specs.Connection.{broken, wrote};
ghost use Rattle.oc_link.specs.ConnectionsView.{ConnectionsView, ended, begun, further, left_of};

use crate::byte_strings::ByteStrings;
use std::alloc::{AllocError, Global};
use std::marker::Model;

/// The progress of a connection: the number of its bytes that were read, and whether a call on it failed.
#[derive(Clone, Copy, Debug)]
pub(crate) struct ConnectionProgress {
    pub(crate) read: usize,
    pub(crate) failed: bool,
}

/// Connections in memory, in order: those that wait, those that ended, and at most one current one.
/// The bytes that are written on each are kept.
#[derive(Debug, Drop)]
pub(crate) struct Connections {
    /// The bytes that each connection gives, oldest first.
    given: Vec<Vec<u8>>,
    /// The progress of the ended connections.
    past: Vec<ConnectionProgress>,
    /// The current connection, which comes after the ended ones.
    current: Option<ConnectionProgress>,
    /// The bytes written on each of the ended connections and on the current one.
    written: ByteStrings,
}

impl Model for Connections {
    ghost use Rattle.std.specs.Prelude.{◌≡◌, ◌≤◌, ◌+◌, length, map, drop, vec_capacity};
    ghost use Rattle.oc_link.specs.ConnectionsView.{ConnectionsView, connections_of, count_of, current_of, IsWithinBytes, at};

    ghost Value = { ConnectionsView };

    ghost view = { λ t. record {
      waiting = drop (length t.past.items + count_of t.current) (map (λ v. v.items) t.given.items);
      past = connections_of t.past.items (map (λ v. v.items) t.given.items) t.written.strings;
      current = current_of (map (λ v. v.items) t.given.items) (length t.past.items) t.current t.written.strings;
      room = t.written.room;
    } };

    ghost invariant = { λ t. (length t.written.strings ≡ length t.past.items + count_of t.current)
        × (length t.written.strings + t.written.string_room ≡ length t.given.items)
        × (length t.given.items ≤ vec_capacity t.past)
        × IsWithinBytes (at (map (λ v. v.items) t.given.items) (length t.past.items)) t.current };
}

impl Connections {
    /// Waiting connections that give these bytes, and room for this number of bytes to be
    /// written.
    pub(crate) fn new(
        alloc: Global,
        given: Vec<Vec<u8>>,
        room: usize,
    ) -> Result<Connections, AllocError>
        ensures { IfOk result (λ t. t ≡ record {
          waiting = map (λ v. v.items) given.items;
          past = [];
          current = None;
          room = room;
        }) }
    {
        let past = Vec::with_capacity(alloc, given.len())?;
        let written = ByteStrings::new(alloc, room, given.len())?;
        Ok(Connections {
            given,
            past,
            current: None,
            written,
        })
    }

    /// Whether a connection waits.
    pub(crate) fn waits(&self) -> bool
        ensures { result ≡ not (length self.now.waiting == 0) }
    {
        let taken = self.past.len() + usize::from(self.current.is_some());
        taken < self.given.len()
    }

    /// Whether there is a current connection.
    pub(crate) fn is_open(&self) -> bool
        ensures { result ≡ is_some self.now.current }
    {
        self.current.is_some()
    }

    /// Ends the current connection, if there is one.
    pub(crate) fn close(&mut self)
        ensures { self.new ≡ ended self.old }
    {
        if let Some(progress) = self.current {
            self.past.push(progress).unwrap();
            self.current = None;
        }
    }

    /// Makes the oldest waiting connection the current one, and ends the one before.
    pub(crate) fn next(&mut self)
        requires { 0 < length self.old.waiting }
        ensures { self.new ≡ begun self.old }
    {
        self.close();
        self.written.begin();
        self.current = Some(ConnectionProgress {
            read: 0,
            failed: false,
        });
    }

    /// Reads at most `most` bytes from the current connection: fills a prefix of the buffer and
    /// answers its length, 0 without a current connection.
    pub(crate) fn read(&mut self, buf: &mut [u8], most: usize) -> usize
        ensures count { result ≡ min (min (length buf.old) most) (length (left_of self.old.current)) }
        ensures bytes { take result buf.new ≡ take result (left_of self.old.current) }
        ensures view { self.new ≡ record self.old { current = option_map (further result) self.old.current } }
    {
        let Some(progress) = self.current else {
            return 0;
        };
        let bytes = self.given[self.past.len()].as_slice();
        let count = fill(buf, unread(bytes, progress), most);
        self.current = Some(ConnectionProgress {
            read: progress.read + count,
            failed: progress.failed,
        });
        count
    }

    /// Writes on the current connection.
    pub(crate) fn write(&mut self, bytes: &[u8])
        requires open { IsSome self.old.current }
        requires room { length bytes.now ≤ self.old.room }
        ensures { self.new ≡ record self.old {
          current = option_map (wrote bytes.now) self.old.current;
          room = self.old.room - length bytes.now;
        } }
    {
        self.written.extend(bytes);
    }

    /// Notes that a call on the current connection, if there is one, failed.
    pub(crate) fn fail(&mut self)
        ensures { self.new ≡ record self.old { current = option_map broken self.old.current } }
    {
        if let Some(progress) = self.current {
            self.current = Some(ConnectionProgress {
                read: progress.read,
                failed: true,
            });
        }
    }

    /// The bytes written on the connection at this index, counted from 0, among the ended ones and the current one.
    pub(crate) fn written(&self, at: usize) -> Option<&[u8]>
        ensures { option_copied result ≡ option_map (λ c. c.written)
            (slice_get (self.now.past ++ option_to_list self.now.current) at) }
    {
        self.written.get(at)
    }
}

/// The bytes of a connection that were not read yet.
fn unread(bytes: &[u8], progress: ConnectionProgress) -> &[u8]
    requires { progress.read ≤ length bytes.now }
    ensures { result.now ≡ drop progress.read bytes.now }
{
    &bytes[progress.read..]
}

/// Fills a prefix of the buffer with at most `most` of these bytes, and answers its length.
fn fill(buf: &mut [u8], bytes: &[u8], most: usize) -> usize
    ensures count { result ≡ min (min (length buf.old) most) (length bytes.now) }
    ensures front { take result buf.new ≡ take result bytes.now }
{
    let count = buf.len().min(most).min(bytes.len());
    buf[..count].copy_from_slice(&bytes[..count]);
    count
}

ghost use Rattle.std.specs.Prelude.{◌≡◌, ◌+◌, ◌-◌, ◌^◌, ◌<◌, ◌≤◌, Some, [], not, ◌==◌, length, min, take, drop, map, IfOk, IsSome, is_some, slice_get, slice_index_or};
ghost use Rattle.std.specs.Option.{option_copied, option_map};
ghost use Rattle.oc_link.specs.DialsView.{DialsView, all_dials, over, with_failed};
ghost use Rattle.oc_link.specs.Calls.{connection_of};
ghost use Rattle.oc_link.specs.Story.{broken, wrote, unused, through};
ghost use Rattle.oc_link.specs.ConnectionsView.{further, left_of};
ghost use Rattle.oc_io.specs.Tally.{counted};

use crate::byte_strings::ByteStrings;
use crate::connections::Connections;
use std::alloc::{AllocError, Global};
use std::marker::Model;

/// Dials in memory, in order, of which at most one is outgoing. Each dial takes the next of the
/// replies.
#[derive(Debug, Drop)]
pub(crate) struct MemDials {
    connections: Connections,
    /// The address of each dial that took a reply.
    addresses: ByteStrings,
    /// The number of dials made after the last reply was taken.
    refused: u64,
    /// The room in bytes.
    room: usize,
}

impl Model for MemDials {
    ghost use Rattle.std.specs.Prelude.{◌≡◌, ◌+◌, ◌<◌, ◌≤◌, [], None, ◌++◌, length, replicate, option_to_list};
    ghost use Rattle.oc_link.specs.DialsView.{DialsView, dials_of, outgoing_of, nowhere};

    ghost Value = { DialsView };

    ghost view = { λ d. record {
      replies = d.connections.waiting;
      past = dials_of d.connections.past d.addresses.strings ++ replicate d.refused nowhere;
      outgoing = outgoing_of (length d.connections.past) d.connections.current d.addresses.strings;
      refused = d.refused;
      room = d.room;
    } };

    ghost invariant = { λ d. (length d.addresses.strings ≡ length d.connections.past + length (option_to_list d.connections.current))
        × (d.addresses.string_room ≡ length d.connections.waiting)
        × (d.room ≤ d.connections.room) × (d.room ≤ d.addresses.room)
        × (0 < d.refused → length d.connections.waiting + length (option_to_list d.connections.current) ≡ 0) };
}

impl MemDials {
    /// No dials yet, these replies, and room for this number of bytes.
    pub(crate) fn new(
        alloc: Global,
        replies: Vec<Vec<u8>>,
        room: usize,
    ) -> Result<MemDials, AllocError>
        ensures { IfOk result (λ d. d ≡ record {
          replies = map (λ v. v.items) replies.items;
          past = [];
          outgoing = None;
          refused = 0;
          room = room;
        }) }
    {
        let addresses = ByteStrings::new(alloc, room, replies.len())?;
        let connections = Connections::new(alloc, replies, room)?;
        Ok(MemDials {
            connections,
            addresses,
            refused: 0,
            room,
        })
    }

    /// Whether there is an outgoing dial.
    pub(crate) fn is_open(&self) -> bool
        ensures { result ≡ is_some self.now.outgoing }
    {
        self.connections.is_open()
    }

    /// Whether a reply is left.
    pub(crate) fn waits(&self) -> bool
        ensures { result ≡ not (length self.now.replies == 0) }
    {
        self.connections.waits()
    }

    /// The room in bytes.
    pub(crate) fn room(&self) -> usize
        ensures { result ≡ self.now.room }
    {
        self.room
    }

    /// Ends the outgoing dial, if there is one.
    pub(crate) fn close(&mut self)
        ensures { self.new ≡ over self.old }
    {
        self.connections.close();
    }

    /// Makes another dial, with the next reply, in place of the outgoing one.
    pub(crate) fn begin(&mut self, address: &[u8], bytes: &[u8])
        requires reply { 0 < length self.old.replies }
        requires room { length address.now + length bytes.now ≤ self.old.room }
        ensures { self.new ≡ record (over self.old) {
          replies = drop 1 self.old.replies;
          outgoing = Some (record {
            address = address.now;
            connection = wrote bytes.now (unused (slice_index_or self.old.replies 0 []));
          });
          room = self.old.room - (length address.now + length bytes.now);
        } }
    {
        self.connections.next();
        self.addresses.begin();
        self.addresses.extend(address);
        self.connections.write(bytes);
        self.room -= address.len() + bytes.len();
    }

    /// Makes another dial, which fails, in place of the outgoing one; it takes the next reply, if there
    /// is one. Past the last reply such dials are only counted.
    pub(crate) fn refuse(&mut self)
        ensures view { self.old.refused < 2 ^ 64 - 1 → self.new ≡ record (with_failed self.old) { refused = self.new.refused } }
        ensures refused { self.new.refused ≤ counted self.old.refused }
        ensures room { self.new.room ≡ self.old.room }
    {
        let refused = self.refused;
        if self.waits() {
            self.begin(&[], &[]);
            self.fail();
            self.close();
        } else {
            self.close();
            self.refused = refused.saturating_add(1);
        }
    }

    /// Reads at most `most` bytes from the outgoing dial: fills a prefix of the buffer and answers its
    /// length, 0 without an outgoing dial.
    pub(crate) fn read(&mut self, buf: &mut [u8], most: usize) -> usize
        ensures count { result ≡ min (min (length buf.old) most) (length (left_of (connection_of self.old.outgoing))) }
        ensures bytes { take result buf.new ≡ take result (left_of (connection_of self.old.outgoing)) }
        ensures view { self.new ≡ record self.old { outgoing = option_map (through (further result)) self.old.outgoing } }
    {
        self.connections.read(buf, most)
    }

    /// Writes on the outgoing dial.
    pub(crate) fn write(&mut self, bytes: &[u8])
        requires open { IsSome self.old.outgoing }
        requires room { length bytes.now ≤ self.old.room }
        ensures { self.new ≡ record self.old {
          outgoing = option_map (through (wrote bytes.now)) self.old.outgoing;
          room = self.old.room - length bytes.now;
        } }
    {
        self.connections.write(bytes);
        self.room -= bytes.len();
    }

    /// Notes that a call on the outgoing dial, if there is one, failed.
    pub(crate) fn fail(&mut self)
        ensures { self.new ≡ record self.old { outgoing = option_map (through broken) self.old.outgoing } }
    {
        self.connections.fail();
    }

    /// The bytes written on the dial at this index, counted from 0.
    pub(crate) fn written(&self, at: u64) -> Option<&[u8]>
        ensures { option_copied result ≡ option_map (λ d. d.connection.written) (slice_get (all_dials self.now) at) }
    {
        let taken = self.addresses.len() as u64;
        if at < taken {
            self.connections.written(at as usize)
        } else if at - taken < self.refused {
            Some(&[])
        } else {
            None
        }
    }
}

ghost use Rattle.std.specs.Prelude.{◌≡◌, ◌+◌, ◌-◌, ◌<◌, ◌≤◌, ◌⊎◌, ◌↔◌, [], Option, None, length, min, take, map, IfOk, OnOk, OnErr, IsTrue, slice_get};
ghost use Rattle.std.specs.Option.{option_copied, option_map};
ghost use Rattle.oc_io.specs.Faults.{NoFall, Rose};
ghost use Rattle.oc_io.specs.Tally.{IsListed};
ghost use Rattle.oc_link.specs.Calls.{DialFails, DialsTo, IfTold, OnOutgoing, Told, connection_of};
ghost use Rattle.oc_link.specs.ConnectionsView.{left_of};
ghost use Rattle.oc_link.specs.Exchange.{Breaks, Hears, Says, SaysFrontThenBreaks};
ghost use Rattle.oc_link.specs.MemDiallerView.{CountsFaults, after_dial, after_dial_more, after_dial_read, call_failed, dial_failed, dialler_of, told};
ghost use Rattle.oc_link.specs.Story.{dials, hung_up, IsHeardOut};

use crate::dialler::Dialler;
use crate::dials::MemDials;
use oc_io::{CallTally, Failed};
use std::alloc::{AllocError, Global};
use std::marker::Model;

/// A dialler in memory; listed calls fail. It keeps the bytes that are written on its dials, as far as its room
/// goes, and neither address nor bytes of a failed dial.
#[derive(Debug, Drop)]
pub struct MemDialler {
    dials: MemDials,
    /// The greatest number of bytes of one read.
    cut: usize,
    calls: CallTally,
}

impl Model for MemDialler {
    ghost use Rattle.std.specs.Prelude.{◌≤◌, ◌<◌, ◌^◌};
    ghost use Rattle.oc_link.specs.MemDiallerView.{MemDiallerView};

    ghost Value = { MemDiallerView };

    ghost view = { λ l. record {
      story = record { ended = l.dials.past; outgoing = l.dials.outgoing };
      replies = l.dials.replies;
      room = l.dials.room;
      cut = l.cut;
      calls = l.calls;
    } };

    ghost invariant = { λ l. (1 ≤ l.cut) × (l.dials.refused ≤ l.calls.faults) × (l.calls.faults < 2 ^ 64) };
}

impl MemDialler {
    /// A dialler whose dials give the bytes of `replies`, in order. It has room for `room` bytes of addresses and
    /// written bytes, whose memory is taken here. One read gives at most `cut` bytes, which is at least 1. The
    /// calls with the numbers `fails` fail, counted from 1, and so do a call past the room and a dial past the
    /// last reply. `hang_up` does not count as a call.
    pub fn new(
        alloc: Global,
        replies: Vec<Vec<u8>>,
        room: usize,
        cut: usize,
        fails: Vec<u64>,
    ) -> Result<MemDialler, AllocError>
        requires { 1 ≤ cut }
        ensures { IfOk result (λ link. link ≡ dialler_of (map (λ v. v.items) replies.items) room cut fails.items) }
    {
        Ok(MemDialler {
            dials: MemDials::new(alloc, replies, room)?,
            cut,
            calls: CallTally::new(fails),
        })
    }

    /// The bytes written on the dial at this index, counted from 0.
    pub fn dialled(&self, at: u64) -> Option<&[u8]>
        ensures { option_copied result ≡ option_map (λ d. d.connection.written) (slice_get (dials self.now.story) at) }
    {
        self.dials.written(at)
    }
}

impl Dialler for MemDialler {
    ghost story = { told };

    ghost faults = { λ l. l.calls.faults };

    fn dial(&mut self, address: &str, bytes: &[u8]) -> Result<(), Failed>
        ensures dials { OnOk result (Told (DialsTo address.now bytes.now) (told self.old) (told self.new)) }
        ensures fails { OnErr result (Told (DialFails address.now bytes.now) (told self.old) (told self.new)) }
        ensures count { NoFall self.old.calls.faults self.new.calls.faults }
        ensures cause { OnErr result (Rose self.old.calls.faults self.new.calls.faults) }

        // This dial takes the next reply. A failure exactly if the call is listed, no reply is left
        // or the room does not suffice.
        ensures passed { OnOk result (¬ IsListed self.old.calls × (0 < length self.old.replies)
            × (length address.now + length bytes.now ≤ self.old.room)
            × (self.new ≡ after_dial address.now bytes.now self.old)) }
        ensures why { OnErr result (IsListed self.old.calls ⊎ ((self.old.replies ≡ [])
            ⊎ (self.old.room < length address.now + length bytes.now))) }
        ensures failed { OnErr result (CountsFaults self.new → self.new ≡ dial_failed self.old) }
    {
        let can = self.dials.waits() && fits(self.dials.room(), address.len(), bytes.len());
        if self.calls.call_if(can).is_err() {
            self.dials.refuse();
            return Err(Failed);
        }
        self.dials.begin(address.as_bytes(), bytes);
        Ok(())
    }

    fn dial_more(&mut self, bytes: &[u8]) -> Result<(), Failed>
        ensures writes { OnOk result (Told (OnOutgoing (Says bytes.now)) (told self.old) (told self.new)) }
        ensures breaks { OnErr result (Told (OnOutgoing (SaysFrontThenBreaks bytes.now)) (told self.old) (told self.new)) }
        ensures count { NoFall self.old.calls.faults self.new.calls.faults }
        ensures cause { OnErr result (Rose self.old.calls.faults self.new.calls.faults) }

        // A failure exactly if the call is listed, no connection is outgoing or the room does not suffice.
        ensures passed { OnOk result (¬ IsListed self.old.calls × (¬ (self.old.story.outgoing ≡ None))
            × (length bytes.now ≤ self.old.room) × (self.new ≡ after_dial_more bytes.now self.old)) }
        ensures failed { OnErr result ((IsListed self.old.calls ⊎ ((self.old.story.outgoing ≡ None)
            ⊎ (self.old.room < length bytes.now))) × (self.new ≡ call_failed self.old)) }
    {
        let can = self.dials.is_open() && bytes.len() <= self.dials.room();
        if self.calls.call_if(can).is_err() {
            self.dials.fail();
            return Err(Failed);
        }
        self.dials.write(bytes);
        Ok(())
    }

    fn dial_read(&mut self, buf: &mut [u8]) -> Result<usize, Failed>
        ensures within { IfOk result (λ n. n ≤ length buf.old) }
        ensures reads { IfOk result (λ n. Told (OnOutgoing (Hears (take n buf.new))) (told self.old) (told self.new)) }
        ensures end { IfOk result (λ n. n ≡ 0 → 0 < length buf.old → IfTold (told self.new) IsHeardOut) }
        ensures breaks { OnErr result (Told (OnOutgoing Breaks) (told self.old) (told self.new)) }
        ensures count { NoFall self.old.calls.faults self.new.calls.faults }
        ensures cause { OnErr result (Rose self.old.calls.faults self.new.calls.faults) }

        // As many bytes as are left and fit, at most `cut`; a failure exactly if the call is
        // listed or no connection is outgoing.
        ensures most { IfOk result (λ n. n ≡ min (min (length buf.old) self.old.cut)
            (length (left_of (connection_of self.old.story.outgoing)))) }
        ensures bytes { IfOk result (λ n. take n buf.new ≡ take n (left_of (connection_of self.old.story.outgoing))) }
        ensures passed { IfOk result (λ n. ¬ IsListed self.old.calls × (¬ (self.old.story.outgoing ≡ None))
            × (self.new ≡ after_dial_read n self.old)) }
        ensures failed { OnErr result ((IsListed self.old.calls ⊎ (self.old.story.outgoing ≡ None))
            × (self.new ≡ call_failed self.old)) }
    {
        if self.calls.call_if(self.dials.is_open()).is_err() {
            self.dials.fail();
            return Err(Failed);
        }
        Ok(self.dials.read(buf, self.cut))
    }

    fn hang_up(&mut self)
        ensures story { told self.new ≡ option_map hung_up (told self.old) }
        ensures count { self.new.calls.faults ≡ self.old.calls.faults }
        ensures view { self.new ≡ record self.old { story = hung_up self.old.story } }
    {
        self.dials.close();
    }
}

/// Whether two lengths together fit into the room.
fn fits(room: usize, first: usize, second: usize) -> bool
    ensures { IsTrue result ↔ (first + second ≤ room) }
{
    first <= room && second <= room - first
}

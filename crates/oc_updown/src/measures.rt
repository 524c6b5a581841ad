ghost use Rattle.std.specs.Prelude.{◌≡◌, ◌≤◌, length, replicate, IfOk, OnOk};
ghost use Rattle.oc_model.specs.Measures.{reading_of, with_reading};
ghost use Rattle.oc_model.specs.Node.{no_reading};

use oc_base::{Memory, NodeId, Slots};
use oc_model::Reading;
use std::alloc::Global;
use std::marker::Model;

/// The reading of a peer that was not measured.
const NOTHING: Reading = Reading { rate: 0, hops: 0 };

/// The last reading of each peer. A contract sees the list of readings by the number of the peer, and the number of
/// readings for which there is memory.
#[derive(Drop)]
pub struct Measures {
    readings: Slots<Reading>,
}

impl Model for Measures {
    ghost use Rattle.oc_updown.specs.MeasuresView.{MeasuresView};

    ghost Value = { MeasuresView };

    ghost view = { λ m. record { readings = m.readings.items; room = m.readings.room } };
}

impl Measures {
    /// No readings, for this number of peers. Takes no memory.
    pub fn new(alloc: Global, nodes: u32) -> Result<Measures, Memory>
        ensures { IfOk result (λ all. all.readings ≡ replicate nodes no_reading) }
    {
        Ok(Measures {
            readings: Slots::new(alloc, nodes as usize, NOTHING)?,
        })
    }

    /// Takes the memory for the readings of all peers.
    pub fn reserve(&mut self) -> Result<(), Memory>
        ensures room { OnOk result (length self.new.readings ≤ self.new.room) }
        ensures stays { self.old.room ≤ self.new.room }
        ensures rest { self.new ≡ record self.old { room = self.new.room } }
    {
        self.readings.reserve()
    }

    /// Removes all readings. Takes no memory.
    pub fn clear(&mut self)
        ensures readings { self.new.readings ≡ replicate (length self.old.readings) no_reading }
        ensures room { self.new.room ≡ self.old.room }
    {
        self.readings.fill(NOTHING);
    }

    /// Replaces the reading of a peer: bytes per second, and hops. There must be memory for all readings.
    /// Takes no memory.
    pub fn put(&mut self, peer: NodeId, rate: u64, hops: u8)
        requires first { 1 ≤ peer }
        requires last { peer ≤ length self.old.readings }
        requires room { length self.old.readings ≤ self.old.room }
        ensures readings { self.new.readings ≡ with_reading self.old.readings peer (record { rate = rate; hops = hops }) }
        ensures room { self.new.room ≡ self.old.room }
    {
        self.readings.put(peer.index(), Reading { rate, hops });
    }

    /// The rate and the hops that were put last for the peer; `(0, 0)` without a put, and for a number past
    /// the nodes. A rate of 0 means that nothing was measured.
    pub fn get(&self, peer: NodeId) -> (u64, u8)
        ensures rate { result.0 ≡ (reading_of self.now.readings peer).rate }
        ensures hops { result.1 ≡ (reading_of self.now.readings peer).hops }
    {
        let place = (peer.0 as usize).saturating_sub(1);
        let reading = self.readings.get_or(place, NOTHING);
        (reading.rate, reading.hops)
    }
}

ghost use Rattle.std.specs.Prelude.{◌≡◌, ◌-◌, ◌≤◌, [], length, replicate, slice_set, IfOk};
ghost use Rattle.oc_probe.specs.Rates.{rates_of, with_rate, IsMedian};

use crate::recent::Recent;
use oc_base::{Memory, NodeId};
use std::alloc::Global;
use std::marker::Model;

/// The last five rates of each peer, in bytes per second. Contracts see the list of rates of each
/// peer, by its number.
#[derive(Debug, Drop)]
pub struct Gauge {
    peers: Vec<Recent>,
}

impl Model for Gauge {
    ghost use Rattle.std.specs.Prelude.{ℕ, List};

    ghost Value = { List (List ℕ) };

    ghost view = { λ g. g.peers.items };
}

impl Gauge {
    /// A gauge of `nodes` peers without rates.
    pub fn new(alloc: Global, nodes: u32) -> Result<Gauge, Memory>
        ensures { IfOk result (λ all. all ≡ replicate nodes []) }
    {
        let mut peers = Vec::with_capacity(alloc, nodes as usize)?;
        for _peer in 0..nodes {
            peers.push(Recent::new())?;
        }
        Ok(Gauge { peers })
    }

    /// Keeps another rate of the peer, and gives the median of its last five. Takes no memory.
    pub fn put(&mut self, peer: NodeId, rate: u64) -> u64
        requires first { 1 ≤ peer }
        requires last { peer ≤ length self.old }
        ensures kept { self.new ≡ slice_set self.old (peer - 1) (with_rate (rates_of self.old peer) rate) }
        ensures median { IsMedian (with_rate (rates_of self.old peer) rate) result }
    {
        let recent = &mut self.peers[peer.index()];
        recent.put(rate);
        recent.median()
    }
}

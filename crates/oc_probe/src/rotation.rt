ghost use Rattle.std.specs.Prelude.{◌≡◌, ◌≤◌, IfOk, length, slice_get};
ghost use Rattle.oc_probe.specs.Turns.{peers_of, turned};

use oc_base::{MAX_NODES, Memory, NodeId};
use std::alloc::Global;
use std::marker::Model;

/// The peers of a node in the order in which they are probed: ascending, and then from the
/// beginning.
#[derive(Debug, Drop)]
pub struct Rotation {
    peers: Vec<NodeId>,
    /// The number of peers given in this round.
    given: usize,
}

impl Model for Rotation {
    ghost use Rattle.std.specs.Prelude.{◌≡◌, ◌<◌, ◌⊎◌, ◌++◌, drop, take, length};
    ghost use Rattle.oc_probe.specs.Turns.{RotationView};

    ghost Value = { RotationView };

    ghost view = { λ r. record { coming = drop r.given r.peers.items ++ take r.given r.peers.items } };

    ghost invariant = { λ r. (r.given < length r.peers.items) ⊎ (r.given ≡ 0) };
}

impl Rotation {
    /// The other nodes than `me` whose place in this list, by their ids, holds something, from the least one on.
    pub fn new<T>(alloc: Global, me: NodeId, places: &[Option<T>]) -> Result<Rotation, Memory>
        requires { length places.now ≤ MAX_NODES }
        ensures { IfOk result (λ rotation. rotation ≡ record { coming = peers_of me places.now }) }
    {
        Ok(Rotation {
            peers: peers_of(alloc, me, places)?,
            given: 0,
        })
    }

    /// The next peer. `None` exactly if there is none.
    pub fn next(&mut self) -> Option<NodeId>
        ensures peer { result ≡ slice_get self.old.coming 0 }
        ensures turns { self.new ≡ record self.old { coming = turned self.old.coming } }
    {
        if self.peers.is_empty() {
            return None;
        }
        let peer = self.peers[self.given];
        self.given = if self.given + 1 < self.peers.len() {
            self.given + 1
        } else {
            0
        };
        Some(peer)
    }
}

/// The ids, but that of `me`, of the places that hold something.
fn peers_of<T>(alloc: Global, me: NodeId, places: &[Option<T>]) -> Result<Vec<NodeId>, Memory>
    requires { length places.now ≤ MAX_NODES }
    ensures { IfOk result (λ peers. peers.items ≡ peers_of me places.now) }
{
    let mut peers = Vec::new(alloc);
    'places: for place in 0..places.len() {
        let id = NodeId(place as u32 + 1);
        if id != me && places[place].is_some() {
            peers.push(id)?;
        }
    }
    Ok(peers)
}

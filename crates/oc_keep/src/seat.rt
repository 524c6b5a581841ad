ghost use Rattle.std.specs.Prelude.{◌≡◌, IfOk};

use oc_base::{Memory, NodeId};
use oc_model::Header;
use std::alloc::Global;

/// The node's id, and its network.
#[derive(Drop)]
pub struct Seat {
    pub id: NodeId,
    pub header: Header,
}

impl Seat {
    /// The seat of this id, in a network with a copy of this header.
    pub fn new(alloc: Global, id: NodeId, header: &Header) -> Result<Seat, Memory>
        ensures { IfOk result (λ seat. seat ≡ record { id = id; header = header.now }) }
    {
        let areas = header.areas.to_vec(alloc)?;
        Ok(Seat {
            id,
            header: Header {
                sizes: header.sizes,
                areas,
            },
        })
    }

    /// The number of nodes of the network.
    pub fn nodes(&self) -> u32
        ensures { result ≡ self.now.header.nodes }
    {
        self.header.sizes.nodes
    }
}

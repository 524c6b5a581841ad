use crate::{Gauge, Rotation};

/// The state with which a node probes its peers.
#[derive(Debug, Drop)]
pub struct Probing {
    pub gauge: Gauge,
    pub rotation: Rotation,
}

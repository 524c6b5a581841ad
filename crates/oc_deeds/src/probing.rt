//! The next probe, and the measures.

ghost use Rattle.std.specs.Prelude.{◌≡◌, IfSome, length, option_map};
ghost use Rattle.oc_base.specs.Lawful.{IsNode};
ghost use Rattle.oc_deeds.specs.Measured.{IsMedianIn};
ghost use Rattle.oc_deeds.specs.Turns as turns;
ghost use Rattle.oc_deeds.specs.Turns.{rotated, with_measure};

use crate::dials::Dialling;
use oc_base::NodeId;
use oc_probe::Probing;

/// Keeps another rate of a peer, and gives the median of its last ones, where they are measured at all. Rates are in bytes
/// per second.
pub fn measured(probing: &mut Option<Probing>, peer: NodeId, rate: u64) -> Option<u64>
    requires { IfSome probing.old (λ p. IsNode (length p.gauge) peer) }
    ensures kept { probing.new ≡ option_map (with_measure peer rate) probing.old }
    ensures median { IsMedianIn probing.old peer rate result }
{
    match probing {
        Some(probing) => Some(probing.gauge.put(peer, rate)),
        None => None,
    }
}

/// The next peer to be probed, where no dial is under way.
pub fn next_peer(probing: &mut Option<Probing>, dials: &[Dialling]) -> Option<NodeId>
    ensures peer { result ≡ turns.next_peer probing.old dials.now }
    ensures rotated { probing.new ≡ option_map (rotated dials.now) probing.old }
{
    if !dials.is_empty() {
        return None;
    }
    match probing {
        Some(probing) => probing.rotation.next(),
        None => None,
    }
}

//! The state of a node's probing.

ghost use Rattle.std.specs.Prelude.{◌≡◌, ◌≤◌, IfOk, IfSome, length, map, option_map, string_bytes};
ghost use Rattle.oc_deeds.specs.Lawful.{IsMadeFor};
ghost use Rattle.oc_service.specs.OnSite.{probing_at_first, probing_of};

use oc_base::{MAX_NODES, Memory, NodeId};
use oc_probe::{Gauge, Probing, Rotation};
use std::alloc::Global;

/// The state of probing at first, of this many nodes, where these are their addresses, by their ids: no rates of peers, and
/// all other nodes that have an address in turn. None for a node that does not probe.
pub(crate) fn first_probing(
    alloc: Global,
    me: NodeId,
    nodes: u32,
    addresses: &[Option<String>],
    probes: bool,
) -> Result<Option<Probing>, Memory>
    requires few { length addresses.now ≤ MAX_NODES }
    requires within { length addresses.now ≤ nodes }
    ensures first { IfOk result (λ probing. probing ≡ probing_at_first probes nodes me (map (option_map string_bytes) addresses.now)) }
    ensures made { IfOk result (λ probing. IfSome probing (IsMadeFor nodes)) }
{
    if probes {
        Ok(Some(make_probing(alloc, me, nodes, addresses)?))
    } else {
        Ok(None)
    }
}

/// The state of probing of this node, without rates, and with the first peer that has an address as the next.
fn make_probing(
    alloc: Global,
    me: NodeId,
    nodes: u32,
    addresses: &[Option<String>],
) -> Result<Probing, Memory>
    requires few { length addresses.now ≤ MAX_NODES }
    requires within { length addresses.now ≤ nodes }
    ensures first { IfOk result (λ probing. probing ≡ probing_of nodes me (map (option_map string_bytes) addresses.now)) }
    ensures made { IfOk result (IsMadeFor nodes) }
{
    Ok(Probing {
        gauge: Gauge::new(alloc, nodes)?,
        rotation: Rotation::new(alloc, me, addresses)?,
    })
}

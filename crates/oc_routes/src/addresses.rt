ghost use Rattle.std.specs.Prelude.{◌≡◌, map, option_map, string_bytes};
ghost use Rattle.oc_routes.specs.Responses.{address_of, source_in};

use oc_base::NodeId;

/// The address of a node, by its id; empty where it has none.
pub fn address_of(addresses: &[Option<String>], node: NodeId) -> &str
    ensures { result.now ≡ address_of (map (option_map string_bytes) addresses.now) node }
{
    match addresses.get((node.0 as usize).saturating_sub(1)) {
        Some(Some(address)) => address.as_str(),
        _ => "",
    }
}

/// The address of the source; empty where it has none.
pub(crate) fn source_in(addresses: &[Option<String>]) -> &str
    ensures { result.now ≡ source_in (map (option_map string_bytes) addresses.now) }
{
    address_of(addresses, NodeId(1))
}

ghost use Rattle.std.specs.Prelude.{◌≡◌, length};
ghost use Rattle.oc_model.specs.Selected.{selected};

use crate::Table;
use crate::preference::Preference;
use oc_base::{NodeId, Slots};

/// Selects the node to which a chain member sends a client of this area: a node past the chain that its
/// table lists below it, in the client's area if such a node is there; of these the one that was named to
/// the fewest clients, and of several the one with the least id. `areas` and `counts` have a value for
/// each node, by its number.
///
/// Each node with a row in use is looked at once, and the table is walked for a node only if the node would be the
/// best so far.
pub fn select(
    table: &Table,
    me: NodeId,
    chain: u32,
    areas: &[u8],
    counts: &Slots<u64>,
    area: u8,
) -> Option<NodeId>
    requires areas { length areas.now ≡ table.now.nodes }
    requires counts { length counts.now.items ≡ table.now.nodes }
    ensures { result ≡ selected table.now.entries me chain areas.now counts.now.items area }
{
    let nodes = table.rows().used() as u32;
    let preference = Preference {
        areas,
        counts,
        area,
    };
    let mut best = None;
    for before in chain..nodes {
        let node = NodeId(before + 1);
        if preference.beats(node, &best) && table.is_listed(me, node) {
            best = Some(node);
        }
    }
    best
}

ghost use Rattle.std.specs.Prelude.{◌≡◌, ◌+◌, ◌≤◌, IfOk};
ghost use Rattle.oc_base.specs.Lawful.{IsNode};
ghost use Rattle.oc_base.specs.declared.limits.TheConstants.{MAX_BASE_ACKED, MAX_LOG_LENGTH};
ghost use Rattle.oc_model.specs.Lawful.{AreRecords, IsHeader};
ghost use Rattle.oc_model.specs.Node.{new_durable, started_with};
ghost use Rattle.oc_model.specs.Records.{folded};
ghost use Rattle.oc_node.specs.NodeView.{IsReached};

use crate::seat::Seat;
use oc_base::{MAX_JOURNAL_BYTES, Memory};
use oc_model::{Header, Record};
use oc_node::Node;
use std::alloc::Global;

/// A node that starts with the records of its control file, whose frames end at this offset.
pub fn start(alloc: Global, seat: Seat, list: &[Record], end: u64) -> Result<Node, Memory>
    requires header { IsHeader seat.header }
    requires id { IsNode seat.header.nodes seat.id }
    requires lawful { AreRecords seat.header.nodes list.now }
    ensures started { IfOk result (λ node. node.control ≡ started_with seat.header seat.id (folded (new_durable seat.header.nodes) list.now)) }
    ensures reached { IfOk result (λ node. IsReached node.control) }
    ensures log { IfOk result (λ node. node.control.kept.log.length ≤ MAX_BASE_ACKED + end) }
    ensures short { IfOk result (λ node. node.control.kept.log.length ≤ MAX_LOG_LENGTH) }
{
    // A file has at most as many records as bytes, and a journal at most as many bytes as its limit: more do not
    // fit in memory.
    let count = list.len() as u64;
    if count > end || count > MAX_JOURNAL_BYTES {
        return Err(Memory);
    }
    let Seat { id, header } = seat;
    let Header { sizes, areas } = header;
    let mut node = Node::new(alloc, id, sizes.nodes, sizes.chain, sizes.chunk, areas)?;
    match node.recover(list) {
        Ok(()) => Ok(node),
        Err(Memory) => {
            // Dropping the list by a call takes less to prove than dropping it at the end of its scope.
            drop(node);
            Err(Memory)
        }
    }
}

//! The position of a merge in the record of each node.

ghost use Rattle.std.specs.Prelude.{◌≡◌, Some, [], IfOk, OnOk, length, slice_get};
ghost use Rattle.oc_base.specs.Lawful.{IsNode};
ghost use Rattle.oc_model.specs.World.{ids, is_up, new_world};
ghost use Rattle.oc_merge.specs.declared.told.ToldLine.{ToldLine};
ghost use Rattle.oc_merge.specs.Heads.{is_waiting, AreHeads, AreHeadsIn, ArePlacesFrom, AreSamePlaces, HaveWays, HaveWaysBut, IsLookedAt, IsWayAt, LooksAgain, receivers_after};
ghost use Rattle.oc_merge.specs.Records.{AreRecords};

use crate::nodes::Nodes;
use crate::places::Places;
use crate::records::Records;
use crate::told::Told;
use crate::way::{Way, way_of};
use oc_base::{Memory, NodeId};
use std::alloc::Global;

/// The position of a merge in the record of a node.
#[derive(Clone, Copy, Debug)]
pub(crate) struct Head {
    /// The index of the next line, or the number of all lines if there is none.
    pub place: usize,
    /// Whether a line of the record was taken.
    pub started: bool,
    /// The way in which the next line can be taken, if it can.
    pub way: Option<Way>,
}

/// The way in which the line at an index can be taken, if it can.
fn way_at<N: Nodes>(
    alloc: Global,
    nodes: &N,
    records: &Records,
    node: NodeId,
    place: usize,
    started: bool,
) -> Result<Option<Way>, Memory>
    requires records { AreRecords records.now }
    requires count { length (ids (N.world nodes.now)) ≡ records.now.header.nodes }
    requires own { (l : ToldLine) → slice_get records.now.lines place ≡ Some l → l.node ≡ node }
    requires started { started ≡ is_up (N.world nodes.now) node }
    ensures { IfOk result (λ way. IsWayAt N.digest records.now.header.nodes (N.world nodes.now) node (slice_get records.now.lines place) way) }
{
    match records.lines.get(place) {
        None => Ok(None),
        Some(line) => way_of(alloc, nodes, records.nodes(), line, started),
    }
}

/// The heads of a merge that has taken no line.
pub(crate) fn first_heads<N: Nodes>(
    alloc: Global,
    nodes: &N,
    records: &Records,
    places: &Places,
) -> Result<Vec<Head>, Memory>
    requires records { AreRecords records.now }
    requires new { N.world nodes.now ≡ new_world records.now.header }
    requires places { ArePlacesFrom records.now.header.nodes records.now.lines 0 places.now.first.items places.now.next.items }
    ensures heads { IfOk result (λ heads. AreHeads records.now.header.nodes records.now.lines [] heads.items) }
    ensures ways { IfOk result (λ heads. HaveWays N.digest records.now (N.world nodes.now) heads.items) }
{
    let count = records.nodes();
    let mut heads = Vec::with_capacity(alloc, count as usize)?;
    for before in 0..count {
        let place = places.first[before as usize];
        let way = way_at(alloc, nodes, records, NodeId(before + 1), place, false)?;
        heads.push(Head {
            place,
            started: false,
            way,
        })?;
    }
    Ok(heads)
}

/// Updates the way in which the next line of a node can be taken.
pub(crate) fn look_at<N: Nodes>(
    alloc: Global,
    nodes: &N,
    records: &Records,
    heads: &mut Vec<Head>,
    node: NodeId,
) -> Result<(), Memory>
    requires records { AreRecords records.now }
    requires heads { AreHeadsIn (N.world nodes.now) records.now heads.old.items }
    requires node { IsNode records.now.header.nodes node }
    ensures { OnOk result (IsLookedAt N.digest records.now (N.world nodes.now) node heads.old.items heads.new.items) }
{
    let at = node.index();
    let head = heads[at];
    let way = way_at(alloc, nodes, records, node, head.place, head.started)?;
    heads[at] = Head {
        place: head.place,
        started: head.started,
        way,
    };
    Ok(())
}

/// Updates the way of a node whose next line waits for a message.
fn look_again<N: Nodes>(
    alloc: Global,
    nodes: &N,
    records: &Records,
    heads: &mut Vec<Head>,
    node: NodeId,
) -> Result<(), Memory>
    requires records { AreRecords records.now }
    requires heads { AreHeadsIn (N.world nodes.now) records.now heads.old.items }
    requires node { IsNode records.now.header.nodes node }
    ensures { OnOk result (LooksAgain N.digest records.now (N.world nodes.now) node heads.old.items heads.new.items) }
{
    let head = heads[node.index()];
    if is_waiting(records, head) {
        look_at(alloc, nodes, records, heads, node)
    } else {
        Ok(())
    }
}

/// Whether the line at a head waits for a message.
fn is_waiting(records: &Records, head: Head) -> bool
    ensures { result ≡ is_waiting records.now.lines head }
{
    match records.lines.get(head.place) {
        Some(line) => head.way.is_none() && matches!(line.told, Told::Came(_)),
        None => false,
    }
}

/// Updates each node to which a message was sent after the first `sent` messages. No other node can
/// have got the message that it waits for.
pub(crate) fn look_at_receivers<N: Nodes>(
    alloc: Global,
    nodes: &N,
    records: &Records,
    heads: &mut Vec<Head>,
    sent: u64,
) -> Result<(), Memory>
    requires records { AreRecords records.now }
    requires heads { AreHeadsIn (N.world nodes.now) records.now heads.old.items }
    requires ways { HaveWaysBut N.digest records.now (N.world nodes.now) heads.old.items (receivers_after sent (N.world nodes.now).net) }
    ensures places { OnOk result (AreSamePlaces heads.old.items heads.new.items) }
    ensures ways { OnOk result (HaveWays N.digest records.now (N.world nodes.now) heads.new.items) }
{
    for number in sent..nodes.sent() {
        let node = nodes.receiver(number + 1)?;
        look_again(alloc, nodes, records, heads, node)?;
    }
    Ok(())
}

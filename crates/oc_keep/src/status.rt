//! A node's position in the tree, and its knowledge of the tree.

ghost use Rattle.std.specs.Prelude.{◌≡◌, ◌++◌, false, IfOk, OnOk};
ghost use Rattle.std.specs.Option.{option_to_list};
ghost use Rattle.oc_updown.specs.TableView.{AreTableRows, entries_of};
ghost use Rattle.oc_model.specs.Status.{status_of};

use crate::Kept;
use oc_base::{Cert, CertList, IdList, LineList, Memory, Slots};
use oc_io::Disk;
use oc_model::NodeStatus;
use oc_updown::Table;
use std::alloc::Global;

/// The status of a node on its files, which is up or down.
pub fn status_of<D: Disk>(kept: &Kept<D>, up: bool) -> Result<NodeStatus, Memory>
    ensures { IfOk result (λ status. status ≡ status_of kept.now.node.control up) }
{
    let node = kept.node();
    let table = node.table();
    let listed = table.listed(node.id())?;
    let alloc = *listed.allocator();
    Ok(NodeStatus {
        up,
        mode: node.mode(),
        seq: node.seq(),
        rank: node.rank(),
        acked: node.log().acked(),
        length: node.log().length(),
        ancestors: IdList::of(node.ancestors().to_vec(alloc)?),
        table: certificates(alloc, table)?,
        listed: LineList::of(listed),
    })
}

/// The status of a node that is down and was recovered to be read.
pub fn status_recovered<D: Disk + Drop>(kept: Kept<D>) -> Result<NodeStatus, Memory>
    ensures { IfOk result (λ status. status ≡ status_of kept.node.control false) }
{
    status_of(&kept, false)
}

/// The certificates of a table.
fn certificates(alloc: Global, table: &Table) -> Result<CertList, Memory>
    ensures { IfOk result (λ list. list ≡ table.now.entries) }
{
    let mut entries = Vec::new(alloc);
    push_entries(&mut entries, table.rows())?;
    Ok(CertList::of(entries))
}

/// Puts the certificates of these rows at the end.
fn push_entries(list: &mut Vec<Cert>, rows: &Slots<Option<Cert>>) -> Result<(), Memory>
    requires { AreTableRows rows.now }
    ensures { OnOk result (list.new.items ≡ list.old.items ++ entries_of rows.now.items) }
{
    for place in 0..rows.used() {
        let row = rows.get_or(place, None);
        push_entry(list, &row)?;
    }
    Ok(())
}

/// Puts the certificate of a row at the end, if it has one.
fn push_entry(list: &mut Vec<Cert>, row: &Option<Cert>) -> Result<(), Memory>
    ensures { OnOk result (list.new.items ≡ list.old.items ++ option_to_list row.now) }
{
    if let Some(cert) = row {
        list.push(*cert)?;
    }
    Ok(())
}

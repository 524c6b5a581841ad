ghost use Rattle.std.specs.Prelude.{◌≡◌, ◌++◌, length, IfOk, OnOk};
ghost use Rattle.std.specs.Option.{option_to_list};
ghost use Rattle.oc_model.specs.Adoption.{chain_child};
ghost use Rattle.oc_model.specs.Numbers.{at};
ghost use Rattle.oc_updown.specs.TableView.{AreTableRows, entries_of};
ghost use Rattle.oc_state.specs.Children.{child_of_row, other_child_of_row, told_of_row, told_children};

use oc_base::{Cert, Child, Memory, NodeId, Slots};
use std::alloc::Global;

/// The row's subject, if it is a leased child of this node.
fn child_of_row(row: &Option<Cert>, me: NodeId) -> Option<NodeId>
    ensures { result ≡ child_of_row me row.now }
{
    match row {
        Some(cert) if !cert.dead && cert.parent == me => Some(cert.subject),
        _ => None,
    }
}

/// The row's subject, if it is a leased child of this node other than the asker.
fn other_child_of_row(row: &Option<Cert>, me: NodeId, asker: NodeId) -> Option<NodeId>
    ensures { result ≡ other_child_of_row me asker row.now }
{
    match row {
        Some(cert) if !cert.dead && cert.parent == me && cert.subject != asker => Some(
            cert.subject,
        ),
        _ => None,
    }
}

/// The least leased child of this node that is a chain member and not the asker.
pub fn chain_child(
    rows: &Slots<Option<Cert>>,
    me: NodeId,
    chain: u32,
    asker: NodeId,
) -> Option<NodeId>
    requires { AreTableRows rows.now }
    ensures { result ≡ chain_child (entries_of rows.now.items) me chain asker }
{
    let members = rows.used().min(chain as usize);
    for place in 0..members {
        let row = rows.get_or(place, None);
        let child = other_child_of_row(&row, me, asker);
        if child.is_some() {
            return child;
        }
    }
    None
}

/// The rate that a child told last; 0 if it told none.
fn rate_of(rates: &Slots<u64>, child: NodeId) -> u64
    ensures { result ≡ at rates.now.items child 0 }
{
    let place = (child.0 as usize).saturating_sub(1);
    rates.get_or(place, 0)
}

/// Adds the child of a row at the end, if it has one.
fn push_child(
    children: &mut Vec<Child>,
    row: &Option<Cert>,
    me: NodeId,
    rates: &Slots<u64>,
) -> Result<(), Memory>
    ensures { OnOk result (children.new.items ≡ children.old.items ++ told_of_row me rates.now.items row.now) }
{
    if let Some(id) = child_of_row(row, me) {
        let rate = rate_of(rates, id);
        children.push(Child { id, rate })?;
    }
    Ok(())
}

/// The leased children of this node, ascending, with the rates that they told last.
pub fn children(
    alloc: Global,
    rows: &Slots<Option<Cert>>,
    me: NodeId,
    rates: &Slots<u64>,
) -> Result<Vec<Child>, Memory>
    requires { AreTableRows rows.now }
    ensures { IfOk result (λ made. made.items ≡ told_children (entries_of rows.now.items) me rates.now.items) }
{
    let mut children = Vec::new(alloc);
    let filled = rows.filled();
    for place in 0..filled.len() {
        let row = &filled[place];
        push_child(&mut children, row, me, rates)?;
    }
    Ok(children)
}

ghost use Rattle.std.specs.Prelude.{◌≡◌, ◌-◌, ◌^◌, ◌≤◌, length, None, IfSome};
ghost use Rattle.oc_base.specs.declared.limits.TheConstants.{LAST_SECOND};
ghost use Rattle.oc_model.specs.Numbers.{at};
ghost use Rattle.oc_model.specs.Table.{is_lease_of};
ghost use Rattle.oc_model.specs.Leases.{renew, is_over, start_if, start_all, next_ended};
ghost use Rattle.oc_updown.specs.TableView.{AreTableRows, entries_of};
ghost use Rattle.oc_base.specs.Lawful.{IsNode};
ghost use Rattle.oc_updown.specs.Children.{start_row, ended_of_row};

use crate::leases::LEASE_TIME;
use oc_base::{Cert, NodeId, Slots};

/// Renews the lease of a child, from now on.
pub(crate) fn renew(ends: &mut Slots<Option<u64>>, child: NodeId, now: u64)
    requires child { IsNode (length ends.old.items) child }
    requires now { now ≤ LAST_SECOND }
    requires room { length ends.old.items ≤ ends.old.room }
    ensures ends { ends.new.items ≡ renew ends.old.items child now }
    ensures length { length ends.new.items ≡ length ends.old.items }
    ensures room { ends.new.room ≡ ends.old.room }
{
    ends.put(child.index(), Some(now + LEASE_TIME));
}

/// Whether a certificate says that its subject is a child of this node.
fn is_lease_of(parent: NodeId, cert: &Cert) -> bool
    ensures { result ≡ is_lease_of parent cert.now }
{
    !cert.dead && cert.parent == parent
}

/// Sets the end of a child's lease, unless it is set.
fn start(ends: &mut Slots<Option<u64>>, child: NodeId, now: u64)
    requires child { IsNode (length ends.old.items) child }
    requires now { now ≤ LAST_SECOND }
    requires room { length ends.old.items ≤ ends.old.room }
    ensures ends { ends.new.items ≡ start_if (at ends.old.items child None) ends.old.items child now }
    ensures length { length ends.new.items ≡ length ends.old.items }
    ensures room { ends.new.room ≡ ends.old.room }
{
    if ends.get_or(child.index(), None).is_none() {
        renew(ends, child, now);
    }
}

/// Sets the lease end of a row's subject, if it is a child of this node without one.
fn start_of_row(row: &Option<Cert>, me: NodeId, ends: &mut Slots<Option<u64>>, now: u64)
    requires row { IfSome row.now (λ cert. IsNode (length ends.old.items) cert.subject) }
    requires now { now ≤ LAST_SECOND }
    requires room { length ends.old.items ≤ ends.old.room }
    ensures ends { ends.new.items ≡ start_row me row.now ends.old.items now }
    ensures length { length ends.new.items ≡ length ends.old.items }
    ensures room { ends.new.room ≡ ends.old.room }
{
    if let Some(cert) = row
        && is_lease_of(me, cert)
    {
        start(ends, cert.subject, now);
    }
}

/// Sets the lease ends of all children that have none.
pub(crate) fn start_rows(
    rows: &Slots<Option<Cert>>,
    me: NodeId,
    ends: &mut Slots<Option<u64>>,
    now: u64,
)
    requires rows { AreTableRows rows.now }
    requires nodes { length rows.now.items ≤ length ends.old.items }
    requires now { now ≤ LAST_SECOND }
    requires room { length ends.old.items ≤ ends.old.room }
    ensures ends { ends.new.items ≡ start_all (entries_of rows.now.items) me ends.old.items now }
    ensures length { length ends.new.items ≡ length ends.old.items }
    ensures room { ends.new.room ≡ ends.old.room }
{
    let none = None;
    for place in 0..rows.used() {
        let row = rows.lend_or(place, &none);
        start_of_row(row, me, ends, now);
    }
}

/// The subject of a row, if it is a child of this node whose lease has ended.
fn ended_of_row(
    row: &Option<Cert>,
    me: NodeId,
    ends: &Slots<Option<u64>>,
    now: u64,
) -> Option<NodeId>
    requires { IfSome row.now (λ cert. IsNode (length ends.now.items) cert.subject) }
    ensures { result ≡ ended_of_row me row.now ends.now.items now }
{
    match row {
        Some(cert) if is_lease_of(me, cert) && is_over(ends, cert.subject, now) => Some(
            cert.subject,
        ),
        _ => None,
    }
}

/// Whether the lease of a child has ended.
fn is_over(ends: &Slots<Option<u64>>, child: NodeId, now: u64) -> bool
    requires { IsNode (length ends.now.items) child }
    ensures { result ≡ is_over (at ends.now.items child None) now }
{
    match ends.get_or(child.index(), None) {
        Some(end) => end <= now,
        None => false,
    }
}

/// The least child past a number whose lease has ended.
pub(crate) fn next_over(
    rows: &Slots<Option<Cert>>,
    me: NodeId,
    ends: &Slots<Option<u64>>,
    after: u32,
    now: u64,
) -> Option<NodeId>
    requires rows { AreTableRows rows.now }
    requires nodes { length rows.now.items ≤ length ends.now.items }
    ensures { result ≡ next_ended (entries_of rows.now.items) me ends.now.items after now }
{
    let filled = rows.filled();
    for place in after as usize..filled.len() {
        let row = &filled[place];
        let ended = ended_of_row(row, me, ends, now);
        if ended.is_some() {
            return ended;
        }
    }
    None
}

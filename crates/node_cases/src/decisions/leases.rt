//! Leases: those that begin, are renewed, and end.

ghost use Rattle.std.specs.Prelude.{◌≡◌, ◌≤◌, length};

use crate::acting::{Acts, act_all};
use crate::decisions::tables::{merge, table_in};
use oc_updown::{Leases, Table};
use std::alloc::Global;
use test_tools::{Fault, RowFields, RowStep, cert_in, put_shown};

/// The number of nodes.
const NODES: u32 = 6;

/// The last second of a clock.
const LAST_SECOND: u64 = 1 << 41;

/// A table with the leases of a node's children.
#[derive(Drop)]
struct Parent {
    table: Table,
    leases: Leases,
    ghost nodes: { table.nodes ≡ 6 },
    ghost ends: { length leases.ends ≡ 6 },
}

/// Appends the words of a row: the result of each step. The first field has the certificates of the
/// table.
pub fn put_words(alloc: Global, given: &str, said: &mut String) -> Result<(), Fault> {
    let mut fields = given.split_ascii_whitespace();
    let certs = RowFields::of(fields.next().unwrap_or(""), ',');
    let mut parent = Parent {
        table: table_in(alloc, NODES, certs)?,
        leases: Leases::new(alloc, NODES)?,
    };
    act_all(alloc, &mut parent, fields, said)
}

impl Acts for Parent {
    fn act(&mut self, _alloc: Global, step: RowStep<'_>, said: &mut String) -> Result<(), Fault> {
        let fields = step.fields;
        match step.word {
            "merge" => merge_one(self, fields),
            "renew" => renew(self, fields),
            "start" => start(self, fields),
            "ended" => put_ended(self, fields, said),
            _ => Err(Fault::Field),
        }
    }
}

fn merge_one(parent: &mut Parent, mut fields: RowFields<'_>) -> Result<(), Fault> {
    merge(&mut parent.table, &cert_in(fields.text())?)?;
    Ok(())
}

/// Renews the lease of a child at this second.
fn renew(parent: &mut Parent, mut fields: RowFields<'_>) -> Result<(), Fault> {
    let child = fields.node()?;
    let now = fields.number()?;
    if child.0 < 1 || NODES < child.0 || LAST_SECOND < now {
        return Err(Fault::Field);
    }
    parent.leases.reserve()?;
    parent.leases.renew(child, now);
    Ok(())
}

/// Begins the leases of those children of a node that have no end yet.
fn start(parent: &mut Parent, mut fields: RowFields<'_>) -> Result<(), Fault> {
    let me = fields.node()?;
    let now = fields.number()?;
    if LAST_SECOND < now {
        return Err(Fault::Field);
    }
    parent.leases.reserve()?;
    parent.leases.start_all(&parent.table, me, now);
    Ok(())
}

/// Puts the next child past a number whose lease has ended at this second, or `-`.
fn put_ended(parent: &Parent, mut fields: RowFields<'_>, said: &mut String) -> Result<(), Fault> {
    let me = fields.node()?;
    let after = fields.small()?;
    let now = fields.number()?;
    match parent.leases.next_ended(&parent.table, me, after, now) {
        Some(child) => put_shown(said, &child.0),
        None => Ok(said.push_str("- ")?),
    }
}

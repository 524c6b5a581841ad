//! Tables of certificates: merges, entries and listings.

ghost use Rattle.std.specs.Prelude.{◌≡◌, ◌≤◌, IsTrue, IfOk};
ghost use Rattle.oc_base.specs.Lawful.{IsNode};

use crate::acting::{Acts, act_all};
use oc_base::{Cert, Line, MAX_NODES, NodeId};
use oc_updown::Table;
use std::alloc::Global;
use test_tools::{Fault, RowFields, RowStep, cert_in, put_cert, put_shown};

/// An upper bound on the certificates of a row.
const MOST: u32 = 10_000;

/// Appends the words of a row: the result of each step on a new table.
pub fn put_words(alloc: Global, given: &str, said: &mut String) -> Result<(), Fault> {
    let mut fields = given.split_ascii_whitespace();
    let nodes = RowFields::of(fields.next().unwrap_or(""), ' ').small()?;
    if nodes < 1 || 1024 < nodes {
        return Err(Fault::Field);
    }
    let mut table = Table::new(alloc, nodes)?;
    act_all(alloc, &mut table, fields, said)
}

impl Acts for Table {
    fn act(&mut self, _alloc: Global, step: RowStep<'_>, said: &mut String) -> Result<(), Fault> {
        let fields = step.fields;
        match step.word {
            "merge" => put_merged(self, fields, said),
            "put" => put_all(self, fields),
            "line" => put_line(self, fields),
            "entry" => put_entry(self, fields, said),
            "leased" => put_leased(self, fields, said),
            "is_listed" => put_is_listed(self, fields, said),
            "listed" => put_listed(self, fields, said),
            "count" => put_count(self, fields, said),
            _ => Err(Fault::Field),
        }
    }
}

/// Merges a certificate, and puts whether it is new.
fn put_merged(
    table: &mut Table,
    mut fields: RowFields<'_>,
    said: &mut String,
) -> Result<(), Fault> {
    let is_new = merge(table, &cert_in(fields.text())?)?;
    put_shown(said, &is_new)
}

/// A table of `nodes` nodes with these certificates.
pub fn table_in(alloc: Global, nodes: u32, certs: RowFields<'_>) -> Result<Table, Fault>
    requires least { 1 ≤ nodes }
    requires most { nodes ≤ MAX_NODES }
    ensures { IfOk result (λ table. table.nodes ≡ nodes) }
{
    let mut table = Table::new(alloc, nodes)?;
    put_all(&mut table, certs)?;
    Ok(table)
}

/// Merges a certificate, if it is one among the nodes of the table.
pub fn merge(table: &mut Table, cert: &Cert) -> Result<bool, Fault>
    ensures { table.new.nodes ≡ table.old.nodes }
{
    let nodes = table.rows().len();
    if is_node(nodes, cert.subject)
        && is_node(nodes, cert.parent)
        && cert.seq >= 1
        && cert.number < u64::MAX
        && cert.clients < u64::MAX
    {
        table.reserve()?;
        Ok(table.merge(cert))
    } else {
        Err(Fault::Field)
    }
}

fn is_node(nodes: usize, id: NodeId) -> bool
    ensures { IsTrue result → IsNode nodes id }
{
    1 <= id.0 && id.0 as usize <= nodes
}

/// Merges the certificates of the fields.
pub fn put_all(table: &mut Table, mut fields: RowFields<'_>) -> Result<(), Fault>
    ensures { table.new.nodes ≡ table.old.nodes }
{
    for _ in 0..MOST {
        if fields.is_empty() {
            break;
        }
        merge(table, &cert_in(fields.text())?)?;
    }
    Ok(())
}

/// Merges the birth of each node in a range, each with its predecessor as parent.
fn put_line(table: &mut Table, mut fields: RowFields<'_>) -> Result<(), Fault> {
    let first = fields.small()?;
    let last = fields.small()?;
    for node in first..last {
        let cert = Cert {
            subject: NodeId(node),
            seq: 1,
            parent: NodeId(node.saturating_sub(1)),
            dead: false,
            number: 0,
            clients: 0,
        };
        merge(table, &cert)?;
    }
    Ok(())
}

/// Puts the entry of a node, or `-`.
fn put_entry(table: &Table, mut fields: RowFields<'_>, said: &mut String) -> Result<(), Fault> {
    match table.entry(fields.node()?) {
        Some(cert) => {
            put_cert(said, &cert)?;
            Ok(said.push_str(" ")?)
        }
        None => Ok(said.push_str("- ")?),
    }
}

/// Puts the number of the ask by which the second node is a child of the first.
fn put_leased(table: &Table, mut fields: RowFields<'_>, said: &mut String) -> Result<(), Fault> {
    let parent = fields.node()?;
    put_shown(said, &table.leased_by(parent, fields.node()?))
}

/// Puts whether the second node is listed below the first.
fn put_is_listed(table: &Table, mut fields: RowFields<'_>, said: &mut String) -> Result<(), Fault> {
    let root = fields.node()?;
    put_shown(said, &table.is_listed(root, fields.node()?))
}

/// Appends the nodes that are listed below a root, each with its parent.
fn put_listed(table: &Table, mut fields: RowFields<'_>, said: &mut String) -> Result<(), Fault> {
    put_lines(&table.listed(fields.node()?)?, said)
}

/// Appends the number of nodes listed below a root.
fn put_count(table: &Table, mut fields: RowFields<'_>, said: &mut String) -> Result<(), Fault> {
    put_shown(said, &table.listed(fields.node()?)?.len())
}

fn put_lines(listed: &[Line], said: &mut String) -> Result<(), Fault> {
    said.push_str("[")?;
    for line in listed {
        let node = line.node.0;
        let parent = line.parent.0;
        write!(said, " {node}<{parent}")?;
    }
    Ok(said.push_str(" ] ")?)
}

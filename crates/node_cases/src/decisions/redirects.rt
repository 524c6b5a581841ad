//! Redirection: the node that a client is sent to.

ghost use Rattle.std.specs.Prelude.{◌≡◌};

use crate::decisions::tables::table_in;
use oc_base::Slots;
use oc_updown::{Table, select};
use std::alloc::Global;
use test_tools::{Fault, RowFields, put_shown};

/// An upper bound on the nodes of a row.
const MOST: u32 = 2000;

/// Puts the words of a row: the node, or `None`.
pub fn put_words(alloc: Global, given: &str, said: &mut String) -> Result<(), Fault> {
    let mut fields = RowFields::of(given, ' ');
    let nodes = fields.small()?;
    if nodes < 1 || 1024 < nodes {
        return Err(Fault::Field);
    }
    let table = table_in(alloc, nodes, fields.list())?;
    put_node(alloc, &table, fields, said)
}

/// Puts the node to which one of a table sends a client.
fn put_node(
    alloc: Global,
    table: &Table,
    mut fields: RowFields<'_>,
    said: &mut String,
) -> Result<(), Fault> {
    let me = fields.node()?;
    let chain = fields.small()?;
    let areas = bytes_in(alloc, fields.list())?;
    let counts = rows_of(alloc, &fields.numbers(alloc)?)?;
    let area = fields.byte()?;
    let nodes = table.rows().len();
    if areas.len() != nodes || counts.len() != nodes {
        return Err(Fault::Field);
    }
    put_shown(said, &select(table, me, chain, &areas, &counts, area))
}

/// These numbers, by their place.
fn rows_of(alloc: Global, numbers: &[u64]) -> Result<Slots<u64>, Fault> {
    let mut rows = Slots::new(alloc, numbers.len(), 0)?;
    rows.reserve()?;
    for (place, number) in numbers.iter().enumerate() {
        if place < rows.len() {
            rows.put(place, *number);
        }
    }
    Ok(rows)
}

/// The numbers of the fields, each of 8 bits.
fn bytes_in(alloc: Global, mut fields: RowFields<'_>) -> Result<Vec<u8>, Fault> {
    let mut bytes = Vec::new(alloc);
    for _ in 0..MOST {
        if fields.is_empty() {
            break;
        }
        bytes.push(fields.byte()?)?;
    }
    Ok(bytes)
}

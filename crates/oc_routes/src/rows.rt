//! The rows of a table, and those that are listed.

ghost use Rattle.std.specs.Prelude.{◌≡◌, ◌++◌, map, IfOk, OnOk};
ghost use Rattle.oc_routes.specs.Rows.{after_row, is_first, marked, row_of, rows_of, rows_told};
ghost use Rattle.oc_routes.specs.Sights.{sight_of};
ghost use Rattle.oc_updown.specs.TableView.{AreTableRows};

use crate::seen::Seen;
use crate::sights::is_left_out;
use oc_base::{Cert, Line, Memory, NodeId, Slots};
use oc_updown::Table;
use std::alloc::Global;

/// A row of a table.
#[derive(Clone, Copy)]
pub(crate) struct Row {
    pub(crate) cert: Cert,
    /// Whether the node of the row is listed.
    pub(crate) listed: bool,
}

/// The rows of the table of a node. The listed ones are found for all rows together.
pub(crate) fn rows_of(alloc: Global, table: &Table, me: NodeId) -> Result<Vec<Row>, Memory>
    ensures { IfOk result (λ made. made.items ≡ rows_of table.now.entries me) }
{
    let lines = table.listed(me)?;
    let mut made = Vec::new(alloc);
    push_rows(&mut made, table.rows(), &lines)?;
    Ok(made)
}

/// The rows of the status: without those of nodes that are retired and not listed.
pub(crate) fn rows_told(alloc: Global, seen: &Seen<'_>) -> Result<Vec<Row>, Memory>
    ensures { IfOk result (λ told. told.items ≡ rows_told (sight_of seen.now)) }
{
    let rows = rows_of(alloc, seen.node.table(), seen.node.id())?;
    let mut told = Vec::with_capacity(alloc, rows.len())?;
    for row in &rows {
        if !is_left_out(seen, row.cert.subject, row.listed) {
            told.push(*row)?;
        }
    }
    Ok(told)
}

/// Puts each row at the end; the lines are those of the listed nodes, ascending as the rows are.
fn push_rows(made: &mut Vec<Row>, rows: &Slots<Option<Cert>>, lines: &[Line]) -> Result<(), Memory>
    requires { AreTableRows rows.now }
    ensures { OnOk result (made.new.items ≡ made.old.items ++ marked rows.now.items (map (λ line. line.node) lines.now)) }
{
    let mut rest = lines;
    for index in 0..rows.used() {
        let row = rows.get_or(index, None);
        let listed = is_first(&row, rest);
        push_row(made, &row, listed)?;
        rest = after_row(listed, rest);
    }
    Ok(())
}

/// Whether the node of a row has the first of these lines.
fn is_first(row: &Option<Cert>, lines: &[Line]) -> bool
    ensures { result ≡ is_first row.now (map (λ line. line.node) lines.now) }
{
    match (row, lines) {
        (Some(cert), [line, ..]) => line.node == cert.subject,
        _ => false,
    }
}

/// The lines without the first, where that was of the row.
fn after_row(listed: bool, lines: &[Line]) -> &[Line]
    ensures { map (λ line. line.node) result.now ≡ after_row listed (map (λ line. line.node) lines.now) }
{
    match lines {
        [_, rest @ ..] if listed => rest,
        _ => lines,
    }
}

/// Puts a row at the end, if it has a certificate.
fn push_row(made: &mut Vec<Row>, row: &Option<Cert>, listed: bool) -> Result<(), Memory>
    ensures { OnOk result (made.new.items ≡ made.old.items ++ row_of row.now listed) }
{
    if let Some(cert) = row {
        made.push(Row {
            cert: *cert,
            listed,
        })?;
    }
    Ok(())
}

ghost use Rattle.std.specs.Prelude.{◌≡◌, ◌-◌, ◌≤◌, ◌++◌, None, length, IfOk, IfSome, OnOk};
ghost use Rattle.std.specs.Option.{option_to_list};
ghost use Rattle.oc_model.specs.Numbers.{at};
ghost use Rattle.oc_model.specs.Status.{listing};
ghost use Rattle.oc_updown.specs.Listing.{line_in, lines_of_row, is_beneath, AreKnown};
ghost use Rattle.oc_updown.specs.TableView.{AreRows, AreTableRows, entries_of};
ghost use Rattle.oc_base.specs.Lawful.{IsNode};

use crate::post::Post;
use crate::rows::parent_of;
use oc_base::{Cert, Line, Memory, NodeId, Slots};
use std::alloc::Global;

/// The partial result for a node: whether it is listed, if a walk has found out.
fn known_of(known: &[Option<bool>], node: NodeId) -> Option<bool>
    requires { IsNode (length known.now) node }
    ensures { result ≡ at known.now node None }
{
    known[node.index()]
}

/// Whether the way up from a node comes to the root. The walk ends at the first node with a known result.
fn climb(rows: &Slots<Option<Cert>>, known: &[Option<bool>], root: NodeId, node: NodeId) -> bool
    requires rows { AreRows rows.now.items }
    requires node { IsNode (length rows.now.items) node }
    requires places { length known.now ≡ length rows.now.items }
    requires known { AreKnown (entries_of rows.now.items) root known.now }
    ensures { result ≡ is_beneath (entries_of rows.now.items) root node }
{
    let mut place = node;
    let mut post = Post::at(node);
    for _ in 0..rows.len() {
        if let Some(listed) = known_of(known, place) {
            return listed;
        }
        match parent_of(rows, place) {
            None => return false,
            Some(parent) if parent == root => return true,
            Some(parent) if parent == post.node => return false,
            Some(parent) => {
                place = parent;
                post = post.after(parent);
            }
        }
    }
    false
}

/// Notes the result for all nodes on the way up from a node, up to the first one that had a result.
fn note_way(
    rows: &Slots<Option<Cert>>,
    known: &mut [Option<bool>],
    root: NodeId,
    node: NodeId,
    listed: bool,
)
    requires rows { AreRows rows.now.items }
    requires node { IsNode (length rows.now.items) node }
    requires places { length known.old ≡ length rows.now.items }
    requires known { AreKnown (entries_of rows.now.items) root known.old }
    requires listed { is_beneath (entries_of rows.now.items) root node ≡ listed }
    ensures { AreKnown (entries_of rows.now.items) root known.new }
{
    let mut place = node;
    for _ in 0..rows.len() {
        if known_of(known, place).is_some() {
            return;
        }
        known[place.index()] = Some(listed);
        match parent_of(rows, place) {
            Some(parent) if parent != root => place = parent,
            _ => return,
        }
    }
}

/// The line of a node, if it is listed beneath the root.
fn line_of(
    rows: &Slots<Option<Cert>>,
    known: &mut [Option<bool>],
    root: NodeId,
    node: NodeId,
) -> Option<Line>
    requires rows { AreRows rows.now.items }
    requires node { IsNode (length rows.now.items) node }
    requires places { length known.old ≡ length rows.now.items }
    requires known { AreKnown (entries_of rows.now.items) root known.old }
    ensures line { result ≡ line_in (entries_of rows.now.items) root node }
    ensures known { AreKnown (entries_of rows.now.items) root known.new }
{
    let listed = climb(rows, known, root, node);
    note_way(rows, known, root, node, listed);
    if node == root || !listed {
        return None;
    }
    match parent_of(rows, node) {
        Some(parent) => Some(Line { node, parent }),
        None => None,
    }
}

/// Adds a line at the end, if there is one.
fn push_line(lines: &mut Vec<Line>, line: Option<Line>) -> Result<(), Memory>
    ensures { OnOk result (lines.new.items ≡ lines.old.items ++ option_to_list line) }
{
    if let Some(line) = line {
        lines.push(line)?;
    }
    Ok(())
}

/// The line of the node of a row.
fn line_of_row(
    rows: &Slots<Option<Cert>>,
    known: &mut [Option<bool>],
    root: NodeId,
    row: &Option<Cert>,
) -> Option<Line>
    requires rows { AreRows rows.now.items }
    requires row { IfSome row.now (λ cert. IsNode (length rows.now.items) cert.subject) }
    requires places { length known.old ≡ length rows.now.items }
    requires known { AreKnown (entries_of rows.now.items) root known.old }
    ensures line { option_to_list result ≡ lines_of_row (entries_of rows.now.items) root row.now }
    ensures known { AreKnown (entries_of rows.now.items) root known.new }
{
    match row {
        Some(cert) => line_of(rows, known, root, cert.subject),
        None => None,
    }
}

/// Adds the lines of all nodes listed beneath the root, ascending. All walks together look at each row
/// a few times.
fn push_lines(
    lines: &mut Vec<Line>,
    rows: &Slots<Option<Cert>>,
    known: &mut [Option<bool>],
    root: NodeId,
) -> Result<(), Memory>
    requires rows { AreTableRows rows.now }
    requires places { length known.old ≡ length rows.now.items }
    requires known { AreKnown (entries_of rows.now.items) root known.old }
    ensures { OnOk result (lines.new.items ≡ lines.old.items ++ listing (entries_of rows.now.items) root) }
{
    for place in 0..rows.used() {
        let row = rows.get_or(place, None);
        push_line(lines, line_of_row(rows, known, root, &row))?;
    }
    Ok(())
}

/// The lines of all nodes listed beneath the root, ascending.
#[tactic(auto, using(crate::proofs::Climbs::none_known))]
pub(crate) fn lines_of(
    alloc: Global,
    rows: &Slots<Option<Cert>>,
    root: NodeId,
) -> Result<Vec<Line>, Memory>
    requires { AreTableRows rows.now }
    ensures { IfOk result (λ lines. lines.items ≡ listing (entries_of rows.now.items) root) }
{
    let mut known = vec![in alloc; None; rows.len()]?;
    let mut lines = Vec::new(alloc);
    push_lines(&mut lines, rows, &mut known, root)?;
    Ok(lines)
}

//! The block of `show`: the state of a node.

ghost use Rattle.std.specs.Prelude.{◌≡◌, ◌++◌, OnOk, IfOk};
ghost use Rattle.oc_replay.specs.Shows.{list_line, mode_text, node_line, show_text, state_text};

use crate::bodies::put_rank_or_dash;
use crate::items::{ListItem, put_list};
use crate::texts::{put_byte, put_byte_number};
use oc_base::{Memory, NodeId, put, put_with_number};
use oc_model::{Mode, NodeStatus};
use std::alloc::Global;

/// The block of `show`, as a text of its own.
pub fn show_text(alloc: Global, node: NodeId, status: &NodeStatus) -> Result<Vec<u8>, Memory>
    ensures { IfOk result (λ text. text.items ≡ show_text node status.now) }
{
    let mut text = Vec::new(alloc);
    put_show(&mut text, node, status)?;
    Ok(text)
}

/// Appends the block of `show`: four lines on the state of a node.
pub fn put_show(out: &mut Vec<u8>, node: NodeId, status: &NodeStatus) -> Result<(), Memory>
    ensures { OnOk result (out.new.items ≡ out.old.items ++ show_text node status.now) }
{
    put_node_line(out, node, status)?;
    put_list_line(out, "ancestors", status.ancestors.items())?;
    put_list_line(out, "table", status.table.items())?;
    put_list_line(out, "listed", status.listed.items())?;
    Ok(())
}

/// Appends `  WORD [..]`.
fn put_list_line<I: ListItem>(out: &mut Vec<u8>, word: &str, items: &[I]) -> Result<(), Memory>
    ensures { OnOk result (out.new.items ≡ out.old.items ++ list_line word.now I.text items.now) }
{
    put(out, b"  ")?;
    put(out, word.as_bytes())?;
    put_byte(out, b' ')?;
    put_list(out, items)?;
    put_byte(out, b'\n')
}

/// Appends `  node N STATE MODE seq S rank RANK log A/L`.
fn put_node_line(out: &mut Vec<u8>, node: NodeId, status: &NodeStatus) -> Result<(), Memory>
    ensures { OnOk result (out.new.items ≡ out.old.items ++ node_line node status.now) }
{
    put_with_number(out, b"  node ", u64::from(node.0))?;
    put_byte(out, b' ')?;
    put(out, state_word(status.up).as_bytes())?;
    put_byte(out, b' ')?;
    put_mode(out, status.mode)?;
    put_with_number(out, b" seq ", status.seq)?;
    put(out, b" rank ")?;
    put_rank_or_dash(out, status.rank)?;
    put_with_number(out, b" log ", status.acked)?;
    put_byte_number(out, b'/', status.length)?;
    put_byte(out, b'\n')
}

/// The word for a node that is up or down.
fn state_word(up: bool) -> &'static str
    ensures { result.now ≡ state_text up }
{
    if up { "up" } else { "down" }
}

/// Appends a node's position in the tree.
pub fn put_mode(out: &mut Vec<u8>, mode: Mode) -> Result<(), Memory>
    ensures { OnOk result (out.new.items ≡ out.old.items ++ mode_text mode) }
{
    match mode {
        Mode::Idle => put(out, b"idle"),
        Mode::Asking(peer) => put_with_number(out, b"asking ", u64::from(peer.0)),
        Mode::Joined(parent) => put_with_number(out, b"joined ", u64::from(parent.0)),
        Mode::Acting => put(out, b"acting"),
    }
}

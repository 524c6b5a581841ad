//! The text of a node.

ghost use Rattle.std.specs.Prelude.{◌≡◌, ◌++◌, false, IfOk};
ghost use Rattle.oc_replay.specs.Lines.{held_text};
ghost use Rattle.oc_replay.specs.Shows.{show_text};
ghost use Rattle.oc_model.specs.Status.{status_of};

use oc_base::{Memory, NodeId, put};
use oc_io::Disk;
use oc_keep::{Kept, status_of};
use oc_replay::{held_text, show_text};
use std::alloc::Global;

/// The block of `show` of a node that is down, and its block of `held`.
pub(crate) fn show<D: Disk>(alloc: Global, kept: &Kept<D>, id: NodeId) -> Result<Vec<u8>, Memory>
    ensures { IfOk result (λ text. text.items
        ≡ show_text id (status_of kept.now.node.control false) ++ held_text kept.now.content.shelves) }
{
    let status = status_of(kept, false)?;
    let mut text = show_text(alloc, id, &status)?;
    let held = held_text(alloc, kept.shelf())?;
    put(&mut text, &held)?;
    Ok(text)
}

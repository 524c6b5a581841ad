//! A node loaded from its files, to be shown.

ghost use Rattle.std.specs.Prelude.{◌≡◌, ◌++◌, false, IfErr, IfOk, replicate};
ghost use Rattle.oc_base.specs.Lawful.{IsNode};
ghost use Rattle.oc_commands.specs.Checks.{AreSizes, Shows};
ghost use Rattle.oc_schedule.specs.Lines.{header_without_areas};
ghost use Rattle.oc_keep.specs.Errors.{IsOutOfMemory};
ghost use Rattle.oc_keep.specs.Files.{AreHonest, OneRose, disks_in};
ghost use Rattle.oc_base.specs.Groups.{shelf};
ghost use Rattle.oc_keep.specs.KeptView.{IsHonest, node_of};
ghost use Rattle.oc_keep.specs.Promises.{HoldFiles, LoadsSafely, RefusesNode};
ghost use Rattle.oc_replay.specs.Lines.{held_text};
ghost use Rattle.oc_replay.specs.Shows.{show_text};
ghost use Rattle.oc_model.specs.Status.{status_of};

use crate::showing::show;
use oc_base::{Memory, NodeId};
use oc_io::Disk;
use oc_keep::{Files, KeepLoad, Kept, Seat};
use oc_model::{Header, Sizes};
use std::alloc::Global;

/// The text of a node's files, and the files.
#[derive(Drop)]
pub struct Recovered<D: Disk> {
    pub files: Files<D>,
    /// The text of the node, or the reason why there is none.
    pub text: Result<Vec<u8>, KeepLoad>,
}

/// The block of `show` and the block of `held` of the node with this id in a network of these sizes, as its first control file,
/// its second one and its content file recover it. Its areas are 0.
pub fn recovered_text<D: Disk>(
    alloc: Global,
    id: NodeId,
    sizes: Sizes,
    files: Files<D>,
) -> Recovered<D>
    requires sizes { AreSizes sizes }
    requires id { IsNode sizes.nodes id }

    // The text is that of the node that the files recover.
    ensures shows { IfOk result.text (λ text. Shows D.view (header_without_areas sizes) id (disks_in files) text.items) }

    // The refusals, each with its cause.
    ensures refuses { IfErr result.text (λ error. RefusesNode D.view sizes.nodes (disks_in files) (disks_in result.files) error) }

    // A crash at any moment leaves the files as a crash at the start would have left them.
    ensures safely { LoadsSafely D.view (header_without_areas sizes) id (disks_in files) (disks_in result.files) }

    // The files of a node on honest disks are shown, unless a disk fails or memory runs out.
    ensures complete { IfErr result.text (λ error. AreHonest D.view (disks_in files)
        → HoldFiles D.view sizes.nodes (disks_in files)
        → (OneRose D.view (disks_in files) (disks_in result.files) → ⊥)
        → IsOutOfMemory error) }
{
    let areas = match no_areas(alloc, sizes.nodes) {
        Ok(areas) => areas,
        Err(Memory) => {
            return Recovered {
                files,
                text: Err(KeepLoad::Memory),
            };
        }
    };
    let seat = Seat {
        id,
        header: Header { sizes, areas },
    };
    match Kept::load(alloc, files, seat) {
        Ok(kept) => {
            let text = text_of(alloc, &kept, id);
            let (control, alternate, content) = kept.into_disks();
            let files = Files {
                control,
                alternate,
                content,
            };
            Recovered { files, text }
        }
        Err((files, error)) => Recovered {
            files,
            text: Err(error),
        },
    }
}

/// The text of a node that was loaded.
fn text_of<D: Disk>(alloc: Global, kept: &Kept<D>, id: NodeId) -> Result<Vec<u8>, KeepLoad>
    ensures text { IfOk result (λ text. text.items
        ≡ show_text id (status_of kept.now.node.control false) ++ held_text kept.now.content.shelves) }
    ensures memory { IfErr result (λ error. error ≡ KeepLoad.Memory) }
    ensures groups { IsHonest D.view kept.now → kept.now.content.shelves ≡ shelf (node_of kept.now).groups }
{
    kept.recovers();
    match show(alloc, kept, id) {
        Ok(text) => Ok(text),
        Err(Memory) => Err(KeepLoad::Memory),
    }
}

/// An area of 0 for each node.
fn no_areas(alloc: Global, nodes: u32) -> Result<Vec<u8>, Memory>
    ensures { IfOk result (λ areas. areas.items ≡ replicate nodes 0) }
{
    Ok(vec![in alloc; 0; nodes as usize]?)
}

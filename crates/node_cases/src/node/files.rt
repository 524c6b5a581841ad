//! The files of a node, and the node that is loaded from them.
//!
//! Dropping a node or its files by a call of `drop` needs less proof than letting them go out of
//! scope.

use crate::node::inputs::NODES;
use oc_base::{NodeId, USUAL_CHUNK_BYTES};
use oc_io::Disk;
use oc_keep::{Files, KeepLoad, Kept, Node, Seat};
use oc_model::{Header, Sizes};
use std::alloc::Global;
use test_tools::{Fault, NodeDisks, RowDisk, put_disk, put_shelf};

/// A node of these files, or the disks and the error. The chain is 1, and each node has area 0.
pub fn load<D: Disk + Drop>(
    alloc: Global,
    me: NodeId,
    files: NodeDisks<D>,
) -> Result<Result<Kept<D>, (NodeDisks<D>, KeepLoad)>, Fault> {
    if me.0 < 1 || me.0 > NODES {
        return Err(Fault::Field);
    }
    let seat = Seat {
        id: me,
        header: Header {
            sizes: Sizes {
                nodes: NODES,
                chain: 1,
                chunk: USUAL_CHUNK_BYTES,
            },
            areas: vec![in alloc; 0, 0, 0]?,
        },
    };
    let NodeDisks {
        control,
        alternate,
        content,
    } = files;
    let files = Files {
        control,
        alternate,
        content,
    };
    match Kept::load(alloc, files, seat) {
        Ok(kept) => Ok(Ok(kept)),
        Err((files, error)) => Ok(Err((handed_back(files), error))),
    }
}

/// The disks of files that were given back.
pub fn handed_back<D: Disk>(files: Files<D>) -> NodeDisks<D> {
    let Files {
        control,
        alternate,
        content,
    } = files;
    NodeDisks {
        control,
        alternate,
        content,
    }
}

/// Appends one view of a node's files after a crash: `node`, the recovered node; `control`,
/// `alternate` or `content`, the bytes of that file; or nothing.
pub fn show<D: RowDisk>(
    alloc: Global,
    shown: &str,
    me: NodeId,
    files: NodeDisks<D>,
    said: &mut String,
) -> Result<(), Fault> {
    let files = files.crashed();
    match shown {
        "node" => put_node(alloc, me, files, said),
        "control" => put_disk(alloc, said, files.control),
        "alternate" => put_disk(alloc, said, files.alternate),
        "content" => put_disk(alloc, said, files.content),
        _ => Ok(()),
    }
}

/// Appends the durable part of the node recovered from these files.
fn put_node<D: Disk + Drop>(
    alloc: Global,
    me: NodeId,
    files: NodeDisks<D>,
    said: &mut String,
) -> Result<(), Fault> {
    match load(alloc, me, files)? {
        Ok(kept) => {
            let put = put_kept(&kept, said);
            drop(kept);
            put
        }
        Err((files, _)) => {
            drop(files);
            Err(Fault::Unready)
        }
    }
}

/// Puts the records of a snapshot of the generation, and the groups.
fn put_kept<D: Disk>(kept: &Kept<D>, said: &mut String) -> Result<(), Fault> {
    put_snapshot(kept.node(), kept.generation(), said)?;
    put_shelf(said, kept.shelf())
}

fn put_snapshot(node: &Node, generation: u64, said: &mut String) -> Result<(), Fault> {
    let list = node.snapshot(generation)?;
    Ok(write!(said, "{list:?} ")?)
}

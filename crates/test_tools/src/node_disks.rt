use crate::fault::Fault;
use crate::row_disk::RowDisk;
use std::alloc::Global;

/// The disks of a node's three files.
#[derive(Drop)]
pub struct NodeDisks<D> {
    pub control: D,
    pub alternate: D,
    pub content: D,
}

impl<D: RowDisk> NodeDisks<D> {
    /// The disks of these texts.
    pub fn of(
        alloc: Global,
        control: &str,
        alternate: &str,
        content: &str,
    ) -> Result<NodeDisks<D>, Fault> {
        Ok(NodeDisks {
            control: D::of(alloc, control)?,
            alternate: D::of(alloc, alternate)?,
            content: D::of(alloc, content)?,
        })
    }

    /// The disks after a crash.
    pub fn crashed(self) -> NodeDisks<D> {
        NodeDisks {
            control: self.control.crashed(),
            alternate: self.alternate.crashed(),
            content: self.content.crashed(),
        }
    }
}

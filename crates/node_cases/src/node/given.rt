//! The input of a row.

use oc_base::NodeId;
use std::alloc::Global;
use test_tools::{Fault, NodeDisks, RowDisk, RowFields};

/// The input of a row: the view to show at its end, the id of the node, its three files, and steps.
#[derive(Clone, Copy)]
pub struct Given<'a> {
    pub shown: &'a str,
    pub me: &'a str,
    pub control: &'a str,
    pub alternate: &'a str,
    pub content: &'a str,
    pub steps: RowFields<'a>,
}

impl<'a> Given<'a> {
    /// The input in these words.
    pub fn of(words: &'a str) -> Given<'a> {
        let mut fields = RowFields::of(words, ' ');
        Given {
            shown: fields.text(),
            me: fields.text(),
            control: fields.text(),
            alternate: fields.text(),
            content: fields.text(),
            steps: fields,
        }
    }

    /// The id of the node.
    pub fn id(&self) -> Result<NodeId, Fault> {
        RowFields::of(self.me, ' ').node()
    }

    /// The disks of the three files.
    pub fn files<D: RowDisk>(&self, alloc: Global) -> Result<NodeDisks<D>, Fault> {
        NodeDisks::of(alloc, self.control, self.alternate, self.content)
    }
}

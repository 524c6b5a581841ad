use crate::disks::disk_in;
use crate::fault::Fault;
use oc_io::{Disk, MemDisk};
use std::alloc::Global;

/// A disk that a row describes, and that can crash. The code that plays the rows is generic over
/// it, since dropping a disk of a parameter type needs less proof.
pub trait RowDisk: Disk + Drop {
    /// The disk of a text.
    fn of(alloc: Global, text: &str) -> Result<Self, Fault>;

    /// The disk after a crash.
    fn crashed(self) -> Self;
}

impl RowDisk for MemDisk {
    fn of(alloc: Global, text: &str) -> Result<MemDisk, Fault> {
        disk_in(alloc, text)
    }

    fn crashed(self) -> MemDisk {
        self.crash()
    }
}

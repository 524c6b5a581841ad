//! The state of a node: running on its files, or down.

ghost use Rattle.std.specs.Prelude.{◌≡◌, [], true, IfOk};
ghost use Rattle.oc_io.specs.MemDiskView.{disk_of};
ghost use Rattle.oc_world.specs.ProcessState.{is_running};

use oc_base::Memory;
use oc_io::{Disk, MemDisk};
use oc_keep::{Files, Kept};
use std::alloc::Global;
use std::mem;

/// A node that runs on its files, or the files of a node that is down. A node that is down has no
/// state in memory.
#[derive(Drop)]
pub(crate) enum ProcessState<D: Disk> {
    Running(Kept<D>),
    Stopped(Files<D>),
}

impl<D: Disk + Drop> ProcessState<D> {
    /// Replaces the state.
    pub(crate) fn set(&mut self, next: ProcessState<D>)
        ensures { self.new ≡ next }
    {
        *self = next;
    }

    /// Takes out the node that runs, and puts these files in its place.
    pub(crate) fn take_running(&mut self, left: Files<D>) -> Kept<D>
        requires { is_running self.old ≡ true }
        ensures { self.old ≡ ProcessState.Running result }
    {
        match mem::replace(self, ProcessState::Stopped(left)) {
            ProcessState::Running(kept) => kept,
            ProcessState::Stopped(_) => unreachable!(),
        }
    }
}

/// Three empty files. Takes no memory.
pub(crate) fn empty_files(alloc: Global) -> Files<MemDisk>
    ensures control { result.control ≡ disk_of [] }
    ensures alternate { result.alternate ≡ disk_of [] }
    ensures content { result.content ≡ disk_of [] }
{
    Files {
        control: MemDisk::new(Vec::new(alloc)),
        alternate: MemDisk::new(Vec::new(alloc)),
        content: MemDisk::new(Vec::new(alloc)),
    }
}

/// Copies of files, with all bytes synced.
pub(crate) fn copied(files: &Files<MemDisk>) -> Result<Files<MemDisk>, Memory>
    ensures control { IfOk result (λ copy. copy.control ≡ disk_of files.now.control.bytes) }
    ensures alternate { IfOk result (λ copy. copy.alternate ≡ disk_of files.now.alternate.bytes) }
    ensures content { IfOk result (λ copy. copy.content ≡ disk_of files.now.content.bytes) }
{
    Ok(Files {
        control: files.control.copy()?,
        alternate: files.alternate.copy()?,
        content: files.content.copy()?,
    })
}

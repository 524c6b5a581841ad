//! The stop of a node, and the files it leaves.

ghost use Rattle.std.specs.Prelude.{◌&&◌, ◌≤◌, if◌then◌else◌};
ghost use Rattle.oc_base.specs.Stops.{is_kept_new};
ghost use Rattle.oc_keep.specs.KeptView.{node_of};
ghost use Rattle.oc_keep.specs.ReadyView.{CanCommit, is_written, outcome_of};
ghost use Rattle.oc_io.specs.MemDiskView.{view_of};
ghost use Rattle.oc_world.specs.ProcessState.{IsLeft, IsOpen};

use oc_io::MemDisk;
use oc_keep::{Files, Kept, Ready};

/// Crashes a node that runs, between two inputs.
pub(crate) fn crash(kept: Kept<MemDisk>) -> Files<MemDisk>
    requires { IsOpen view_of kept }
    ensures { IsLeft kept.node.control (node_of kept) result }
{
    let (control, alternate, content) = kept.into_disks();
    Files {
        control: control.crash(),
        alternate: alternate.crash(),
        content: content.crash(),
    }
}

/// Stops a node that runs, in an input that was prepared, once `calls` of the calls that write its
/// frame have worked; the byte `image` is found at each place that was written and not synced.
pub(crate) fn stop(kept: Kept<MemDisk>, ready: Ready, calls: u8, image: u8) -> Files<MemDisk>
    requires open { IsOpen view_of kept }
    requires ready { CanCommit view_of kept ready }
    requires calls { calls ≤ 4 }
    ensures { IsLeft kept.node.control
        (if is_written ready.write && is_kept_new calls image then (outcome_of (node_of kept) ready).node else node_of kept) result }
{
    let (control, alternate, content) = kept.commit_stopped(ready, calls, image);
    Files {
        control,
        alternate,
        content,
    }
}

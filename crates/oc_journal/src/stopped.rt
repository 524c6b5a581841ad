ghost use Rattle.std.specs.Prelude.{◌≡◌, ℕ, ◌+◌, ◌^◌, ◌<◌, ◌≤◌, [], ◌∷◌, false, length, IsSome, OnOk, OnErr};
ghost use Rattle.oc_io.specs.MemDiskView.{disk_of, view_of, wrote, synced};
ghost use Rattle.oc_journal.specs.JournalFile.{frames_of, IsJournalOf};
ghost use Rattle.oc_journal.specs.JournalView.{IsSettled};
ghost use Rattle.oc_journal.specs.Stopped.{IsCut, frames_after, left_of, image_of};

use crate::frame::Frame;
use oc_io::{Disk, Failed, MemDisk};

/// Makes the calls of `append` up to the stop of the disk: writes a frame after the present frames, which
/// end at that offset, and opens the gate before it. Then it crashes the disk.
pub fn write_until_stop(mut disk: MemDisk, end: u64, frame: &Frame) -> MemDisk
    requires stop { IsSome disk.failing.stop }
    requires left { left_of disk.failing.stop ≤ 4 }
    requires no_fault { disk.failing.calls.listed ≡ [] }
    requires settled { IsSettled (view_of disk) end }
    requires size { end < length disk.bytes }
    requires fits { end < 2 ^ 63 }
    requires room { length frame.now + 6 ≤ disk.room }
    requires calls { 4 ≤ disk.calls }
    ensures fresh { result ≡ disk_of result.bytes }
    ensures left { IsJournalOf (frames_after (left_of disk.failing.stop) (image_of disk.failing.stop) (frames_of disk.bytes) frame.now)
        result.bytes }
{
    let Ok(()) = write_and_sync(&mut disk, end + 1, frame.bytes()) else {
        return disk.crash();
    };
    let Ok(()) = write_and_sync(&mut disk, end, &[1]) else {
        return disk.crash();
    };
    disk.crash()
}

/// Writes and syncs, up to the stop.
fn write_and_sync(disk: &mut MemDisk, at: u64, bytes: &[u8]) -> Result<(), Failed>
    requires stop { IsSome disk.old.failing.stop }
    requires no_fault { disk.old.failing.calls.listed ≡ [] }
    requires within { at ≤ length disk.old.bytes }
    requires room { length bytes.now ≤ disk.old.room }
    requires calls { 2 ≤ disk.old.calls }
    ensures ok { OnOk result
        ((2 ≤ left_of disk.old.failing.stop) × (disk.new ≡ synced (wrote disk.old at bytes.now))) }
    ensures err { OnErr result (IsCut disk.old at bytes.now disk.new) }
{
    disk.write_at(at, bytes)?;
    disk.sync()
}

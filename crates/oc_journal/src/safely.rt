ghost use Rattle.std.specs.Prelude.{◌≡◌, ℕ, ◌+◌, ◌^◌, ◌<◌, ◌≤◌, IsTrue, length, take, drop, OnOk, OnErr};
ghost use Rattle.oc_io.specs.DiskView.{IsSafe, Takes, Fails, LeavesOnly};
ghost use Rattle.oc_journal.specs.JournalFile.{frames_of, IsBeforeOrAfter, IsAllOrNone};
ghost use Rattle.oc_journal.specs.JournalView.{IsSettled, IsLikeAnImage};
ghost use Rattle.oc_journal.specs.Written.{AddsFrame, ClearsFrames, BeginsFile};

use crate::frame::Frame;
use crate::write_safely;
use oc_io::{Disk, Failed};

/// The file of a journal without frames: the magic and a closed gate.
pub const HEADER: [u8; 9] = *b"OVERCST1\0";

/// The offset of the first gate.
pub const FIRST_GATE: u64 = 8;

/// Writes a frame after the present frames, which end at that offset, and opens the gate before it.
pub fn write_frame<D: Disk>(disk: &mut D, end: u64, frame: &Frame) -> Result<(), Failed>
    requires size { end < (D.view disk.old).size }
    requires settled { IsTrue (D.view disk.old).honest → IsSettled (D.view disk.old) end }
    requires fits { end < 2 ^ 63 }
    ensures takes { Takes (length frame.now + 6) 4 (D.view disk.old) (D.view disk.new) }
    ensures adds { OnOk result (AddsFrame frame.now end (D.view disk.old) (D.view disk.new)) }
    ensures size { OnOk result (end + 5 + length frame.now < (D.view disk.new).size) }

    // The bytes before the gate do not change.
    ensures front { IsTrue (D.view disk.old).honest
        → take end (D.view disk.new).seen ≡ take end (D.view disk.old).seen }
    ensures no_smaller { (D.view disk.old).size ≤ (D.view disk.new).size }
    ensures any_moment { IsTrue (D.view disk.old).honest
        → LeavesOnly (D.view disk.old) (D.view disk.new)
        (IsBeforeOrAfter (frames_of (D.view disk.old).seen) frame.now) }
    ensures fails { OnErr result (Fails (length frame.now + 6) 4 (D.view disk.old) (D.view disk.new)) }
{
    write_safely(disk, end + 1, frame.bytes())?;
    write_safely(disk, end, &[1])
}

/// Closes the first gate of a file that has frames.
pub fn close_first_gate<D: Disk>(disk: &mut D) -> Result<(), Failed>
    requires size { 8 < (D.view disk.old).size }
    requires settled { IsTrue (D.view disk.old).honest
        → (end : ℕ) × IsSettled (D.view disk.old) end × (0 < length (frames_of (D.view disk.old).seen)) }
    ensures takes { Takes 1 2 (D.view disk.old) (D.view disk.new) }
    ensures clears { OnOk result (ClearsFrames (D.view disk.old) (D.view disk.new)) }

    // The bytes after the gate do not change.
    ensures behind { IsTrue (D.view disk.old).honest
        → drop 9 (D.view disk.new).seen ≡ drop 9 (D.view disk.old).seen }
    ensures no_smaller { (D.view disk.old).size ≤ (D.view disk.new).size }
    ensures any_moment { IsTrue (D.view disk.old).honest
        → LeavesOnly (D.view disk.old) (D.view disk.new)
        (IsAllOrNone (frames_of (D.view disk.old).seen)) }
    ensures fails { OnErr result (Fails 1 2 (D.view disk.old) (D.view disk.new)) }
{
    write_safely(disk, FIRST_GATE, &[0])
}

/// Writes the header of a new file, whose size is at most that of the header. The room must be reserved.
pub fn write_header<D: Disk>(disk: &mut D) -> Result<(), Failed>
    requires size { (D.view disk.old).size ≤ 9 }
    requires safe { IsTrue (D.view disk.old).honest → IsSafe (D.view disk.old) }
    requires room { 9 ≤ (D.view disk.old).room }
    requires calls { 2 ≤ (D.view disk.old).calls }
    ensures takes { Takes 9 2 (D.view disk.old) (D.view disk.new) }
    ensures begins { OnOk result (BeginsFile (D.view disk.old) (D.view disk.new)) }
    ensures size { OnOk result (8 < (D.view disk.new).size) }
    ensures any_moment { IsTrue (D.view disk.old).honest
        → LeavesOnly (D.view disk.old) (D.view disk.new) (IsLikeAnImage (D.view disk.old)) }
    ensures fails { OnErr result (Fails 9 2 (D.view disk.old) (D.view disk.new)) }
{
    write_safely(disk, 0, &HEADER)
}

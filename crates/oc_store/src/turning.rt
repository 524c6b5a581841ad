ghost use Rattle.std.specs.Prelude.{◌≡◌, ◌<◌, ◌≤◌, length, false, OnOk, OnErr};
ghost use Rattle.oc_store.specs.Turning.{HoldsOnly, ReplacesSafely, FailsToReplace};

use oc_base::MAX_FRAME_BYTES;
use oc_io::{Disk, Failed};
use oc_journal::{AppendError, Frame, Journal};
use std::mem;

/// Writes a snapshot to the other journal, which is open, as its only frame, and makes it the current
/// one. It takes no memory.
pub fn turn_over<D: Disk>(
    current: &mut Journal<D>,
    other: &mut Journal<D>,
    snapshot: &Frame,
) -> Result<(), Failed>
    requires spare { 0 < other.old.spare }
    requires open { other.old.closed ≡ false }
    ensures turned { OnOk result (other.new ≡ current.old) }
    ensures replaces { OnOk result (HoldsOnly D.view snapshot.now other.old current.new) }
    ensures safely { OnOk result (ReplacesSafely D.view snapshot.now other.old current.new) }

    // If a call fails, the current journal is unchanged and the other one is closed.
    ensures stays { OnErr result (current.new ≡ current.old) }
    ensures safely_err { OnErr result (ReplacesSafely D.view snapshot.now other.old other.new) }
    ensures fails { OnErr result (FailsToReplace D.view snapshot.now other.old other.new) }
{
    put_in_place(other, snapshot)?;
    mem::swap(current, other);
    Ok(())
}

/// Replaces the frames of an open journal by this one.
fn put_in_place<D: Disk>(journal: &mut Journal<D>, frame: &Frame) -> Result<(), Failed>
    requires spare { 0 < journal.old.spare }
    requires open { journal.old.closed ≡ false }
    ensures replaces { OnOk result (HoldsOnly D.view frame.now journal.old journal.new) }
    ensures safely { ReplacesSafely D.view frame.now journal.old journal.new }
    ensures fails { OnErr result (FailsToReplace D.view frame.now journal.old journal.new) }
{
    let Ok(()) = journal.restart() else {
        return Err(Failed);
    };
    let len = frame.body_len();
    prove!(len as usize <= MAX_FRAME_BYTES);
    match journal.append(frame) {
        Ok(()) => Ok(()),
        Err(AppendError::Disk) => Err(Failed),
        // The journal is open, and a frame fits a journal without frames.
        Err(AppendError::Closed | AppendError::Full) => unreachable!(),
    }
}

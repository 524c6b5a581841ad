ghost use Rattle.std.specs.Prelude.{◌≡◌, ◌+◌, ◌≤◌, max, IsTrue, length, OnOk, OnErr};
ghost use Rattle.oc_io.specs.DiskView.{Holds, IsTorn, IsSafe, Takes, Fails, HasNoFault, LeavesOnly};

use oc_io::{Disk, Failed};

/// Writes at an offset within the size, and syncs. A journal writes in no other way: on a durable disk a
/// crash leaves at every moment only an image with this one write torn, and after Ok the disk is durable
/// again.
pub fn write_safely<D: Disk>(disk: &mut D, at: u64, bytes: &[u8]) -> Result<(), Failed>
    requires { at ≤ (D.view disk.old).size }
    ensures takes { Takes (length bytes.now) 2 (D.view disk.old) (D.view disk.new) }
    ensures turns { OnOk result (IsTrue (D.view disk.old).honest
        → (D.view disk.new).moment ≡ (D.view disk.old).moment + 2) }
    ensures written { OnOk result (IsTrue (D.view disk.old).honest
        → Holds (D.view disk.old).seen at bytes.now (D.view disk.new).seen) }
    ensures safe { OnOk result (IsTrue (D.view disk.old).honest → IsSafe (D.view disk.new)) }
    ensures any_moment { IsTrue (D.view disk.old).honest → IsSafe (D.view disk.old)
        → LeavesOnly (D.view disk.old) (D.view disk.new) (IsTorn at (length bytes.now) (D.view disk.old).seen) }
    ensures size { OnOk result
        ((D.view disk.new).size ≡ max (D.view disk.old).size (at + length bytes.now)) }
    ensures no_smaller { (D.view disk.old).size ≤ (D.view disk.new).size }
    ensures no_fault { OnOk result (HasNoFault (D.view disk.old) (D.view disk.new)) }
    ensures fails { OnErr result (Fails (length bytes.now) 2 (D.view disk.old) (D.view disk.new)) }
{
    disk.write_at(at, bytes)?;
    disk.sync()
}

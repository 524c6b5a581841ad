ghost use Rattle.std.specs.Prelude.{◌≡◌, ℕ, ◌+◌, ◌-◌, ◌≤◌, max, min, IsTrue, length, take, drop, IfOk, OnOk, OnErr};
ghost use Rattle.oc_io.specs.DiskView.{DiskView, Only, Holds, Tears, AddsNoImage, Elapses, StaysAsItWas, Takes, CannotFail, Fails, FailsToRead, HasNoFault, IsConsistent, IsReliable};
ghost use Rattle.oc_io.specs.Faults.{Rose};

use crate::fault::Failed;
use std::alloc::AllocError;

/// The most bytes that a reliable disk holds together with its spare room: 2^48.
pub const MAX_RELIABLE_BYTES: u64 = 281_474_976_710_656;

/// A file of bytes that may crash at any moment.
///
/// Between two syncs, after a crash each written range and the part past the old end may hold any bytes, and
/// the other bytes are unchanged. After a successful sync a crash leaves the bytes that a read gives. A disk
/// that keeps this is *honest*; a clause about bytes and crashes speaks of honest disks only.
/// Every disk keeps its size, spare room and counts. On a *reliable* disk, which is also honest, no
/// call within the size and the spare room fails. Offsets and sizes are in bytes.
pub trait Disk {
    /// The facts about the disk at one moment.
    ghost view: { Self → DiskView };

    /// The size in bytes.
    fn size(&mut self) -> Result<u64, Failed>
        ensures size { IfOk result (λ size. size ≡ (view self.new).size) }
        ensures size_err { OnErr result ((view self.new).size ≡ (view self.old).size) }
        ensures stays { StaysAsItWas (view self.old) (view self.new) }
        ensures no_fault { OnOk result (HasNoFault (view self.old) (view self.new)) }
        ensures fails { OnErr result (FailsToRead (view self.old) (view self.new)) };

    /// Reads from that offset on into the buffer, up to the size, and answers the number of bytes read.
    /// A read from an offset past the size may fail.
    fn read_at(&mut self, at: u64, buf: &mut [u8]) -> Result<usize, Failed>
        ensures count { IfOk result (λ n. n ≡ min (length buf.old) ((view self.old).size - at)) }
        ensures bytes { IfOk result
            (λ n. IsTrue (view self.old).honest → take n buf.new ≡ take n (drop at (view self.old).seen)) }
        ensures size { (view self.new).size ≡ (view self.old).size }
        ensures stays { StaysAsItWas (view self.old) (view self.new) }
        ensures no_fault { OnOk result (HasNoFault (view self.old) (view self.new)) }
        ensures cause { OnErr result (Rose (view self.old).faults (view self.new).faults) }
        ensures fails { OnErr result
            (at ≤ (view self.old).size → FailsToRead (view self.old) (view self.new)) };

    /// Makes the spare room at least `bytes` bytes and sixteen calls of `write_at` and `sync`.
    fn reserve(&mut self, bytes: u64) -> Result<(), AllocError>
        ensures room { OnOk result (bytes ≤ (view self.new).room) }
        ensures calls { OnOk result (16 ≤ (view self.new).calls) }
        ensures size { (view self.new).size ≡ (view self.old).size }
        ensures stays { StaysAsItWas (view self.old) (view self.new) }
        ensures no_fault { HasNoFault (view self.old) (view self.new) };

    /// Writes from an offset within the size on, over the old bytes and past the end. Until a sync, a
    /// crash may leave any bytes in the range.
    fn write_at(&mut self, at: u64, bytes: &[u8]) -> Result<(), Failed>
        requires { at ≤ (view self.old).size }
        ensures takes { Takes (length bytes.now) 1 (view self.old) (view self.new) }
        ensures time { IsTrue (view self.old).honest → Elapses (view self.old) (view self.new) }
        ensures turn { OnOk result
            (IsTrue (view self.old).honest → (view self.new).moment ≡ (view self.old).moment + 1) }
        ensures written { OnOk result
            (IsTrue (view self.old).honest → Holds (view self.old).seen at bytes.now (view self.new).seen) }
        ensures torn { IsTrue (view self.old).honest → Tears at (length bytes.now) (view self.old) (view self.new) }
        ensures size { OnOk result ((view self.new).size ≡ max (view self.old).size (at + length bytes.now)) }
        ensures no_smaller { (view self.old).size ≤ (view self.new).size }
        ensures no_fault { OnOk result (HasNoFault (view self.old) (view self.new)) }
        ensures fails { OnErr result (Fails (length bytes.now) 1 (view self.old) (view self.new)) };

    /// Makes all bytes durable: a crash then leaves the bytes that a read gives.
    fn sync(&mut self) -> Result<(), Failed>
        ensures takes { Takes 0 1 (view self.old) (view self.new) }
        ensures time { IsTrue (view self.old).honest → Elapses (view self.old) (view self.new) }
        ensures turn { OnOk result
            (IsTrue (view self.old).honest → (view self.new).moment ≡ (view self.old).moment + 1) }
        ensures durable { OnOk result
            (IsTrue (view self.old).honest → Only (view self.old).seen (view self.new).may_leave) }
        ensures seen { IsTrue (view self.old).honest → (view self.new).seen ≡ (view self.old).seen }
        ensures images { IsTrue (view self.old).honest → AddsNoImage (view self.old) (view self.new) }
        ensures size { (view self.new).size ≡ (view self.old).size }
        ensures no_fault { OnOk result (HasNoFault (view self.old) (view self.new)) }
        ensures fails { OnErr result (Fails 0 1 (view self.old) (view self.new)) };

    /// The properties of every honest disk.
    ghost consistent: { (disk : Self) → IsTrue (view disk).honest → IsConsistent (view disk) };

    /// The properties of every reliable disk.
    ghost reliable_keeps: { (disk : Self) → IsTrue (view disk).reliable → IsReliable (view disk) };
}

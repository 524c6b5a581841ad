ghost use Rattle.std.specs.Prelude.{◌≡◌, ◌∷◌, ℕ, ◌+◌, ◌-◌, ◌<◌, ◌≤◌, ◌⊎◌, true, Some, length, max, min, take, drop, vec_len, vec_capacity, IsTrue, IfOk, OnOk, OnErr};
ghost use Rattle.oc_io.specs.DiskView.{Only, Holds, Tears, AddsNoImage, Elapses, StaysAsItWas, Takes, Fails, FailsToRead, HasNoFault};
ghost use Rattle.oc_io.specs.Calls.{Wrote, Fits};
ghost use Rattle.oc_io.specs.DiskPast.{MayLeave};
ghost use Rattle.oc_io.specs.Faults.{NoFall, Rose};
ghost use Rattle.oc_io.specs.MemDiskView.{disk_of, view_of, view_of-consistent, view_of-reliable, overwritten, refused, read, admitted, done, wrote, synced, reserved, crash_of, crash_by, Refuses};
ghost use Rattle.oc_io.specs.Tally.{IsListed};

use crate::disk::{Disk, MAX_RELIABLE_BYTES};
use crate::disk_log::DiskLog;
use crate::failures::{Failures, Stop};
use crate::fault::Failed;
use std::alloc::{AllocError, Global};
use std::marker::Model;

/// The number of calls of `write_at` and `sync` for which `reserve` makes room.
const CALLS: usize = 16;

/// A disk in memory, for tests and replays: listed calls fail, and it can be stopped and crashed.
///
/// The disk records its calls with the bytes that each replaced, and tells from these the images that a
/// crash at each moment may have left. So the cost of a write depends on the length of the write alone.
#[derive(Debug, Drop)]
pub struct MemDisk {
    bytes: Vec<u8>,
    log: DiskLog,
    failures: Failures,
}

impl Model for MemDisk {
    ghost use Rattle.std.specs.Prelude.{◌+◌, ◌≤◌, vec_len, vec_capacity};
    ghost use Rattle.oc_io.specs.Calls.{Fits};
    ghost use Rattle.oc_io.specs.MemDiskView.{MemDiskView};

    ghost Value = { MemDiskView };

    ghost view = { λ d. record { bytes = d.bytes.items; past = d.log.past; room = d.log.room; calls = d.log.calls; failing = d.failures } };

    ghost invariant = { λ d. (vec_len d.bytes + d.log.room ≤ vec_capacity d.bytes) × Fits d.bytes.items d.log.past };
}

impl MemDisk {
    /// A disk with these bytes, all of them durable.
    pub fn new(bytes: Vec<u8>) -> MemDisk
        ensures { result ≡ disk_of bytes.items }
    {
        let alloc: Global = *bytes.allocator();
        MemDisk {
            bytes,
            log: DiskLog::new(alloc),
            failures: Failures::none(alloc),
        }
    }

    /// Sets a stop: the next `calls` calls of `write_at` and `sync` succeed, and later ones fail. From now on
    /// a crash leaves the byte `image` in place of each byte that was written since the last sync.
    pub fn stop_after(&mut self, calls: u8, image: u8)
        ensures { self.new ≡ record self.old {
          failing = record self.old.failing { stop = Some (record { left = calls; image = image }) };
        } }
    {
        self.failures.stop(Stop { left: calls, image });
    }

    /// Lists calls that are to fail: from now on the calls of `size`, `read_at`, `write_at` and `sync` are
    /// counted together from 1, and those with these numbers fail.
    pub fn fail_at(&mut self, calls: Vec<u64>)
        ensures { self.new ≡ record self.old {
          failing = record self.old.failing {
            calls = record self.old.failing.calls { listed = calls.items; made = 0 };
          };
        } }
    {
        self.failures.list(calls);
    }

    /// The disk after a crash: each byte that was written since the last sync is the byte of the stop, or
    /// the written byte if no stop was set.
    pub fn crash(self) -> MemDisk
        ensures disk { result ≡ disk_of (crash_of self) }

        // The result is one of the images that a crash may leave.
        ensures image { MayLeave self.bytes self.past result.bytes }
    {
        let MemDisk {
            bytes,
            log,
            failures,
        } = self;
        MemDisk::new(leave(bytes, log, failures.stop_set()))
    }

    /// A disk with the same bytes, all of them durable.
    pub fn copy(&self) -> Result<MemDisk, AllocError>
        ensures { IfOk result (λ disk. disk ≡ disk_of self.now.bytes) }
    {
        Ok(MemDisk::new(self.bytes.clone()?))
    }

    /// Counts a call of `size` or `read_at`, which fails if it is listed or `refuse` holds.
    fn look(&mut self, refuse: bool) -> Result<(), Failed>
        ensures ok { OnOk result
            (¬ IsListed self.old.failing.calls × ¬ IsTrue refuse × (self.new ≡ read self.old)) }
        ensures err { OnErr result
            ((IsListed self.old.failing.calls ⊎ IsTrue refuse) × (self.new ≡ refused self.old)) }
        ensures count { NoFall self.old.failing.calls.faults self.new.failing.calls.faults }
    {
        self.failures.call()?;
        if refuse {
            return Err(self.failures.fault());
        }
        Ok(())
    }

    /// Counts a call of `write_at` or `sync` that needs this room, in bytes; the call fails if there is too
    /// little or the disk was stopped.
    fn admit(&mut self, room: usize) -> Result<(), Failed>
        ensures ok { OnOk result (¬ Refuses self.old room × (self.new ≡ admitted self.old)) }
        ensures room { OnOk result ((room ≤ self.old.room) × (0 < self.old.calls)) }
        ensures err { OnErr result (Refuses self.old room × (self.new ≡ refused self.old)) }
        ensures count { NoFall self.old.failing.calls.faults self.new.failing.calls.faults }
    {
        self.failures.call()?;
        if room > self.log.room() || self.log.calls() == 0 || self.failures.is_stopped() {
            return Err(self.failures.fault());
        }
        self.failures.pass();
        Ok(())
    }

    /// Writes bytes, and records the bytes that they replace.
    fn put(&mut self, at: usize, bytes: &[u8])
        requires within { at ≤ length self.old.bytes }
        requires room { length bytes.now ≤ self.old.room }
        requires calls { 0 < self.old.calls }
        ensures { self.new ≡ done self.old at bytes.now }
    {
        keep(&mut self.log, &self.bytes, at, bytes.len());
        overwrite(&mut self.bytes, at, bytes);
    }
}

/// The bytes after a crash, with this stop or none.
fn leave(mut bytes: Vec<u8>, log: DiskLog, stop: Option<Stop>) -> Vec<u8>
    requires { Fits bytes.items log.past }
    ensures { result.items ≡ crash_by stop log.past bytes.items }
{
    let Some(stop) = stop else {
        return bytes;
    };
    log.blot(&mut bytes, stop.image);
    bytes
}

/// Records a write of `count` bytes, with the bytes that it replaces.
fn keep(log: &mut DiskLog, bytes: &Vec<u8>, at: usize, count: usize)
    requires within { at ≤ vec_len bytes.now }
    requires room { count ≤ log.old.room }
    requires calls { 0 < log.old.calls }
    ensures { log.new ≡ record {
      past = Wrote at (take count (drop at bytes.now.items)) count ∷ log.old.past;
      room = log.old.room - count;
      calls = log.old.calls - 1;
    } }
{
    let left = &bytes[at..];
    log.note_write(at, &left[..left.len().min(count)], count);
}

/// Writes over these bytes and past their end, without taking memory.
fn overwrite(bytes: &mut Vec<u8>, at: usize, new: &[u8])
    requires within { at ≤ vec_len bytes.old }
    requires room { vec_len bytes.old + length new.now ≤ vec_capacity bytes.old }
    ensures items { bytes.new.items ≡ overwritten bytes.old.items at new.now }
    ensures len { vec_len bytes.new ≡ max (vec_len bytes.old) (at + length new.now) }
    ensures capacity { vec_capacity bytes.old ≤ vec_capacity bytes.new }
{
    let inside = new.len().min(bytes.len() - at);
    bytes[at..at + inside].copy_from_slice(&new[..inside]);
    bytes.extend_from_slice(&new[inside..]).unwrap();
}

/// Copies bytes from an offset on into the buffer, as many as there are and fit; answers their number.
fn read_from(bytes: &[u8], at: usize, buf: &mut [u8]) -> usize
    requires { at ≤ length bytes.now }
    ensures count { result ≡ min (length buf.old) (length bytes.now - at) }
    ensures bytes { take result buf.new ≡ take result (drop at bytes.now) }
{
    let left = &bytes[at..];
    let count = left.len().min(buf.len());
    buf[..count].copy_from_slice(&left[..count]);
    count
}

impl Disk for MemDisk {
    ghost view = { view_of };

    ghost consistent = { λ d _. view_of-consistent d };

    ghost reliable_keeps = { λ d _. view_of-reliable d };

    fn size(&mut self) -> Result<u64, Failed>
        ensures size { IfOk result (λ size. size ≡ length self.new.bytes) }
        ensures size_err { OnErr result (length self.new.bytes ≡ length self.old.bytes) }
        ensures stays { StaysAsItWas (view_of self.old) (view_of self.new) }
        ensures no_fault { OnOk result (HasNoFault (view_of self.old) (view_of self.new)) }
        ensures fails { OnErr result (FailsToRead (view_of self.old) (view_of self.new)) }

        // A failure exactly if the call is listed.
        ensures ok { OnOk result (¬ IsListed self.old.failing.calls × (self.new ≡ read self.old)) }
        ensures err { OnErr result (IsListed self.old.failing.calls × (self.new ≡ refused self.old)) }
    {
        self.look(false)?;
        Ok(self.bytes.len() as u64)
    }

    fn read_at(&mut self, at: u64, buf: &mut [u8]) -> Result<usize, Failed>
        ensures count { IfOk result (λ n. n ≡ min (length buf.old) (length self.old.bytes - at)) }
        ensures bytes { IfOk result (λ n. IsTrue true → take n buf.new ≡ take n (drop at self.old.bytes)) }
        ensures size { length self.new.bytes ≡ length self.old.bytes }
        ensures stays { StaysAsItWas (view_of self.old) (view_of self.new) }
        ensures no_fault { OnOk result (HasNoFault (view_of self.old) (view_of self.new)) }
        ensures cause { OnErr result (Rose (view_of self.old).faults (view_of self.new).faults) }
        ensures fails { OnErr result
            (at ≤ length self.old.bytes → FailsToRead (view_of self.old) (view_of self.new)) }

        // A failure exactly if the call is listed or its offset is past the size.
        ensures ok { OnOk result
            (¬ IsListed self.old.failing.calls × (at ≤ length self.old.bytes) × (self.new ≡ read self.old)) }
        ensures err { OnErr result
            ((IsListed self.old.failing.calls ⊎ (length self.old.bytes < at)) × (self.new ≡ refused self.old)) }
    {
        let past_the_size = at > self.bytes.len() as u64;
        self.look(past_the_size)?;
        Ok(read_from(&self.bytes, at as usize, buf))
    }

    fn reserve(&mut self, bytes: u64) -> Result<(), AllocError>
        ensures room { OnOk result (bytes ≤ (view_of self.new).room) }
        ensures calls { OnOk result (16 ≤ self.new.calls) }
        ensures size { length self.new.bytes ≡ length self.old.bytes }
        ensures stays { StaysAsItWas (view_of self.old) (view_of self.new) }
        ensures no_fault { HasNoFault (view_of self.old) (view_of self.new) }

        // Success only if the bytes and the room together are at most `MAX_RELIABLE_BYTES`.
        ensures ok { OnOk result (self.new ≡ reserved self.old bytes) }
        ensures err { OnErr result (self.new ≡ self.old) }
        ensures most { OnOk result (length self.old.bytes + bytes ≤ MAX_RELIABLE_BYTES) }
    {
        let length = self.bytes.len() as u64;
        if length > MAX_RELIABLE_BYTES || bytes > MAX_RELIABLE_BYTES - length {
            return Err(AllocError);
        }
        let bytes = bytes as usize;
        self.bytes.reserve(self.log.room().max(bytes))?;
        self.log.reserve(bytes, CALLS)
    }

    fn write_at(&mut self, at: u64, bytes: &[u8]) -> Result<(), Failed>
        requires { at ≤ length self.old.bytes }
        ensures takes { Takes (length bytes.now) 1 (view_of self.old) (view_of self.new) }
        ensures time { IsTrue true → Elapses (view_of self.old) (view_of self.new) }
        ensures written { OnOk result (IsTrue true → Holds self.old.bytes at bytes.now self.new.bytes) }
        ensures torn { IsTrue true → Tears at (length bytes.now) (view_of self.old) (view_of self.new) }
        ensures fails { OnErr result (Fails (length bytes.now) 1 (view_of self.old) (view_of self.new)) }

        // A failure exactly if the call is listed, there is no room, or the disk was stopped.
        ensures ok { OnOk result
            (¬ Refuses self.old (length bytes.now) × (self.new ≡ wrote self.old at bytes.now)) }
        ensures err { OnErr result (Refuses self.old (length bytes.now) × (self.new ≡ refused self.old)) }
    {
        self.admit(bytes.len())?;
        self.put(at as usize, bytes);
        Ok(())
    }

    fn sync(&mut self) -> Result<(), Failed>
        ensures takes { Takes 0 1 (view_of self.old) (view_of self.new) }
        ensures time { IsTrue true → Elapses (view_of self.old) (view_of self.new) }
        ensures durable { OnOk result (IsTrue true → Only self.old.bytes (view_of self.new).may_leave) }
        ensures images { IsTrue true → AddsNoImage (view_of self.old) (view_of self.new) }
        ensures fails { OnErr result (Fails 0 1 (view_of self.old) (view_of self.new)) }

        // A failure exactly if the call is listed, the record has no room, or the disk was stopped.
        ensures ok { OnOk result (¬ Refuses self.old 0 × (self.new ≡ synced self.old)) }
        ensures err { OnErr result (Refuses self.old 0 × (self.new ≡ refused self.old)) }
    {
        self.admit(0)?;
        self.log.note_sync();
        Ok(())
    }
}

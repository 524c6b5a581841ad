ghost use Rattle.std.specs.Prelude.{◌≡◌, ◌≢◌, ℕ, ◌+◌, ◌<◌, ◌≤◌, false, length, take, drop, IsTrue, IsErrOf, IfOk, IfSome, OnOk, OnErr};
ghost use Rattle.std.specs.Int.{w32, to_be_bytes};
ghost use Rattle.oc_io.specs.DiskView.{IsSafe, StaysAsItWas, FailsToRead, HasNoFault};
ghost use Rattle.oc_journal.specs.JournalFile.{magic, header, frames_of, IsNoJournal};
ghost use Rattle.oc_journal.specs.JournalView.{at_extents, IsIndexed};
ghost use Rattle.oc_journal.specs.Promises.{LoadsSafely};
ghost use Rattle.oc_journal.specs.Scanning.{IsFound, IsGate, IsBrokenAt};

use crate::errors::LoadError;
use crate::extent::Extent;
use crate::safely::{FIRST_GATE, write_header};
use oc_io::{Disk, Failed};
use std::alloc::Global;

/// The magic bytes at the beginning of every journal file.
const MAGIC: [u8; 8] = *b"OVERCST1";

/// The byte of an open gate; with any other byte a gate is not open.
const OPEN: u8 = 1;

/// The length of a header in bytes.
const HEADER_LEN: u64 = 9;

/// The extents of the bodies of the frames, and the end of the frames.
#[derive(Debug, Drop)]
pub struct FrameIndex {
    pub extents: Vec<Extent>,
    pub end: u64,
}

/// Finds the frames of a file, and makes the header of a new one.
pub fn find<D: Disk>(alloc: Global, disk: &mut D) -> Result<FrameIndex, LoadError>
    ensures indexed { IfOk result (λ index. IsIndexed (D.view disk.new) index.extents.items index.end false) }
    ensures frames { IfOk result (λ index. IsTrue (D.view disk.old).honest
        → at_extents (D.view disk.new).seen index.extents.items ≡ frames_of (D.view disk.old).seen) }
    ensures header { OnOk result (IsTrue (D.view disk.old).honest → length (D.view disk.old).seen ≤ 9
        → (D.view disk.new).seen ≡ header) }
    ensures journal { OnOk result (IsTrue (D.view disk.old).honest → ¬ IsNoJournal (D.view disk.old).seen) }
    ensures safely { LoadsSafely (D.view disk.old) (D.view disk.new) }
    ensures no_fault { OnOk result (HasNoFault (D.view disk.old) (D.view disk.new)) }
    ensures not_journal { IsErrOf result LoadError.NotJournal → IsTrue (D.view disk.old).honest
        → IsNoJournal (D.view disk.old).seen }
    ensures disk { IsErrOf result LoadError.Disk → FailsToRead (D.view disk.old) (D.view disk.new) }
{
    let size = make_safe(disk)?;
    if size <= HEADER_LEN {
        write_header(disk)?;
        return Ok(FrameIndex {
            extents: Vec::new(alloc),
            end: FIRST_GATE,
        });
    }
    check_magic(disk)?;
    find_frames(alloc, disk, size)
}

/// Makes all bytes durable that a read gives, with room for a header, and answers the size in bytes.
fn make_safe<D: Disk>(disk: &mut D) -> Result<u64, LoadError>
    ensures size { IfOk result (λ size. size ≡ (D.view disk.new).size) }
    ensures room { OnOk result (9 ≤ (D.view disk.new).room) }
    ensures calls { OnOk result (2 ≤ (D.view disk.new).calls) }
    ensures safe { OnOk result (IsTrue (D.view disk.old).honest → IsSafe (D.view disk.new)) }
    ensures seen { IsTrue (D.view disk.old).honest → (D.view disk.new).seen ≡ (D.view disk.old).seen }
    ensures safely { LoadsSafely (D.view disk.old) (D.view disk.new) }
    ensures no_fault { OnOk result (HasNoFault (D.view disk.old) (D.view disk.new)) }
    ensures not_journal { IsErrOf result LoadError.NotJournal → ⊥ }
    ensures disk { IsErrOf result LoadError.Disk → FailsToRead (D.view disk.old) (D.view disk.new) }
{
    sync_with_room(disk)?;
    Ok(size_of(disk)?)
}

/// Reserves the room for a header, and then syncs.
fn sync_with_room<D: Disk>(disk: &mut D) -> Result<(), LoadError>
    ensures room { OnOk result (9 ≤ (D.view disk.new).room) }
    ensures calls { OnOk result (2 ≤ (D.view disk.new).calls) }
    ensures safe { OnOk result (IsTrue (D.view disk.old).honest → IsSafe (D.view disk.new)) }
    ensures seen { IsTrue (D.view disk.old).honest → (D.view disk.new).seen ≡ (D.view disk.old).seen }
    ensures safely { LoadsSafely (D.view disk.old) (D.view disk.new) }
    ensures no_fault { OnOk result (HasNoFault (D.view disk.old) (D.view disk.new)) }
    ensures not_journal { IsErrOf result LoadError.NotJournal → ⊥ }
    ensures disk { IsErrOf result LoadError.Disk → FailsToRead (D.view disk.old) (D.view disk.new) }
{
    disk.reserve(HEADER_LEN)?;
    Ok(disk.sync()?)
}

/// The size in bytes of a file that is durable.
fn size_of<D: Disk>(disk: &mut D) -> Result<u64, Failed>
    requires safe { IsTrue (D.view disk.old).honest → IsSafe (D.view disk.old) }
    ensures size { IfOk result (λ size. size ≡ (D.view disk.new).size) }
    ensures stays { StaysAsItWas (D.view disk.old) (D.view disk.new) }
    ensures no_fault { OnOk result (HasNoFault (D.view disk.old) (D.view disk.new)) }
    ensures fails { OnErr result (FailsToRead (D.view disk.old) (D.view disk.new)) }
{
    disk.size()
}

/// Checks the magic of a durable file that is longer than a header.
fn check_magic<D: Disk>(disk: &mut D) -> Result<(), LoadError>
    requires safe { IsTrue (D.view disk.old).honest → IsSafe (D.view disk.old) }
    requires long { 9 < (D.view disk.old).size }
    ensures magic { OnOk result (IsTrue (D.view disk.old).honest → take 8 (D.view disk.old).seen ≡ magic) }
    ensures not_journal { IsErrOf result LoadError.NotJournal → IsTrue (D.view disk.old).honest
        → take 8 (D.view disk.old).seen ≢ magic }
    ensures size { (D.view disk.new).size ≡ (D.view disk.old).size }
    ensures stays { StaysAsItWas (D.view disk.old) (D.view disk.new) }
    ensures no_fault { OnOk result (HasNoFault (D.view disk.old) (D.view disk.new)) }
    ensures disk { IsErrOf result LoadError.Disk → FailsToRead (D.view disk.old) (D.view disk.new) }
{
    let mut found = [0; 8];
    disk.read_at(0, &mut found)?;
    if found != MAGIC {
        return Err(LoadError::NotJournal);
    }
    Ok(())
}

/// Finds the frames of a durable file of this size in bytes, from the first gate on, by a read at each gate.
fn find_frames<D: Disk>(alloc: Global, disk: &mut D, size: u64) -> Result<FrameIndex, LoadError>
    requires safe { IsTrue (D.view disk.old).honest → IsSafe (D.view disk.old) }
    requires size { size ≡ (D.view disk.old).size }
    requires long { 9 < size }
    requires magic { IsTrue (D.view disk.old).honest → take 8 (D.view disk.old).seen ≡ magic }
    ensures found { IfOk result (λ index. IsFound (D.view disk.old) index.extents.items index.end) }
    ensures not_journal { IsErrOf result LoadError.NotJournal → IsTrue (D.view disk.old).honest
        → IsNoJournal (D.view disk.old).seen }
    ensures size { (D.view disk.new).size ≡ (D.view disk.old).size }
    ensures stays { StaysAsItWas (D.view disk.old) (D.view disk.new) }
    ensures no_fault { OnOk result (HasNoFault (D.view disk.old) (D.view disk.new)) }
    ensures disk { IsErrOf result LoadError.Disk → FailsToRead (D.view disk.old) (D.view disk.new) }
{
    let mut extents = Vec::new(alloc);
    let mut gate = FIRST_GATE;
    while let Some(len) = read_gate(disk, gate, size)? {
        let at = gate + 5;
        extents.push(Extent { at, len })?;
        gate = at + u64::from(len);
    }
    Ok(FrameIndex { extents, end: gate })
}

/// Reads a gate and the length after it: `None` if the gate is not open, and otherwise the length of
/// the body of a complete frame.
fn read_gate<D: Disk>(disk: &mut D, gate: u64, size: u64) -> Result<Option<u32>, LoadError>
    requires size { size ≡ (D.view disk.old).size }
    requires within { gate < size }
    ensures gate { IfOk result (λ found. IsTrue (D.view disk.old).honest
        → IsGate (D.view disk.old).seen gate found) }
    ensures whole { IfOk result (λ found. IfSome found (λ len. gate + 5 + len < size)) }
    ensures not_journal { IsErrOf result LoadError.NotJournal → IsTrue (D.view disk.old).honest
        → IsBrokenAt (D.view disk.old).seen gate }
    ensures size { (D.view disk.new).size ≡ (D.view disk.old).size }
    ensures stays { StaysAsItWas (D.view disk.old) (D.view disk.new) }
    ensures no_fault { OnOk result (HasNoFault (D.view disk.old) (D.view disk.new)) }
    ensures disk { IsErrOf result LoadError.Disk → FailsToRead (D.view disk.old) (D.view disk.new) }
{
    let mut head = [0; 5];
    let read = disk.read_at(gate, &mut head)?;
    if head[0] != OPEN {
        return Ok(None);
    }
    let len = len_in(&head);
    if read < head.len() || u64::from(len) >= size - gate - 5 {
        return Err(LoadError::NotJournal);
    }
    Ok(Some(len))
}

/// The length of the body, from the gate's byte and the four bytes after it.
fn len_in(head: &[u8; 5]) -> u32
    ensures { drop 1 head.now ≡ to_be_bytes w32 result }
{
    u32::from_be_bytes([head[1], head[2], head[3], head[4]])
}

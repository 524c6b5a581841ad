ghost use Rattle.std.specs.Prelude.{◌≡◌, ◌≢◌, ◌↔◌, ℕ, ◌+◌, ◌-◌, ◌<◌, ◌≤◌, [], true, false, length, min, take, drop, get_or, IsTrue, IsOk, IsErrOf, OnOk, OnErr, IfOk, IfErr};
ghost use Rattle.oc_io.specs.DiskView.{StaysAsItWas, CannotFail, FailsToRead, HasNoFault};
ghost use Rattle.oc_io.specs.MemDiskView.{disk_of};
ghost use Rattle.oc_journal.specs.JournalFile.{frames_of, end_of, IsNoJournal};
ghost use Rattle.oc_journal.specs.JournalView.{HasFrames, HoldsJournal};
ghost use Rattle.oc_journal.specs.Promises.{IsLoaded, LoadsSafely, RefusesLoad, OnlyReads, NoneFailed, ClosesByRead, HasRoom, IsFullFor, Appends, AppendsSafely, ClosesByAppend, Restarts, RestartsSafely, ClosesByRestart};
ghost use Rattle.oc_journal.specs.Stopped.{frames_after, CanStop};

use crate::errors::{AppendError, FrameError, LoadError, RestartError};
use crate::extent::Extent;
use crate::frame::Frame;
use crate::loading::find;
use crate::safely::{FIRST_GATE, close_first_gate, write_frame};
use crate::stopped::write_until_stop;
use oc_base::{MAX_JOURNAL_BYTES, Memory};
use oc_io::{Disk, Failed, MemDisk};
use std::alloc::Global;
use std::marker::Model;

/// A journal on a disk. A contract sees its disk, the bodies of its frames, the offset of their end in
/// the file, the number of further frames for which its index has memory, and whether it is closed since
/// the disk failed.
#[derive(Drop)]
pub struct Journal<D: Disk> {
    disk: D,
    extents: Vec<Extent>,
    end: u64,
    closed: bool,
}

impl<D: Disk> Model for Journal<D> {
    ghost use Rattle.std.specs.Prelude.{◌-◌, vec_len, vec_capacity};
    ghost use Rattle.oc_journal.specs.JournalView.{JournalView, at_extents, IsIndexed};

    ghost Value = { JournalView D };

    ghost view = { λ j. record { disk = j.disk; frames = at_extents (D.view j.disk).seen j.extents.items; end = j.end; spare = vec_capacity j.extents - vec_len j.extents; closed = j.closed } };

    ghost invariant = { λ j. IsIndexed (D.view j.disk) j.extents.items j.end j.closed };
}

impl<D: Disk> Journal<D> {
    /// Loads the journal of a disk. It reserves 9 bytes and begins with a sync, and a file of at most
    /// 9 bytes gets the header of a new one. On a refusal the disk comes back.
    pub fn load(alloc: Global, mut disk: D) -> Result<Journal<D>, (D, LoadError)>
        ensures loaded { IfOk result (λ journal. IsLoaded D.view disk journal) }
        ensures safely { IfOk result (λ journal. LoadsSafely (D.view disk) (D.view journal.disk)) }
        ensures safely_err { IfErr result (λ refused. LoadsSafely (D.view disk) (D.view refused.0)) }
        ensures refuses { IfErr result
            (λ refused. RefusesLoad (D.view disk) (D.view refused.0) refused.1) }

        // A reliable disk is loaded.
        ensures works { IfErr result (λ refused. IsTrue (D.view disk).reliable
            → ¬ IsNoJournal (D.view disk).seen → refused.1 ≡ LoadError.Memory) }
    {
        match find(alloc, &mut disk) {
            Ok(index) => Ok(Journal {
                disk,
                extents: index.extents,
                end: index.end,
                closed: false,
            }),
            Err(error) => Err((disk, error)),
        }
    }

    /// The number of frames.
    pub fn count(&self) -> u64
        ensures count { result ≡ length self.now.frames }

        // Every crash leaves them, unless a call has failed.
        ensures kept { self.now.closed ≡ false → IsTrue (D.view self.now.disk).honest
            → HasFrames (D.view self.now.disk) self.now.frames }
    {
        self.extents.len() as u64
    }

    /// The offset of the end of the frames in the file, which is that of the gate after them.
    pub fn end(&self) -> u64
        ensures end { result ≡ self.now.end }
        ensures within { self.now.end < (D.view self.now.disk).size }
        ensures first { self.now.frames ≡ [] → self.now.end ≡ 8 }

        // The file has exactly these frames before it, unless a call has failed.
        ensures offset { self.now.closed ≡ false → IsTrue (D.view self.now.disk).honest
            → self.now.end ≡ end_of self.now.frames }
    {
        self.end
    }

    /// Hands back the disk.
    pub fn into_disk(self) -> D
        ensures disk { result ≡ self.disk }

        // Every crash leaves a journal with these frames, unless a call has failed.
        ensures holds { self.closed ≡ false → IsTrue (D.view self.disk).honest
            → HoldsJournal D.view self }
    {
        self.disk
    }

    /// Makes the room for an `append` of this frame, and one more byte for a `restart`.
    pub fn reserve(&mut self, frame: &Frame) -> Result<(), Memory>
        ensures room { OnOk result (HasRoom D.view self.new (length frame.now)) }
        ensures same { OnlyReads D.view self.old self.new }
        ensures none_failed { NoneFailed D.view self.old self.new }
    {
        self.extents.reserve(1)?;
        self.disk.reserve(u64::from(frame.body_len()) + 7)?;
        Ok(())
    }

    /// Appends a frame for which `reserve` made room. It takes no memory and makes exactly four
    /// calls of `write_at` and `sync`. After `Disk` the journal is closed.
    pub fn append(&mut self, frame: &Frame) -> Result<(), AppendError>
        requires { 0 < self.old.spare }
        ensures appends { OnOk result (Appends D.view frame.now self.old self.new) }
        ensures safely { AppendsSafely D.view frame.now self.old self.new }

        // The refusals, and the journal after each.
        ensures closed { IsErrOf result AppendError.Closed ↔ IsTrue self.old.closed }
        ensures full { IsErrOf result AppendError.Full
            ↔ ((self.old.closed ≡ false) × IsFullFor (length frame.now) self.old) }
        ensures unchanged { IfErr result (λ error. error ≢ AppendError.Disk → self.new ≡ self.old) }
        ensures disk { IsErrOf result AppendError.Disk
            → ClosesByAppend D.view frame.now self.old self.new }

        // On a reliable disk with the room, an open journal takes the frame.
        ensures works { self.old.closed ≡ false
            → CannotFail (length frame.now + 6) 4 (D.view self.old.disk) → IsOk result }
    {
        if self.closed {
            return Err(AppendError::Closed);
        }
        let len = frame.body_len();
        if self.end > MAX_JOURNAL_BYTES - 6 - u64::from(len) {
            return Err(AppendError::Full);
        }
        let Ok(()) = write_frame(&mut self.disk, self.end, frame) else {
            self.closed = true;
            return Err(AppendError::Disk);
        };
        self.extents.push_reserved(Extent {
            at: self.end + 5,
            len,
        });
        self.end += 5 + u64::from(len);
        Ok(())
    }

    /// Removes all frames. With a frame in the journal it makes two calls of `write_at` and `sync`, and
    /// otherwise none. It takes no memory. After `Disk` the journal is closed.
    pub fn restart(&mut self) -> Result<(), RestartError>
        ensures restarts { OnOk result (Restarts D.view self.old self.new) }
        ensures safely { RestartsSafely D.view self.old self.new }

        // The refusals, and the journal after each.
        ensures closed { IsErrOf result RestartError.Closed ↔ IsTrue self.old.closed }
        ensures unchanged { IsErrOf result RestartError.Closed → self.new ≡ self.old }
        ensures disk { IsErrOf result RestartError.Disk → ClosesByRestart D.view self.old self.new }

        // On a reliable disk with the room, the restart of an open journal succeeds.
        ensures works { self.old.closed ≡ false → CannotFail 1 2 (D.view self.old.disk) → IsOk result }
    {
        if self.closed {
            return Err(RestartError::Closed);
        }
        if self.extents.is_empty() {
            return Ok(());
        }
        let Ok(()) = close_first_gate(&mut self.disk) else {
            self.closed = true;
            return Err(RestartError::Disk);
        };
        self.extents.clear();
        self.end = FIRST_GATE;
        Ok(())
    }

    /// Reads the body of a frame into `into`, in place of its old content, and answers whether the journal
    /// has that frame; frames are numbered from 0. After `Disk` the journal is closed, and the content of
    /// `into` is open.
    pub fn frame(&mut self, index: u64, into: &mut Vec<u8>) -> Result<bool, FrameError>
        ensures found { IfOk result (λ found. IsTrue found ↔ (index < length self.old.frames)) }
        ensures body { IfOk result (λ found. IsTrue found → IsTrue (D.view self.old.disk).honest
            → into.new.items ≡ get_or self.old.frames index []) }
        ensures absent { IfOk result (λ found. found ≡ false → into.new.items ≡ into.old.items) }
        ensures memory { IsErrOf result FrameError.Memory → into.new.items ≡ into.old.items }
        ensures disk { IsErrOf result FrameError.Disk → ClosesByRead D.view self.old self.new }
        ensures none_failed { ¬ IsErrOf result FrameError.Disk → NoneFailed D.view self.old self.new }
        ensures same { OnlyReads D.view self.old self.new }

        // On a reliable disk the read succeeds.
        ensures works { IsTrue (D.view self.old.disk).reliable
            → IfErr result (λ error. error ≡ FrameError.Memory) }
    {
        if index >= self.extents.len() as u64 {
            return Ok(false);
        }
        let extent = self.extents[index as usize];
        let len = extent.len as usize;
        into.reserve(len)?;
        into.clear();
        into.resize(len, 0)?;
        let Ok(_) = self.disk.read_at(extent.at, into) else {
            self.closed = true;
            return Err(FrameError::Disk);
        };
        Ok(true)
    }

    /// Copies the body of a frame from the offset `skip` on into the buffer, as many bytes as fit, and
    /// answers their number. It takes no memory. After `Failed` the journal is closed.
    pub fn peek(&mut self, index: u64, skip: u64, buf: &mut [u8]) -> Result<usize, Failed>
        ensures within { IfOk result (λ n. n ≤ length buf.old) }
        ensures count { IfOk result (λ n. IsTrue (D.view self.old.disk).honest
            → n ≡ min (length buf.old) (length (get_or self.old.frames index []) - skip)) }
        ensures bytes { IfOk result (λ n. IsTrue (D.view self.old.disk).honest
            → take n buf.new ≡ take n (drop skip (get_or self.old.frames index []))) }
        ensures disk { OnErr result (ClosesByRead D.view self.old self.new) }
        ensures none_failed { OnOk result (NoneFailed D.view self.old self.new) }
        ensures same { OnlyReads D.view self.old self.new }

        // On a reliable disk the read succeeds.
        ensures works { IsTrue (D.view self.old.disk).reliable → IsOk result }
    {
        if index >= self.extents.len() as u64 {
            return Ok(0);
        }
        let extent = self.extents[index as usize];
        let len = u64::from(extent.len);
        if skip >= len {
            return Ok(0);
        }
        let count = buf.len().min((len - skip) as usize);
        let at = extent.at + skip;
        let Ok(count) = read_part(&mut self.disk, at, count, buf) else {
            self.closed = true;
            return Err(Failed);
        };
        Ok(count)
    }
}

impl Journal<MemDisk> {
    /// Makes the four calls of `append` with a stop after `calls` of them, crashes, and hands back the
    /// disk. It takes no memory.
    pub fn append_stopped(self, frame: &Frame, calls: u8, image: u8) -> MemDisk
        requires calls { calls ≤ 4 }
        requires open { self.closed ≡ false }
        requires room { CanStop (length frame.now) self }

        // The old frames, and the new one exactly after four calls, or after three with an image that
        // opens the gate. All bytes are durable, and no failure is set on the disk.
        ensures frames { frames_of result.bytes ≡ frames_after calls image self.frames frame.now }
        ensures journal { ¬ IsNoJournal result.bytes }
        ensures fresh { result ≡ disk_of result.bytes }
    {
        let Journal {
            mut disk,
            extents: _,
            end,
            closed: _,
        } = self;
        disk.stop_after(calls, image);
        write_until_stop(disk, end, frame)
    }
}

/// Reads `count` bytes from an offset within the size into the front of the buffer.
fn read_part<D: Disk>(disk: &mut D, at: u64, count: usize, buf: &mut [u8]) -> Result<usize, Failed>
    requires count { count ≤ length buf.old }
    requires within { at ≤ (D.view disk.old).size }
    ensures count { IfOk result (λ n. n ≡ min count ((D.view disk.old).size - at)) }
    ensures bytes { IfOk result (λ n. IsTrue (D.view disk.old).honest
        → take n buf.new ≡ take n (drop at (D.view disk.old).seen)) }
    ensures size { (D.view disk.new).size ≡ (D.view disk.old).size }
    ensures stays { StaysAsItWas (D.view disk.old) (D.view disk.new) }
    ensures no_fault { OnOk result (HasNoFault (D.view disk.old) (D.view disk.new)) }
    ensures fails { OnErr result (FailsToRead (D.view disk.old) (D.view disk.new)) }
{
    disk.read_at(at, &mut buf[..count])
}

ghost use Rattle.std.specs.Prelude.{◌≡◌, ◌≢◌, ◌↔◌, ℕ, List, ◌+◌, ◌-◌, ◌^◌, ◌<◌, ◌≤◌, [], ◌∷◌, false, length, IsTrue, IsOk, IsErrOf, OnOk, IfOk, IfErr, unwrap_or};
ghost use Rattle.oc_io.specs.DiskView.{CannotFail};
ghost use Rattle.oc_io.specs.MemDiskView.{disk_of, view_of};
ghost use Rattle.oc_journal.specs.JournalFile.{IsJournalOf};
ghost use Rattle.oc_journal.specs.JournalView.{HasFrames};
ghost use Rattle.oc_journal.specs.Promises.{HasRoom, IsFullFor};
ghost use Rattle.oc_journal.specs.Stopped.{frames_after, CanStop};
ghost use Rattle.oc_record.specs.Spelling.{records_bytes, HaveSpellings};
ghost use Rattle.oc_store.specs.ControlFiles.{generation_in, generation_of, current_side, at_side, recovered_frames, IsGood};
ghost use Rattle.oc_store.specs.Promises.{IsStoreOf, LoadBothSafely, RefusesFiles, ReservesCurrent, ReservesOther, Commits, CommitsSafely, ClosesByCommit, TurnsOver, ClosesByTurn};
ghost use Rattle.oc_store.specs.StoreView.{first_disk, second_disk, AreHonest, HoldsJournals, Recovers, RecoversEither, BeginsAbove};

use crate::errors::{Side, StoreError};
use crate::framing::framed;
use crate::generation::{generation_in_frame, generation_with, is_below};
use crate::loading::{ControlFile, load_file};
use crate::turning::turn_over;
use oc_base::{DUE_BYTES, MAX_FRAME_BYTES, Memory};
use oc_io::{Disk, MemDisk};
use oc_journal::{AppendError, FileError, Frame, Journal, RestartError};
use oc_record::Record;
use std::alloc::Global;
use std::marker::Model;

/// Control records in two journals. A contract sees the journal of the current file and the other one,
/// the current side, its generation, and whether the store is closed since a disk failed.
#[derive(Drop)]
pub struct Store<D: Disk> {
    alloc: Global,
    current: Journal<D>,
    other: Journal<D>,
    side: Side,
    generation: u64,
    closed: bool,
}

impl<D: Disk> Model for Store<D> {
    ghost use Rattle.oc_store.specs.StoreView.{StoreView, IsStore};

    ghost Value = { StoreView D };

    ghost view = { λ s. record { current = s.current; other = s.other; side = s.side; generation = s.generation; closed = s.closed } };

    ghost invariant = { λ s. IsStore D.view s.current s.other s.side s.generation s.closed };
}

impl<D: Disk> Store<D> {
    /// Loads the two control files of a node in a network of `nodes` nodes, the first before the second; gives
    /// the records of the current one in order. After a refusal the disks come back.
    pub fn load(
        alloc: Global,
        first: D,
        second: D,
        nodes: u32,
    ) -> Result<(Store<D>, Vec<Record>), (D, D, StoreError)>
        ensures loaded { IfOk result
            (λ loaded. IsStoreOf D.view nodes first second loaded.0 loaded.1.items) }
        ensures safely { IfOk result (λ loaded. LoadBothSafely (D.view first) (D.view second)
            (D.view (first_disk loaded.0)) (D.view (second_disk loaded.0))) }
        ensures safely_err { IfErr result (λ refused. LoadBothSafely (D.view first) (D.view second)
            (D.view refused.0) (D.view refused.1)) }
        ensures refuses { IfErr result (λ refused. RefusesFiles nodes (D.view first) (D.view second)
            (D.view refused.0) (D.view refused.1) refused.2) }

        // Good files on reliable disks are loaded.
        ensures works { IfErr result (λ refused.
            IsTrue (D.view first).reliable → IsTrue (D.view second).reliable
            → IsGood nodes (D.view first).seen → IsGood nodes (D.view second).seen
            → refused.2.cause ≡ FileError.Memory) }
    {
        let first = match load_file(alloc, first, nodes) {
            Ok(file) => file,
            Err((first, cause)) => return Err((
                first,
                second,
                StoreError {
                    side: Side::First,
                    cause,
                },
            )),
        };
        let second = match load_file(alloc, second, nodes) {
            Ok(file) => file,
            Err((second, cause)) => {
                let error = StoreError {
                    side: Side::Second,
                    cause,
                };
                return Err((first.journal.into_disk(), second, error));
            }
        };
        if is_below(first.contents.generation, second.contents.generation) {
            Ok(over(alloc, Side::Second, second, first.journal))
        } else {
            Ok(over(alloc, Side::First, first, second.journal))
        }
    }

    /// The generation of the current file; 0 if it has no frame.
    pub fn generation(&self) -> u64
        ensures generation { result ≡ self.now.generation }
        ensures of_file { self.now.closed ≡ false → IsTrue (D.view self.now.current.disk).honest
            → result ≡ unwrap_or (generation_of self.now.current.frames) 0 }

        // Every crash leaves the frames of the current file, unless a call has failed.
        ensures kept { self.now.closed ≡ false → AreHonest D.view self.now
            → Recovers D.view self.now self.now.current.frames }
    {
        self.generation
    }

    /// Whether it is time to turn over: the frames of the current file end past `DUE_BYTES`, and a greater
    /// generation is left.
    pub fn due(&self) -> bool
        ensures { IsTrue result ↔ ((DUE_BYTES < self.now.current.end) × (self.now.generation < 2 ^ 64 - 1)) }
    {
        self.current.end() > DUE_BYTES && self.generation < u64::MAX
    }

    /// The offset of the end of the frames in the current file.
    pub fn end(&self) -> u64
        ensures { result ≡ self.now.current.end }
    {
        self.current.end()
    }

    /// Makes a frame of records, and reserves room for it in the current file.
    pub fn prepare(&mut self, list: &[Record]) -> Result<Frame, Memory>
        requires spelled { HaveSpellings list.now }
        requires fits { length (records_bytes list.now) ≤ MAX_FRAME_BYTES }
        ensures frame { IfOk result (λ frame. frame ≡ records_bytes list.now) }
        ensures room { OnOk result (HasRoom D.view self.new.current (length (records_bytes list.now))) }
        ensures same { ReservesCurrent D.view self.old self.new }
    {
        let frame = framed(self.alloc, list)?;
        self.current.reserve(&frame)?;
        Ok(frame)
    }

    /// Makes a frame of records that begin with a snapshot of a greater generation, and reserves room for
    /// it in the other file.
    pub fn prepare_snapshot(&mut self, list: &[Record]) -> Result<Frame, Memory>
        requires above { BeginsAbove self.old.generation list.now }
        requires spelled { HaveSpellings list.now }
        requires fits { length (records_bytes list.now) ≤ MAX_FRAME_BYTES }
        ensures frame { IfOk result (λ frame. frame ≡ records_bytes list.now) }
        ensures above { IfOk result (λ frame. self.old.generation < generation_in frame) }
        ensures room { OnOk result (HasRoom D.view self.new.other (length (records_bytes list.now))) }
        ensures same { ReservesOther D.view self.old self.new }
    {
        let frame = framed(self.alloc, list)?;
        self.other.reserve(&frame)?;
        Ok(frame)
    }

    /// Appends a prepared frame to the current file. It takes no memory. After `Disk` the store is
    /// closed.
    pub fn commit(&mut self, frame: &Frame) -> Result<(), AppendError>
        requires { 0 < self.old.current.spare }
        ensures commits { OnOk result (Commits D.view frame.now self.old self.new) }
        ensures safely { CommitsSafely D.view frame.now self.old self.new }

        // The refusals, and the store after each.
        ensures closed { IsErrOf result AppendError.Closed ↔ IsTrue self.old.closed }
        ensures full { IsErrOf result AppendError.Full
            ↔ ((self.old.closed ≡ false) × IsFullFor (length frame.now) self.old.current) }
        ensures unchanged { IfErr result (λ error. error ≢ AppendError.Disk → self.new ≡ self.old) }
        ensures disk { IsErrOf result AppendError.Disk
            → ClosesByCommit D.view frame.now self.old self.new }

        // On a reliable disk with the room, an open store takes the frame.
        ensures works { self.old.closed ≡ false
            → CannotFail (length frame.now + 6) 4 (D.view self.old.current.disk) → IsOk result }
    {
        if self.closed {
            return Err(AppendError::Closed);
        }
        let generation = generation_with(&self.current, self.generation, frame);
        match self.current.append(frame) {
            Ok(()) => {
                self.generation = generation;
                Ok(())
            }
            Err(AppendError::Closed) => unreachable!(),
            Err(AppendError::Full) => Err(AppendError::Full),
            Err(AppendError::Disk) => {
                self.closed = true;
                Err(AppendError::Disk)
            }
        }
    }

    /// Writes a prepared snapshot to the other file, and makes that file the current one. It takes no
    /// memory. After `Disk` the store is closed.
    pub fn turn_over(&mut self, snapshot: &Frame) -> Result<(), RestartError>
        requires spare { 0 < self.old.other.spare }
        requires above { self.old.generation < generation_in snapshot.now }
        ensures turns { OnOk result (TurnsOver D.view snapshot.now self.old self.new) }

        // At every moment the old frames are recovered, or the snapshot.
        ensures any_moment { self.old.closed ≡ false → AreHonest D.view self.old
            → RecoversEither D.view self.old self.new self.old.current.frames (snapshot.now ∷ []) }

        // The refusals, and the store after each.
        ensures closed { IsErrOf result RestartError.Closed ↔ IsTrue self.old.closed }
        ensures unchanged { IsErrOf result RestartError.Closed → self.new ≡ self.old }
        ensures disk { IsErrOf result RestartError.Disk
            → ClosesByTurn D.view snapshot.now self.old self.new }

        // On a reliable disk with the room, an open store turns over.
        ensures works { self.old.closed ≡ false
            → CannotFail (length snapshot.now + 7) 6 (D.view self.old.other.disk) → IsOk result }
    {
        if self.closed {
            return Err(RestartError::Closed);
        }
        let generation = generation_in_frame(snapshot);
        let Ok(()) = turn_over(&mut self.current, &mut self.other, snapshot) else {
            self.closed = true;
            return Err(RestartError::Disk);
        };
        self.side = self.side.opposite();
        self.generation = generation;
        Ok(())
    }

    /// Hands back the disks, the first before the second.
    pub fn into_disks(self) -> (D, D)
        ensures first { result.0 ≡ first_disk self }
        ensures second { result.1 ≡ second_disk self }

        // Every crash leaves journals with the frames of the files, unless a call has failed.
        ensures holds { self.closed ≡ false → AreHonest D.view self → HoldsJournals D.view self }
    {
        match self.side {
            Side::First => (self.current.into_disk(), self.other.into_disk()),
            Side::Second => (self.other.into_disk(), self.current.into_disk()),
        }
    }
}

impl Store<MemDisk> {
    /// Makes the four calls of `commit` with a stop after `calls` of them, crashes, and hands back both
    /// disks, the first before the second. It takes no memory.
    pub fn commit_stopped(self, frame: &Frame, calls: u8, image: u8) -> (MemDisk, MemDisk)
        requires calls { calls ≤ 4 }
        requires open { self.closed ≡ false }
        requires room { CanStop (length frame.now) self.current }

        // The recovered frames are those of the current file, with the new one exactly after four calls, or after
        // three with an image that opens the gate, and every crash leaves them, in journals. All bytes of that file
        // are durable, and the other file is unchanged.
        ensures frames { recovered_frames result.0.bytes result.1.bytes
            ≡ frames_after calls image self.current.frames frame.now }
        ensures kept { (a b : List ℕ) → (view_of result.0).may_leave a → (view_of result.1).may_leave b
            → recovered_frames a b ≡ frames_after calls image self.current.frames frame.now }
        ensures journals { (a b : List ℕ) → (view_of result.0).may_leave a → (view_of result.1).may_leave b
            → IsJournalOf (frames_after calls image self.current.frames frame.now) (at_side self.side a b)
            × IsJournalOf self.other.frames (at_side self.side b a) }
        ensures current { at_side self.side result.0 result.1 ≡ disk_of (at_side self.side result.0 result.1).bytes }
        ensures other { at_side self.side result.1 result.0 ≡ self.other.disk }
    {
        let Store {
            alloc: _,
            current,
            other,
            side,
            generation: _,
            closed: _,
        } = self;
        let stopped = current.append_stopped(frame, calls, image);
        let other = other.into_disk();
        match side {
            Side::First => (stopped, other),
            Side::Second => (other, stopped),
        }
    }
}

/// Makes a store of two loaded files, with the records of the current one.
fn over<D: Disk>(
    alloc: Global,
    side: Side,
    current: ControlFile<D>,
    other: Journal<D>,
) -> (Store<D>, Vec<Record>)
    requires open_current { current.journal.closed ≡ false }
    requires open_other { other.closed ≡ false }
    requires kept_current { IsTrue (D.view current.journal.disk).honest
        → HasFrames (D.view current.journal.disk) current.journal.frames }
    requires kept_other { IsTrue (D.view other.disk).honest → HasFrames (D.view other.disk) other.frames }
    requires ordered { IsTrue (D.view current.journal.disk).honest → IsTrue (D.view other.disk).honest
        → current_side (at_side side current.journal.frames other.frames) (at_side side other.frames current.journal.frames) ≡ side }
    requires numbered { IsTrue (D.view current.journal.disk).honest
        → current.contents.generation ≡ generation_of current.journal.frames }
    ensures store { result.0 ≡ record {
      current = current.journal;
      other = other;
      side = side;
      generation = unwrap_or current.contents.generation 0;
      closed = false;
    } }
    ensures list { result.1.items ≡ current.contents.list.items }
{
    let store = Store {
        alloc,
        current: current.journal,
        other,
        side,
        generation: current.contents.generation.unwrap_or(0),
        closed: false,
    };
    (store, current.contents.list)
}

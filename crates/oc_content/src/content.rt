ghost use Rattle.std.specs.Prelude.{◌≡◌, ◌≢◌, ◌↔◌, ℕ, ◌+◌, ◌-◌, ◌<◌, ◌≤◌, false, length, take, drop, All, None, Some, IsTrue, IsSome, IsOk, IsErrOf, IfNone, OnOk, OnErr, IfOk, IfErr, IfSome};
ghost use Rattle.oc_base.specs.Names.{IsGroupName};
ghost use Rattle.oc_base.specs.Shelves.{held_of, IsHeldAt, IsShelf, AreLinesAscending};
ghost use Rattle.oc_io.specs.DiskView.{CannotFail, StaysAsItWas};
ghost use Rattle.oc_io.specs.MemDiskView.{disk_of};
ghost use Rattle.oc_journal.specs.JournalFile.{frames_of, IsNoJournal};
ghost use Rattle.oc_journal.specs.JournalView.{HoldsJournal};
ghost use Rattle.oc_journal.specs.Promises.{LoadsSafely, NoneFailed, ClosesByRead, IsFullFor, AppendsSafely};
ghost use Rattle.oc_journal.specs.Stopped.{frames_after, CanStop};
ghost use Rattle.oc_content.specs.ContentFile.{IsShelved, groups_in, bytes_in, content_of, groups_after};
ghost use Rattle.oc_content.specs.ContentView.{adds, IsPrepared, IsOpened, RefusesIndex};
ghost use Rattle.oc_content.specs.Founds.{IsSpot};
ghost use Rattle.oc_content.specs.Promises.{IsContentOf, RefusesContent, PutsNothing, Prepares, Commits, ClosesByCommit};
ghost use Rattle.oc_content.specs.Putting.{group_state_in, fault_of};

use crate::ahead::{self, Ahead, Stretch};
use crate::committing::append;
use crate::errors::{FetchError, PutError, ReadError};
use crate::frame_reads::read_group;
use crate::index::Index;
use crate::indexing::index_frames;
use crate::piece::Piece;
use crate::putting::{NewBytes, prepare_piece};
use crate::spot::Spot;
use oc_base::{GroupName, MAX_GROUP_BYTES, MAX_GROUPS, MAX_PUBLISH_BYTES, Shelf};
use oc_io::{Disk, Failed, MemDisk};
use oc_journal::{AppendError, FileError, Journal};
use std::alloc::Global;
use std::marker::Model;

/// The content log: groups of bytes in the frames of a journal. A contract sees its journal, the line of
/// each group, and the numbers of further frames of each group and of further groups for which it has memory.
#[derive(Drop)]
pub struct Content<D: Disk> {
    journal: Journal<D>,
    index: Index,
    ahead: Ahead,
}

impl<D: Disk> Model for Content<D> {
    ghost use Rattle.oc_content.specs.ContentView.{ContentView, content_with};
    ghost use Rattle.oc_content.specs.Aheads.{IsContent};

    ghost Value = { ContentView D };

    ghost view = { λ c. content_with c.journal c.index };

    ghost invariant = { λ c. IsContent D.view c.journal c.index c.ahead };
}

impl<D: Disk> Content<D> {
    /// Loads the content of a disk. A file of at most 9 bytes is new, and gets its header. On a refusal the
    /// disk comes back. A frame is bad if it is no content body, does not begin where its group ends or
    /// adds nothing to it, would be a 65th group or take its group past 2^40 bytes, or if its group is
    /// sealed.
    pub fn load(alloc: Global, disk: D) -> Result<Content<D>, (D, FileError)>
        ensures loaded { IfOk result (λ content. IsContentOf D.view disk content) }
        ensures safely { IfOk result (λ content. LoadsSafely (D.view disk) (D.view content.journal.disk)) }
        ensures safely_err { IfErr result (λ refused. LoadsSafely (D.view disk) (D.view refused.0)) }
        ensures refuses { IfErr result
            (λ refused. RefusesContent (D.view disk) (D.view refused.0) refused.1) }

        // A good file on a reliable disk is loaded.
        ensures works { IfErr result (λ refused. IsTrue (D.view disk).reliable
            → ¬ IsNoJournal (D.view disk).seen → IsSome (content_of (frames_of (D.view disk).seen))
            → refused.1 ≡ FileError.Memory) }
    {
        match Journal::load(alloc, disk) {
            Ok(journal) => indexed(alloc, journal),
            Err((disk, error)) => Err((disk, FileError::from(error))),
        }
    }

    /// The line of each group, ascending by name. It takes no memory.
    pub fn groups(&self) -> &[Shelf]
        ensures lines { result.now ≡ self.now.shelves }
        ensures ascending { AreLinesAscending self.now.shelves }
        ensures shelf { IsShelf self.now.shelves }
        ensures few { length self.now.shelves ≤ MAX_GROUPS }
        ensures short { All (λ s. s.held ≤ MAX_GROUP_BYTES) self.now.shelves }

        // The lines are those of the groups in the frames.
        ensures content { IsTrue (D.view self.now.journal.disk).honest
            → IsShelved self.now.journal.frames self.now.shelves }
    {
        &self.index.shelves
    }

    /// The number of bytes of a group. It takes no memory.
    pub fn held(&self, group: &GroupName) -> Option<u64>
        ensures held { result ≡ held_of group.now self.now.shelves }

        // The number is the length of the group's bytes.
        ensures bytes { IfSome result (λ held. IsTrue (D.view self.now.journal.disk).honest
            → held ≡ length (bytes_in group.now self.now.journal.frames)) }
    {
        self.index.held(group)
    }

    /// The frame with a byte of a group, and the offset of the byte in the frame's bytes. It takes no memory.
    pub fn spot(&self, group: &GroupName, start: u64) -> Option<Spot>
        ensures held { IfSome result (λ _. IsHeldAt group.now self.now.shelves start) }
        ensures none { IsTrue (D.view self.now.journal.disk).honest
            → IfNone result (¬ IsHeldAt group.now self.now.shelves start) }
        ensures spot { IsTrue (D.view self.now.journal.disk).honest
            → IfSome result (λ spot. IsSpot self.now.journal.frames group.now start spot) }
    {
        self.index.spot(group, start)
    }

    /// Prepares bytes of a group, and takes all memory for them. Bytes that the group has already are left
    /// out. After a refusal the content is unchanged.
    pub fn prepare(&mut self, alloc: Global, added: &NewBytes<'_>) -> Result<Piece, PutError>
        requires name { IsGroupName added.now.group.now }
        requires few { length added.now.bytes.now ≤ MAX_PUBLISH_BYTES }
        ensures prepares { IfOk result (λ piece. Prepares D.view added.now.group.now added.now.start added.now.bytes.now added.now.last
            self.old self.new piece) }
        ensures same { PutsNothing D.view self.old self.new }
        ensures none_failed { NoneFailed D.view self.old.journal self.new.journal }

        // The refusals.
        ensures fault { IfErr result (λ error. error ≢ PutError.Memory
            → fault_of (group_state_in self.old.shelves added.now.group.now) added.now.start (length added.now.bytes.now) ≡ Some error) }
        ensures none { OnOk result
            (fault_of (group_state_in self.old.shelves added.now.group.now) added.now.start (length added.now.bytes.now) ≡ None) }
    {
        prepare_piece(alloc, &mut self.journal, &mut self.index, added)
    }

    /// Appends a prepared piece, and answers the number of bytes of its group. It takes no memory. After
    /// `Disk` each further commit answers `Closed`.
    pub fn commit(&mut self, piece: Piece) -> Result<u64, AppendError>
        requires prepared { IsPrepared self.old piece }
        requires adds { IsTrue (adds piece) }
        ensures commits { IfOk result (λ held. Commits D.view piece held self.old self.new) }
        ensures safely { AppendsSafely D.view piece.body self.old.journal self.new.journal }

        // The lines are those of the groups in the frames.
        ensures lines { IsTrue (D.view self.old.journal.disk).honest
            → IsShelved self.new.journal.frames self.new.shelves }

        // The refusals, and the content log after each.
        ensures closed { IsErrOf result AppendError.Closed ↔ IsTrue self.old.journal.closed }
        ensures full { IsErrOf result AppendError.Full
            ↔ ((self.old.journal.closed ≡ false) × IsFullFor (length piece.body) self.old.journal) }
        ensures unchanged { IfErr result (λ error. error ≢ AppendError.Disk → self.new ≡ self.old) }
        ensures disk { IsErrOf result AppendError.Disk
            → ClosesByCommit D.view piece.body self.old self.new }

        // On a reliable disk with the room, an open content log takes the piece.
        ensures works { self.old.journal.closed ≡ false
            → CannotFail (length piece.body + 6) 4 (D.view self.old.journal.disk) → IsOk result }
    {
        append(&mut self.journal, &mut self.index, piece)
    }

    /// Reads the bytes of a group from an offset on, as many as fit, and answers their number. It makes one
    /// read of the disk for each frame with such bytes. After `Disk` each commit answers `Closed`.
    pub fn read(
        &mut self,
        group: &GroupName,
        start: u64,
        buf: &mut [u8],
    ) -> Result<usize, ReadError>
        ensures within { IfOk result (λ n. n ≤ length buf.old) }
        ensures bytes { IfOk result (λ n. IsTrue (D.view self.old.journal.disk).honest
            → take n buf.new ≡ take (length buf.old) (drop start (bytes_in group.now self.old.journal.frames))) }
        ensures no_group { IsErrOf result ReadError.NoGroup ↔ (held_of group.now self.old.shelves ≡ None) }
        ensures disk { IsErrOf result ReadError.Disk
            → ClosesByRead D.view self.old.journal self.new.journal }
        ensures none_failed { ¬ IsErrOf result ReadError.Disk
            → NoneFailed D.view self.old.journal self.new.journal }
        ensures same { PutsNothing D.view self.old self.new }

        // On a reliable disk, the read of a group that is there succeeds.
        ensures works { IsTrue (D.view self.old.journal.disk).reliable
            → IfErr result (λ error. error ≡ ReadError.NoGroup) }
    {
        read_group(&mut self.journal, &self.index, group, start, buf)
    }

    /// Reads `count` bytes of a group from an offset on, into a buffer of their own. The buffer has that length also if
    /// the group has fewer bytes there; the rest of it then has no meaning. Bytes that were read ahead come without a
    /// read of the disk. After `Disk` each commit answers `Closed`.
    pub fn fetch(
        &mut self,
        alloc: Global,
        group: &GroupName,
        start: u64,
        count: usize,
    ) -> Result<Vec<u8>, FetchError>
        ensures long { IfOk result (λ bytes. length bytes.items ≡ count) }
        ensures bytes { IfOk result (λ bytes. IsTrue (D.view self.old.journal.disk).honest
            → take (length (bytes_in group.now self.old.journal.frames) - start) bytes.items
            ≡ take count (drop start (bytes_in group.now self.old.journal.frames))) }
        ensures no_group { IsErrOf result FetchError.NoGroup ↔ (held_of group.now self.old.shelves ≡ None) }
        ensures disk { IsErrOf result FetchError.Disk
            → ClosesByRead D.view self.old.journal self.new.journal }
        ensures none_failed { ¬ IsErrOf result FetchError.Disk
            → NoneFailed D.view self.old.journal self.new.journal }
        ensures same { PutsNothing D.view self.old self.new }

        // On a reliable disk with enough memory, the fetch of a group that is there succeeds.
        ensures works { IsTrue (D.view self.old.journal.disk).reliable
            → IfErr result (λ error. error ≢ FetchError.Disk) }
    {
        let asked = Stretch {
            group: *group,
            start,
            count,
        };
        ahead::fetch(
            alloc,
            &mut self.journal,
            &self.index,
            &mut self.ahead,
            &asked,
        )
    }

    /// Reads ahead the range of the next `fetch`, once: the range right after the last one, if that one, too, came
    /// right after the one before. It does nothing if there is no memory, or if the group has too few bytes yet. After
    /// an error each commit answers `Closed`.
    pub fn read_ahead(&mut self, alloc: Global) -> Result<(), Failed>
        ensures disk { OnErr result (ClosesByRead D.view self.old.journal self.new.journal) }
        ensures none_failed { OnOk result (NoneFailed D.view self.old.journal self.new.journal) }
        ensures same { PutsNothing D.view self.old self.new }

        // On a reliable disk it succeeds.
        ensures works { IsTrue (D.view self.old.journal.disk).reliable → IsOk result }
    {
        ahead::read_ahead(alloc, &mut self.journal, &self.index, &mut self.ahead)
    }

    /// Hands back the disk.
    pub fn into_disk(self) -> D
        ensures disk { result ≡ self.journal.disk }

        // Every crash leaves a journal with these frames, unless a call has failed.
        ensures holds { self.journal.closed ≡ false → IsTrue (D.view self.journal.disk).honest
            → HoldsJournal D.view self.journal }
    {
        self.journal.into_disk()
    }
}

/// The content of a loaded journal.
fn indexed<D: Disk>(alloc: Global, mut journal: Journal<D>) -> Result<Content<D>, (D, FileError)>
    ensures opened { IfOk result (λ content. IsOpened D.view journal content) }
    ensures stays_err { IfErr result (λ refused. StaysAsItWas (D.view journal.disk) (D.view refused.0)) }
    ensures refuses { IfErr result
        (λ refused. RefusesIndex (D.view journal.disk) (D.view refused.0) journal.frames refused.1) }
{
    match index_frames(alloc, &mut journal) {
        Ok(index) => Ok(Content {
            journal,
            index,
            ahead: Ahead::new(),
        }),
        Err(error) => Err((journal.into_disk(), error)),
    }
}

impl Content<MemDisk> {
    /// Makes the four calls of `commit` with a stop after `calls` of them, crashes, and hands back the
    /// disk. It takes no memory.
    pub fn commit_stopped(self, piece: Piece, calls: u8, image: u8) -> MemDisk
        requires prepared { IsPrepared self piece }
        requires adds { IsTrue (adds piece) }
        requires calls { calls ≤ 4 }
        requires open { self.journal.closed ≡ false }
        requires room { CanStop (length piece.body) self.journal }

        // The old content, and the piece exactly after four calls, or after three with an image that
        // opens the gate. All bytes are durable, and no failure is set on the disk.
        ensures content { content_of (frames_of result.bytes)
            ≡ Some (groups_after calls image (groups_in self.journal.frames) piece.entry) }
        ensures frames { frames_of result.bytes ≡ frames_after calls image self.journal.frames piece.body }
        ensures journal { ¬ IsNoJournal result.bytes }
        ensures fresh { result ≡ disk_of result.bytes }
    {
        let Content {
            journal,
            index: _,
            ahead: _,
        } = self;
        journal.append_stopped(piece.frame(), calls, image)
    }
}

//! Reading ahead: bytes of a group that are read before a fetch asks for them.

ghost use Rattle.std.specs.Prelude.{◌≡◌, ◌-◌, ◌↔◌, None, Some, IsTrue, IsErrOf, IsOk, IfSome, IfOk, IfErr, OnOk, OnErr, MatchOption, length, take, drop};
ghost use Rattle.oc_base.specs.Shelves.{AreLinesAscending, held_of};
ghost use Rattle.oc_journal.specs.Promises.{ClosesByRead, NoneFailed, OnlyReads};
ghost use Rattle.oc_content.specs.Aheads.{IsAhead, AreHeld};
ghost use Rattle.oc_content.specs.ContentFile.{bytes_in};
ghost use Rattle.oc_content.specs.ContentView.{IsIndexed};

use crate::errors::FetchError;
use crate::frame_reads::read_group;
use crate::index::Index;
use oc_base::GroupName;
use oc_io::{Disk, Failed};
use oc_journal::Journal;
use std::alloc::Global;

/// A range of bytes of a group: `count` bytes from an offset on.
#[derive(Clone, Copy)]
pub struct Stretch {
    pub group: GroupName,
    pub start: u64,
    pub count: usize,
}

/// Bytes of a group from an offset on, in memory.
#[derive(Drop)]
pub struct Chunk {
    pub group: GroupName,
    pub start: u64,
    pub bytes: Vec<u8>,
}

/// The state of reading ahead.
#[derive(Drop)]
pub struct Ahead {
    /// The bytes that were read ahead and not fetched since.
    pub chunk: Option<Chunk>,
    /// The range right after the last fetch, of the same length.
    next: Option<Stretch>,
    /// Whether it is worth a read: the last fetch, too, came right after the one before.
    likely: bool,
}

impl Stretch {
    /// The range right after this one, of the same length.
    fn next(&self) -> Stretch {
        Stretch {
            group: self.group,
            start: self.start.saturating_add(self.count as u64),
            count: self.count,
        }
    }

    /// Whether the group has all bytes of the range.
    fn is_held(&self, index: &Index) -> bool
        requires { AreLinesAscending index.now.shelves.items }
        ensures { IsTrue result → AreHeld index.now.shelves.items self.now }
    {
        match index.held(&self.group) {
            Some(held) => self.count as u64 <= held.saturating_sub(self.start),
            None => false,
        }
    }
}

impl Ahead {
    /// The state before the first fetch.
    pub fn new() -> Ahead
        ensures { result.chunk ≡ None }
    {
        Ahead {
            chunk: None,
            next: None,
            likely: false,
        }
    }

    /// Notes a fetch of this range, and hands out the bytes if exactly this range was read ahead.
    fn take(&mut self, asked: &Stretch) -> Option<Vec<u8>>
        ensures taken { IfSome result (λ bytes. self.old.chunk
            ≡ Some (record { group = asked.now.group; start = asked.now.start; bytes = bytes })) }
        ensures long { IfSome result (λ bytes. length bytes.items ≡ asked.now.count) }
        ensures left { MatchOption result (self.new.chunk ≡ self.old.chunk) (λ _. self.new.chunk ≡ None) }
    {
        self.note(asked);
        if !self.has(asked) {
            return None;
        }
        let chunk = self.chunk.take()?;
        Some(chunk.bytes)
    }

    /// Notes a fetch of this range.
    fn note(&mut self, asked: &Stretch)
        ensures { self.new.chunk ≡ self.old.chunk }
    {
        self.likely = match self.next {
            Some(next) => next.group == asked.group && next.start == asked.start,
            None => false,
        };
        self.next = Some(asked.next());
    }

    /// Whether exactly this range was read ahead.
    fn has(&self, asked: &Stretch) -> bool
        ensures { IsTrue result → IfSome self.now.chunk (λ chunk. (chunk.group ≡ asked.now.group)
            × (chunk.start ≡ asked.now.start) × (length chunk.bytes.items ≡ asked.now.count)) }
    {
        match &self.chunk {
            Some(chunk) => {
                chunk.group == asked.group
                    && chunk.start == asked.start
                    && chunk.bytes.len() == asked.count
            }
            None => false,
        }
    }

    /// The range that is worth a read, if the group has all of its bytes. It is told once: a reader that follows a
    /// growing group fetches as many bytes as there are at that moment.
    fn wanted(&mut self, index: &Index) -> Option<Stretch>
        requires { AreLinesAscending index.now.shelves.items }
        ensures there { IfSome result (λ wanted. AreHeld index.now.shelves.items wanted) }
        ensures chunk { self.new.chunk ≡ self.old.chunk }
    {
        let next = self.next?;
        let is_worth_it = self.likely && !self.has(&next) && next.is_held(index);
        self.likely = false;
        if is_worth_it { Some(next) } else { None }
    }
}

/// Hands out bytes of a group in a buffer of their own: those that were read ahead, or those of a new read.
pub fn fetch<D: Disk>(
    alloc: Global,
    journal: &mut Journal<D>,
    index: &Index,
    ahead: &mut Ahead,
    asked: &Stretch,
) -> Result<Vec<u8>, FetchError>
    requires indexed { IsIndexed D.view journal.old index.now }
    requires ahead { IsAhead D.view journal.old ahead.old }
    ensures ahead { IsAhead D.view journal.new ahead.new }
    ensures long { IfOk result (λ bytes. length bytes.items ≡ asked.now.count) }
    ensures bytes { IfOk result (λ bytes. IsTrue (D.view journal.old.disk).honest
        → take (length (bytes_in asked.now.group journal.old.frames) - asked.now.start) bytes.items
        ≡ take asked.now.count (drop asked.now.start (bytes_in asked.now.group journal.old.frames))) }
    ensures no_group { IsErrOf result FetchError.NoGroup ↔ (held_of asked.now.group index.now.shelves.items ≡ None) }
    ensures disk { IsErrOf result FetchError.Disk → ClosesByRead D.view journal.old journal.new }
    ensures none_failed { ¬ IsErrOf result FetchError.Disk → NoneFailed D.view journal.old journal.new }
    ensures same { OnlyReads D.view journal.old journal.new }
{
    if index.held(&asked.group).is_none() {
        return Err(FetchError::NoGroup);
    }
    match ahead.take(asked) {
        Some(bytes) => Ok(bytes),
        None => read_stretch(alloc, journal, index, asked),
    }
}

/// Reads the range that the next fetch is likely to ask for.
pub fn read_ahead<D: Disk>(
    alloc: Global,
    journal: &mut Journal<D>,
    index: &Index,
    ahead: &mut Ahead,
) -> Result<(), Failed>
    requires indexed { IsIndexed D.view journal.old index.now }
    requires ahead { IsAhead D.view journal.old ahead.old }
    ensures ahead { IsAhead D.view journal.new ahead.new }
    ensures disk { OnErr result (ClosesByRead D.view journal.old journal.new) }
    ensures none_failed { OnOk result (NoneFailed D.view journal.old journal.new) }
    ensures same { OnlyReads D.view journal.old journal.new }
{
    let Some(wanted) = ahead.wanted(index) else {
        return Ok(());
    };
    match read_stretch(alloc, journal, index, &wanted) {
        Ok(bytes) => {
            ahead.chunk = Some(Chunk {
                group: wanted.group,
                start: wanted.start,
                bytes,
            });
            Ok(())
        }
        Err(FetchError::Disk) => Err(Failed),
        // The next fetch reads the range, if there is memory then.
        Err(FetchError::Memory | FetchError::NoGroup) => Ok(()),
    }
}

/// Reads bytes of a group into a buffer of their own.
fn read_stretch<D: Disk>(
    alloc: Global,
    journal: &mut Journal<D>,
    index: &Index,
    asked: &Stretch,
) -> Result<Vec<u8>, FetchError>
    requires { IsIndexed D.view journal.old index.now }
    ensures long { IfOk result (λ bytes. length bytes.items ≡ asked.now.count) }
    ensures bytes { IfOk result (λ bytes. IsTrue (D.view journal.old.disk).honest
        → take (length (bytes_in asked.now.group journal.old.frames) - asked.now.start) bytes.items
        ≡ take asked.now.count (drop asked.now.start (bytes_in asked.now.group journal.old.frames))) }
    ensures no_group { IsErrOf result FetchError.NoGroup → held_of asked.now.group index.now.shelves.items ≡ None }
    ensures disk { IsErrOf result FetchError.Disk → ClosesByRead D.view journal.old journal.new }
    ensures none_failed { ¬ IsErrOf result FetchError.Disk → NoneFailed D.view journal.old journal.new }
    ensures same { OnlyReads D.view journal.old journal.new }
{
    let mut bytes = vec![in alloc; 0; asked.count]?;
    match read_group(journal, index, &asked.group, asked.start, &mut bytes) {
        Ok(_) => Ok(bytes),
        Err(error) => Err(FetchError::from(error)),
    }
}

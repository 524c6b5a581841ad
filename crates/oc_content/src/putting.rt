//! Bytes to be put to a group, and the reasons to refuse them.

ghost use Rattle.std.specs.Prelude.{◌≡◌, ◌≢◌, ◌+◌, ◌-◌, ◌^◌, ◌<◌, ◌≤◌, ℕ, None, Some, List, IfOk, IfErr, OnOk, length, drop, not, nat_le, ◌&&◌};
ghost use Rattle.oc_base.specs.Names.{IsGroupName};
ghost use Rattle.oc_content.specs.Entries.{written, heading};
ghost use Rattle.oc_base.specs.declared.limits.TheConstants.{MAX_GROUP_BYTES};
ghost use Rattle.oc_base.specs.Shelves.{LooksUpLine};
ghost use Rattle.oc_base.specs.Named.{IsThere};
ghost use Rattle.oc_content.specs.Indexes.{IsSized, HasRoomFor, OnlyReserves};
ghost use Rattle.oc_content.specs.Putting.{group_state, group_state_in, fault_of, put_entry};
ghost use Rattle.oc_content.specs.ContentView.{IsIndexed, content_with};
ghost use Rattle.oc_content.specs.Promises.{Prepares, PutsNothing};
ghost use Rattle.oc_journal.specs.Promises.{NoneFailed};

use crate::errors::PutError;
use crate::group_state::{GroupState, past};
use crate::heading::Heading;
use crate::index::Index;
use crate::piece::Piece;
use oc_base::{GroupName, Lookup, MAX_GROUP_BYTES, MAX_GROUPS, MAX_PUBLISH_BYTES, Shelf, look_up};
use oc_io::Disk;
use oc_journal::Journal;
use std::alloc::{AllocError, Global};

/// Bytes that are to be put to a group.
#[derive(Clone, Copy)]
pub struct NewBytes<'a> {
    pub group: &'a GroupName,
    /// The offset of the first byte in the group.
    pub start: u64,
    pub bytes: &'a [u8],
    /// Whether the bytes are the last: the group is sealed after them.
    pub last: bool,
}

/// Prepares bytes of a group, with all memory for them.
pub fn prepare_piece<D: Disk>(
    alloc: Global,
    journal: &mut Journal<D>,
    index: &mut Index,
    added: &NewBytes<'_>,
) -> Result<Piece, PutError>
    requires indexed { IsIndexed D.view journal.old index.old }
    requires name { IsGroupName added.now.group.now }
    requires few { length added.now.bytes.now ≤ MAX_PUBLISH_BYTES }
    ensures indexed { IsIndexed D.view journal.new index.new }
    ensures prepares { IfOk result (λ piece. Prepares D.view added.now.group.now added.now.start added.now.bytes.now added.now.last
        (content_with journal.old index.old) (content_with journal.new index.new) piece) }
    ensures same { PutsNothing D.view (content_with journal.old index.old) (content_with journal.new index.new) }
    ensures none_failed { NoneFailed D.view journal.old journal.new }
    ensures fault { IfErr result (λ error. error ≢ PutError.Memory
        → fault_of (group_state_in index.old.shelves.items added.now.group.now) added.now.start (length added.now.bytes.now) ≡ Some error) }
    ensures none { OnOk result
        (fault_of (group_state_in index.old.shelves.items added.now.group.now) added.now.start (length added.now.bytes.now) ≡ None) }
{
    let piece = piece_for(alloc, index, added)?;
    journal.reserve(piece.frame())?;
    Ok(piece)
}

/// The piece of these bytes, with the index's memory for it.
fn piece_for(alloc: Global, index: &mut Index, added: &NewBytes<'_>) -> Result<Piece, PutError>
    requires sized { IsSized index.old }
    requires name { IsGroupName added.now.group.now }
    requires few { length added.now.bytes.now ≤ MAX_PUBLISH_BYTES }
    ensures fault { IfErr result (λ error. error ≢ PutError.Memory
        → fault_of (group_state_in index.old.shelves.items added.now.group.now) added.now.start (length added.now.bytes.now) ≡ Some error) }
    ensures none { OnOk result
        (fault_of (group_state_in index.old.shelves.items added.now.group.now) added.now.start (length added.now.bytes.now) ≡ None) }
    ensures entry { IfOk result (λ piece. piece.entry
        ≡ put_entry (group_state_in index.old.shelves.items added.now.group.now) added.now.group.now added.now.start added.now.bytes.now added.now.last) }
    ensures body { IfOk result (λ piece. piece.body ≡ written piece.entry) }
    ensures place { IfOk result (λ piece. LooksUpLine index.old.shelves.items added.now.group.now piece.place) }
    ensures room { IfOk result (λ piece. HasRoomFor index.new piece.room piece.place) }
    ensures keeps { OnlyReserves index.old index.new }
{
    let NewBytes {
        group,
        start,
        bytes,
        last,
    } = *added;
    let place = look_up(&index.shelves, group);
    let state = state_at(&index.shelves, place);
    if let Some(fault) = refusal(&state, start, bytes.len() as u64) {
        return Err(fault);
    }
    let heading = heading_for(&state, *group, start, bytes.len() as u64, last);
    let track = index.reserve(alloc, place)?;
    Ok(Piece::new(
        alloc,
        heading,
        place,
        track,
        past(bytes, state.held - start),
    )?)
}

/// The heading of the new part of these bytes: it begins where the group ends, and seals the group if the
/// bytes are the last, reach that end, and the group is not sealed.
fn heading_for(state: &GroupState, group: GroupName, start: u64, count: u64, last: bool) -> Heading
    requires { start + count < 2 ^ 64 }
    ensures group { result.group ≡ group }
    ensures start { result.start ≡ state.now.held }
    ensures seals { result.seals ≡ last && not state.now.sealed && nat_le state.now.held (start + count) }
    ensures skip { result.skip ≡ length (heading result.seals group state.now.held) }
{
    let seals = last && !state.sealed && state.held <= start + count;
    Heading::of(group, state.held, seals)
}

/// The state of the group at a place of the index.
pub fn state_at(shelves: &[Shelf], place: Lookup) -> GroupState
    requires { IsThere place (length shelves.now) }
    ensures { (name : List ℕ) → LooksUpLine shelves.now name place
        → result ≡ group_state_in shelves.now name }
{
    match place {
        Lookup::Found(at) => GroupState::of_line(&shelves[at]),
        Lookup::Free(_) => GroupState::absent(shelves.len()),
    }
}

/// The first reason to refuse `count` bytes from the offset `start` on, if there is one.
pub fn refusal(state: &GroupState, start: u64, count: u64) -> Option<PutError>
    requires held { state.now.held ≤ MAX_GROUP_BYTES }
    requires count { count ≤ MAX_GROUP_BYTES }
    ensures { result ≡ fault_of state.now start count }
{
    if start > state.held {
        return Some(PutError::Gap { held: state.held });
    }
    let end = start + count;
    if state.sealed && end > state.held {
        Some(PutError::Sealed)
    } else if state.one_too_many {
        Some(PutError::TooManyGroups)
    } else if end > MAX_GROUP_BYTES {
        Some(PutError::TooLong)
    } else {
        None
    }
}

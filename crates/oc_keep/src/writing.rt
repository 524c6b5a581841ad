//! The write of a step: made ready with all its memory and room, and then done.

ghost use Rattle.std.specs.Prelude.{◌≡◌, ◌≢◌, ◌⊎◌, ◌↔◌, ℕ, [], false, length, IsTrue, IsOk, IsErrOf, None, Some, MatchOption, IfOk, IfErr, OnOk};
ghost use Rattle.oc_content.specs.ContentFile.{IsShelved};
ghost use Rattle.oc_content.specs.Promises.{PutsNothing};
ghost use Rattle.oc_journal.specs.Promises.{NoneFailed};
ghost use Rattle.oc_keep.specs.Errors.{of_append};
ghost use Rattle.oc_keep.specs.Files.{AreReliable};
ghost use Rattle.oc_keep.specs.Puts.{CanKeep, CanPut};
ghost use Rattle.oc_keep.specs.Writing.{CanPutWrite, FailsToWrite, HasRoomFor, IsPutAs, IsTooLong, IsWriteOf, KeepsStore, Writes, WritesSafely};
ghost use Rattle.oc_keep.specs.declared.ready.Write.TheVariants.{Content as ContentWrite};
ghost use Rattle.oc_laws_step.specs.Frames.{FitsFrame};
ghost use Rattle.oc_model.specs.Step.{piece_of};
ghost use Rattle.oc_record.specs.Spelling.{HaveSpellings};

use crate::errors::CommitError;
use crate::ready::Write;
use oc_base::{GroupName, Memory};
use oc_content::{Content, NewBytes, Piece, PutError};
use oc_io::Disk;
use oc_model::{Body, Input};
use oc_node::Plan;
use oc_store::{AppendError, Store};
use std::alloc::Global;

/// Makes the write of a plan ready, with all memory and room for it.
pub fn writing<D: Disk>(
    alloc: Global,
    store: &mut Store<D>,
    content: &mut Content<D>,
    plan: &Plan,
    input: &Input,
) -> Result<Write, Memory>
    requires spelled { HaveSpellings plan.now.records }
    requires fits { FitsFrame plan.now.records }
    requires one_file { (plan.now.keeps ≡ None) ⊎ (plan.now.records ≡ []) }
    requires keeps { CanKeep content.old.shelves (piece_of input.now) plan.now.keeps plan.now.seals }
    ensures write { IfOk result (λ write. IsWriteOf D.view store.new content.old.shelves content.new plan.now (piece_of input.now) write) }
    ensures store { KeepsStore D.view store.old store.new }
    ensures content { PutsNothing D.view content.old content.new }
    ensures none_failed { NoneFailed D.view content.old.journal content.new.journal }
{
    let records = plan.records();
    if !records.is_empty() {
        return Ok(Write::Records(store.prepare(records)?));
    }
    match plan.keeps() {
        Some(start) => Ok(Write::Content(piece(alloc, content, start, plan.seals(), input)?)),
        None => Ok(Write::Nothing),
    }
}

/// The piece of an input's bytes that a step keeps, from this offset of the group on.
fn piece<D: Disk>(
    alloc: Global,
    content: &mut Content<D>,
    start: u64,
    closes: bool,
    input: &Input,
) -> Result<Piece, Memory>
    requires { CanPut content.old.shelves (piece_of input.now) start closes }
    ensures piece { IfOk result (λ piece. IsPutAs D.view content.old.shelves content.new (piece_of input.now) start closes piece) }
    ensures same { PutsNothing D.view content.old content.new }
    ensures none_failed { NoneFailed D.view content.old.journal content.new.journal }
{
    let Some((group, bytes)) = brought(input) else {
        unreachable!()
    };
    let added = NewBytes {
        group,
        start,
        bytes,
        last: closes,
    };
    match content.prepare(alloc, &added) {
        Ok(piece) => Ok(piece),
        Err(PutError::Memory) => Err(Memory),
        // The limits of the content log are those of the step.
        Err(_) => unreachable!(),
    }
}

/// The group and the bytes of an input that has them: a publish, a seal, or a delivered chunk.
pub fn brought(input: &Input) -> Option<(&GroupName, &[u8])>
    ensures { MatchOption result (piece_of input.now ≡ record { group = []; bytes = [] })
        (λ piece. piece_of input.now ≡ record { group = piece.0.now; bytes = piece.1.now }) }
{
    match input {
        Input::Publish { group, bytes } => Some((group, bytes.items())),
        Input::Seal { group } => Some((group, &[])),
        Input::Delivered(message) => match &message.body {
            Body::Chunk { group, bytes, .. } => Some((group, bytes.items())),
            _ => None,
        },
        _ => None,
    }
}

/// Does a prepared write. It takes no memory.
pub fn put<D: Disk>(
    store: &mut Store<D>,
    content: &mut Content<D>,
    write: Write,
) -> Result<(), CommitError>
    requires open_store { store.old.closed ≡ false }
    requires open_content { content.old.journal.closed ≡ false }
    requires ready { CanPutWrite store.old content.old write }
    ensures writes { OnOk result (Writes D.view write store.old content.old store.new content.new) }
    ensures safely { WritesSafely D.view write store.old content.old store.new content.new }
    ensures lines { OnOk result ((IsTrue (D.view content.old.journal.disk).honest → IsShelved content.old.journal.frames content.old.shelves)
        → IsTrue (D.view content.new.journal.disk).honest → IsShelved content.new.journal.frames content.new.shelves) }
    ensures full { IsErrOf result CommitError.Full ↔ IsTooLong store.old content.old write }
    ensures unchanged { IsErrOf result CommitError.Full → (store.new ≡ store.old) × (content.new ≡ content.old) }
    ensures disk { IsErrOf result CommitError.Disk
        → FailsToWrite D.view write store.old content.old store.new content.new }

    // The write is done on reliable disks with the room.
    ensures works { HasRoomFor D.view store.old content.old write → IsOk result }
{
    match write {
        Write::Nothing => Ok(()),
        Write::Records(frame) => match store.commit(&frame) {
            Ok(()) => Ok(()),
            Err(error) => Err(cause(error)),
        },
        Write::Content(piece) => match content.commit(piece) {
            Ok(_) => Ok(()),
            Err(why) => Err(cause(why)),
        },
    }
}

/// The cause for which a frame was not appended to an open file.
fn cause(error: AppendError) -> CommitError
    requires { error ≢ AppendError.Closed }
    ensures { result ≡ of_append error }
{
    match error {
        AppendError::Full => CommitError::Full,
        AppendError::Disk => CommitError::Disk,
        AppendError::Closed => unreachable!(),
    }
}

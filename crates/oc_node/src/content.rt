ghost use Rattle.std.specs.Prelude.{◌≡◌, ◌+◌, ◌≤◌, ◌<◌, ◌^◌, length, OnOk};
ghost use Rattle.oc_base.specs.Shelves.{IsShelf};
ghost use Rattle.oc_base.specs.declared.limits.TheConstants.{MAX_GROUP_BYTES, MAX_PUBLISH_BYTES};
ghost use Rattle.oc_model.specs.Content.{grows, publish_to, published, sealed_at, pulled, count_from, wanted, sends_chunk, fetched, adds_seal, adds, grown_line, asks_on, keeps_chunk, chunk_to, took_chunk};
ghost use Rattle.oc_model.specs.Shelves.{with_line};
ghost use Rattle.oc_step.specs.StepView.{goes};

use crate::chunk::Chunk;
use oc_base::{Bytes, GroupName, Memory, NodeId, Shelf, ShelfList};
use oc_model::{Answer, Body, Mode, Want};
use oc_state::shelves::{limit, line_at, line_of, next_behind, with_line};
use oc_step::Step;

// Rule 14, content: the ways in which a node gets bytes and passes them on.

// Publish and seal

/// Whether a publish changes anything: it makes a new group, or adds a byte.
fn grows(shelf: &[Shelf], group: &GroupName, count: u64) -> bool
    ensures { result ≡ grows shelf.now group.now count }
{
    line_of(shelf, group).is_none() || count != 0
}

/// Keeps a publish of this number of bytes to a group, or refuses it.
fn publish_to(step: &mut Step, shelf: &[Shelf], line: &Shelf, count: u64) -> Result<(), Memory>
    requires held { line.now.held ≤ MAX_GROUP_BYTES }
    requires count { count ≤ MAX_PUBLISH_BYTES }
    ensures { OnOk result (step.new ≡ goes step.old (publish_to step.old.plan shelf.now line.now count)) }
{
    if line.sealed {
        return step.answer(Answer::Sealed);
    }
    match limit(shelf, &line.group, line.held + count) {
        Some(answer) => step.answer(answer),
        None => {
            if grows(shelf, &line.group, count) {
                step.keep(line.held, false)
            } else {
                Ok(())
            }
        }
    }
}

/// Rule 14, content, publish: at the source alone, at the end of the group.
#[tactic(auto, using(oc_state::proofs::ShelfLines::held_bound))]
pub fn published(
    step: &mut Step,
    shelf: &[Shelf],
    group: &GroupName,
    bytes: &[u8],
) -> Result<(), Memory>
    requires shelf { IsShelf shelf.now }
    requires bytes { length bytes.now ≤ MAX_PUBLISH_BYTES }
    ensures { OnOk result (step.new ≡ goes step.old (published step.old.plan shelf.now group.now bytes.now)) }
{
    if step.id().0 == 1 {
        publish_to(step, shelf, &line_at(shelf, group), bytes.len() as u64)
    } else {
        step.answer(Answer::NotSource)
    }
}

/// Rule 14, content, seal: at the source alone, of a group that is held.
pub fn sealed_at(step: &mut Step, shelf: &[Shelf], group: &GroupName) -> Result<(), Memory>
    ensures { OnOk result (step.new ≡ goes step.old (sealed_at step.old.plan shelf.now group.now)) }
{
    if step.id().0 != 1 {
        return step.answer(Answer::NotSource);
    }
    match line_of(shelf, group) {
        Some(line) => {
            if line.sealed {
                step.ignore()
            } else {
                step.keep(line.held, true)
            }
        }
        None => step.answer(Answer::NoGroup),
    }
}

// Pull and fetch

/// The number of bytes in a chunk from a place on: all that are left, up to the limit `most`.
fn count_from(most: u32, line: &Shelf, start: u64) -> u64
    ensures { result ≡ count_from most line.now start }
{
    line.held.saturating_sub(start).min(u64::from(most))
}

/// The piece of a group for a chunk, or none if it has no bytes.
fn wanted(line: &Shelf, start: u64, count: u64) -> Option<Want>
    ensures { result ≡ wanted line.now start count }
{
    if count == 0 {
        None
    } else {
        Some(Want {
            group: line.group,
            start,
            count,
        })
    }
}

pub fn pulled(step: &mut Step, shelf: &[Shelf], peer: NodeId) -> Result<(), Memory>
    ensures { OnOk result (step.new ≡ goes step.old (pulled step.old.plan shelf.now peer)) }
{
    if peer == step.id() {
        return step.answer(Answer::Own);
    }
    let have = ShelfList::of(shelf.to_vec(step.alloc())?);
    step.send(peer, Body::Fetch { have })
}

/// Sends a node a chunk of a group, with this number of bytes from a place on; it is marked as the last if the
/// bytes end a sealed group.
fn send_chunk(
    step: &mut Step,
    to: NodeId,
    line: &Shelf,
    start: u64,
    count: u64,
) -> Result<(), Memory>
    requires { start + count < 2 ^ 64 }
    ensures { OnOk result (step.new ≡ goes step.old (sends_chunk step.old.plan to line.now start count)) }
{
    let bytes = Bytes::of(Vec::new(step.alloc()));
    step.send(
        to,
        Body::Chunk {
            group: line.group,
            start,
            bytes,
            last: line.sealed && start + count == line.held,
        },
    )?;
    step.want(wanted(line, start, count))
}

/// Rule 14, content, fetch: sends the next piece of a group of which the sender has less. Groups take turns, so
/// that a large one holds up no other.
#[tactic(auto, using(oc_state::proofs::ShelfLines::held_bound))]
pub fn fetched(step: &mut Step, shelf: &[Shelf], from: NodeId, have: &[Shelf]) -> Result<(), Memory>
    requires have { IsShelf have.now }
    ensures { OnOk result (step.new ≡ goes step.old (fetched step.old.plan shelf.now from have.now)) }
{
    match next_behind(have, shelf, u64::from(step.chunk())) {
        Some(line) => {
            let start = line_at(have, &line.group).held;
            let count = count_from(step.chunk(), &line, start);
            send_chunk(step, from, &line, start, count)
        }
        None => Ok(()),
    }
}

// Chunks

/// The place of a chunk in its group: the node's line of the group, the offsets of the begin and the end, and
/// whether the chunk is the last.
#[derive(Drop)]
struct ChunkPlace {
    line: Shelf,
    start: u64,
    end: u64,
    last: bool,
}

/// Whether a chunk closes the group: the chunk is the last one, the group is open, and no byte held is past
/// the chunk.
fn adds_seal(place: &ChunkPlace) -> bool
    ensures { result ≡ adds_seal place.now.line place.now.end place.now.last }
{
    place.last && !place.line.sealed && place.line.held <= place.end
}

/// Whether a chunk adds anything: a new group, a byte or a seal.
fn adds(shelf: &[Shelf], place: &ChunkPlace) -> bool
    ensures { result ≡ adds shelf.now place.now.line place.now.end place.now.last }
{
    line_of(shelf, &place.line.group).is_none() || place.line.held < place.end || adds_seal(place)
}

/// The line of the group after the new part of a chunk was kept.
fn grown_line(place: &ChunkPlace) -> Shelf
    ensures { result ≡ grown_line place.now.line place.now.end place.now.last }
{
    Shelf {
        group: place.line.group,
        held: place.line.held.max(place.end),
        sealed: place.line.sealed || adds_seal(place),
    }
}

/// Asks the sender for more, if the sender is the parent; the fetch tells the shelf with this line.
fn ask_on(
    step: &mut Step,
    mode: Mode,
    from: NodeId,
    shelf: &[Shelf],
    line: &Shelf,
) -> Result<(), Memory>
    requires { IsShelf shelf.now }
    ensures { OnOk result (step.new ≡ goes step.old (asks_on mode from (with_line line.now shelf.now) step.old.plan)) }
{
    match mode {
        Mode::Joined(parent) => {
            if parent == from {
                let have = ShelfList::of(with_line(step.alloc(), shelf, line)?);
                step.send(from, Body::Fetch { have })
            } else {
                Ok(())
            }
        }
        _ => Ok(()),
    }
}

/// Keeps the new part of a chunk, if there is any, and asks for more.
fn keep_chunk(
    step: &mut Step,
    shelf: &[Shelf],
    from: NodeId,
    place: &ChunkPlace,
) -> Result<(), Memory>
    requires { IsShelf shelf.now }
    ensures { OnOk result (step.new ≡ goes step.old (keeps_chunk step.old.plan shelf.now from place.now.line place.now.start place.now.end place.now.last)) }
{
    if adds(shelf, place) {
        step.keep(place.start, adds_seal(place))?;
        let mode = step.position().mode;
        ask_on(step, mode, from, shelf, &grown_line(place))
    } else {
        step.ignore()
    }
}

/// Takes a chunk for this group; a chunk that leaves a gap is dropped.
fn chunk_to(
    step: &mut Step,
    shelf: &[Shelf],
    from: NodeId,
    place: &ChunkPlace,
) -> Result<(), Memory>
    requires { IsShelf shelf.now }
    ensures { OnOk result (step.new ≡ goes step.old (chunk_to step.old.plan shelf.now from place.now.line place.now.start place.now.end place.now.last)) }
{
    let line = &place.line;
    if line.held < place.start {
        step.answer(Answer::Gap)
    } else if line.sealed && line.held < place.end {
        step.answer(Answer::Sealed)
    } else {
        match limit(shelf, &line.group, place.end) {
            Some(answer) => step.answer(answer),
            None => keep_chunk(step, shelf, from, place),
        }
    }
}

/// Rule 14, content, chunk: takes a chunk.
pub fn took_chunk(
    step: &mut Step,
    shelf: &[Shelf],
    from: NodeId,
    chunk: &Chunk,
) -> Result<(), Memory>
    requires shelf { IsShelf shelf.now }
    requires end { chunk.now.start + length chunk.now.bytes.now < 2 ^ 64 }
    ensures { OnOk result (step.new ≡ goes step.old (took_chunk step.old.plan shelf.now from chunk.now.group.now
        chunk.now.start chunk.now.bytes.now chunk.now.last)) }
{
    if step.id().0 == 1 {
        return step.ignore();
    }
    let place = ChunkPlace {
        line: line_at(shelf, chunk.group),
        start: chunk.start,
        end: chunk.start + chunk.bytes.len() as u64,
        last: chunk.last,
    };
    chunk_to(step, shelf, from, &place)
}

//! A publishing from its address to its end.

ghost use Rattle.std.specs.Prelude.{◌≡◌, ℕ, List, ◌<◌, true, false, length, option_map, IfOk, IfErr, OnOk, IsErrOf};
ghost use Rattle.oc_client.specs.Addresses.{IsBadAddress};
ghost use Rattle.oc_client.specs.Carrying.{IsPlaced, IsCarried, IsCarryStopped, IsSealed, IsSealStopped};
ghost use Rattle.oc_client.specs.Jobs.{goal_of};
ghost use Rattle.oc_client.specs.Places.{passed_over};
ghost use Rattle.oc_client.specs.ProgressLines.{Grows};
ghost use Rattle.oc_client.specs.Publishing.{IsPublished, IsPublishedAt, IsUnasked};
ghost use Rattle.oc_client.specs.PutLines.{TellsWithin};
ghost use Rattle.oc_io.specs.Faults.{NoFall, Rose};

use crate::address::{UrlFault, read_address};
use crate::aside::Aside;
use crate::destination::Destination;
use crate::effort::Progress;
use crate::input::{next_piece, pass_over};
use crate::job::Job;
use crate::load::Load;
use crate::pause::Pause;
use crate::publication::{Publication, WriteMode};
use crate::put_end::PutEnd;
use crate::put_room::PutRoom;
use crate::settling::{find, send};
use oc_base::Bytes;
use oc_io::{Sink, Source};
use oc_link::Dialler;
use std::alloc::Global;

/// Publishes an input at a URL, an `http` URL with a host, without a user and a password: into a
/// group that has no bytes yet, after its present end, or from the position at which an earlier
/// publishing of the same input stopped. An empty input makes the group. The length of the group is
/// asked for first, and the input is not read before that. The input is sent in pieces of
/// [`PUT_PIECE_BYTES`](crate::PUT_PIECE_BYTES) and one of the rest; in live mode the bytes of each
/// read are sent before the next read. After a failure it pauses and tries again, up to the fifth
/// one since a piece was last taken; a reply with status 503 counts as a failure. The lines report
/// the bytes of the input that are in the group as they grow: never more than came of the input, at
/// any end. Each connection is ended.
pub fn put<L: Dialler, S: Source, P: Pause, E: Sink>(
    alloc: Global,
    to: &Destination<'_>,
    plan: Publication,
    input: &mut S,
    link: &mut L,
    aside: &mut Aside<P, E>,
) -> PutEnd
    ensures published { IsPublished S.gives S.fails S.ended plan to.now.address.now (option_map (λ t. t.now) to.now.token)
        (L.story link.old) (L.story link.new) input.old input.new result }
    ensures bad { IsBadAddress to.now.address.now → IsUnasked to.now.address.now result }
    ensures link_count { NoFall (L.faults link.old) (L.faults link.new) }
    ensures input_count { NoFall (S.faults input.old) (S.faults input.new) }
    ensures link_cause { result ≡ PutEnd.Link → Rose (L.faults link.old) (L.faults link.new) }
    ensures input_cause { result ≡ PutEnd.Input → Rose (S.faults input.old) (S.faults input.new) }
    ensures lines { (more : ℕ) × Grows E.takes E.fails aside.old.lines more aside.new.lines }
    ensures within { TellsWithin S.gives S.fails E.takes E.fails input.old input.new aside.old.lines aside.new.lines result }
    ensures told { result ≡ PutEnd.Done → (came : List ℕ) × S.gives input.old came input.new × Grows E.takes E.fails aside.old.lines (length came) aside.new.lines }
{
    match read_address(alloc, to.address) {
        Ok(url) => match Job::new(alloc, plan, url, to.token) {
            Ok(job) => publish(&job, input, link, aside),
            Err(_) => PutEnd::Memory,
        },
        Err(UrlFault::Bad) => PutEnd::BadUrl,
        Err(UrlFault::Memory) => PutEnd::Memory,
    }
}

/// Publishes an input.
fn publish<L: Dialler, S: Source, P: Pause, E: Sink>(
    job: &Job<'_>,
    input: &mut S,
    link: &mut L,
    aside: &mut Aside<P, E>,
) -> PutEnd
    ensures published { IsPublishedAt S.gives S.fails S.ended job.now.plan (goal_of job.now)
        (L.story link.old) (L.story link.new) input.old input.new result }
    ensures link_count { NoFall (L.faults link.old) (L.faults link.new) }
    ensures input_count { NoFall (S.faults input.old) (S.faults input.new) }
    ensures link_cause { result ≡ PutEnd.Link → Rose (L.faults link.old) (L.faults link.new) }
    ensures input_cause { result ≡ PutEnd.Input → Rose (S.faults input.old) (S.faults input.new) }
    ensures within { TellsWithin S.gives S.fails E.takes E.fails input.old input.new aside.old.lines aside.new.lines result }
    ensures told { result ≡ PutEnd.Done → (came : List ℕ) × S.gives input.old came input.new × Grows E.takes E.fails aside.old.lines (length came) aside.new.lines }
{
    match publish_all(job, input, link, aside) {
        Ok(()) => PutEnd::Done,
        Err(end) => end,
    }
}

/// Finds the place, sends the pieces and closes the group.
fn publish_all<L: Dialler, S: Source, P: Pause, E: Sink>(
    job: &Job<'_>,
    input: &mut S,
    link: &mut L,
    aside: &mut Aside<P, E>,
) -> Result<(), PutEnd>
    ensures done { OnOk result (IsPublishedAt S.gives S.fails S.ended job.now.plan (goal_of job.now)
        (L.story link.old) (L.story link.new) input.old input.new PutEnd.Done) }
    ensures stopped { IfErr result (λ end. IsPublishedAt S.gives S.fails S.ended job.now.plan (goal_of job.now)
        (L.story link.old) (L.story link.new) input.old input.new end) }
    ensures link_count { NoFall (L.faults link.old) (L.faults link.new) }
    ensures input_count { NoFall (S.faults input.old) (S.faults input.new) }
    ensures link_cause { IsErrOf result PutEnd.Link → Rose (L.faults link.old) (L.faults link.new) }
    ensures input_cause { IsErrOf result PutEnd.Input → Rose (S.faults input.old) (S.faults input.new) }
    ensures within { IfErr result (TellsWithin S.gives S.fails E.takes E.fails input.old input.new aside.old.lines aside.new.lines) }
    ensures told { OnOk result ((came : List ℕ) × S.gives input.old came input.new × Grows E.takes E.fails aside.old.lines (length came) aside.new.lines) }
    ensures unfinished { ¬ (IsErrOf result PutEnd.Done) }
{
    let mut room = PutRoom::new(job.alloc)?;
    let found = find(job, &mut room, link, &mut aside.pause)?;
    go_to_place(job.plan.place, found.length, input, &mut room.passed)?;
    aside.lines.add(passed_over(job.plan.place, found.length));
    let reached = carry(job, found, input, &mut room, link, aside)?;
    close(job, reached, &mut room, link, &mut aside.pause)
}

/// Skips the part of the input that the group has already.
fn go_to_place<S: Source>(
    place: WriteMode,
    found: u64,
    input: &mut S,
    buffer: &mut [u8],
) -> Result<(), PutEnd>
    requires { 0 < length buffer.old }
    ensures placed { IsPlaced S.gives S.fails S.ended place found input.old input.new result }
    ensures count { NoFall (S.faults input.old) (S.faults input.new) }
    ensures cause { IsErrOf result PutEnd.Input → Rose (S.faults input.old) (S.faults input.new) }
{
    match place {
        WriteMode::New if found > 0 => Err(PutEnd::Length(found)),
        WriteMode::New | WriteMode::Append => Ok(()),
        WriteMode::Resume => pass_over(found, input, buffer),
    }
}

/// The number of bytes of the input that the group has before any is sent.
fn passed_over(place: WriteMode, found: u64) -> u64
    ensures { result ≡ passed_over place found }
{
    match place {
        WriteMode::New | WriteMode::Append => 0,
        WriteMode::Resume => found,
    }
}

/// Sends the rest of the input piece by piece, in order.
fn carry<L: Dialler, S: Source, P: Pause, E: Sink>(
    job: &Job<'_>,
    found: Progress,
    input: &mut S,
    room: &mut PutRoom,
    link: &mut L,
    aside: &mut Aside<P, E>,
) -> Result<Progress, PutEnd>
    ensures carried { IfOk result (λ reached. IsCarried S.gives S.ended job.now.plan (goal_of job.now) found
        (L.story link.old) (L.story link.new) input.old input.new reached) }
    ensures stopped { IfErr result (λ end. IsCarryStopped S.gives S.fails job.now.plan (goal_of job.now) found
        (L.story link.old) (L.story link.new) input.old input.new end) }
    ensures link_count { NoFall (L.faults link.old) (L.faults link.new) }
    ensures input_count { NoFall (S.faults input.old) (S.faults input.new) }
    ensures link_cause { IsErrOf result PutEnd.Link → Rose (L.faults link.old) (L.faults link.new) }
    ensures input_cause { IsErrOf result PutEnd.Input → Rose (S.faults input.old) (S.faults input.new) }
    ensures within { IfErr result (TellsWithin S.gives S.fails E.takes E.fails input.old input.new aside.old.lines aside.new.lines) }
    ensures told { OnOk result ((came : List ℕ) × S.gives input.old came input.new × Grows E.takes E.fails aside.old.lines (length came) aside.new.lines) }
{
    let mut reached = found;
    let mut may_be_empty = job.plan.place.sends_empty();
    'pieces: loop {
        let piece = next_piece(job.alloc, job.plan.live, input)?;
        let count = piece.items().len();
        if is_left_out(count, may_be_empty) {
            return Ok(reached);
        }
        let load = Load {
            piece,
            seals: false,
        };
        reached = send(job, &load, reached, room, link, &mut aside.pause)?;
        aside.lines.add(count as u64);
        if count < job.plan.least_piece() {
            return Ok(reached);
        }
        may_be_empty = false;
    }
}

/// Whether a piece of this length is left out: an empty piece is sent only if an empty input makes
/// the group.
fn is_left_out(count: usize, may_be_empty: bool) -> bool
    ensures left_out { result ≡ true → (count ≡ 0) × (may_be_empty ≡ false) }
    ensures sent { result ≡ false → count ≡ 0 → may_be_empty ≡ true }
{
    count == 0 && !may_be_empty
}

/// Closes the group, if that is wanted.
fn close<L: Dialler, P: Pause>(
    job: &Job<'_>,
    reached: Progress,
    room: &mut PutRoom,
    link: &mut L,
    pause: &mut P,
) -> Result<(), PutEnd>
    ensures sealed { OnOk result (IsSealed (goal_of job.now) job.now.plan.seal reached (L.story link.old) (L.story link.new)) }
    ensures stopped { IfErr result (IsSealStopped (goal_of job.now) job.now.plan.seal reached (L.story link.old) (L.story link.new)) }
    ensures count { NoFall (L.faults link.old) (L.faults link.new) }
    ensures cause { IsErrOf result PutEnd.Link → Rose (L.faults link.old) (L.faults link.new) }
{
    if !job.plan.seal {
        return Ok(());
    }
    let load = Load {
        piece: Bytes::of(Vec::new(job.alloc)),
        seals: true,
    };
    send(job, &load, reached, room, link, pause)?;
    Ok(())
}

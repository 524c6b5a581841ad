//! The command `put`, which publishes its input.
ghost use Rattle.std.specs.Prelude.{◌≡◌};
ghost use Rattle.oc_io.specs.Faults.{NoFall};
ghost use Rattle.oc_commands.specs.AtPut.{HappenedAtPut, is_done, place_of};
ghost use Rattle.oc_commands.specs.Outside.{at_link, at_source};
ghost use Rattle.oc_commands.specs.Telling.{at_error};

use crate::progress::{Counting, finish};
use oc_client::{Aside, Destination, Pause, Publication, PutEnd, WriteMode, put};
use oc_io::{Sink, Source};
use oc_link::Dialler;
use oc_words::{Name, Onto, Upload, text_of};
use std::alloc::Global;

/// Publishes the input into a group, with a token or without. It pauses after each failure but the
/// last. If progress lines are wanted, they give the number of bytes of the input in the group:
/// never more than came of the input, at any end.
pub fn publish<S: Source, L: Dialler, P: Pause, E: Sink>(
    alloc: Global,
    wanted: &Upload,
    token: &Option<Name>,
    input: &mut S,
    link: &mut L,
    aside: &mut Aside<P, Counting<E>>,
) -> PutEnd
    requires lines { aside.old.lines.active ≡ wanted.now.progress }
    requires new { aside.old.lines.count ≡ 0 }
    ensures happened { HappenedAtPut (at_link L.story L.faults link.old link.new)
        (at_source S.gives S.fails S.ended S.faults input.old input.new)
        (at_error E.takes E.fails E.faults aside.old.lines.sink.sink aside.new.lines.sink.sink) wanted.now token.now result }
    ensures count { NoFall (S.faults input.old) (S.faults input.new) }
    ensures error_count { NoFall (E.faults aside.old.lines.sink.sink) (E.faults aside.new.lines.sink.sink) }
{
    let to = Destination {
        address: wanted.address.as_str(),
        token: text_of(token),
    };
    let plan = Publication {
        place: place_of(wanted.onto),
        seal: wanted.seals,
        live: wanted.live,
    };
    let end = put(alloc, &to, plan, input, link, aside);
    finish(&mut aside.lines, is_done(end));
    end
}

/// Whether the whole input was published.
fn is_done(end: PutEnd) -> bool
    ensures { result ≡ is_done end }
{
    matches!(end, PutEnd::Done)
}

/// The place of the input in its group.
fn place_of(onto: Onto) -> WriteMode
    ensures { result ≡ place_of onto }
{
    match onto {
        Onto::New => WriteMode::New,
        Onto::Append => WriteMode::Append,
        Onto::Resume => WriteMode::Resume,
    }
}

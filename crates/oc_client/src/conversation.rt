//! A conversation: one request after another.

ghost use Rattle.std.specs.Prelude.{◌≡◌, ◌<◌, false, IfErr, OnOk, IsErrOf};
ghost use Rattle.oc_client.specs.Conversations.{Converses};
ghost use Rattle.oc_client.specs.Passing.{IsTalked, IsTalkedThrough};
ghost use Rattle.oc_client.specs.Wishes.{wish_of};
ghost use Rattle.oc_io.specs.Faults.{NoFall, Rose};

use crate::client_state::ClientState;
use crate::end::GetEnd;
use crate::exchange::exchange;
use crate::room::Room;
use crate::wish::Wish;
use oc_io::Sink;
use oc_link::Dialler;
use std::alloc::Global;

/// Makes requests, beginning from a state, until no more replies are wanted, and then ends the
/// connection.
pub(crate) fn converse<L: Dialler, K: Sink>(
    alloc: Global,
    wish: &Wish<'_>,
    state: ClientState,
    link: &mut L,
    sink: &mut K,
) -> GetEnd
    requires { state.kept ≡ false }
    ensures talked { IsTalked K.takes K.fails (Converses (wish_of wish.now) state)
        (L.story link.old) (L.story link.new) sink.old sink.new result }
    ensures link_count { NoFall (L.faults link.old) (L.faults link.new) }
    ensures sink_count { NoFall (K.faults sink.old) (K.faults sink.new) }
    ensures link_cause { result ≡ GetEnd.Link → Rose (L.faults link.old) (L.faults link.new) }
    ensures sink_cause { result ≡ GetEnd.Sink → Rose (K.faults sink.old) (K.faults sink.new) }
{
    let talked = talk(alloc, wish, state, link, sink);
    link.hang_up();
    match talked {
        Ok(()) => GetEnd::Done,
        Err(end) => end,
    }
}

/// Makes one request after another.
fn talk<L: Dialler, K: Sink>(
    alloc: Global,
    wish: &Wish<'_>,
    mut state: ClientState,
    link: &mut L,
    sink: &mut K,
) -> Result<(), GetEnd>
    requires { state.kept ≡ false }
    ensures through { OnOk result (IsTalkedThrough K.takes K.fails (Converses (wish_of wish.now) state)
        (L.story link.old) (L.story link.new) sink.old sink.new GetEnd.Done) }
    ensures ended { IfErr result (λ end. IsTalkedThrough K.takes K.fails (Converses (wish_of wish.now) state)
        (L.story link.old) (L.story link.new) sink.old sink.new end) }
    ensures link_count { NoFall (L.faults link.old) (L.faults link.new) }
    ensures sink_count { NoFall (K.faults sink.old) (K.faults sink.new) }
    ensures link_cause { IsErrOf result GetEnd.Link → Rose (L.faults link.old) (L.faults link.new) }
    ensures sink_cause { IsErrOf result GetEnd.Sink → Rose (K.faults sink.old) (K.faults sink.new) }
{
    let mut room = Room::new(alloc)?;
    'turns: while state.replies > 0 {
        exchange(wish, &mut state, &mut room, link, sink)?;
    }
    Ok(())
}

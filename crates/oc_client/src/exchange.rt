//! One request and its reply.

ghost use Rattle.std.specs.Prelude.{◌≡◌, ◌<◌, IfErr, OnOk, IsErrOf};
ghost use Rattle.oc_client.specs.Conversations.{LeadsOn, EndsWith, GoesOn, EndsAt};
ghost use Rattle.oc_client.specs.Passing.{IsHeard, IsLastHeard, IsExchanged, IsLastExchanged};
ghost use Rattle.oc_client.specs.Wishes.{wish_of};
ghost use Rattle.oc_link.specs.Exchange.{Hears, HearsThenBreaks};
ghost use Rattle.oc_io.specs.Faults.{NoFall, Rose};
ghost use Rattle.oc_link.specs.Calls.{Told, IfTold, OnOutgoing};
ghost use Rattle.oc_link.specs.Story.{IsHeardOut};

use crate::asking::ask;
use crate::client_state::ClientState;
use crate::end::GetEnd;
use crate::hearing::hear;
use crate::room::Room;
use crate::wish::{Wish, write_request};
use oc_io::Sink;
use oc_link::{Dialler, Outgoing};

/// Makes the request of a client in a state, passes on the content of the reply, and moves to the
/// next state.
pub(crate) fn exchange<L: Dialler, K: Sink>(
    wish: &Wish<'_>,
    state: &mut ClientState,
    room: &mut Room,
    link: &mut L,
    sink: &mut K,
) -> Result<(), GetEnd>
    requires { 0 < state.old.replies }
    ensures goes_on { OnOk result (IsExchanged K.takes
        (λ turn content. GoesOn (wish_of wish.now) state.old turn content state.new)
        (L.story link.old) (L.story link.new) sink.old sink.new) }
    ensures ends { IfErr result (λ end. IsLastExchanged K.takes K.fails
        (EndsAt (wish_of wish.now) state.old)
        (L.story link.old) (L.story link.new) sink.old sink.new end) }
    ensures link_count { NoFall (L.faults link.old) (L.faults link.new) }
    ensures sink_count { NoFall (K.faults sink.old) (K.faults sink.new) }
    ensures link_cause { IsErrOf result GetEnd.Link → Rose (L.faults link.old) (L.faults link.new) }
    ensures sink_cause { IsErrOf result GetEnd.Sink → Rose (K.faults sink.old) (K.faults sink.new) }
{
    let request = write_request(room.alloc, wish, state)?;
    ask(state, &request, link)?;
    hear_outgoing(wish, state, room, link, sink)
}

/// Reads a reply from the outgoing connection.
fn hear_outgoing<L: Dialler, K: Sink>(
    wish: &Wish<'_>,
    state: &mut ClientState,
    room: &mut Room,
    link: &mut L,
    sink: &mut K,
) -> Result<(), GetEnd>
    ensures heard { OnOk result (IsHeard
        (λ old bytes new. Told (OnOutgoing (Hears bytes)) (L.story old) (L.story new))
        (λ l. IfTold (L.story l) IsHeardOut) K.takes
        (λ reply over content. LeadsOn (wish_of wish.now) state.old reply over content state.new)
        link.old link.new sink.old sink.new) }
    ensures last { IfErr result (λ end. IsLastHeard
        (λ old bytes new. Told (OnOutgoing (Hears bytes)) (L.story old) (L.story new))
        (λ old bytes new. Told (OnOutgoing (HearsThenBreaks bytes)) (L.story old) (L.story new))
        (λ l. IfTold (L.story l) IsHeardOut) K.takes K.fails
        (EndsWith (wish_of wish.now) state.old)
        link.old link.new sink.old sink.new end) }
    ensures link_count { NoFall (L.faults link.old) (L.faults link.new) }
    ensures sink_count { NoFall (K.faults sink.old) (K.faults sink.new) }
    ensures link_cause { IsErrOf result GetEnd.Link → Rose (L.faults link.old) (L.faults link.new) }
    ensures sink_cause { IsErrOf result GetEnd.Sink → Rose (K.faults sink.old) (K.faults sink.new) }
{
    hear(wish, state, room, &mut Outgoing::new(link), sink)
}

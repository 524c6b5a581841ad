//! One request on a dial of its own, and the answer in its reply.

ghost use Rattle.std.specs.Prelude.{◌≡◌, IsErrOf};
ghost use Rattle.oc_io.specs.Faults.{NoFall, Rose};
ghost use Rattle.oc_link.specs.Exchange.{Hears, HearsThenBreaks};
ghost use Rattle.oc_link.specs.Calls.{Told, IfTold, OnOutgoing};
ghost use Rattle.oc_link.specs.Story.{IsHeardOut};
ghost use Rattle.oc_client.specs.PutHearing.{Hears as HearsReply};
ghost use Rattle.oc_client.specs.PutReplies.{Answers};
ghost use Rattle.oc_client.specs.PutTurns.{IsDialled};

use crate::answer::{Failure, PutAnswer};
use crate::put_hearing::hear;
use oc_http::HeadReader;
use oc_link::{Dialler, Outgoing};

/// Writes a request on a new dial, takes the reply, and ends the dial.
pub(crate) fn exchange<L: Dialler>(
    address: &str,
    request: &[u8],
    asks: bool,
    heads: &mut HeadReader,
    link: &mut L,
) -> Result<PutAnswer, Failure>
    ensures dialled { IsDialled address.now request.now asks (L.story link.old) (L.story link.new) result }
    ensures count { NoFall (L.faults link.old) (L.faults link.new) }
    ensures cause { IsErrOf result Failure.Link → Rose (L.faults link.old) (L.faults link.new) }
{
    match link.dial(address, request) {
        Ok(()) => {
            let answer = hear_outgoing(asks, heads, link);
            link.hang_up();
            answer
        }
        Err(_) => {
            link.hang_up();
            Err(Failure::Link)
        }
    }
}

/// Reads a reply from the outgoing connection.
fn hear_outgoing<L: Dialler>(
    asks: bool,
    heads: &mut HeadReader,
    link: &mut L,
) -> Result<PutAnswer, Failure>
    ensures heard { HearsReply
        (λ old bytes new. Told (OnOutgoing (Hears bytes)) (L.story old) (L.story new))
        (λ old bytes new. Told (OnOutgoing (HearsThenBreaks bytes)) (L.story old) (L.story new))
        (λ l. IfTold (L.story l) IsHeardOut)
        (λ reply over. Answers asks reply over result) link.old link.new result }
    ensures count { NoFall (L.faults link.old) (L.faults link.new) }
    ensures cause { IsErrOf result Failure.Link → Rose (L.faults link.old) (L.faults link.new) }
{
    hear(asks, heads, &mut Outgoing::new(link))
}

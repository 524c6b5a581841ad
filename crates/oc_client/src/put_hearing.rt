//! Reading of a reply for a client that publishes.

ghost use Rattle.std.specs.Prelude.{◌≡◌, true, false, IsErrOf};
ghost use Rattle.oc_io.specs.Faults.{NoFall, Rose};
ghost use Rattle.oc_client.specs.PutHearing.{Hears};
ghost use Rattle.oc_client.specs.PutReplies.{Answers};

use crate::answer::{Failure, PutAnswer, answer_to_ask, answer_to_publish};
use oc_http::HeadReader;
use oc_io::Source;

/// Reads a reply from a source, and gives its answer. For a query only the head is read.
pub(crate) fn hear<S: Source>(
    asks: bool,
    heads: &mut HeadReader,
    source: &mut S,
) -> Result<PutAnswer, Failure>
    ensures heard { Hears S.gives S.fails S.ended (λ reply over. Answers asks reply over result) source.old source.new result }
    ensures count { NoFall (S.faults source.old) (S.faults source.new) }
    ensures cause { IsErrOf result Failure.Link → Rose (S.faults source.old) (S.faults source.new) }
{
    if asks {
        hear_head(heads, source)
    } else {
        hear_whole(heads, source)
    }
}

/// Reads the reply to a query.
fn hear_head<S: Source>(heads: &mut HeadReader, source: &mut S) -> Result<PutAnswer, Failure>
    ensures heard { Hears S.gives S.fails S.ended (λ reply over. Answers true reply over result) source.old source.new result }
    ensures count { NoFall (S.faults source.old) (S.faults source.new) }
    ensures cause { IsErrOf result Failure.Link → Rose (S.faults source.old) (S.faults source.new) }
{
    let head = heads.read_response_head(source)?;
    answer_to_ask(&head)
}

/// Reads the reply to a request that sent bytes or a seal.
fn hear_whole<S: Source>(heads: &mut HeadReader, source: &mut S) -> Result<PutAnswer, Failure>
    ensures heard { Hears S.gives S.fails S.ended (λ reply over. Answers false reply over result) source.old source.new result }
    ensures count { NoFall (S.faults source.old) (S.faults source.new) }
    ensures cause { IsErrOf result Failure.Link → Rose (S.faults source.old) (S.faults source.new) }
{
    let reply = heads.read_response(source)?;
    answer_to_publish(&reply)
}

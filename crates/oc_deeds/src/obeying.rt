//! The deeds for a request.

ghost use Rattle.std.specs.Prelude.{◌≡◌, IfErr, IfOk, IfSome, OnOk};
ghost use Rattle.oc_model.specs.Lawful.{IsInput};
ghost use Rattle.oc_routes.specs.Asks.{IsLawfulAsk, IsLawfulVerdict};
ghost use Rattle.oc_routes.specs.Lawful.{IsAsking};
ghost use Rattle.oc_select.specs.declared.selection.Selection.TheVariants.{Whole};
ghost use Rattle.oc_deeds.specs.Asks.{answers_or_waits, obeys, responds, selects, settled_at, takes_on};
ghost use Rattle.oc_deeds.specs.Hurries.{input_hurries, request_hurries, verdict_hurries};

use crate::asked::{Accepted, holding_in, hurries, waiting};
use crate::doer::Doer;
use crate::ends::TurnEnd;
use crate::told::accepts_in;
use crate::work::{Pending, pending_of};
use oc_link::ConnectionId;
use oc_model::{Answer, Input};
use oc_routes::{Request, Verdict, settled, unmet};

/// Does the part of a verdict on this many bytes of a request. Gives whether this hurries the next tick.
pub fn obeys<W: Doer>(
    doer: &mut W,
    connection: ConnectionId,
    count: u64,
    verdict: Verdict,
    now: u64,
) -> Result<bool, TurnEnd>
    requires serving { W.serving doer.old }
    requires verdict { IsLawfulVerdict (W.running doer.old).node.control.nodes (W.running doer.old).node.control.me verdict }
    ensures did { OnOk result (W.does (obeys connection count verdict now) doer.old doer.new) }
    ensures hurries { IfOk result (λ hurries. W.honest doer.old → hurries ≡ verdict_hurries verdict (W.running doer.old).node) }
    ensures breaks { IfErr result (λ end. W.stops end (obeys connection count verdict now) doer.old doer.new) }
{
    W::parts_go_on();
    W::parts_stop();
    match verdict {
        Verdict::Wait => Ok(false),
        Verdict::Leave => {
            doer.breaks_off(connection);
            Ok(false)
        }
        Verdict::Permit => {
            doer.permits(connection);
            Ok(false)
        }
        Verdict::Refuse(refusal) => {
            doer.refuses(connection, count, refusal)?;
            Ok(false)
        }
        Verdict::Ask(request) => takes_on(doer, connection, request, now),
    }
}

/// Refuses a whole request that has another length for its group; answers any other, or lets it wait.
fn takes_on<W: Doer>(
    doer: &mut W,
    connection: ConnectionId,
    request: Request,
    now: u64,
) -> Result<bool, TurnEnd>
    requires serving { W.serving doer.old }
    requires request { IsLawfulAsk (W.running doer.old).node.control.nodes (W.running doer.old).node.control.me request }
    requires whole { request.asked.selection ≡ Whole }
    ensures did { OnOk result (W.does (takes_on connection request now) doer.old doer.new) }
    ensures hurries { IfOk result (λ hurries. W.honest doer.old → hurries ≡ request_hurries request (W.running doer.old).node) }
    ensures breaks { IfErr result (λ end. W.stops end (takes_on connection request now) doer.old doer.new) }
{
    W::parts_go_on();
    W::parts_stop();
    match unmet(&request, doer.node().id(), doer.shelf()) {
        Some(refusal) => {
            doer.refuses(connection, request.count, refusal)?;
            Ok(false)
        }
        None => selects(doer, connection, request, now),
    }
}

/// Answers a whole request by what it selects of its group as the node holds it now, or lets it wait.
fn selects<W: Doer>(
    doer: &mut W,
    connection: ConnectionId,
    request: Request,
    now: u64,
) -> Result<bool, TurnEnd>
    requires serving { W.serving doer.old }
    requires request { IsLawfulAsk (W.running doer.old).node.control.nodes (W.running doer.old).node.control.me request }
    requires whole { request.asked.selection ≡ Whole }
    ensures did { OnOk result (W.does (selects connection request now) doer.old doer.new) }
    ensures hurries { IfOk result (λ hurries. W.honest doer.old → hurries ≡ input_hurries request.asked.operation (settled_at (W.running doer.old).node.groups request).input (W.running doer.old).node) }
    ensures breaks { IfErr result (λ end. W.stops end (selects connection request now) doer.old doer.new) }
{
    W::parts_go_on();
    W::parts_stop();
    doer.may_end();
    let holding = holding_in(&request.asked.operation, doer.shelf());
    let request = settled(doer.alloc(), request, holding)?;
    answers_or_waits(doer, connection, request, now)
}

/// Answers a whole request, or lets it wait.
fn answers_or_waits<W: Doer>(
    doer: &mut W,
    connection: ConnectionId,
    request: Request,
    now: u64,
) -> Result<bool, TurnEnd>
    requires serving { W.serving doer.old }
    requires request { IsLawfulAsk (W.running doer.old).node.control.nodes (W.running doer.old).node.control.me request }
    ensures did { OnOk result (W.does (answers_or_waits connection request now) doer.old doer.new) }
    ensures hurries { IfOk result (λ hurries. W.honest doer.old → hurries ≡ input_hurries request.asked.operation request.input (W.running doer.old).node) }
    ensures breaks { IfErr result (λ end. W.stops end (answers_or_waits connection request now) doer.old doer.new) }
{
    W::parts_go_on();
    W::parts_stop();
    if doer.has_to_wait(&request)? {
        doer.waits(waiting(connection, request, now))?;
        return Ok(false);
    }
    let pending = pending_of(connection, &request, request.input.is_some(), false);
    responds(doer, pending, request.input, now)
}

/// Takes the input of a request, if it has one, and answers it.
pub fn responds<W: Doer>(
    doer: &mut W,
    pending: Pending,
    input: Option<Input>,
    now: u64,
) -> Result<bool, TurnEnd>
    requires serving { W.serving doer.old }
    requires asks { IsAsking pending.asked }
    requires input { IfSome input (IsInput (W.running doer.old).node.control.nodes (W.running doer.old).node.control.me) }
    ensures did { OnOk result (W.does (responds pending input now) doer.old doer.new) }
    ensures hurries { IfOk result (λ hurries. W.honest doer.old → hurries ≡ input_hurries pending.asked.operation input (W.running doer.old).node) }
    ensures breaks { IfErr result (λ end. W.stops end (responds pending input now) doer.old doer.new) }
{
    W::parts_go_on();
    W::parts_stop();
    match input {
        Some(input) => accepts_and_responds(doer, pending, input, now),
        None => {
            let accepted = Accepted {
                answer: Answer::Ok,
                back: None,
            };
            doer.replies(pending, &accepted, now)?;
            Ok(hurries(&pending.asked.operation, Answer::Ok))
        }
    }
}

/// Takes the input of a request, and answers it.
fn accepts_and_responds<W: Doer>(
    doer: &mut W,
    pending: Pending,
    input: Input,
    now: u64,
) -> Result<bool, TurnEnd>
    requires serving { W.serving doer.old }
    requires asks { IsAsking pending.asked }
    requires input { IsInput (W.running doer.old).node.control.nodes (W.running doer.old).node.control.me input }
    ensures did { OnOk result (W.does (responds pending (Some input) now) doer.old doer.new) }
    ensures hurries { IfOk result (λ hurries. W.honest doer.old → hurries ≡ input_hurries pending.asked.operation (Some input) (W.running doer.old).node) }
    ensures breaks { IfErr result (λ end. W.stops end (responds pending (Some input) now) doer.old doer.new) }
{
    W::parts_go_on();
    W::parts_stop();
    let accepted = accepts_in(doer, input)?;
    doer.replies(pending, &accepted, now)?;
    Ok(hurries(&pending.asked.operation, accepted.answer))
}

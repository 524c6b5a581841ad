//! The verdict on the bytes that came on a connection so far.

ghost use Rattle.std.specs.Prelude.{◌≡◌, ◌≤◌, ◌++◌, length, option_map, IfOk};
ghost use Rattle.oc_base.specs.declared.limits.TheConstants.{MAX_BODY_BYTES as MOST_BODY};
ghost use Rattle.oc_policy.specs.declared.deciding.TheConstants.{MAX_RULES as MOST_RULES};
ghost use Rattle.oc_routes.specs.Asks.{IsLawfulVerdict};
ghost use Rattle.oc_routes.specs.Verdicts.{IsVerdict, after_head, fault_met, input_for, refuse, taken, terms_of, unfinished};

use crate::asker::Asker;
use crate::connections::{kept_after, kept_after_head};
use crate::hint::{Hint, route_with_hint};
use crate::rest::Rest;
use crate::routes::message::is_forged;
use crate::selecting::{line_of, selectors_for};
use crate::terms::Terms;
use crate::verdict::{Refusal, Request, Verdict};
use crate::{Refused, RouteFault, awaits_continue, input_of, is_last};
use oc_base::Memory;
use oc_http::{Head, HeadReader, HttpFault};
use oc_link::{Arrival, Coming};
use oc_model::Input;
use std::alloc::Global;

/// The verdict on a connection for the bytes of its request that came so far. The cuts between these bytes make no
/// difference: the verdict is that on the same bytes in one piece.
pub fn judge(
    alloc: Global,
    heads: &mut HeadReader,
    terms: &Terms<'_>,
    arrival: Arrival,
    bytes: &[u8],
) -> Result<Verdict, Memory>
    requires { length terms.now.rules.now ≤ MOST_RULES }
    ensures verdict { IfOk result (IsVerdict (terms_of terms.now.me terms.now.nodes terms.now.rules.now (option_map (λ k. k.now) terms.now.keys)) arrival bytes.now) }
    ensures lawful { IfOk result (IsLawfulVerdict terms.now.nodes terms.now.me) }
{
    let mut source = Rest::of(bytes);
    match heads.read_head(&mut source) {
        Ok(head) => after_head(alloc, terms, arrival, bytes.len() as u64, head, source.left),
        Err(fault) => match fault_met(fault) {
            None => Ok(unfinished(arrival.coming, bytes.is_empty())),
            Some(RouteFault::Refused(why)) => {
                let asker = Asker::of_front(taken(bytes, source.left));
                Ok(refuse(asker, None, why))
            }
            Some(RouteFault::Memory) => Err(Memory),
        },
    }
}

/// The bytes that were taken of these, of which those are left.
fn taken<'a>(bytes: &'a [u8], left: &[u8]) -> &'a [u8]
    ensures { result.now ≡ taken bytes.now left.now }
{
    let count = bytes.len().saturating_sub(left.len());
    &bytes[..count]
}

/// The verdict that refuses a request of this sender, with its bytes where the connection is kept.
fn refuse(asker: Asker, kept: Option<u64>, why: Refused) -> Verdict
    ensures { result ≡ refuse asker kept why }
{
    Verdict::Refuse(Refusal { why, asker, kept })
}

/// The fault by which a reader of heads met no head; `None` where the bytes ended before.
fn fault_met(fault: HttpFault) -> Option<RouteFault>
    ensures { result ≡ fault_met fault }
{
    match fault {
        HttpFault::Ended => None,
        fault => Some(RouteFault::from(fault)),
    }
}

/// The verdict after a whole head, with the bytes that came after it.
fn after_head(
    alloc: Global,
    terms: &Terms<'_>,
    arrival: Arrival,
    came: u64,
    head: Head,
    rest: &[u8],
) -> Result<Verdict, Memory>
    requires rules { length terms.now.rules.now ≤ MOST_RULES }
    requires body { head.length ≤ MOST_BODY }
    ensures verdict { IfOk result (λ verdict. verdict
        ≡ after_head (terms_of terms.now.me terms.now.nodes terms.now.rules.now (option_map (λ k. k.now) terms.now.keys)) arrival came head rest.now) }
    ensures lawful { IfOk result (IsLawfulVerdict terms.now.nodes terms.now.me) }
{
    let front = came.saturating_sub(rest.len() as u64);
    let said = match route_with_hint(&head, terms.rules) {
        Ok(said) => said,
        Err(why) => {
            let kept = kept_after_head(&head, arrival.number, front);
            return Ok(refuse(Asker::of(&head), kept, why));
        }
    };
    if awaits_continue(&head) && !arrival.permitted {
        return Ok(Verdict::Permit);
    }
    if (rest.len() as u64) < head.length {
        return Ok(unfinished(arrival.coming, false));
    }
    let body = &rest[..head.length as usize];
    let asker = Asker::of(&head);
    let count = front + head.length;
    let last = is_last(&head, arrival.number);
    if is_forged(terms.keys, &said.operation, head.mac.as_ref(), body) {
        return Ok(refuse(asker, kept_after(last, count), Refused::Mac));
    }
    let body = copied(alloc, body)?;
    match input_of(alloc, &said.operation, body, terms.me, terms.nodes) {
        Ok(input) => Ok(Verdict::Ask(Request {
            count,
            asked: said,
            line: line_of(&head),
            selectors: selectors_for(alloc, &said.operation, head.selectors),
            input: input_for(said.hint, input),
            last,
        })),
        Err(RouteFault::Refused(why)) => Ok(refuse(asker, kept_after(last, count), why)),
        Err(RouteFault::Memory) => Err(Memory),
    }
}

/// The input of a request: none where the node is to answer itself.
fn input_for(hint: Hint, input: Option<Input>) -> Option<Input>
    ensures { result ≡ input_for hint input }
{
    match hint {
        Hint::Here => None,
        Hint::Plain | Hint::Of(_) | Hint::Known => input,
    }
}

/// The verdict on a request of which the bytes so far are a part, `none` where none came.
fn unfinished(coming: Coming, none: bool) -> Verdict
    ensures { result ≡ unfinished coming none }
{
    match coming {
        Coming::Open => Verdict::Wait,
        Coming::Ended if none => Verdict::Leave,
        Coming::Ended => refuse(Asker::Client, None, Refused::Ended),
        Coming::Failed => refuse(Asker::Client, None, Refused::Source),
    }
}

/// A copy of these bytes.
fn copied(alloc: Global, bytes: &[u8]) -> Result<Vec<u8>, Memory>
    ensures { IfOk result (λ copy. copy.items ≡ bytes.now) }
{
    let mut copy = Vec::new(alloc);
    copy.extend_from_slice(bytes)?;
    Ok(copy)
}

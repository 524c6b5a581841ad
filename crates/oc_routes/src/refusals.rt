//! Replies to refused requests.

ghost use Rattle.std.specs.Prelude.{◌≡◌, IfOk, IfSome, option_map};
ghost use Rattle.oc_http.specs.Writing.{HasPhrase};
ghost use Rattle.oc_routes.specs.Refusals.{fate_of, group_length_of, refusal, refusal_text, refusing, rule_of, status_of};

use crate::reasons::{refused_line, reply_text, telling};
use crate::{Asker, Refusal, Refused};
use oc_base::Memory;
use oc_http::{Persistence, Reply};
use std::alloc::Global;

/// The whole reply to a refused request; none where the connection failed or ended.
pub fn refusal_reply(alloc: Global, refusal: Refusal) -> Result<Option<Vec<u8>>, Memory>
    ensures { IfOk result (λ reply. option_map (λ text. text.items) reply ≡ refusal_text refusal) }
{
    match status_of(refusal.why) {
        None => Ok(None),
        Some(status) => {
            let reply = reply_of(alloc, status, refusal.why)?;
            let head_alone = refusal.asker.gets_head_alone();
            Ok(Some(reply_text(alloc, head_alone, &reply, fate_of(refusal.kept))?))
        }
    }
}

/// The reply of this status to a refused request: it names the rule that denies it, or the length of its group.
fn reply_of(alloc: Global, status: u16, refused: Refused) -> Result<Reply, Memory>
    ensures { IfOk result (λ reply. reply ≡ refusal status refused) }
{
    let mut reply = telling(status, refused_line(alloc, refused)?);
    reply.rule = rule_of(refused);
    reply.group_length = group_length_of(refused);
    Ok(reply)
}

/// The fate of the connection after a refusal.
fn fate_of(kept: Option<u64>) -> Persistence
    ensures { result ≡ fate_of kept }
{
    match kept {
        None => Persistence::Close,
        Some(_) => Persistence::Keep,
    }
}

/// The refusal of a request that is no HEAD, or whose client is told nothing.
pub(crate) fn refusing(kept: Option<u64>, why: Refused) -> Refusal
    ensures { result ≡ refusing kept why }
{
    Refusal {
        why,
        asker: Asker::Client,
        kept,
    }
}

/// The status of the reply to a refused request, where there is a reply.
fn status_of(refused: Refused) -> Option<u16>
    ensures status { result ≡ status_of refused }
    ensures phrase { IfSome result HasPhrase }
{
    match refused {
        Refused::Source | Refused::Ended => None,
        Refused::Coding { both: false } => Some(501),
        Refused::Length { missing: true } => Some(411),
        Refused::Head
        | Refused::Host
        | Refused::Coding { both: true }
        | Refused::Length { missing: false }
        | Refused::Query
        | Refused::Message
        | Refused::Body => Some(400),
        Refused::HeadLong | Refused::Fields => Some(431),
        Refused::BodyLong => Some(413),
        Refused::Method => Some(405),
        Refused::Path => Some(404),
        Refused::Denied {
            needs_token: true,
            ..
        } => Some(401),
        Refused::Denied { .. } | Refused::Mac => Some(403),
        Refused::At(_) => Some(409),
    }
}

/// The rule that the reply names.
fn rule_of(refused: Refused) -> Option<u32>
    ensures { result ≡ rule_of refused }
{
    match refused {
        Refused::Denied { rule, .. } => Some(rule),
        _ => None,
    }
}

/// The length of a group that the reply names.
fn group_length_of(refused: Refused) -> Option<u64>
    ensures { result ≡ group_length_of refused }
{
    match refused {
        Refused::At(length) => Some(length),
        _ => None,
    }
}

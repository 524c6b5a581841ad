//! The response that came back on a dial.

ghost use Rattle.std.specs.Prelude.{◌≡◌, ◌≤◌, Result, IfOk, IfSome, OnOk, option_map};
ghost use Rattle.oc_base.specs.Lawful.{IsNode};
ghost use Rattle.oc_http.specs.declared.fault.HttpFault.{HttpFault};
ghost use Rattle.oc_http.specs.declared.reply.Reply.{Reply};
ghost use Rattle.oc_model.specs.Lawful.{IsInput};
ghost use Rattle.oc_deeds.specs.Brought.{HadMemory, IsReading, brings_message, comes_back, delivered_or, fault_in, fault_of, has_ok, input_of, input_of_reply, is_answer, is_taken, message_in, message_to, reading, reply_in};
ghost use Rattle.oc_deeds.specs.Lawful.{IsLawfulCame};
ghost use Rattle.oc_deeds.specs.Lawful.{IsLawfulErrand};
ghost use Rattle.oc_wire.specs.MessageReading.{decoded};

use crate::came::Came;
use crate::dials::Errand;
use crate::reply_in_place::{ReplyInPlace, read_in_place};
use oc_base::{Memory, NodeId};
use oc_http::{HeadReader, HttpFault};
use oc_link::Coming;
use oc_model::{Input, Message};
use oc_policy::Keyring;
use oc_probe::{PROBE_BYTES, ProbeFault};
use oc_routes::MessageFault;
use oc_wire::{WireFault, decode, is_authentic};
use std::alloc::Global;

/// A node that hears back: its id, the number of nodes, the greatest id that a message may tell, and the keys of the
/// network, where it has some.
#[derive(Clone, Copy, Drop)]
pub struct Hearer<'a> {
    pub me: NodeId,
    pub nodes: u32,
    pub ids: u32,
    pub keys: Option<&'a Keyring>,
}

/// The news of a dial with this errand: these bytes came, with this end. `Memory` where it runs out.
pub fn comes_back(
    alloc: Global,
    heads: &mut HeadReader,
    hearer: &Hearer<'_>,
    errand: Errand,
    bytes: &[u8],
    coming: Coming,
) -> Result<Came, Memory>
    requires errand { IsLawfulErrand hearer.now.nodes errand }
    requires ids { hearer.now.ids ≤ hearer.now.nodes }
    ensures came { IfOk result (λ came. (reading : Result Reply HttpFault) × IsReading bytes.now coming reading
        × HadMemory reading × (came ≡ comes_back hearer.now.me hearer.now.ids (option_map (λ k. k.now) hearer.now.keys) errand reading)) }
    ensures lawful { IfOk result (IsLawfulCame hearer.now.nodes hearer.now.me) }
{
    let reply = read_in_place(heads, bytes, coming);
    match errand {
        Errand::Message { to, .. } => {
            let taken = is_taken(hearer.keys, &reply);
            let is_ok = has_ok(&reply);
            let input = input_of(alloc, hearer, to, reply, taken)?;
            let refused = fault_in(is_ok, taken, &input);
            Ok(Came::Reply {
                input,
                taken,
                refused,
            })
        }
        Errand::Probe { peer, since } => match fault_of(reply) {
            Some(ProbeFault::Memory) => Err(Memory),
            fault => Ok(Came::Probed { peer, since, fault }),
        },
    }
}

/// Whether what was read is a response of 200.
fn has_ok(reply: &Result<ReplyInPlace, HttpFault>) -> bool
    ensures { result ≡ has_ok (reading reply.now) }
{
    match reply {
        Ok(reply) => reply.head.status == 200,
        Err(_) => false,
    }
}

/// Why a response brings no message, by whether it has the status 200 and its MAC, and by the input that results from it.
fn fault_in(is_ok: bool, taken: bool, input: &Option<Input>) -> Option<MessageFault>
    ensures { result ≡ fault_in is_ok taken input.now }
{
    if !is_ok {
        return None;
    }
    if !taken {
        return Some(MessageFault::Mac);
    }
    match input {
        Some(Input::Delivered(_)) => None,
        _ => Some(MessageFault::Message),
    }
}

/// Whether what was read is a response of 200 that has its MAC.
fn is_taken(keys: Option<&Keyring>, reply: &Result<ReplyInPlace, HttpFault>) -> bool
    ensures { result ≡ is_taken (option_map (λ k. k.now) keys.entry) (reading reply.now) }
{
    match reply {
        Ok(reply) => brings_message(keys, reply),
        Err(_) => false,
    }
}

/// Whether a response has the status 200, and the MAC of its body where the network has keys.
fn brings_message(keys: Option<&Keyring>, reply: &ReplyInPlace) -> bool
    ensures { result ≡ brings_message (option_map (λ k. k.now) keys.entry) (reply_in reply.now) }
{
    reply.head.status == 200 && is_authentic(keys, reply.head.mac.as_ref(), reply.body)
}

/// The input that results from the reply of a peer to a message. `taken` is whether it is a response of 200 that has its
/// MAC, which is computed once, since it takes as long as all else.
fn input_of(
    alloc: Global,
    hearer: &Hearer<'_>,
    peer: NodeId,
    reply: Result<ReplyInPlace, HttpFault>,
    taken: bool,
) -> Result<Option<Input>, Memory>
    requires peer { IsNode hearer.now.nodes peer }
    requires ids { hearer.now.ids ≤ hearer.now.nodes }
    requires taken { taken ≡ is_taken (option_map (λ k. k.now) hearer.now.keys) (reading reply) }
    ensures input { IfOk result (λ input. input ≡ input_of hearer.now.me hearer.now.ids (option_map (λ k. k.now) hearer.now.keys) peer (reading reply.entry)) }
    ensures memory { OnOk result (HadMemory (reading reply.entry)) }
    ensures lawful { IfOk result (λ input. IfSome input (IsInput hearer.now.nodes hearer.now.me)) }
{
    match reply {
        Ok(reply) => input_of_reply(alloc, hearer, peer, &reply, taken),
        Err(HttpFault::Memory) => Err(Memory),
        Err(_) => Ok(Some(Input::Unreachable(peer))),
    }
}

/// The input that results from a response.
fn input_of_reply(
    alloc: Global,
    hearer: &Hearer<'_>,
    peer: NodeId,
    reply: &ReplyInPlace,
    brings: bool,
) -> Result<Option<Input>, Memory>
    requires peer { IsNode hearer.now.nodes peer }
    requires ids { hearer.now.ids ≤ hearer.now.nodes }
    requires brings { brings ≡ brings_message (option_map (λ k. k.now) hearer.now.keys) (reply_in reply.now) }
    ensures input { IfOk result (λ input. input ≡ input_of_reply hearer.now.me hearer.now.ids (option_map (λ k. k.now) hearer.now.keys) peer (reply_in reply.now)) }
    ensures lawful { IfOk result (λ input. IfSome input (IsInput hearer.now.nodes hearer.now.me)) }
{
    if reply.head.status == 204 {
        return Ok(None);
    }
    let message = message_in(alloc, hearer, reply, brings)?;
    Ok(Some(delivered_or(peer, message)))
}

/// A message that came, or else the input that the peer is not reached.
fn delivered_or(peer: NodeId, message: Option<Message>) -> Input
    ensures { result ≡ delivered_or peer message }
{
    match message {
        Some(message) => Input::Delivered(message),
        None => Input::Unreachable(peer),
    }
}

/// The message of a response of 200 to this node, if it is one, and has its MAC.
fn message_in(
    alloc: Global,
    hearer: &Hearer<'_>,
    reply: &ReplyInPlace,
    brings: bool,
) -> Result<Option<Message>, Memory>
    requires ids { hearer.now.ids ≤ hearer.now.nodes }
    requires brings { brings ≡ brings_message (option_map (λ k. k.now) hearer.now.keys) (reply_in reply.now) }
    ensures message { IfOk result (λ message. message ≡ message_in hearer.now.me hearer.now.ids (option_map (λ k. k.now) hearer.now.keys) (reply_in reply.now)) }
    ensures lawful { IfOk result (λ message. IfSome message (λ m. IsInput hearer.now.nodes hearer.now.me (Input.Delivered m))) }
{
    if brings {
        message_to(alloc, hearer, reply.body)
    } else {
        Ok(None)
    }
}

/// The message to this node that these bytes are, if they are one.
fn message_to(alloc: Global, hearer: &Hearer<'_>, bytes: &[u8]) -> Result<Option<Message>, Memory>
    requires { hearer.now.ids ≤ hearer.now.nodes }
    ensures message { IfOk result (λ message. message ≡ message_to hearer.now.me (decoded hearer.now.ids bytes.now)) }
    ensures lawful { IfOk result (λ message. IfSome message (λ m. IsInput hearer.now.nodes hearer.now.me (Input.Delivered m))) }
{
    match decode(alloc, bytes, hearer.ids) {
        Ok(message) => {
            if message.to == hearer.me {
                Ok(Some(message))
            } else {
                Ok(None)
            }
        }
        Err(WireFault::Memory) => Err(Memory),
        Err(_) => Ok(None),
    }
}

/// The fault of a reply that is no answer to a probe.
fn fault_of(reply: Result<ReplyInPlace, HttpFault>) -> Option<ProbeFault>
    ensures { result ≡ fault_of (reading reply.entry) }
{
    match reply {
        Ok(reply) => {
            if is_answer(&reply) {
                None
            } else {
                Some(ProbeFault::Reply)
            }
        }
        Err(fault) => Some(ProbeFault::from(fault)),
    }
}

/// Whether a response answers a probe.
fn is_answer(reply: &ReplyInPlace) -> bool
    ensures { result ≡ is_answer (reply_in reply.now) }
{
    reply.head.status == 200 && reply.body.len() as u64 == PROBE_BYTES
}

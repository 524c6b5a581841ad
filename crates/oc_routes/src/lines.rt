//! The lines of a running node.

ghost use Rattle.std.specs.Prelude.{◌≡◌, ◌++◌, OnOk};
ghost use Rattle.oc_schedule.specs.Texts.{recv_line};
ghost use Rattle.oc_wire.specs.Spelling.{spelling, HasSpelling};
ghost use Rattle.oc_routes.specs.Inputs.{HasLine, input_line};
ghost use Rattle.oc_routes.specs.Refusals.{refusal_line, why_text};

use crate::Refused;
use oc_base::{Memory, NodeId, put, put_with_number};
use oc_model::{Input, Message};
use oc_schedule::{put_act_line, put_recv_line};
use oc_wire::encode;
use std::alloc::Global;

/// Puts the line by which the node `me` prints an input that it takes.
pub fn put_input_line(
    alloc: Global,
    out: &mut Vec<u8>,
    me: NodeId,
    input: &Input,
) -> Result<(), Memory>
    requires { HasLine input.now }
    ensures { OnOk result (out.new.items ≡ out.old.items ++ input_line me input.now) }
{
    match input {
        Input::Delivered(message) => put_message_line(alloc, out, me, message),
        _ => put_act_line(out, me, input),
    }
}

/// Puts the line of a message that came.
fn put_message_line(
    alloc: Global,
    out: &mut Vec<u8>,
    me: NodeId,
    message: &Message,
) -> Result<(), Memory>
    requires { HasSpelling message.now.body }
    ensures { OnOk result (out.new.items ≡ out.old.items ++ recv_line me (spelling message.now)) }
{
    let bytes = encode(alloc, message)?;
    put_recv_line(out, me, &bytes)
}

/// Puts the line of a refused request.
pub fn put_refusal_line(out: &mut Vec<u8>, refused: Refused) -> Result<(), Memory>
    ensures { OnOk result (out.new.items ≡ out.old.items ++ refusal_line refused) }
{
    put(out, b"! ")?;
    put_why(out, refused)?;
    put(out, b"\n")
}

/// Puts why a request is refused.
fn put_why(out: &mut Vec<u8>, refused: Refused) -> Result<(), Memory>
    ensures { OnOk result (out.new.items ≡ out.old.items ++ why_text refused) }
{
    match refused {
        Refused::Source => put(out, b"source"),
        Refused::Ended => put(out, b"ended"),
        Refused::Head => put(out, b"head"),
        Refused::HeadLong => put(out, b"headlong"),
        Refused::Fields => put(out, b"fields"),
        Refused::Host => put(out, b"host"),
        Refused::Coding { .. } => put(out, b"coding"),
        Refused::Length { .. } => put(out, b"length"),
        Refused::BodyLong => put(out, b"bodylong"),
        Refused::Method => put(out, b"method"),
        Refused::Path => put(out, b"path"),
        Refused::Query => put(out, b"query"),
        Refused::Denied { rule, .. } => put_with_number(out, b"denied ", u64::from(rule)),
        Refused::Mac => put(out, b"mac"),
        Refused::Message => put(out, b"message"),
        Refused::Body => put(out, b"body"),
        Refused::At(length) => put_with_number(out, b"at ", length),
    }
}

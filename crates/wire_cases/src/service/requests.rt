//! The meaning of requests: the line of the input that results from a request, or the line and the
//! reply of one that is refused.

ghost use Rattle.std.specs.Prelude.{IfSome};
ghost use Rattle.oc_model.specs.Lawful.{IsInput};

use crate::service::asking::{rules_in, verdict_on};
use oc_base::NodeId;
use oc_routes::{Refusal, Request, Verdict, put_input_line, put_refusal_line, refusal_reply};
use oc_wire::spellings_are_read;
use std::alloc::Global;
use test_tools::{Fault, RowFields, put_spelled, spelled_in};

/// Puts the words of a row: the line, and for a refused request the reply.
pub fn put_words(alloc: Global, given: &str, said: &mut String) -> Result<(), Fault> {
    let (rules, rest) = given.split_once(' ').unwrap_or((given, ""));
    let (me, text) = rest.split_once(' ').unwrap_or((rest, ""));
    let me = RowFields::of(me, ' ').node()?;
    let rules = rules_in(alloc, rules)?;
    let bytes = spelled_in(alloc, text)?;
    match verdict_on(alloc, me, &rules, 1, &bytes)? {
        Verdict::Ask(request) => put_input(alloc, said, me, &request),
        Verdict::Refuse(refusal) => put_refusal(alloc, said, refusal),
        Verdict::Wait | Verdict::Leave | Verdict::Permit => Err(Fault::Unready),
    }
}

/// Puts the line of the input that results from a request.
fn put_input(alloc: Global, said: &mut String, me: NodeId, request: &Request) -> Result<(), Fault>
    requires { IfSome request.now.input (IsInput 3 me) }
{
    spellings_are_read();
    let mut line = Vec::new(alloc);
    if let Some(input) = &request.input {
        put_input_line(alloc, &mut line, me, input)?;
    }
    put_line(said, &line)
}

/// Puts the line and the reply of a refused request.
pub(crate) fn put_refusal(alloc: Global, said: &mut String, refusal: Refusal) -> Result<(), Fault> {
    let mut line = Vec::new(alloc);
    put_refusal_line(&mut line, refusal.why)?;
    put_line(said, &line)?;
    match refusal_reply(alloc, refusal)? {
        Some(reply) => {
            said.push(' ')?;
            put_spelled(said, &reply)
        }
        None => Ok(said.push_str(" nothing")?),
    }
}

/// Puts a line without its end, or `no line`.
fn put_line(said: &mut String, line: &[u8]) -> Result<(), Fault> {
    match line {
        [front @ .., b'\n'] => put_spelled(said, front),
        _ => Ok(said.push_str("no line")?),
    }
}

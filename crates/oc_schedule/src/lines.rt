//! The header, areas and event lines: one reader for each kind, and their writer `put_event`.
//!
//! A new kind needs one more definition in `specs/Lines`, one reader here, and a branch of [`event`] and
//! [`put_event`].

ghost use Rattle.std.specs.Prelude.{◌≡◌, ◌≤◌, ◌++◌, OnOk, IfOk, codes, decimal};
ghost use Rattle.oc_base.specs.Lawful.{IsNode};
ghost use Rattle.oc_base.specs.Words.{words, number_in, GivesFields};
ghost use Rattle.oc_base.specs.declared.limits.TheConstants.{MAX_CHUNK_BYTES};
ghost use Rattle.oc_model.specs.declared.event.Event.TheVariants.{Settle, Heal};
ghost use Rattle.oc_schedule.specs.Lines.{sizes_in, named_in, chunk_in, opening_in, area_in, first_three, node_alone_in, alone, stop_in, act_alone_in, event_in, event_words};
ghost use Rattle.oc_schedule.specs.Acts.{most_byte};
ghost use Rattle.oc_schedule.specs.Texts.{spaced};
ghost use Rattle.oc_schedule.specs.Events.{event_of};
ghost use Rattle.oc_schedule.specs.Reading.{GivesLine, GivesLineBy};

use crate::acts::{act, deliver, put_act, tick};
use crate::fault::LineFault;
use crate::fields::is;
use crate::kept_event::KeptEvent;
use crate::texts::put_number_field;
use oc_base::words::{first_word, node, number, one_field, two_fields};
use oc_base::{MAX_CHAIN, MAX_CHUNK_BYTES, MAX_NODES, Memory, NodeId, USUAL_CHUNK_BYTES, Why, put};
use oc_model::{Event, Sizes};
use std::alloc::Global;

/// The greatest number of device calls that work before a stop.
const MAX_CALLS: u64 = 4;

/// `overcast 1 nodes N chain C`, and optionally `chunk B`: the sizes of the network.
pub fn opening(line: &[u8]) -> Result<Sizes, Why>
    ensures { result ≡ opening_in (words line.now) }
{
    let (version, rest) = named(line, "overcast")?;
    let (n, rest) = named(rest, "nodes")?;
    let (c, rest) = named(rest, "chain")?;
    let chunk = chunk(rest)?;
    if is(version, "1") {
        sizes_of(n, c, chunk)
    } else {
        Err(Why::Word)
    }
}

/// The line begins with this word: the field after it, and the rest of the line.
fn named<'a>(line: &'a [u8], name: &str) -> Result<(&'a [u8], &'a [u8]), Why>
    ensures { GivesFields (λ f. (f.0.now, words f.1.now)) result (named_in name.now (words line.now)) }
{
    let Some((word, rest)) = first_word(line) else {
        return Err(Why::Count);
    };
    let Some((field, rest)) = first_word(rest) else {
        return Err(Why::Count);
    };
    if is(word, name) {
        Ok((field, rest))
    } else {
        Err(Why::Word)
    }
}

/// The greatest number of bytes of a chunk, by the end of a header.
fn chunk(line: &[u8]) -> Result<u32, Why>
    ensures said { result ≡ chunk_in (words line.now) }
    ensures range { IfOk result (λ chunk. (1 ≤ chunk) × (chunk ≤ MAX_CHUNK_BYTES)) }
{
    let Some((name, rest)) = first_word(line) else {
        return Ok(USUAL_CHUNK_BYTES);
    };
    let b = one_field(rest)?;
    if is(name, "chunk") {
        Ok(number(b, 1, MAX_CHUNK_BYTES as u64)? as u32)
    } else {
        Err(Why::Word)
    }
}

/// The numbers of nodes and of chain members, with that of a chunk.
fn sizes_of(n: &[u8], c: &[u8], chunk: u32) -> Result<Sizes, Why>
    ensures { result ≡ sizes_in n.now c.now chunk }
{
    let nodes = number(n, 1, u64::from(MAX_NODES))?;
    let chain = number(c, 1, nodes.min(u64::from(MAX_CHAIN)))?;
    Ok(Sizes {
        nodes: nodes as u32,
        chain: chain as u32,
        chunk,
    })
}

/// `area N A`
pub fn area(nodes: u32, fields: &[u8]) -> Result<(NodeId, u8), Why>
    ensures said { result ≡ area_in nodes (words fields.now) }
    ensures range { IfOk result (λ area. IsNode nodes area.0) }
{
    let (n, a) = two_fields(fields)?;
    let node_id = node(n, nodes)?;
    let area = byte(a)?;
    Ok((node_id, area as u8))
}

/// The number of an area or of an image, which fits in a byte.
fn byte(field: &[u8]) -> Result<u64, Why>
    ensures said { result ≡ number_in 0 most_byte field.now }
    ensures range { IfOk result (λ number. number ≤ most_byte) }
{
    number(field, 0, u64::from(u8::MAX))
}

/// `N`: a node.
pub fn node_alone(nodes: u32, fields: &[u8]) -> Result<NodeId, Why>
    ensures { result ≡ node_alone_in nodes (words fields.now) }
{
    let n = one_field(fields)?;
    node(n, nodes)
}

/// `settle`
fn settle(fields: &[u8]) -> Result<Event, LineFault>
    ensures { GivesLine result (alone Settle (words fields.now)) }
{
    match first_word(fields) {
        None => Ok(Event::Settle),
        Some(_) => Err(LineFault::Cause(Why::Count)),
    }
}

/// `heal`
fn heal(fields: &[u8]) -> Result<Event, LineFault>
    ensures { GivesLine result (alone Heal (words fields.now)) }
{
    match first_word(fields) {
        None => Ok(Event::Heal),
        Some(_) => Err(LineFault::Cause(Why::Count)),
    }
}

/// The first three fields of a line, and the rest.
type FirstThree<'a> = (&'a [u8], &'a [u8], &'a [u8], &'a [u8]);

fn three_and_more(line: &[u8]) -> Result<FirstThree<'_>, Why>
    ensures { GivesFields (λ f. (f.0.now, f.1.now, f.2.now, words f.3.now)) result (first_three (words line.now)) }
{
    let Some((a, rest)) = first_word(line) else {
        return Err(Why::Count);
    };
    let Some((b, rest)) = first_word(rest) else {
        return Err(Why::Count);
    };
    let Some((c, rest)) = first_word(rest) else {
        return Err(Why::Count);
    };
    Ok((a, b, c, rest))
}

/// `stop K P` and an act line. The two numbers are tested before the act.
fn stop(alloc: Global, nodes: u32, fields: &[u8]) -> Result<Event, LineFault>
    ensures { GivesLine result (stop_in nodes (words fields.now)) }
{
    let (k, p, word, behind) = three_and_more(fields)?;
    let calls = number(k, 0, MAX_CALLS)?;
    let image = byte(p)?;
    let stopped = act(alloc, nodes, word, behind)?;
    Ok(Event::Stop {
        calls: calls as u8,
        image: image as u8,
        act: stopped,
    })
}

/// An event line, by its word.
pub(crate) fn event(
    alloc: Global,
    nodes: u32,
    word: &[u8],
    fields: &[u8],
) -> Result<KeptEvent, LineFault>
    ensures { GivesLineBy event_of result (event_in nodes word.now (words fields.now)) }
{
    if is(word, "up") {
        Ok(KeptEvent::Up(node_alone(nodes, fields)?))
    } else if is(word, "crash") {
        Ok(KeptEvent::Crash(node_alone(nodes, fields)?))
    } else if is(word, "stop") {
        Ok(KeptEvent::other(alloc, stop(alloc, nodes, fields)?)?)
    } else if is(word, "held") {
        Ok(KeptEvent::other(alloc, Event::Held(node_alone(nodes, fields)?))?)
    } else if is(word, "show") {
        Ok(KeptEvent::other(alloc, Event::Show(node_alone(nodes, fields)?))?)
    } else if is(word, "settle") {
        Ok(KeptEvent::other(alloc, settle(fields)?)?)
    } else if is(word, "heal") {
        Ok(KeptEvent::other(alloc, heal(fields)?)?)
    } else {
        act_alone(alloc, nodes, word, fields)
    }
}

/// An act line by itself. Ticks and deliveries have their own kept form.
fn act_alone(alloc: Global, nodes: u32, word: &[u8], fields: &[u8]) -> Result<KeptEvent, LineFault>
    ensures { GivesLineBy event_of result (act_alone_in nodes word.now (words fields.now)) }
{
    if is(word, "tick") {
        let (node, now) = tick(nodes, fields)?;
        Ok(KeptEvent::Tick { node, now })
    } else if is(word, "deliver") {
        Ok(KeptEvent::Deliver {
            number: deliver(fields)?,
        })
    } else {
        let act = act(alloc, nodes, word, fields)?;
        Ok(KeptEvent::other(alloc, Event::Do(act))?)
    }
}

/// Puts the words of an event line.
pub(crate) fn put_event(out: &mut Vec<u8>, event: &Event) -> Result<(), Memory>
    ensures { OnOk result (out.new.items ≡ out.old.items ++ spaced (event_words event.now)) }
{
    match event {
        Event::Up(node) => put_node_line(out, "up", *node),
        Event::Crash(node) => put_node_line(out, "crash", *node),
        Event::Stop { calls, image, act } => {
            put(out, b"stop")?;
            put_number_field(out, u64::from(*calls))?;
            put_number_field(out, u64::from(*image))?;
            put(out, b" ")?;
            put_act(out, act)
        }
        Event::Do(act) => put_act(out, act),
        Event::Held(node) => put_node_line(out, "held", *node),
        Event::Show(node) => put_node_line(out, "show", *node),
        Event::Settle => put(out, b"settle"),
        Event::Heal => put(out, b"heal"),
    }
}

/// Puts a word and a node.
fn put_node_line(out: &mut Vec<u8>, word: &str, node: NodeId) -> Result<(), Memory>
    ensures { OnOk result (out.new.items ≡ out.old.items ++ word.now ++ (codes " " ++ decimal node)) }
{
    put(out, word.as_bytes())?;
    put_number_field(out, u64::from(node.0))
}

//! Act lines: one reader for each kind, and their writer `put_act`.
//!
//! A new kind needs one more pair of definitions in `specs/Acts`, one reader here, and a branch of [`act`] and
//! [`put_act`].

ghost use Rattle.std.specs.Prelude.{◌≡◌, [], ◌∷◌, ◌++◌, OnOk, decimal};
ghost use Rattle.oc_base.specs.Words.{words};
ghost use Rattle.oc_model.specs.declared.event.Act.TheVariants.{At};
ghost use Rattle.oc_schedule.specs.Acts.{ticked_in, check_in, pair_in, move_in, fail_in, pull_in, measure_in, publish_in, seal_in, client_in, delivered_in, act_in, act_words, input_fields, input_word};
ghost use Rattle.oc_schedule.specs.Fields.{bytes_text};
ghost use Rattle.oc_schedule.specs.Texts.{fields_text, spaced};
ghost use Rattle.oc_schedule.specs.Reading.{GivesLine};

use crate::fault::LineFault;
use crate::fields::{bytes, group, is};
use crate::texts::{put_bytes, put_field, put_number_field};
use oc_base::words::{four_fields, node, number, one_field, three_fields, two_fields};
use oc_base::{MAX_RATE, MAX_START, MAX_TIME, Memory, NodeId, Why, put};
use oc_model::{Act, Input};
use std::alloc::Global;

/// The node and the second of `tick N T`.
pub(crate) fn tick(nodes: u32, fields: &[u8]) -> Result<(NodeId, u64), Why>
    ensures { result ≡ ticked_in nodes (words fields.now) }
{
    let (n, t) = two_fields(fields)?;
    let node_id = node(n, nodes)?;
    let now = number(t, 0, MAX_TIME)?;
    Ok((node_id, now))
}

/// `check N`
fn check(nodes: u32, fields: &[u8]) -> Result<Act, LineFault>
    ensures { GivesLine result (check_in nodes (words fields.now)) }
{
    let n = one_field(fields)?;
    Ok(Act::At {
        node: node(n, nodes)?,
        input: Input::CheckNow,
    })
}

/// `N P`: a node and a peer.
fn pair(nodes: u32, fields: &[u8]) -> Result<(NodeId, NodeId), Why>
    ensures { result ≡ pair_in nodes (words fields.now) }
{
    let (n, p) = two_fields(fields)?;
    let node_id = node(n, nodes)?;
    let peer = node(p, nodes)?;
    Ok((node_id, peer))
}

/// `move N P`
fn move_of(nodes: u32, fields: &[u8]) -> Result<Act, LineFault>
    ensures { GivesLine result (move_in nodes (words fields.now)) }
{
    let (node, peer) = pair(nodes, fields)?;
    Ok(Act::At {
        node,
        input: Input::Relocate(peer),
    })
}

/// `fail N P`
fn fail(nodes: u32, fields: &[u8]) -> Result<Act, LineFault>
    ensures { GivesLine result (fail_in nodes (words fields.now)) }
{
    let (node, peer) = pair(nodes, fields)?;
    Ok(Act::At {
        node,
        input: Input::Unreachable(peer),
    })
}

/// `pull N P`
fn pull(nodes: u32, fields: &[u8]) -> Result<Act, LineFault>
    ensures { GivesLine result (pull_in nodes (words fields.now)) }
{
    let (node, peer) = pair(nodes, fields)?;
    Ok(Act::At {
        node,
        input: Input::Pull(peer),
    })
}

/// `measure N P R H`
fn measure(nodes: u32, fields: &[u8]) -> Result<Act, LineFault>
    ensures { GivesLine result (measure_in nodes (words fields.now)) }
{
    let (n, p, r, h) = four_fields(fields)?;
    let node_id = node(n, nodes)?;
    let peer = node(p, nodes)?;
    let rate = number(r, 0, MAX_RATE)?;
    let hops = number(h, 0, u64::from(u8::MAX))?;
    Ok(Act::At {
        node: node_id,
        input: Input::Measured {
            peer,
            rate,
            hops: hops as u8,
        },
    })
}

/// `publish N G X`
fn publish(alloc: Global, nodes: u32, fields: &[u8]) -> Result<Act, LineFault>
    ensures { GivesLine result (publish_in nodes (words fields.now)) }
{
    let (n, g, x) = three_fields(fields)?;
    Ok(Act::At {
        node: node(n, nodes)?,
        input: Input::Publish {
            group: group(g)?,
            bytes: bytes(alloc, x)?,
        },
    })
}

/// `seal N G`
fn seal(nodes: u32, fields: &[u8]) -> Result<Act, LineFault>
    ensures { GivesLine result (seal_in nodes (words fields.now)) }
{
    let (n, g) = two_fields(fields)?;
    Ok(Act::At {
        node: node(n, nodes)?,
        input: Input::Seal { group: group(g)? },
    })
}

/// `client N A S G`
fn client(nodes: u32, fields: &[u8]) -> Result<Act, LineFault>
    ensures { GivesLine result (client_in nodes (words fields.now)) }
{
    let (n, a, s, g) = four_fields(fields)?;
    let node_id = node(n, nodes)?;
    let area = number(a, 0, u64::from(u8::MAX))?;
    let start = number(s, 0, MAX_START)?;
    Ok(Act::At {
        node: node_id,
        input: Input::Client {
            area: area as u8,
            start,
            group: group(g)?,
        },
    })
}

/// The number of `deliver K`.
pub(crate) fn deliver(fields: &[u8]) -> Result<u64, Why>
    ensures { result ≡ delivered_in (words fields.now) }
{
    let k = one_field(fields)?;
    number(k, 1, u64::MAX)
}

/// The act of a line with this word and these fields, in a run of `nodes` nodes, or the first cause for which the
/// line is no act.
pub fn act(alloc: Global, nodes: u32, word: &[u8], fields: &[u8]) -> Result<Act, LineFault>
    ensures { GivesLine result (act_in nodes word.now (words fields.now)) }
{
    if is(word, "tick") {
        let (node, now) = tick(nodes, fields)?;
        Ok(Act::At {
            node,
            input: Input::Tick(now),
        })
    } else if is(word, "deliver") {
        Ok(Act::Deliver {
            number: deliver(fields)?,
        })
    } else if is(word, "check") {
        check(nodes, fields)
    } else if is(word, "move") {
        move_of(nodes, fields)
    } else if is(word, "fail") {
        fail(nodes, fields)
    } else if is(word, "pull") {
        pull(nodes, fields)
    } else if is(word, "measure") {
        measure(nodes, fields)
    } else if is(word, "publish") {
        publish(alloc, nodes, fields)
    } else if is(word, "seal") {
        seal(nodes, fields)
    } else if is(word, "client") {
        client(nodes, fields)
    } else {
        Err(LineFault::Cause(Why::Word))
    }
}

/// Puts the words of an act line, with a space between each two.
pub(crate) fn put_act(out: &mut Vec<u8>, act: &Act) -> Result<(), Memory>
    ensures { OnOk result (out.new.items ≡ out.old.items ++ spaced (act_words act.now)) }
{
    match act {
        Act::At { node, input } => put_input(out, *node, input),
        Act::Deliver { number } => {
            put(out, b"deliver")?;
            put_number_field(out, *number)
        }
    }
}

/// Puts the words of the line of an input at a node.
pub(crate) fn put_input(out: &mut Vec<u8>, node: NodeId, input: &Input) -> Result<(), Memory>
    ensures { OnOk result (out.new.items ≡ out.old.items ++ spaced (act_words (At node input.now))) }
{
    put(out, word_of(input).as_bytes())?;
    put_number_field(out, u64::from(node.0))?;
    put_fields(out, input)
}

/// Puts the fields of the line of an input, except the node.
fn put_fields(out: &mut Vec<u8>, input: &Input) -> Result<(), Memory>
    ensures { OnOk result (out.new.items ≡ out.old.items ++ fields_text (input_fields input.now)) }
{
    match input {
        Input::Tick(now) => put_number_field(out, *now),
        Input::CheckNow | Input::Delivered(_) => Ok(()),
        Input::Relocate(peer) | Input::Unreachable(peer) | Input::Pull(peer) => {
            put_number_field(out, u64::from(peer.0))
        }
        Input::Measured { peer, rate, hops } => put_measured(out, *peer, *rate, *hops),
        Input::Publish { group, bytes } => put_published(out, group.bytes(), bytes.items()),
        Input::Seal { group } => put_field(out, group.bytes()),
        Input::Client { area, start, group } => put_asked(out, *area, *start, group.bytes()),
    }
}

/// Puts the fields `P R H` of `measure N P R H`.
fn put_measured(out: &mut Vec<u8>, peer: NodeId, rate: u64, hops: u8) -> Result<(), Memory>
    ensures { OnOk result (out.new.items ≡ out.old.items ++ fields_text (decimal peer ∷ decimal rate ∷ decimal hops ∷ [])) }
{
    put_number_field(out, u64::from(peer.0))?;
    put_number_field(out, rate)?;
    put_number_field(out, u64::from(hops))
}

/// Puts the fields `G X` of `publish N G X`.
fn put_published(out: &mut Vec<u8>, group: &[u8], bytes: &[u8]) -> Result<(), Memory>
    ensures { OnOk result (out.new.items ≡ out.old.items ++ fields_text (group.now ∷ bytes_text bytes.now ∷ [])) }
{
    put_field(out, group)?;
    put(out, b" ")?;
    put_bytes(out, bytes)
}

/// Puts the fields `A S G` of `client N A S G`.
fn put_asked(out: &mut Vec<u8>, area: u8, start: u64, group: &[u8]) -> Result<(), Memory>
    ensures { OnOk result (out.new.items ≡ out.old.items ++ fields_text (decimal area ∷ decimal start ∷ group.now ∷ [])) }
{
    put_number_field(out, u64::from(area))?;
    put_number_field(out, start)?;
    put_field(out, group)
}

/// The word of the line of an input.
fn word_of(input: &Input) -> &'static str
    ensures { result.now ≡ input_word input.now }
{
    match input {
        Input::Tick(_) => "tick",
        Input::CheckNow => "check",
        Input::Relocate(_) => "move",
        Input::Unreachable(_) => "fail",
        Input::Pull(_) => "pull",
        Input::Measured { .. } => "measure",
        Input::Publish { .. } => "publish",
        Input::Seal { .. } => "seal",
        Input::Client { .. } => "client",
        Input::Delivered(_) => "recv",
    }
}

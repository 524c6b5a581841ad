//! The medians of a gauge, and the peers of a rotation.

ghost use Rattle.std.specs.Prelude.{◌≡◌, length};

use oc_base::{MAX_NODES, NodeId};
use oc_probe::{Gauge, Rotation};
use std::alloc::Global;
use test_tools::{Fault, RowFields, RowStep};

/// The number of peers of the gauge.
const PEERS: u32 = 3;

/// The rates of three peers.
#[derive(Drop)]
struct Rates {
    gauge: Gauge,
    ghost peers: { length gauge ≡ 3 },
}

/// Appends the words of a row: the result of each step.
pub fn put_words(alloc: Global, given: &str, said: &mut String) -> Result<(), Fault> {
    let mut rates = Rates {
        gauge: Gauge::new(alloc, PEERS)?,
    };
    play(alloc, &mut rates, given, said)
}

fn play(alloc: Global, rates: &mut Rates, steps: &str, said: &mut String) -> Result<(), Fault> {
    for field in steps.split_ascii_whitespace() {
        let step = RowStep::of(field);
        match step.word {
            "put" => put(rates, step.fields, said)?,
            "turns" => turn(alloc, step.fields, said)?,
            _ => return Err(Fault::Field),
        }
    }
    Ok(())
}

/// Puts a rate of a peer, and appends the median.
fn put(rates: &mut Rates, mut fields: RowFields<'_>, said: &mut String) -> Result<(), Fault> {
    let peer = fields.node()?;
    let rate = fields.number()?;
    if peer.0 < 1 || peer.0 > PEERS {
        return Err(Fault::Field);
    }
    let median = rates.gauge.put(peer, rate);
    Ok(write!(said, "{median} ")?)
}

/// Appends the first peers of a node: its id, the number of nodes and of peers, then the ids that have no place.
fn turn(alloc: Global, mut fields: RowFields<'_>, said: &mut String) -> Result<(), Fault> {
    let me = fields.node()?;
    let nodes = fields.small()?;
    let count = fields.byte()?;
    let places = places_of(alloc, nodes, fields)?;
    if places.len() > MAX_NODES as usize {
        return Err(Fault::Field);
    }
    let mut rotation = Rotation::new(alloc, me, &places)?;
    put_turns(&mut rotation, count, said)
}

/// The places of this many nodes, of which those with these ids hold nothing.
fn places_of(alloc: Global, nodes: u32, absent: RowFields<'_>) -> Result<Vec<Option<bool>>, Fault> {
    let mut places = Vec::new(alloc);
    for place in 0..nodes {
        places.push(if is_among(absent, place + 1)? {
            None
        } else {
            Some(true)
        })?;
    }
    Ok(places)
}

/// Whether a number is one of these fields.
fn is_among(mut fields: RowFields<'_>, number: u32) -> Result<bool, Fault> {
    for _ in 0..100u8 {
        if fields.is_empty() {
            break;
        }
        if fields.small()? == number {
            return Ok(true);
        }
    }
    Ok(false)
}

/// Appends the next peers of a rotation.
fn put_turns(rotation: &mut Rotation, count: u8, said: &mut String) -> Result<(), Fault> {
    for _ in 0..count {
        match rotation.next() {
            Some(NodeId(peer)) => write!(said, "{peer} ")?,
            None => said.push_str("- ")?,
        }
    }
    Ok(())
}

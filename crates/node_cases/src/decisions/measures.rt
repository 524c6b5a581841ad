//! Measures: the reading of each peer.

ghost use Rattle.std.specs.Prelude.{◌≡◌, ◌≤◌, length};

use crate::acting::{Acts, act_all};
use oc_base::NodeId;
use oc_updown::Measures;
use std::alloc::Global;
use test_tools::{Fault, RowFields, RowStep};

/// The number of peers.
const PEERS: u32 = 3;

/// The readings of three peers.
#[derive(Drop)]
struct Readings {
    measures: Measures,
    ghost peers: { length measures.readings ≡ 3 },
    ghost room: { length measures.readings ≤ measures.room },
}

/// Appends the words of a row: the result of each step.
pub fn put_words(alloc: Global, given: &str, said: &mut String) -> Result<(), Fault> {
    let mut measures = Measures::new(alloc, PEERS)?;
    measures.reserve()?;
    let mut readings = Readings { measures };
    act_all(alloc, &mut readings, given.split_ascii_whitespace(), said)
}

impl Acts for Readings {
    fn act(&mut self, _alloc: Global, step: RowStep<'_>, said: &mut String) -> Result<(), Fault> {
        let mut fields = step.fields;
        let peer = fields.node()?;
        if peer.0 < 1 {
            return Err(Fault::Field);
        }
        match step.word {
            "put" => put(self, peer, fields),
            "get" => put_reading(self, peer, said),
            _ => Err(Fault::Field),
        }
    }
}

/// Puts a reading of a peer among the measures.
fn put(readings: &mut Readings, peer: NodeId, mut fields: RowFields<'_>) -> Result<(), Fault>
    requires { 1 ≤ peer }
{
    if PEERS < peer.0 {
        return Err(Fault::Field);
    }
    let rate = fields.number()?;
    readings.measures.put(peer, rate, fields.byte()?);
    Ok(())
}

/// Appends the measured rate of a peer.
fn put_reading(readings: &Readings, peer: NodeId, said: &mut String) -> Result<(), Fault>
    requires { 1 ≤ peer }
{
    let (rate, hops) = readings.measures.get(peer);
    Ok(write!(said, "{rate}/{hops} ")?)
}

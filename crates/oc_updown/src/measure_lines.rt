//! Measure lines: the measures that a configuration gives.

ghost use Rattle.std.specs.Prelude.{◌≡◌, ◌≢◌, ◌≤◌, IfOk, All};
ghost use Rattle.oc_base.specs.Words.{words};
ghost use Rattle.oc_updown.specs.MeasureLines.{IsMeasure, peer_in, measure_in, measures_in, Gives, PutsMeasure};

use crate::measure_fault::MeasureFault;
use oc_base::words::{first_line, first_word, four_fields, node, number};
use oc_base::{MAX_HOPS, MAX_RATE, NodeId, Why};
use std::alloc::Global;

/// The measure of one line: `from` measured this rate and these hops to `peer`.
#[derive(Clone, Copy, Debug, PartialEq, Eq)]
pub struct Measure {
    pub from: NodeId,
    /// A node other than `from`.
    pub peer: NodeId,
    /// The rate, in bytes per second, at most 2^40.
    pub rate: u64,
    pub hops: u8,
}

/// Reads the lines `FROM PEER RATE HOPS` of a text, any bytes, for a network of `nodes` nodes: the
/// measures, or the first bad line and its cause. Empty lines are skipped, but counted. Lines past the
/// greatest `u32` all have that number.
pub fn read_lines(alloc: Global, text: &[u8], nodes: u32) -> Result<Vec<Measure>, MeasureFault>
    ensures exact { Gives result (measures_in nodes text.now) }
    ensures lawful { IfOk result (λ measures. All (IsMeasure nodes) measures.items) }
{
    let mut measures = Vec::new(alloc);
    let mut number: u32 = 1;
    let mut rest = text;
    'lines: while !rest.is_empty() {
        let (line, behind) = first_line(rest);
        put_line(&mut measures, line, number, nodes)?;
        number = number.saturating_add(1);
        rest = behind;
    }
    Ok(measures)
}

/// Adds the measure of a line, unless the line is empty.
fn put_line(
    measures: &mut Vec<Measure>,
    line: &[u8],
    number: u32,
    nodes: u32,
) -> Result<(), MeasureFault>
    ensures exact { PutsMeasure nodes number measures.old.items measures.new.items (words line.now) result }
    ensures lawful { All (IsMeasure nodes) measures.old.items → All (IsMeasure nodes) measures.new.items }
{
    if first_word(line).is_none() {
        return Ok(());
    }
    match read_measure(line, nodes) {
        Ok(measure) => {
            measures.push(measure)?;
            Ok(())
        }
        Err(why) => Err(MeasureFault::Line { line: number, why }),
    }
}

/// The measure of a line that is not empty.
fn read_measure(line: &[u8], nodes: u32) -> Result<Measure, Why>
    ensures said { result ≡ measure_in nodes (words line.now) }
    ensures range { IfOk result (IsMeasure nodes) }
{
    let (f, p, r, h) = four_fields(line)?;
    let from = node(f, nodes)?;
    let peer = peer(p, from, nodes)?;
    let rate = number(r, 0, MAX_RATE)?;
    let hops = number(h, 0, u64::from(MAX_HOPS))?;
    Ok(Measure {
        from,
        peer,
        rate,
        hops: hops as u8,
    })
}

/// Reads the id of a node other than `from`.
fn peer(field: &[u8], from: NodeId, nodes: u32) -> Result<NodeId, Why>
    ensures said { result ≡ peer_in nodes from field.now }
    ensures range { IfOk result (λ peer. (1 ≤ peer) × (peer ≤ nodes) × (peer ≢ from)) }
{
    let peer = node(field, nodes)?;
    if peer == from {
        return Err(Why::Range);
    }
    Ok(peer)
}

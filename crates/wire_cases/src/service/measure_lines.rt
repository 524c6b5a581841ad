//! Measure lines: their measures, or the first bad line.

use crate::service::texts::text_in;
use oc_updown::{Measure, MeasureFault, read_lines};
use std::alloc::Global;
use test_tools::{Fault, RowFields};

/// Appends the words of a row: the measures, or the bad line and its fault.
pub fn put_words(alloc: Global, given: &str, said: &mut String) -> Result<(), Fault> {
    let (nodes, written) = given.split_once('|').ok_or(Fault::Field)?;
    let nodes = RowFields::of(nodes.trim(), ' ').small()?;
    put_read(alloc, &text_in(alloc, written.trim())?, nodes, said)
}

/// Appends the measures of a text, or the bad line and its fault.
fn put_read(alloc: Global, text: &[u8], nodes: u32, said: &mut String) -> Result<(), Fault> {
    match read_lines(alloc, text, nodes) {
        Ok(measures) => put_measures(said, &measures),
        Err(MeasureFault::Memory) => Err(Fault::Memory),
        Err(fault) => Ok(write!(said, "{fault}")?),
    }
}

fn put_measures(said: &mut String, measures: &[Measure]) -> Result<(), Fault> {
    for measure in measures {
        put_measure(said, measure)?;
        said.push_str(" ")?;
    }
    Ok(())
}

/// Puts a measure.
pub(crate) fn put_measure(said: &mut String, measure: &Measure) -> Result<(), Fault> {
    let from = measure.from.0;
    let peer = measure.peer.0;
    let rate = measure.rate;
    let hops = measure.hops;
    Ok(write!(said, "{from},{peer},{rate},{hops}")?)
}

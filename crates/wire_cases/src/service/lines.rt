//! Lines of inputs that do not come from a request.

use oc_base::NodeId;
use oc_model::Input;
use oc_routes::put_input_line;
use std::alloc::Global;
use test_tools::{Fault, RowFields};

/// Puts the words of a row: the line.
pub fn put_words(alloc: Global, given: &str, said: &mut String) -> Result<(), Fault> {
    let mut line = Vec::new(alloc);
    put_line(alloc, &mut line, RowFields::of(given, ' '))?;
    put_text(&line, said)
}

/// Puts the line of a row.
fn put_line(alloc: Global, line: &mut Vec<u8>, mut fields: RowFields<'_>) -> Result<(), Fault> {
    match fields.text() {
        "input" => put_input(alloc, line, fields),
        _ => Err(Fault::Field),
    }
}

/// Puts a line without its end.
fn put_text(line: &[u8], said: &mut String) -> Result<(), Fault> {
    let [front @ .., b'\n'] = line else {
        return Err(Fault::Unready);
    };
    for byte in front {
        said.push(char::from(*byte))?;
    }
    Ok(())
}

fn put_input(alloc: Global, line: &mut Vec<u8>, mut fields: RowFields<'_>) -> Result<(), Fault> {
    let me: NodeId = fields.node()?;
    let input = match fields.text() {
        "tick" => Input::Tick(fields.number()?),
        "check" => Input::CheckNow,
        "move" => Input::Relocate(fields.node()?),
        "fail" => Input::Unreachable(fields.node()?),
        "pull" => Input::Pull(fields.node()?),
        "measure" => Input::Measured {
            peer: fields.node()?,
            rate: fields.number()?,
            hops: fields.byte()?,
        },
        _ => return Err(Fault::Field),
    };
    Ok(put_input_line(alloc, line, me, &input)?)
}

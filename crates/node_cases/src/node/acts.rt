//! The inputs of nodes in the rows of tables. Inputs other than messages are read as the lines of a
//! schedule.
ghost use Rattle.std.specs.Prelude.{ℕ, IfOk};
ghost use Rattle.oc_model.specs.Lawful.{IsAct, IsInput};

use oc_base::NodeId;
use oc_model::{Act, Event, Input};
use oc_schedule::{Scale, read};
use oc_wire::decode;
use std::alloc::Global;
use test_tools::{Fault, RowStep};

/// The input of a step such as `move:1`, to this one of `NODES` nodes: an act line of a schedule without the
/// node, with commas for spaces.
pub fn act_in<const NODES: u32>(
    alloc: Global,
    step: RowStep<'_>,
    me: NodeId,
) -> Result<Input, Fault>
    ensures { IfOk result (λ input. IsInput NODES me input) }
{
    let text = schedule_of(alloc, step, NODES, me)?;
    let Ok(schedule) = read(alloc, Scale::Usual, text.as_str().as_bytes()) else {
        return Err(Fault::Field);
    };
    if schedule.header.sizes.nodes != NODES || schedule.events.len() != 1 {
        return Err(Fault::Field);
    }
    match schedule.events.event(0).get() {
        Event::Do(act) => input_of::<NODES>(act),
        _ => Err(Fault::Field),
    }
}

/// The message of these bytes, which is to this one of `NODES` nodes.
pub fn delivery_in<const NODES: u32>(
    alloc: Global,
    bytes: &[u8],
    me: NodeId,
) -> Result<Input, Fault>
    ensures { IfOk result (λ input. IsInput NODES me input) }
{
    match decode(alloc, bytes, NODES) {
        Ok(message) if message.to == me => Ok(Input::Delivered(message)),
        _ => Err(Fault::Field),
    }
}

/// The schedule of this one act.
fn schedule_of(alloc: Global, step: RowStep<'_>, nodes: u32, me: NodeId) -> Result<String, Fault> {
    let mut fields = step.fields;
    let mut text = format!(in alloc; "overcast 1 nodes {nodes} chain 1\n{} {}", step.word, me.0)?;
    for _ in 0..4 {
        write!(text, " {}", fields.text())?;
    }
    Ok(text)
}

/// The input that an act brings to its node.
fn input_of<const NODES: u32>(act: &Act) -> Result<Input, Fault>
    requires { IsAct NODES act.now }
    ensures { (me : ℕ) → IfOk result (λ input. IsInput NODES me input) }
{
    match act {
        Act::At { input, .. } => Ok(input.clone()?),
        Act::Deliver { .. } => Err(Fault::Field),
    }
}

//! The inputs of steps.

ghost use Rattle.std.specs.Prelude.{IfOk};
ghost use Rattle.oc_model.specs.Lawful.{IsInput};

use crate::node::acts::{act_in, delivery_in};
use crate::node::steps::spelled::spelled;
use oc_base::NodeId;
use oc_model::Input;
use std::alloc::Global;
use test_tools::{Fault, RowStep};

/// The number of nodes.
pub const NODES: u32 = 5;

/// The input of a step such as `move:1`, to this node: an act, or `recv:BYTES`, a message.
pub fn input_in(alloc: Global, step: RowStep<'_>, me: NodeId) -> Result<Input, Fault>
    ensures { IfOk result (λ input. IsInput 5 me input) }
{
    if step.word == "recv" {
        delivery_in::<NODES>(alloc, &spelled(alloc, step.fields)?, me)
    } else {
        act_in::<NODES>(alloc, step, me)
    }
}

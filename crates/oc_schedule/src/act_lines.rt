//! The lines of inputs, as a running node prints each that it takes.

ghost use Rattle.std.specs.Prelude.{◌≡◌, ◌++◌, OnOk};
ghost use Rattle.oc_model.specs.declared.event.Act.TheVariants.{At};
ghost use Rattle.oc_schedule.specs.Texts.{act_line, recv_line};

use crate::acts::put_input;
use crate::texts::{put_hex, put_number_field};
use oc_base::{Memory, NodeId, put};
use oc_model::Input;

/// Puts the line of an input at a node, except for a message, whose line [`put_recv_line`] puts.
pub fn put_act_line(out: &mut Vec<u8>, node: NodeId, input: &Input) -> Result<(), Memory>
    ensures { OnOk result (out.new.items ≡ out.old.items ++ act_line (At node input.now)) }
{
    put_input(out, node, input)?;
    put(out, b"\n")
}

/// Puts the line `recv N HEX` of a message that came to a node, by its bytes.
pub fn put_recv_line(out: &mut Vec<u8>, node: NodeId, bytes: &[u8]) -> Result<(), Memory>
    ensures { OnOk result (out.new.items ≡ out.old.items ++ recv_line node bytes.now) }
{
    put(out, b"recv")?;
    put_number_field(out, u64::from(node.0))?;
    put(out, b" ")?;
    put_hex(out, bytes)?;
    put(out, b"\n")
}

//! The message that a delivery brings to its receiver.

ghost use Rattle.std.specs.Prelude.{◌≡◌, ◌+◌, ◌<◌, ◌⊎◌, option_map, IfNone, IfOk, IfSome};
ghost use Rattle.oc_model.specs.World.{delivery, message_at};
ghost use Rattle.oc_world.specs.Arrivals.{IsLawfulArrival, arrival_at};

use crate::net::Net;
use oc_base::{Memory, NodeId};
use oc_model::Input;

/// The receiver and the input of the delivery of message `number`.
pub(crate) fn delivery(net: &Net, number: u64) -> Result<Option<(NodeId, Input)>, Memory>
    ensures arrival { IfOk result (λ found. option_map arrival_at found ≡ delivery (message_at net.now.messages number)) }
    ensures lawful { IfOk result (λ found. IsLawfulArrival net.now.nodes found) }
{
    let Some(at) = message_place(number, net.len()) else {
        return Ok(None);
    };
    let message = net.message(at)?;
    Ok(Some((message.to, Input::Delivered(message))))
}

/// The index of a message by its number, which is counted from 1.
pub(crate) fn message_place(number: u64, sent: usize) -> Option<usize>
    ensures none { IfNone result ((number ≡ 0) ⊎ (sent < number)) }
    ensures some { IfSome result (λ at. (at + 1 ≡ number) × (at < sent)) }
{
    let before = number.checked_sub(1)?;
    if number <= sent as u64 {
        Some(before as usize)
    } else {
        None
    }
}

ghost use Rattle.std.specs.Prelude.{IfOk};
ghost use Rattle.oc_wire.specs.MessageReading.{Gives, decoded};
ghost use Rattle.oc_model.specs.declared.message.Message.{Message};
ghost use Rattle.oc_wire.specs.Messages.{Spells};

use crate::WireFault;
use crate::message_decoding::read_message;
use oc_model::Message;
use std::alloc::Global;

/// The message between `nodes` nodes that the bytes spell: all of the bytes, or the first fault.
pub fn decode(alloc: Global, bytes: &[u8], nodes: u32) -> Result<Message, WireFault>
    // Only the one spelling of a lawful message is read.
    ensures found { IfOk result (λ message. Spells nodes bytes.now message) }
    ensures only { (message : Message) → Spells nodes bytes.now message → Gives result (Ok message) }

    // The fault is exactly the first.
    ensures exact { Gives result (decoded nodes bytes.now) }
{
    read_message(alloc, nodes, bytes)
}

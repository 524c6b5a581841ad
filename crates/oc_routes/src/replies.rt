ghost use Rattle.std.specs.Prelude.{◌≡◌};
ghost use Rattle.oc_routes.specs.Replies.{others, reply_index, reply_to};

use oc_base::NodeId;
use oc_model::Message;

/// The index of the reply to a message from `sender` among the messages that it makes the node send: the
/// first that goes back to the sender.
fn reply_index(sends: &[Message], sender: NodeId) -> Option<usize>
    ensures { result ≡ reply_index sends.now sender }
{
    sends.iter().position(|message| message.to == sender)
}

/// Splits these messages into the reply and all others, in their order.
pub fn split_reply(sends: Vec<Message>, sender: NodeId) -> (Option<Message>, Vec<Message>)
    ensures reply { result.0 ≡ reply_to sends.items sender }
    ensures others { result.1.items ≡ others sends.items sender }
{
    let mut sends = sends;
    match reply_index(&sends, sender) {
        Some(index) => (Some(sends.remove(index)), sends),
        None => (None, sends),
    }
}

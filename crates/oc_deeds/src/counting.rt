//! The counts of a running node.

ghost use Rattle.std.specs.Prelude.{◌≡◌, option_map};
ghost use Rattle.oc_deeds.specs.Counted.{message_fault, noted, with_refusal_to, with_refused_by, with_reply_to};

use oc_base::NodeId;
use oc_model::Answer;
use oc_node::Node;
use oc_routes::{Asker, KnownRows, MessageFault, Operation, Refusal, Refused, Tally};

/// Counts an input of this sender and with this answer, by the rows known before it and the node after it.
pub fn count_input(
    tally: &mut Tally,
    sender: Option<NodeId>,
    known: &Option<KnownRows>,
    answer: Answer,
    node: &Node,
)
    ensures { tally.new ≡ noted sender known.now answer node.now.control tally.old }
{
    tally.answers(answer);
    tally.hears(sender, node.now());
    tally.hears_of(known.as_ref(), node.table(), node.now());
}

/// Counts a reply of which this text was given; the reply to a message is none to a client.
pub fn count_reply(tally: &mut Tally, asked: &Operation, text: &[u8])
    ensures { tally.new ≡ with_reply_to asked.now text.now tally.old }
{
    match asked {
        Operation::Message => {}
        _ => tally.replies(text),
    }
}

/// Counts a request that was refused, and given this text, if any.
pub fn count_refusal(tally: &mut Tally, refusal: Refusal, text: &Option<Vec<u8>>)
    ensures { tally.new ≡ with_refused_by (message_fault refusal.why) refusal.asker (option_map (λ t. t.items) text.now) tally.old }
{
    match message_fault(refusal.why) {
        Some(fault) => tally.refuses(fault),
        None => count_refused(tally, refusal.asker, text),
    }
}

/// Counts the refusal of a client, if it was given a text; of a node nothing.
fn count_refused(tally: &mut Tally, asker: Asker, text: &Option<Vec<u8>>)
    ensures { tally.new ≡ with_refusal_to asker (option_map (λ t. t.items) text.now) tally.old }
{
    match (asker, text) {
        (Asker::Client | Asker::HeadAlone, Some(text)) => tally.replies(text),
        _ => {}
    }
}

/// The fault of a message that was refused so, if the request brought one.
fn message_fault(why: Refused) -> Option<MessageFault>
    ensures { result ≡ message_fault why }
{
    match why {
        Refused::Mac => Some(MessageFault::Mac),
        Refused::Message => Some(MessageFault::Message),
        _ => None,
    }
}

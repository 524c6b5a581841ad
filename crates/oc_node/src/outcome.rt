use oc_model::{Answer, Message};
use std::marker::Model;

/// The answer of a step, and the messages to send. Contracts see them as a record with a list.
#[derive(Drop)]
pub struct Outcome {
    pub answer: Answer,
    pub sends: Vec<Message>,
}

impl Model for Outcome {
    ghost use Rattle.oc_node.specs.OutcomeView.{OutcomeView};

    ghost Value = { OutcomeView };

    ghost view = { λ o. record { answer = o.answer; sends = o.sends.items } };
}

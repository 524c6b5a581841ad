//! The message of a step that is the reply.

use oc_base::NodeId;
use oc_model::{Body, Message};
use oc_routes::split_reply;
use std::alloc::Global;
use test_tools::{Fault, RowFields};

/// An upper bound on the messages of a row.
const MOST_MESSAGES: u32 = 100;

/// Puts the words of a row: the reply, and the other messages.
pub fn put_words(alloc: Global, given: &str, said: &mut String) -> Result<(), Fault> {
    let mut fields = RowFields::of(given, ' ');
    let sender = fields.node()?;
    let (reply, others) = split_reply(messages_in(alloc, fields.list())?, sender);
    put_split(said, reply.as_ref(), &others)
}

/// The messages of the fields.
fn messages_in(alloc: Global, mut list: RowFields<'_>) -> Result<Vec<Message>, Fault> {
    let mut messages = Vec::new(alloc);
    for _ in 0..MOST_MESSAGES {
        if list.is_empty() {
            break;
        }
        messages.push(message_in(RowFields::of(list.text(), ':'))?)?;
    }
    Ok(messages)
}

fn put_split(said: &mut String, reply: Option<&Message>, others: &[Message]) -> Result<(), Fault> {
    match reply {
        Some(reply) => put_message(said, reply)?,
        None => said.push_str("none")?,
    }
    said.push_str(" and")?;
    for message in others {
        said.push(' ')?;
        put_message(said, message)?;
    }
    Ok(())
}

/// The message of a text `FROM:TO:SEQ`.
fn message_in(mut fields: RowFields<'_>) -> Result<Message, Fault> {
    Ok(Message {
        from: fields.node()?,
        to: fields.node()?,
        body: Body::Rejoin {
            seq: fields.number()?,
        },
    })
}

fn put_message(said: &mut String, message: &Message) -> Result<(), Fault> {
    let NodeId(from) = message.from;
    let NodeId(to) = message.to;
    match message.body {
        Body::Rejoin { seq } => Ok(write!(said, "{from}:{to}:{seq}")?),
        _ => Err(Fault::Unready),
    }
}

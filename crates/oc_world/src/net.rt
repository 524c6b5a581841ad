//! All messages that were ever sent, each as the bytes of its request.

ghost use Rattle.std.specs.Prelude.{◌≡◌, ◌<◌, ◌≤◌, false, [], ◌∷◌, ◌++◌, length, take, slice_get, Some, IfOk, OnOk, OnErr};
ghost use Rattle.std.specs.List.{AllByRecursion};
ghost use Rattle.oc_base.specs.declared.limits.TheConstants.{MAX_NODES};
ghost use Rattle.oc_model.specs.Lawful.{IsMessage};
ghost use Rattle.oc_model.specs.declared.message.Message.{Message as Sent};
ghost use Rattle.oc_world.specs.Net.{ends_with_ack, is_ack_body, text_of};

use crate::letter::Letter;
use crate::pools::Pools;
use crate::texts::{spell, text_of};
use oc_base::Memory;
use oc_model::{Body, Message};
use std::alloc::Global;
use std::marker::Model;

/// The greatest number of messages that can be sent: their numbers are below 2^63.
pub const MOST_SENT: usize = (1 << 63) - 2;

/// The messages between `nodes` nodes, in the order of sending. The content in chunks is stored
/// once for all messages, so that the net takes little more memory for it than the source
/// published. Contracts see the messages.
#[derive(Drop)]
pub struct Net {
    alloc: Global,
    nodes: u32,
    letters: Vec<Letter>,
    /// The bytes shared by letters.
    pools: Pools,
    /// The buffer for the bytes of the message that is being sent, used again for the next.
    spelling: Vec<u8>,
    /// Whether the last message acknowledges a check-in.
    acks: bool,
}

impl Model for Net {
    ghost use Rattle.std.specs.Prelude.{◌≡◌, ◌≤◌, false, vec_len};
    ghost use Rattle.std.specs.List.{AllByRecursion};
    ghost use Rattle.oc_base.specs.declared.limits.TheConstants.{MAX_NODES};
    ghost use Rattle.oc_world.specs.declared.net.TheConstants.{MOST_SENT};
    ghost use Rattle.oc_world.specs.Net.{IsLetter, NetView, ends_with_ack, net_of};

    ghost Value = { NetView };

    ghost view = { λ n. net_of n.nodes n.pools n.letters.items };

    ghost invariant = { λ n. (n.nodes ≤ MAX_NODES) × (vec_len n.letters ≤ MOST_SENT) × AllByRecursion (IsLetter n.nodes n.pools) n.letters.items
        × (n.acks ≡ ends_with_ack false (net_of n.nodes n.pools n.letters.items).messages) };
}

impl Net {
    /// A net without messages. Takes no memory.
    pub fn new(alloc: Global, nodes: u32) -> Net
        requires { nodes ≤ MAX_NODES }
        ensures nodes { result.nodes ≡ nodes }
        ensures messages { result.messages ≡ [] }
    {
        Net {
            alloc,
            nodes,
            letters: Vec::new(alloc),
            pools: Pools::new(alloc),
            spelling: Vec::new(alloc),
            acks: false,
        }
    }

    /// Adds all messages, or none if memory runs out. The error is `Memory` also if there would be
    /// more than `MOST_SENT`.
    pub fn send_all(&mut self, messages: &[Message]) -> Result<(), Memory>
        requires { AllByRecursion (IsMessage self.old.nodes) messages.now }
        ensures nodes { self.new.nodes ≡ self.old.nodes }
        ensures ok { OnOk result (self.new.messages ≡ self.old.messages ++ messages.now) }
        ensures err { OnErr result (self.new.messages ≡ self.old.messages) }
    {
        let before = self.letters.len();
        let acks = self.acks;
        match self.send_each(messages) {
            Ok(()) => Ok(()),
            Err(Memory) => {
                self.letters.truncate(before);
                self.acks = acks;
                Err(Memory)
            }
        }
    }

    /// Adds messages; only the first of them if memory runs out.
    fn send_each(&mut self, messages: &[Message]) -> Result<(), Memory>
        requires { AllByRecursion (IsMessage self.old.nodes) messages.now }
        ensures nodes { self.new.nodes ≡ self.old.nodes }
        ensures ok { OnOk result (self.new.messages ≡ self.old.messages ++ messages.now) }
        ensures before { take (length self.old.messages) self.new.messages ≡ self.old.messages }
    {
        for message in messages {
            self.send(message)?;
        }
        Ok(())
    }

    /// Adds a message.
    fn send(&mut self, message: &Message) -> Result<(), Memory>
        requires { IsMessage self.old.nodes message.now }
        ensures nodes { self.new.nodes ≡ self.old.nodes }
        ensures ok { OnOk result (self.new.messages ≡ self.old.messages ++ message.now ∷ []) }
        ensures err { OnErr result (self.new.messages ≡ self.old.messages) }
    {
        if self.letters.len() >= MOST_SENT {
            return Err(Memory);
        }
        spell(&mut self.spelling, self.nodes, message)?;
        let letter = Letter::of(self.alloc, &mut self.pools, &self.spelling, &message.body)?;
        self.letters.push(letter)?;
        self.acks = is_ack_body(&message.body);
        Ok(())
    }

    /// The number of nodes.
    pub fn nodes(&self) -> u32
        ensures nodes { result ≡ self.now.nodes }
        ensures few { result ≤ MAX_NODES }
    {
        self.nodes
    }

    /// The number of messages.
    pub fn len(&self) -> usize
        ensures length { result ≡ length self.now.messages }
        ensures few { result ≤ MOST_SENT }
    {
        self.letters.len()
    }

    /// Whether the last message acknowledges a check-in.
    pub fn ends_with_ack(&self) -> bool
        ensures { result ≡ ends_with_ack false self.now.messages }
    {
        self.acks
    }

    /// The text of the request that brings the message at an index.
    pub fn text(&self, at: usize) -> Result<Vec<u8>, Memory>
        requires { at < length self.now.messages }
        ensures { IfOk result (λ text. (m : Sent) → slice_get self.now.messages at ≡ Some m → text.items ≡ text_of m) }
    {
        let message = self.message(at)?;
        text_of(self.alloc, self.nodes, &message)
    }

    /// The message at an index, read from its bytes.
    pub fn message(&self, at: usize) -> Result<Message, Memory>
        requires { at < length self.now.messages }
        ensures message { IfOk result (λ message. slice_get self.now.messages at ≡ Some message) }
        ensures lawful { IfOk result (λ message. IsMessage self.now.nodes message) }
    {
        self.letters[at].message(self.alloc, &self.pools, self.nodes)
    }
}

/// Whether the body acknowledges a check-in.
fn is_ack_body(body: &Body) -> bool
    ensures { result ≡ is_ack_body body.now }
{
    matches!(body, Body::CheckAck { .. })
}

ghost use Rattle.std.specs.Prelude.{◌≡◌, ◌≤◌, ◌+◌, ◌∷◌, ◌++◌, Some, [], length, OnOk, OnErr, IfSome, IfNone, drop, unwrap_or};
ghost use Rattle.oc_model.specs.declared.input.Input.{Input};
ghost use Rattle.oc_model.specs.declared.want.Want.{Want};
ghost use Rattle.oc_model.specs.Node.{Node};
ghost use Rattle.oc_model.specs.Step.{bytes_wanted, fill};
ghost use Rattle.oc_step.specs.Applying.{IsPlanOf, IsStepOf};
ghost use Rattle.oc_step.specs.Planned.{empty_plan, IsWanting, filled_with};
ghost use Rattle.oc_model.specs.Numbers.{first_of};

use oc_base::{Bytes, IdList, Memory, NodeId};
use oc_model::{Answer, Body, Message, Record, Want};
use oc_state::{ListUpdate, Tries, Volatile};
use std::alloc::Global;
use std::marker::Model;

/// The effect of one input on a node, before it is applied: its records, its messages, its answer, and the
/// changes of the parts of the node that no record keeps. It holds all memory that the step
/// takes.
#[derive(Drop)]
pub struct Plan {
    records: Vec<Record>,
    volatile: Volatile,
    /// The nodes still to be asked, if the step sets them anew.
    tries: Option<Tries>,
    /// The number of nodes that the step takes off the nodes still to be asked.
    taken: usize,
    updates: Vec<ListUpdate>,
    sends: Vec<Message>,
    answer: Answer,
    wants: Option<Want>,
    keeps: Option<u64>,
    seals: bool,
    /// An empty buffer, with room for the bytes that the step wants.
    buffer: Vec<u8>,
}

impl Model for Plan {
    ghost use Rattle.std.specs.Prelude.{◌≡◌, [], vec_capacity};
    ghost use Rattle.oc_step.specs.Planned.{PlanView};

    ghost Value = { PlanView };

    ghost view = { λ p. record {
      records = p.records.items;
      volatile = p.volatile;
      tries = p.tries;
      taken = p.taken;
      updates = p.updates.items;
      sends = p.sends.items;
      answer = p.answer;
      wants = p.wants;
      keeps = p.keeps;
      seals = p.seals;
      room = vec_capacity p.buffer;
    } };

    ghost invariant = { λ p. p.buffer.items ≡ [] };
}

impl Plan {
    /// The plan without changes, at a node with these small parts.
    pub(crate) fn new(alloc: Global, volatile: Volatile) -> Plan
        ensures { result ≡ empty_plan volatile }
    {
        Plan {
            records: Vec::new(alloc),
            volatile,
            tries: None,
            taken: 0,
            updates: Vec::new(alloc),
            sends: Vec::new(alloc),
            answer: Answer::Ok,
            wants: None,
            keeps: None,
            seals: false,
            buffer: Vec::new(alloc),
        }
    }

    /// The durable changes of the step, in their order: 1 to 4,096 records that fit one frame, or none.
    pub fn records(&self) -> &[Record]
        ensures { result.now ≡ self.now.records }
    {
        &self.records
    }

    /// The changes of the lists that have an item for each node.
    pub fn updates(&self) -> &[ListUpdate]
        ensures { result.now ≡ self.now.updates }
    {
        &self.updates
    }

    /// The messages to send. If the plan wants bytes, the chunk has them after `fill`.
    pub fn sends(&self) -> &[Message]
        ensures { result.now ≡ self.now.sends }
    {
        &self.sends
    }

    /// The answer to the input.
    pub fn answer(&self) -> Answer
        ensures { result ≡ self.now.answer }
    {
        self.answer
    }

    /// The bytes for the chunk that the step sends, if it sends one with bytes: the group, the offset and the number.
    pub fn wants(&self) -> Option<Want>
        ensures { result ≡ self.now.wants }
    {
        self.wants
    }

    /// The offset in the input's group at which its bytes begin; it is set exactly if the step writes a frame
    /// of content.
    pub fn keeps(&self) -> Option<u64>
        ensures { result ≡ self.now.keeps }
    {
        self.keeps
    }

    /// Whether the step seals the input's group.
    pub fn seals(&self) -> bool
        ensures { result ≡ self.now.seals }
    {
        self.seals
    }

    pub(crate) fn volatile(&self) -> Volatile
        ensures { result ≡ self.now.volatile }
    {
        self.volatile
    }

    pub(crate) fn set_volatile(&mut self, volatile: Volatile)
        ensures { self.new ≡ record self.old { volatile = volatile } }
    {
        self.volatile = volatile;
    }

    /// Adds a durable change.
    pub(crate) fn write(&mut self, change: Record) -> Result<(), Memory>
        ensures ok { OnOk result (self.new ≡ record self.old { records = self.old.records ++ change ∷ [] }) }
        ensures err { OnErr result (self.new ≡ self.old) }
    {
        self.records.push(change)?;
        Ok(())
    }

    /// Adds a message.
    pub(crate) fn send(&mut self, message: Message) -> Result<(), Memory>
        ensures ok { OnOk result (self.new ≡ record self.old { sends = self.old.sends ++ message ∷ [] }) }
        ensures err { OnErr result (self.new ≡ self.old) }
    {
        self.sends.push(message)?;
        Ok(())
    }

    /// Adds a change of the lists that have an item for each node.
    pub(crate) fn update(&mut self, update: ListUpdate) -> Result<(), Memory>
        ensures ok { OnOk result (self.new ≡ record self.old { updates = self.old.updates ++ update ∷ [] }) }
        ensures err { OnErr result (self.new ≡ self.old) }
    {
        self.updates.push(update)?;
        Ok(())
    }

    pub(crate) fn set_answer(&mut self, answer: Answer)
        ensures { self.new ≡ record self.old { answer = answer } }
    {
        self.answer = answer;
    }

    /// Sets the nodes still to be asked.
    pub(crate) fn set_tries(&mut self, list: IdList)
        ensures { self.new ≡ record self.old { tries = Some list; taken = 0 } }
    {
        self.tries = Some(Tries::of(list));
        self.taken = 0;
    }

    /// Takes off the first of the nodes still to be asked; `before` is the list of the node.
    pub(crate) fn take_try(&mut self, before: &Tries) -> Option<NodeId>
        ensures first { result ≡ first_of (drop self.old.taken (unwrap_or self.old.tries before.now)) }
        ensures none { IfNone result (self.new ≡ self.old) }
        ensures taken { IfSome result (λ _. self.new ≡ record self.old { taken = self.old.taken + 1 }) }
    {
        let tries = self.tries.as_ref().unwrap_or(before);
        let first = tries.get(self.taken)?;
        self.taken += 1;
        Some(first)
    }

    /// Keeps the input's bytes in their group, from this offset on, and closes the group if `closes`.
    pub(crate) fn keep(&mut self, at: u64, closes: bool)
        ensures { self.new ≡ record self.old { keeps = Some at; seals = closes } }
    {
        self.keeps = Some(at);
        self.seals = closes;
    }

    /// Wants bytes of content, if there are any, and makes room for them.
    #[tactic(auto, using(crate::proofs::Rooms::room_grows))]
    pub(crate) fn want(&mut self, wanted: Option<Want>) -> Result<(), Memory>
        requires { IfSome self.old.wants (λ w. w.count ≤ self.old.room) }
        ensures wants { OnOk result (self.new.wants ≡ wanted) }
        ensures room { IfSome self.new.wants (λ w. w.count ≤ self.new.room) }
        ensures rest { self.new ≡ record self.old { wants = self.new.wants; room = self.new.room } }
    {
        let count = match &wanted {
            Some(want) => want.count as usize,
            None => 0,
        };
        self.buffer.reserve(count)?;
        self.wants = wanted;
        Ok(())
    }

    /// Fills the wanted bytes into the chunk. Takes no memory, and copies nothing.
    pub fn fill(&mut self, bytes: Vec<u8>)
        requires { IsWanting self.old (length bytes.items) }
        ensures fills { self.new ≡ filled_with bytes.items self.old }
        ensures step { (n : Node) (i : Input) (w : Want) → IsPlanOf n i self.old → self.old.wants ≡ Some w → bytes.items ≡ bytes_wanted n.groups w → IsStepOf n i self.new }
    {
        self.buffer = Vec::new(*self.buffer.allocator());
        if !self.sends.is_empty() {
            fill_message(&mut self.sends[0], bytes);
        }
    }

    /// Takes the plan apart into its changes, messages and answer.
    pub fn into_changes(self) -> Changes
        ensures records { result.records.items ≡ self.records }
        ensures volatile { result.volatile ≡ self.volatile }
        ensures tries { result.tries ≡ self.tries }
        ensures taken { result.taken ≡ self.taken }
        ensures updates { result.updates.items ≡ self.updates }
        ensures sends { result.sends.items ≡ self.sends }
        ensures answer { result.answer ≡ self.answer }
    {
        Changes {
            records: self.records,
            volatile: self.volatile,
            tries: self.tries,
            taken: self.taken,
            updates: self.updates,
            sends: self.sends,
            answer: self.answer,
        }
    }
}

/// The changes, the messages and the answer of a plan.
#[derive(Drop)]
pub struct Changes {
    pub records: Vec<Record>,
    pub volatile: Volatile,
    /// The nodes still to be asked, if the step sets them anew.
    pub tries: Option<Tries>,
    /// The number of nodes that the step takes off the nodes still to be asked.
    pub taken: usize,
    pub updates: Vec<ListUpdate>,
    pub sends: Vec<Message>,
    pub answer: Answer,
}

/// Fills bytes into a message, if it is a chunk.
fn fill_message(message: &mut Message, filling: Vec<u8>)
    ensures { message.new ≡ fill filling.items message.old }
{
    match &mut message.body {
        Body::Chunk { bytes, .. } => *bytes = Bytes::of(filling),
        _ => {}
    }
}

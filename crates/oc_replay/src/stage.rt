ghost use Rattle.std.specs.Prelude.{◌≡◌, length, OnOk, IfOk};
ghost use Rattle.oc_base.specs.Groups.{shelf};
ghost use Rattle.oc_base.specs.Lawful.{IsNode};
ghost use Rattle.oc_model.specs.Lawful.{IsHeader, IsEvent};
ghost use Rattle.oc_model.specs.NextWorld.{next_world, word_of};
ghost use Rattle.oc_model.specs.World.{World as WorldState, ids, node as node_in, message_at, new_world};
ghost use Rattle.oc_model.specs.Status.{status_in};
ghost use Rattle.oc_replay.specs.Stage.{HasTimeFor, IsSaid};

use oc_base::{Memory, NodeId, Shelf};
use oc_model::{Event, Header, Message, NodeStatus, Word};

/// The answer of a stage to an event: its word, and the messages that it sent.
#[derive(Clone, Copy, Debug, PartialEq, Eq)]
pub struct Said {
    pub word: Word,
    /// The number of the first message that the event sent, or of the next message if it sent none.
    pub first: u64,
    /// The number of messages that the event sent.
    pub count: u64,
}

/// A stage for a replay. It shows a world of the model.
///
/// A header opens the model's `new_world`, an event leads to its `next_world`, and the word of an
/// event is its `word_of`. So the report is that of the model, whatever the type of the stage.
pub trait Stage {
    /// The world that the stage shows.
    ghost world: { Self → WorldState };

    /// Opens the world of a header: 1 to 1,024 nodes, a chain of 1 to 16 members and at most all nodes,
    /// and the area of each node, ascending by id. Nothing is said of the stage once memory ran out.
    fn open(&mut self, header: &Header) -> Result<(), Memory>
        requires { IsHeader header.now }
        ensures { OnOk result (world self.new ≡ new_world header.now) };

    /// Performs an event within its ranges. Settle and heal are given only if no clock of a node
    /// that is up is past the second 2^41 - 60. After memory ran out, the contract leaves the stage
    /// open.
    fn event(&mut self, event: &Event) -> Result<Said, Memory>
        requires event { IsEvent (length (ids (world self.old))) event.now }
        requires time { HasTimeFor (world self.old) event.now }
        ensures world { OnOk result (world self.new ≡ next_world (world self.old) event.now) }
        ensures said { IfOk result (λ said. IsSaid (word_of (world self.old) event.now) (world self.old) (world self.new) said) };

    /// The message of this number, counted from 1 over all that were sent; none if there is none.
    fn message(&self, number: u64) -> Result<Option<Message>, Memory>
        ensures { IfOk result (λ found. found ≡ message_at (world self.now).net number) };

    /// The groups of a node with their lengths and seals, ascending by name.
    fn held(&self, node: NodeId) -> Result<Vec<Shelf>, Memory>
        requires { IsNode (length (ids (world self.now))) node }
        ensures { IfOk result (λ lines. lines.items ≡ shelf (node_in (world self.now) node).groups) };

    /// The state of a node.
    fn status(&self, node: NodeId) -> Result<NodeStatus, Memory>
        requires { IsNode (length (ids (world self.now))) node }
        ensures { IfOk result (λ status. status ≡ status_in (world self.now) node) };
}

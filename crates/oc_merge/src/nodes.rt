ghost use Rattle.std.specs.Prelude.{◌≡◌, ◌≤◌, ℕ, Some, List, length, OnOk, IfOk};
ghost use Rattle.oc_base.specs.Lawful.{IsNode};
ghost use Rattle.oc_model.specs.Lawful.{IsEvent, IsMessage};
ghost use Rattle.oc_model.specs.NextWorld.{next_world};
ghost use Rattle.oc_model.specs.Node.{Node};
ghost use Rattle.oc_model.specs.World.{World, ids, message_at, node as node_in};
ghost use Rattle.oc_model.specs.declared.message.Message.{Message as Sent};
ghost use Rattle.oc_merge.specs.Merging.{IsNumberOf};
ghost use Rattle.oc_merge.specs.Records.{IsPlayed};

use oc_base::{Bytes, Memory, NodeId};
use oc_model::{Event, Message};

/// All nodes of a network and their messages, on which a merge plays. They show a world of the
/// model.
pub trait Nodes {
    /// The world that the nodes show.
    ghost world: { Self → World };

    /// The digest of a node's files.
    ghost digest: { Node → List ℕ };

    /// Performs an event: a start, a crash, or an input within its ranges. After memory ran out,
    /// the contract leaves the world open.
    fn event(&mut self, event: &Event) -> Result<(), Memory>
        requires event { IsEvent (length (ids (world self.old))) event.now }
        requires played { IsPlayed event.now }
        ensures { OnOk result (world self.new ≡ next_world (world self.old) event.now) };

    /// The least number of an equal message in the net, counted from 1; none if no equal message
    /// was sent.
    fn number(&self, message: &Message) -> Result<Option<u64>, Memory>
        requires { IsMessage (length (ids (world self.now))) message.now }
        ensures { IfOk result (λ found. IsNumberOf (world self.now).net message.now found) };

    /// The number of messages that were sent.
    fn sent(&self) -> u64
        ensures { result ≡ length (world self.now).net };

    /// The receiver of the message of this number, counted from 1.
    fn receiver(&self, number: u64) -> Result<NodeId, Memory>
        requires some { 1 ≤ number }
        requires few { number ≤ length (world self.now).net }
        ensures to { IfOk result (λ to. (m : Sent) → message_at (world self.now).net number ≡ Some m → m.to ≡ to) }
        ensures node { IfOk result (λ to. IsNode (length (ids (world self.now))) to) };

    /// The digest of a node's files.
    fn files(&self, node: NodeId) -> Result<Bytes, Memory>
        requires { IsNode (length (ids (world self.now))) node }
        ensures { IfOk result (λ digits. digits ≡ digest (node_in (world self.now) node)) };
}

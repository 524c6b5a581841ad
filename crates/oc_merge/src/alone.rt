ghost use Rattle.std.specs.Prelude.{◌≡◌, ℕ, List, OnOk, IfOk};
ghost use Rattle.oc_base.specs.Lawful.{IsNode};
ghost use Rattle.oc_model.specs.Lawful.{IsHeader, IsInput};
ghost use Rattle.oc_model.specs.Node.{Node, new_node, restarted};
ghost use Rattle.oc_model.specs.Step.{step};

use oc_base::{Bytes, Memory, NodeId};
use oc_model::{Header, Input};
use std::alloc::Global;

/// One node alone, on which the lines of its own record are played. It shows a node of the model.
pub trait Alone: Drop {
    /// The node that it shows.
    ghost node: { Self → Node };

    /// The digest of a node's files.
    ghost digest: { Node → List ℕ };

    /// A new node of this number, in the network of a header.
    fn new(alloc: Global, header: &Header, me: NodeId) -> Result<Self, Memory>
        requires header { IsHeader header.now }
        requires me { IsNode header.now.nodes me }
        ensures { IfOk result (λ made. node made ≡ new_node header.now me) };

    /// The node after a restart. This node is unchanged.
    fn restarted(&self) -> Result<Self, Memory>
        ensures { IfOk result (λ other. node other ≡ restarted (node self.now)) };

    /// Takes an input within its ranges. After memory ran out, the contract leaves the node open.
    fn take(&mut self, input: &Input) -> Result<(), Memory>
        requires { IsInput (node self.old).control.nodes (node self.old).control.me input.now }
        ensures { OnOk result (node self.new ≡ (step (node self.old) input.now).node) };

    /// The digest of the node's files.
    fn files(&self) -> Result<Bytes, Memory>
        ensures { IfOk result (λ digits. digits ≡ digest (node self.now)) };
}

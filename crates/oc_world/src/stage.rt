//! The world as a stage of a replay.

ghost use Rattle.std.specs.Prelude.{◌≡◌, OnOk, OnErr};
ghost use Rattle.oc_model.specs.Lawful.{IsHeader};
ghost use Rattle.oc_model.specs.World.{new_world};

use crate::World;
use oc_base::{Memory, NodeId, Shelf};
use oc_model::{Event, Header, Message, NodeStatus};
use oc_replay::{Said, Stage};

impl Stage for World {
    ghost world = { λ w. w.world };

    /// If memory runs out, the world stays as it was.
    fn open(&mut self, header: &Header) -> Result<(), Memory>
        requires { IsHeader header.now }
        ensures opened { OnOk result (self.new.world ≡ new_world header.now) }
        ensures err { OnErr result (self.new ≡ self.old) }
    {
        *self = World::new(self.alloc, header)?;
        Ok(())
    }

    fn event(&mut self, event: &Event) -> Result<Said, Memory> {
        self.event(event)
    }

    fn message(&self, number: u64) -> Result<Option<Message>, Memory> {
        self.message(number)
    }

    fn held(&self, node: NodeId) -> Result<Vec<Shelf>, Memory> {
        self.held(node)
    }

    fn status(&self, node: NodeId) -> Result<NodeStatus, Memory> {
        self.status(node)
    }
}

ghost use Rattle.std.specs.Prelude.{◌≡◌, IfOk};
ghost use Rattle.oc_keep.specs.ReadyView.{is_written};

use oc_base::Memory;
use oc_content::Piece;
use oc_model::{Answer, Message};
use oc_node::Plan;
use oc_store::Frame;
use std::alloc::Global;
use std::marker::Model;

/// The write of a step: at most one frame of one file.
#[derive(Drop)]
pub enum Write {
    Nothing,
    /// The frame of the step's records, for the current control file.
    Records(Frame),
    /// The piece that the step keeps, for the content file.
    Content(Piece),
}

/// An input made ready: all memory for its step is taken, and the bytes that the step sends are read. A contract
/// sees the plan and the write of the step.
#[derive(Drop)]
pub struct Ready {
    /// The plan is on the heap: it is large, and every call that hands it on would copy it.
    parts: Box<Parts>,
}

/// The plan of a step, and the step's write.
#[derive(Drop)]
pub(crate) struct Parts {
    pub plan: Plan,
    pub write: Write,
}

impl Model for Ready {
    ghost use Rattle.oc_keep.specs.ReadyView.{ReadyView};

    ghost Value = { ReadyView };

    ghost view = { λ r. record { plan = r.parts.value.plan; write = r.parts.value.write } };
}

impl Ready {
    /// A plan with its write.
    pub(crate) fn of(alloc: Global, plan: Plan, write: Write) -> Result<Ready, Memory>
        ensures { IfOk result (λ ready. ready ≡ record { plan = plan; write = write }) }
    {
        let parts = Box::new(alloc, Parts { plan, write })?;
        Ok(Ready { parts })
    }

    /// The plan, and its write.
    pub(crate) fn into_parts(self) -> Parts
        ensures { self ≡ record { plan = result.plan; write = result.write } }
    {
        Box::into_inner(self.parts)
    }

    /// The messages that the step will hand out.
    pub fn sends(&self) -> &[Message]
        ensures { result.now ≡ self.now.plan.sends }
    {
        self.parts.plan.sends()
    }

    /// The answer that the step will give.
    pub fn answer(&self) -> Answer
        ensures { result ≡ self.now.plan.answer }
    {
        self.parts.plan.answer()
    }

    /// Whether the step writes a frame: exactly where something durable changes.
    pub fn writes(&self) -> bool
        ensures { result ≡ is_written self.now.write }
    {
        match &self.parts.write {
            Write::Nothing => false,
            Write::Records(_) | Write::Content(_) => true,
        }
    }
}

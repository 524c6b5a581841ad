ghost use Rattle.std.specs.Prelude.{◌≡◌, ◌≤◌, IfOk, IfSome};
ghost use Rattle.oc_base.specs.Lawful.{IsNode};
ghost use Rattle.oc_base.specs.declared.limits.TheConstants.{LAST_SECOND, MAX_CHUNK_BYTES};
ghost use Rattle.oc_model.specs.Leases.{next_ended};
ghost use Rattle.oc_model.specs.Looking.{children};
ghost use Rattle.oc_model.specs.Selected.{selected};
ghost use Rattle.oc_step.specs.NodeView.{IsReached};
ghost use Rattle.oc_state.specs.Children.{told_children};
ghost use Rattle.oc_state.specs.Position.{position_of};
ghost use Rattle.oc_state.specs.Volatile.{volatile_of};

use crate::told::leave_out;
use oc_base::{Child, Memory, NodeId, Slots};
use oc_state::children::children;
use oc_state::{Durable, Position, Tries, Volatile};
use oc_updown::{ChangeLog, Leases, Measures, Table, select};
use std::alloc::Global;
use std::marker::Model;

/// A node before a step, lent to the step. Contracts see the model's control state.
#[derive(Drop)]
pub struct Before<'a> {
    pub id: NodeId,
    pub nodes: u32,
    pub chain: u32,
    /// The greatest number of bytes of a chunk.
    pub chunk: u32,
    /// The area of each node, by its number.
    pub areas: &'a [u8],
    pub durable: &'a Durable,
    pub volatile: Volatile,
    pub tries: &'a Tries,
    pub leases: &'a Leases,
    /// The rate that each child told last, by its number.
    pub rates: &'a Slots<u64>,
    /// The number of clients that each node was sent, by its number.
    pub counts: &'a Slots<u64>,
    pub alloc: Global,
}

impl<'a> Model for Before<'a> {
    ghost use Rattle.std.specs.Prelude.{◌≡◌};
    ghost use Rattle.oc_model.specs.Node.{Control};
    ghost use Rattle.oc_step.specs.NodeView.{IsReached, control_of};
    ghost use Rattle.oc_state.specs.Volatile.{soft_of};

    ghost Value = { Control };

    ghost view = { λ b. control_of b.id b.nodes b.chain b.chunk b.areas.now b.durable.now.kept (soft_of b.volatile b.tries.now) b.leases.now.ends b.rates.now.items b.counts.now.items };

    ghost invariant = { λ b. (b.durable.now.nodes ≡ b.nodes)
        × IsReached (control_of b.id b.nodes b.chain b.chunk b.areas.now b.durable.now.kept (soft_of b.volatile b.tries.now) b.leases.now.ends b.rates.now.items b.counts.now.items) };
}

impl Before<'_> {
    pub(crate) fn id(&self) -> NodeId
        ensures { result ≡ self.now.me }
    {
        self.id
    }

    /// The length of the chain: its members are the nodes from 1 to this one.
    pub(crate) fn chain(&self) -> u32
        ensures { result ≡ self.now.chain }
    {
        self.chain
    }

    /// The greatest number of bytes of a chunk.
    pub(crate) fn chunk(&self) -> u32
        ensures chunk { result ≡ self.now.chunk }
        ensures some { 1 ≤ result }
        ensures few { result ≤ MAX_CHUNK_BYTES }
    {
        self.chunk
    }

    pub(crate) fn alloc(&self) -> Global {
        self.alloc
    }

    pub(crate) fn position(&self) -> Position
        ensures position { result ≡ position_of self.now.kept }
        ensures reached { IsReached self.now }
    {
        self.durable.position()
    }

    pub(crate) fn volatile(&self) -> Volatile
        ensures volatile { result ≡ volatile_of self.now.soft }
        ensures clock { result.clock ≤ LAST_SECOND }
    {
        self.volatile
    }

    pub(crate) fn tries(&self) -> &Tries
        ensures { result.now ≡ self.now.soft.tries }
    {
        self.tries
    }

    /// The newest certificate of each node below that the node knows.
    pub(crate) fn table(&self) -> &Table
        ensures { result.now.entries ≡ self.now.kept.table }
    {
        self.durable.table()
    }

    /// The certificates for the parent.
    pub(crate) fn log(&self) -> &ChangeLog
        ensures { result.now.log ≡ self.now.kept.log }
    {
        self.durable.log()
    }

    /// The nodes above, nearest first.
    pub(crate) fn ancestors(&self) -> &[NodeId]
        ensures { result.now ≡ self.now.kept.ancestors }
    {
        self.durable.ancestors()
    }

    /// The reading of each peer.
    pub(crate) fn measures(&self) -> &Measures
        ensures { result.now.readings ≡ self.now.kept.measures }
    {
        self.durable.measures()
    }

    /// The leased children, ascending, with the rates that they told last.
    fn all_children(&self) -> Result<Vec<Child>, Memory>
        ensures { IfOk result (λ made. made.items ≡ told_children self.now.kept.table self.now.me self.now.rates) }
    {
        children(self.alloc, self.durable.table().rows(), self.id, self.rates)
    }

    /// The leased children without ancestors, ascending, with the rates that they told last.
    pub(crate) fn children(&self) -> Result<Vec<Child>, Memory>
        ensures { IfOk result (λ made. made.items ≡ children self.now) }
    {
        let all = self.all_children()?;
        leave_out(self.alloc, &all, self.ancestors())
    }

    /// The leased child with the least id past `after` whose lease has ended.
    pub(crate) fn next_ended(&self, after: u32, now: u64) -> Option<NodeId>
        ensures { result ≡ next_ended self.now.kept.table self.now.me self.now.leases after now }
    {
        self.leases
            .next_ended(self.durable.table(), self.id, after, now)
    }

    /// The node to which a client of this area is sent, if there is one.
    #[tactic(auto, using(crate::proofs::Servers::server_is_node))]
    pub(crate) fn select(&self, area: u8) -> Option<NodeId>
        ensures server { result ≡ selected self.now.kept.table self.now.me self.now.chain self.now.areas self.now.counts area }
        ensures fits { IfSome result (λ node. IsNode self.now.nodes node) }
    {
        select(
            self.durable.table(),
            self.id,
            self.chain,
            self.areas,
            self.counts,
            area,
        )
    }
}

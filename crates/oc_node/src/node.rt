ghost use Rattle.std.specs.Prelude.{◌≡◌, ◌+◌, ◌<◌, ◌≤◌, ◌⊎◌, None, Some, [], length, IfOk, IfSome, OnOk, OnErr};
ghost use Rattle.std.specs.List.{AllByRecursion};
ghost use Rattle.oc_base.specs.Shelves.{IsShelf};
ghost use Rattle.oc_laws_step.specs.Frames.{FitsFrame};
ghost use Rattle.oc_model.specs.declared.input.Input.{Input};
ghost use Rattle.oc_model.specs.declared.want.Want.{Want};
ghost use Rattle.oc_model.specs.Lawful.{AreRecords, IsHeader, IsInput};
ghost use Rattle.oc_model.specs.Records.{folded};
ghost use Rattle.oc_model.specs.Snapshot.{snapshot};
ghost use Rattle.oc_model.specs.Step.{plan, step};
ghost use Rattle.oc_node.specs.Areas.{with_areas};
ghost use Rattle.oc_node.specs.Planning.{IsPlanFor};
ghost use Rattle.oc_state.specs.DurableView.{brought_by};
ghost use Rattle.oc_step.specs.Applying.{CanApply, IsStepOf};
ghost use Rattle.oc_step.specs.Planned.{IsWanting, control_after, planned};
ghost use Rattle.oc_state.specs.ListUpdates.{IsListUpdate};
ghost use Rattle.oc_base.specs.Lawful.{IsCount, IsNode};
ghost use Rattle.oc_base.specs.declared.limits.TheConstants.{MAX_AREA, MAX_BASE_ACKED, MAX_LOG_LENGTH};
ghost use Rattle.oc_model.specs.Node.{new_control, new_durable, Durable as State, Node as Whole};
ghost use Rattle.oc_model.specs.Looking.{parent_of};
ghost use Rattle.oc_step.specs.NodeView.{IsReached};
ghost use Rattle.oc_state.specs.Position.{position_of};

use crate::outcome::Outcome;
use crate::step::take;
use oc_base::{Memory, NodeId, Rank, Shelf, Slots};
use oc_model::{Input, Mode, Record};
use oc_state::modes::parent_of;
use oc_state::{Durable, Position, Tries, Volatile, reserve_lists, update_all};
use oc_step::{Before, Changes, Plan, Step};
use oc_updown::{ChangeLog, Leases, Measures, Table};
use std::alloc::Global;
use std::marker::Model;

/// One node, except for its content. Contracts see the model's control state, the room in the change log in
/// certificates, and the number of nodes for which the lists have memory.
#[derive(Drop)]
pub struct Node {
    id: NodeId,
    nodes: u32,
    chain: u32,
    /// The greatest number of bytes of a chunk that the node sends.
    chunk: u32,
    /// The area of each node, by its number.
    areas: Vec<u8>,
    durable: Durable,
    volatile: Volatile,
    tries: Tries,
    leases: Leases,
    /// The rate that each child told last, by its number.
    rates: Slots<u64>,
    /// The number of clients that each node was sent, by its number.
    counts: Slots<u64>,
    alloc: Global,
}

impl Model for Node {
    ghost use Rattle.std.specs.Prelude.{◌≡◌};
    ghost use Rattle.oc_model.specs.Node.{Control};
    ghost use Rattle.oc_step.specs.NodeView.{NodeView, IsReached, control_of};
    ghost use Rattle.oc_state.specs.Volatile.{soft_of};

    ghost Value = { NodeView };

    ghost view = { λ n. record {
      control = control_of n.id n.nodes n.chain n.chunk n.areas.items n.durable.kept (soft_of n.volatile n.tries) n.leases.ends n.rates.items n.counts.items;
      room = n.durable.room;
      lists = record { leases = n.leases.room; rates = n.rates.room; counts = n.counts.room };
    } };

    ghost invariant = { λ n. (n.durable.nodes ≡ n.nodes)
        × IsReached (control_of n.id n.nodes n.chain n.chunk n.areas.items n.durable.kept (soft_of n.volatile n.tries) n.leases.ends n.rates.items n.counts.items) };
}

impl Node {
    /// A new node, without knowledge of others: its id, the number of nodes, the length of the chain, the
    /// greatest number of bytes of a chunk, and the area of each node, by its number.
    #[tactic(auto, using(crate::proofs::Reaching::reached_new))]
    pub fn new(
        alloc: Global,
        me: NodeId,
        nodes: u32,
        chain: u32,
        chunk: u32,
        areas: Vec<u8>,
    ) -> Result<Node, Memory>
        requires header { IsHeader (record { nodes = nodes; chain = chain; chunk = chunk; areas = areas.items }) }
        requires me { IsNode nodes me }
        ensures { IfOk result (λ made. made.control ≡ new_control (record { nodes = nodes; chain = chain; chunk = chunk; areas = areas.items }) me) }
    {
        let leases = Leases::new(alloc, nodes)?;
        let rates = Slots::new(alloc, nodes as usize, 0)?;
        let counts = Slots::new(alloc, nodes as usize, 0)?;
        let durable = Durable::new(alloc, nodes)?;
        Ok(Node {
            id: me,
            nodes,
            chain,
            chunk,
            areas,
            durable,
            volatile: Volatile::new(),
            tries: Tries::none(alloc),
            leases,
            rates,
            counts,
            alloc,
        })
    }

    /// Recovers a new node from its records, in the order of its control file. If memory runs out, the node
    /// stays new.
    #[tactic(auto, using(crate::proofs::Reaching::reached_kept))]
    pub fn recover(&mut self, list: &[Record]) -> Result<(), Memory>
        requires new { self.old.control.kept ≡ new_durable self.old.control.nodes }
        requires lawful { AreRecords self.old.control.nodes list.now }
        ensures ok { OnOk result (self.new.control ≡ record self.old.control { kept = folded self.old.control.kept list.now }) }
        ensures length { OnOk result (self.new.control.kept.log.length ≤ MAX_BASE_ACKED + length list.now) }
        ensures err { OnErr result (self.new ≡ self.old) }
    {
        self.durable.recover(list)?;
        Ok(())
    }

    /// Goes by these areas of the nodes from now on.
    pub fn set_areas(&mut self, areas: Vec<u8>)
        requires many { length areas.items ≡ self.old.control.nodes }
        requires bytes { AllByRecursion (λ a. a ≤ MAX_AREA) areas.items }
        ensures { self.new ≡ record self.old { control = with_areas areas.items self.old.control } }
    {
        self.areas = areas;
    }

    /// Makes the plan of the step for this input, with the shelf of the groups that the node holds. It takes
    /// all memory of the step, and changes nothing but the room.
    ///
    /// The plan is the control step of the model, and after `fill` the whole step. Its records fit one frame,
    /// and give the durable state after the step. It writes records or keeps content, never both.
    pub fn plan(&mut self, input: &Input, shelf: &[Shelf]) -> Result<Plan, Memory>
        requires input { IsInput self.old.control.nodes self.old.control.me input.now }
        requires shelf { IsShelf shelf.now }
        requires log { self.old.control.kept.log.length ≤ MAX_LOG_LENGTH }
        ensures made { IfOk result (λ made. IsPlanFor self.old self.new shelf.now input.now made) }
        ensures node { self.new.control ≡ self.old.control }
    {
        let plan = self.make_plan(input, shelf)?;
        reserve_for(
            &plan,
            &mut self.durable,
            &mut self.leases,
            &mut self.rates,
            &mut self.counts,
        )?;
        Ok(plan)
    }

    /// Makes the plan, without room for it.
    fn make_plan(&self, input: &Input, shelf: &[Shelf]) -> Result<Plan, Memory>
        requires input { IsInput self.now.control.nodes self.now.control.me input.now }
        requires shelf { IsShelf shelf.now }
        ensures plan { IfOk result (λ made. planned self.now.control made ≡ plan self.now.control shelf.now input.now) }
        ensures updates { IfOk result (λ made. AllByRecursion (IsListUpdate self.now.control.nodes) made.updates) }
        ensures room { IfOk result (λ made. IfSome made.wants (λ w. w.count ≤ made.room)) }
    {
        let mut step = Step::of(self.lend());
        take(&mut step, shelf, input)?;
        Ok(step.done())
    }

    /// The node, lent to a step.
    fn lend(&self) -> Before<'_>
        ensures { result ≡ self.now.control }
    {
        Before {
            id: self.id,
            nodes: self.nodes,
            chain: self.chain,
            chunk: self.chunk,
            areas: &self.areas,
            durable: &self.durable,
            volatile: self.volatile,
            tries: &self.tries,
            leases: &self.leases,
            rates: &self.rates,
            counts: &self.counts,
            alloc: self.alloc,
        }
    }

    /// Applies a plan, and gives its answer and its messages. The plan must be one of this node in its present
    /// state. Takes no memory.
    pub fn apply(&mut self, plan: Plan) -> Outcome
        requires { CanApply self.old plan }
        ensures control { self.new.control ≡ control_after self.old.control plan }
        ensures outcome { result ≡ record { answer = plan.answer; sends = plan.sends } }
        ensures step { (n : Whole) (i : Input) → n.control ≡ self.old.control → IsStepOf n i plan → (self.new.control ≡ (step n i).node.control) × (result ≡ record { answer = (step n i).answer; sends = (step n i).sends }) }
    {
        let Changes {
            records,
            volatile,
            tries,
            taken,
            updates,
            sends,
            answer,
        } = plan.into_changes();
        update_all(
            &updates,
            self.durable.table(),
            self.id,
            &mut self.leases,
            &mut self.rates,
            &mut self.counts,
        );
        self.durable.fold_all(records);
        self.volatile = volatile;
        self.tries.step(tries, taken);
        Outcome { answer, sends }
    }

    /// The snapshot of the durable state, with this running number: records that give the state, whatever was
    /// before them. They are lawful if the log is no longer than a base may be.
    pub fn snapshot(&self, generation: u64) -> Result<Vec<Record>, Memory>
        ensures snapshot { IfOk result (λ list. list.items ≡ snapshot generation self.now.control.kept) }
        ensures stands { IfOk result (λ list. (any : State) → length any.measures ≡ self.now.control.nodes → folded any list.items ≡ self.now.control.kept) }
        ensures lawful { IfOk result (λ list. IsCount generation → self.now.control.kept.log.length ≤ MAX_BASE_ACKED → AreRecords self.now.control.nodes list.items) }
    {
        self.durable.snapshot(self.alloc, generation)
    }

    /// The node's own id.
    pub fn id(&self) -> NodeId
        ensures { result ≡ self.now.control.me }
    {
        self.id
    }

    /// The number of nodes.
    pub fn nodes(&self) -> u32
        ensures nodes { result ≡ self.now.control.nodes }
        ensures reached { IsReached self.now.control }
    {
        self.nodes
    }

    /// The length of the chain: its members are the nodes from 1 to this one.
    pub fn chain(&self) -> u32
        ensures { result ≡ self.now.control.chain }
    {
        self.chain
    }

    /// The greatest number of bytes of a chunk that the node sends.
    pub fn chunk(&self) -> u32
        ensures { result ≡ self.now.control.chunk }
    {
        self.chunk
    }

    /// The area of each node, by its number.
    pub fn areas(&self) -> &[u8]
        ensures { result.now ≡ self.now.control.areas }
    {
        &self.areas
    }

    /// The second at which the lease of each child ends, by its number, if it is set.
    pub fn lease_ends(&self) -> &Slots<Option<u64>>
        ensures { result.now.items ≡ self.now.control.leases }
    {
        self.leases.ends()
    }

    /// The rate that each child told last, by its number.
    pub fn rates(&self) -> &Slots<u64>
        ensures { result.now.items ≡ self.now.control.rates }
    {
        &self.rates
    }

    /// The reading of each peer.
    pub fn measures(&self) -> &Measures
        ensures { result.now.readings ≡ self.now.control.kept.measures }
    {
        self.durable.measures()
    }

    /// The parent, if the node is joined.
    pub fn parent(&self) -> Option<NodeId>
        ensures { result ≡ parent_of self.now.control.kept.mode }
    {
        parent_of(self.mode())
    }

    /// The position of the node in the tree.
    pub fn mode(&self) -> Mode
        ensures { result ≡ self.now.control.kept.mode }
    {
        self.position().mode
    }

    /// The number of the last ask, 0 if there was none.
    pub fn seq(&self) -> u64
        ensures { result ≡ self.now.control.kept.seq }
    {
        self.position().seq
    }

    /// The node's rank, if it has ever been in the tree.
    pub fn rank(&self) -> Option<Rank>
        ensures { result ≡ self.now.control.kept.rank }
    {
        self.position().rank
    }

    /// The node's own number.
    pub fn number(&self) -> u64
        ensures { result ≡ self.now.control.kept.number }
    {
        self.position().number
    }

    /// The number of clients in the node's own count.
    pub fn clients(&self) -> u64
        ensures { result ≡ self.now.control.kept.clients }
    {
        self.position().clients
    }

    /// The newest certificate of each node below that the node knows.
    pub fn table(&self) -> &Table
        ensures nodes { result.now.nodes ≡ self.now.control.nodes }
        ensures entries { result.now.entries ≡ self.now.control.kept.table }
    {
        self.durable.table()
    }

    /// The certificates for the parent.
    pub fn log(&self) -> &ChangeLog
        ensures nodes { result.now.nodes ≡ self.now.control.nodes }
        ensures log { result.now.log ≡ self.now.control.kept.log }
    {
        self.durable.log()
    }

    /// The nodes above, nearest first, at most 1,000.
    pub fn ancestors(&self) -> &[NodeId]
        ensures { result.now ≡ self.now.control.kept.ancestors }
    {
        self.durable.ancestors()
    }

    /// The time in seconds, which is that of the last tick.
    pub fn now(&self) -> u64
        ensures { result ≡ self.now.control.soft.clock }
    {
        self.volatile.clock
    }

    fn position(&self) -> Position
        ensures { result ≡ position_of self.now.control.kept }
    {
        self.durable.position()
    }
}

/// Takes the memory for the changes of a plan in these parts of the node.
fn reserve_for(
    plan: &Plan,
    durable: &mut Durable,
    leases: &mut Leases,
    rates: &mut Slots<u64>,
    counts: &mut Slots<u64>,
) -> Result<(), Memory>
    ensures records { OnOk result (length durable.new.kept.log.waiting + (length durable.new.kept.table + brought_by plan.now.records) ≤ durable.new.room) }
    ensures kept { durable.new.kept ≡ durable.old.kept }
    ensures nodes { durable.new.nodes ≡ durable.old.nodes }
    ensures ends { leases.new.ends ≡ leases.old.ends }
    ensures rates { rates.new.items ≡ rates.old.items }
    ensures counts { counts.new.items ≡ counts.old.items }
    ensures leases_room { OnOk result (0 < length plan.now.updates → length leases.new.ends ≤ leases.new.room) }
    ensures rates_room { OnOk result (0 < length plan.now.updates → length rates.new.items ≤ rates.new.room) }
    ensures counts_room { OnOk result (0 < length plan.now.updates → length counts.new.items ≤ counts.new.room) }
{
    reserve_lists(plan.updates(), leases, rates, counts)?;
    durable.reserve(plan.records())
}

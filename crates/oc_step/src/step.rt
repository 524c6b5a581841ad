ghost use Rattle.std.specs.Prelude.{◌≡◌, ◌≤◌, ◌<◌, ◌^◌, [], true, vec_len, IsTrue, OnOk, IfOk, IfSome, IfNone, drop};
ghost use Rattle.oc_model.specs.Plan.{begun, write, send, answers, ignored, with_soft, searching, is_member, rate_to};
ghost use Rattle.oc_model.specs.Adoption.{chain_child};
ghost use Rattle.std.specs.List.{AllByRecursion};
ghost use Rattle.oc_base.specs.Lawful.{IsNode};
ghost use Rattle.oc_base.specs.declared.limits.TheConstants.{LAST_SECOND, MAX_CHECK_IN_CERTS, MAX_CHUNK_BYTES};
ghost use Rattle.oc_model.specs.ChangeLog.{next_certs, is_ahead, waits};
ghost use Rattle.oc_model.specs.Content.{keeps};
ghost use Rattle.oc_model.specs.Leases.{next_ended};
ghost use Rattle.oc_model.specs.Looking.{children};
ghost use Rattle.oc_model.specs.Records.{is_joined};
ghost use Rattle.oc_model.specs.Serving.{server_for};
ghost use Rattle.oc_model.specs.Measures.{reading_of};
ghost use Rattle.oc_model.specs.Table.{newest, is_news};
ghost use Rattle.oc_model.specs.Asking.{set_tries};
ghost use Rattle.oc_step.specs.StepView.{StepView, goes, with_tries, updates};
ghost use Rattle.oc_step.specs.NodeView.{IsReached};
ghost use Rattle.oc_step.specs.Planned.{planned};
ghost use Rattle.oc_step.specs.Since.{AreTold};
ghost use Rattle.oc_state.specs.Position.{position_of};
ghost use Rattle.oc_state.specs.ListUpdates.{IsListUpdate};
ghost use Rattle.oc_model.specs.Numbers.{first_of};
ghost use Rattle.oc_state.specs.Volatile.{soft_of, volatile_of};

use crate::before::Before;
use crate::next_certs::{has_waiting, have_certs, push_certs};
use crate::plan::Plan;
use crate::since::{ancestors_since, entry_since, is_news_to};
use oc_base::{Cert, Child, IdList, MAX_CHECK_IN_CERTS, Memory, NodeId};
use oc_model::{Answer, Body, Message, Record, Search, Want};
use oc_place::ask_order;
use oc_state::children::chain_child;
use oc_state::{ListUpdate, Position, Volatile};
use std::alloc::Global;
use std::marker::Model;

/// A step under way. A rule leads it on; the node itself is only read.
///
/// Contracts see the node before the step, and the model's step under way.
#[derive(Drop)]
pub struct Step<'a> {
    node: Before<'a>,
    /// The small durable parts of the node, after the records so far.
    position: Position,
    plan: Plan,
}

impl<'a> Model for Step<'a> {
    ghost use Rattle.std.specs.Prelude.{◌≡◌, ◌≤◌, IfSome};
    ghost use Rattle.std.specs.List.{AllByRecursion};
    ghost use Rattle.oc_base.specs.declared.limits.TheConstants.{LAST_SECOND};
    ghost use Rattle.oc_model.specs.Records.{folded};
    ghost use Rattle.oc_step.specs.StepView.{StepView};
    ghost use Rattle.oc_step.specs.Planned.{planned};
    ghost use Rattle.oc_state.specs.Position.{position_of};
    ghost use Rattle.oc_state.specs.ListUpdates.{IsListUpdate};

    ghost Value = { StepView };

    ghost view = { λ d. record { base = d.node; plan = planned d.node d.plan } };

    ghost invariant = { λ d. (d.position ≡ position_of (folded d.node.kept d.plan.records))
        × (d.plan.volatile.clock ≤ LAST_SECOND)
        × AllByRecursion (IsListUpdate d.node.nodes) d.plan.updates
        × IfSome d.plan.wants (λ w. w.count ≤ d.plan.room) };
}

impl<'a> Step<'a> {
    /// The step before its first rule.
    pub fn of(node: Before<'a>) -> Step<'a>
        ensures reached { IsReached result.base }
        ensures base { result.base ≡ node.entry }
        ensures plan { result.plan ≡ begun node.entry }
    {
        let position = node.position();
        let plan = Plan::new(node.alloc(), node.volatile());
        Step {
            node,
            position,
            plan,
        }
    }

    pub fn alloc(&self) -> Global {
        self.node.alloc()
    }

    pub fn id(&self) -> NodeId
        ensures id { result ≡ self.now.plan.node.me }
        ensures base { self.now.plan.node.me ≡ self.now.base.me }
    {
        self.node.id()
    }

    pub fn chain(&self) -> u32
        ensures { result ≡ self.now.plan.node.chain }
    {
        self.node.chain()
    }

    /// The greatest number of bytes of a chunk that the node sends.
    pub fn chunk(&self) -> u32
        ensures chunk { result ≡ self.now.plan.node.chunk }
        ensures some { 1 ≤ result }
        ensures few { result ≤ MAX_CHUNK_BYTES }
    {
        self.node.chunk()
    }

    /// Whether the node is a member of the chain.
    pub fn is_member(&self) -> bool
        ensures { result ≡ is_member self.now.plan.node }
    {
        self.node.id().0 <= self.node.chain()
    }

    pub fn position(&self) -> Position
        ensures { result ≡ position_of self.now.plan.node.kept }
    {
        self.position
    }

    pub fn volatile(&self) -> Volatile
        ensures volatile { result ≡ volatile_of self.now.plan.node.soft }
        ensures clock { result.clock ≤ LAST_SECOND }
    {
        self.plan.volatile()
    }

    /// The nodes above, nearest first, after the records so far.
    #[tactic(auto, using(crate::proofs::Folded::ancestors_folded))]
    pub fn ancestors(&self) -> &[NodeId]
        ensures { result.now ≡ self.now.plan.node.kept.ancestors }
    {
        ancestors_since(self.node.ancestors(), self.plan.records())
    }

    /// A copy of the nodes above, nearest first.
    pub fn ancestor_list(&self) -> Result<IdList, Memory>
        ensures { IfOk result (λ ids. ids ≡ self.now.plan.node.kept.ancestors) }
    {
        Ok(IdList::of(self.ancestors().to_vec(self.alloc())?))
    }

    /// The table's entry of a node, after the records so far.
    #[tactic(auto, using(crate::proofs::Folded::entry_folded))]
    pub fn entry(&self, subject: NodeId) -> Option<Cert>
        ensures entry { result ≡ newest self.now.plan.node.kept.table subject }
        ensures fits { IfSome result (λ entry. entry.subject ≡ subject) }
    {
        entry_since(
            self.node.table().entry(subject),
            subject,
            self.plan.records(),
        )
    }

    /// Whether merging a certificate would change the table.
    pub fn is_news(&self, cert: &Cert) -> bool
        ensures { result ≡ is_news self.now.plan.node.kept.table cert.now }
    {
        is_news_to(&self.entry(cert.subject), cert)
    }

    /// The chain member with the least id that is a leased child, other than the asker.
    pub fn chain_child(&self, asker: NodeId) -> Option<NodeId>
        requires { self.now.plan.node.kept.table ≡ self.now.base.kept.table }
        ensures { result ≡ chain_child self.now.plan.node.kept.table self.now.plan.node.me self.now.plan.node.chain asker }
    {
        chain_child(self.node.table().rows(), self.id(), self.chain(), asker)
    }

    /// The leased children without ancestors, ascending, with the rates that they told last.
    pub fn children(&self) -> Result<Vec<Child>, Memory>
        requires { self.now.plan ≡ begun self.now.base }
        ensures { IfOk result (λ made. made.items ≡ children self.now.plan.node) }
    {
        self.node.children()
    }

    /// The reading of a peer: bytes per second, and hops.
    #[tactic(auto, using(crate::proofs::Folded::measures_told))]
    pub fn reading(&self, peer: NodeId) -> (u64, u8)
        requires { AreTold self.now.plan.records }
        ensures rate { result.0 ≡ (reading_of self.now.plan.node.kept.measures peer).rate }
        ensures hops { result.1 ≡ (reading_of self.now.plan.node.kept.measures peer).hops }
    {
        self.node.measures().get(peer)
    }

    /// The rate to a peer in bytes per second, 0 if it was not measured.
    pub fn rate_to(&self, peer: NodeId) -> u64
        requires { AreTold self.now.plan.records }
        ensures { result ≡ rate_to self.now.plan.node peer }
    {
        self.reading(peer).0
    }

    /// The certificates of the next check-in.
    pub fn next_certs(&self) -> Result<Vec<Cert>, Memory>
        requires told { AreTold self.now.plan.records }
        requires joined { is_joined self.now.plan.node.kept.mode ≡ true }
        ensures certs { IfOk result (λ certs. certs.items ≡ next_certs self.now.plan.node.kept.log) }
        ensures few { IfOk result (λ certs. vec_len certs ≤ MAX_CHECK_IN_CERTS) }
    {
        let mut certs = Vec::new(self.alloc());
        self.node.log().take(MAX_CHECK_IN_CERTS, &mut certs)?;
        push_certs(&mut certs, self.plan.records())?;
        Ok(certs)
    }

    /// Whether the log has waiting certificates.
    pub fn is_waiting(&self) -> bool
        requires told { AreTold self.now.plan.records }
        requires joined { is_joined self.now.plan.node.kept.mode ≡ true }
        ensures { result ≡ waits self.now.plan.node.kept.log.waiting }
    {
        has_waiting(self.node.log()) || have_certs(self.plan.records())
    }

    /// The number of acknowledged certificates of the log.
    #[tactic(auto, using(crate::proofs::Folded::acked_told))]
    pub fn acked(&self) -> u64
        requires { AreTold self.now.plan.records }
        ensures acked { result ≡ self.now.plan.node.kept.log.acked }
        ensures below { result < 2 ^ 63 }
    {
        self.node.log().acked()
    }

    /// Whether an acknowledgement up to this place is new.
    pub fn is_ahead(&self, upto: u64) -> bool
        requires { self.now.plan.node.kept.log ≡ self.now.base.kept.log }
        ensures { result ≡ is_ahead self.now.plan.node.kept.log upto }
    {
        let log = self.node.log();
        log.acked() < upto && upto <= log.length()
    }

    /// The leased child with the least id past `after` whose lease has ended, at the beginning of the step.
    pub fn next_ended(&self, after: u32, now: u64) -> Option<NodeId>
        ensures { result ≡ next_ended self.now.base.kept.table self.now.base.me self.now.base.leases after now }
    {
        self.node.next_ended(after, now)
    }

    /// The node to which a chain member sends a client of this area, if there is one.
    pub fn server_for(&self, area: u8) -> Option<NodeId>
        requires { self.now.plan ≡ begun self.now.base }
        ensures server { result ≡ server_for self.now.plan.node area }
        ensures fits { IfSome result (λ node. IsNode self.now.base.nodes node) }
    {
        if self.is_member() {
            self.node.select(area)
        } else {
            None
        }
    }

    /// Keeps the input's bytes in their group, from this offset on, and closes the group if `closes`.
    pub fn keep(&mut self, at: u64, closes: bool) -> Result<(), Memory>
        ensures { OnOk result (self.new ≡ goes self.old (keeps self.old.plan at closes)) }
    {
        self.plan.keep(at, closes);
        Ok(())
    }

    /// Wants these bytes for the chunk, if there are any.
    pub fn want(&mut self, wanted: Option<Want>) -> Result<(), Memory>
        ensures { OnOk result (self.new ≡ goes self.old (record self.old.plan { wants = wanted })) }
    {
        self.plan.want(wanted)
    }

    /// Makes a durable change: writes its record, and applies it.
    #[tactic(auto, using(crate::proofs::Steps::folded_more))]
    pub fn write(&mut self, change: Record) -> Result<(), Memory>
        ensures { OnOk result (self.new ≡ goes self.old (write self.old.plan change)) }
    {
        let position = self.position.after(&change);
        self.plan.write(change)?;
        self.position = position;
        Ok(())
    }

    /// Adds a message.
    pub fn send(&mut self, to: NodeId, body: Body) -> Result<(), Memory>
        ensures { OnOk result (self.new ≡ goes self.old (send self.old.plan to body)) }
    {
        let from = self.node.id();
        self.plan.send(Message { from, to, body })
    }

    /// Sets the answer. The result is always Ok: the call ends a rule that may run out of memory.
    pub fn answer(&mut self, answer: Answer) -> Result<(), Memory>
        ensures { OnOk result (self.new ≡ goes self.old (answers self.old.plan answer)) }
    {
        self.plan.set_answer(answer);
        Ok(())
    }

    /// Answers that the input changes nothing.
    pub fn ignore(&mut self) -> Result<(), Memory>
        ensures { OnOk result (self.new ≡ goes self.old (ignored self.old.plan)) }
    {
        self.answer(Answer::Ignored)
    }

    pub fn set_volatile(&mut self, volatile: Volatile)
        requires { volatile.clock ≤ LAST_SECOND }
        ensures { self.new ≡ goes self.old (with_soft self.old.plan (soft_of volatile self.old.plan.node.soft.tries)) }
    {
        self.plan.set_volatile(volatile);
    }

    /// Sets the node's search, or ends it.
    pub fn search(&mut self, search: Option<Search>)
        ensures { self.new ≡ goes self.old (searching self.old.plan search) }
    {
        let volatile = self.volatile();
        self.set_volatile(Volatile { search, ..volatile });
    }

    /// Changes one of the lists that have an item for each node.
    pub fn update(&mut self, update: ListUpdate) -> Result<(), Memory>
        requires { IsListUpdate self.old.base.nodes update }
        ensures { OnOk result (self.new ≡ goes self.old (updates self.old.base update self.old.plan)) }
    {
        if self.changes_nothing(&update) {
            return Ok(());
        }
        self.note_update(update)
    }

    /// Whether an update changes nothing: at a node without certificates no lease begins.
    #[tactic(auto, using(crate::proofs::Steps::none_start))]
    fn changes_nothing(&self, update: &ListUpdate) -> bool
        ensures { IsTrue result → updates self.now.base update.now self.now.plan ≡ self.now.plan }
    {
        match update {
            ListUpdate::Start { .. } => self.node.table().is_blank(),
            _ => false,
        }
    }

    /// Adds an update to the plan.
    #[tactic(auto, using(crate::proofs::Steps::leases_more, crate::proofs::Steps::rates_more, crate::proofs::Steps::counts_more, crate::proofs::Steps::updates_more))]
    fn note_update(&mut self, update: ListUpdate) -> Result<(), Memory>
        requires { IsListUpdate self.old.base.nodes update }
        ensures { OnOk result (self.new ≡ goes self.old (updates self.old.base update self.old.plan)) }
    {
        self.plan.update(update)
    }

    /// Sets the nodes still to be asked to those of a round, except for one; none of them has refused yet.
    pub fn set_tries(&mut self, without: Option<NodeId>) -> Result<(), Memory>
        ensures { OnOk result (self.new ≡ goes self.old (set_tries self.old.plan without)) }
    {
        let mut order = Vec::new(self.alloc());
        ask_order(
            self.id(),
            self.chain(),
            self.ancestors(),
            without,
            &mut order,
        )?;
        let volatile = self.volatile();
        self.plan.set_tries(IdList::of(order));
        self.set_volatile(Volatile {
            silent: true,
            ..volatile
        });
        Ok(())
    }

    /// Clears the nodes still to be asked.
    pub fn clear_tries(&mut self)
        ensures { self.new ≡ goes self.old (with_tries self.old.plan []) }
    {
        let alloc = self.alloc();
        self.plan.set_tries(IdList::of(Vec::new(alloc)));
    }

    /// Takes off the first of the nodes still to be asked.
    #[tactic(auto, using(oc_state::proofs::Lists::drop_one_more))]
    pub fn take_try(&mut self) -> Option<NodeId>
        ensures first { result ≡ first_of self.old.plan.node.soft.tries }
        ensures none { IfNone result (self.new ≡ self.old) }
        ensures taken { IfSome result (λ _. self.new ≡ goes self.old (with_tries self.old.plan (drop 1 self.old.plan.node.soft.tries))) }
    {
        self.plan.take_try(self.node.tries())
    }

    /// The plan of this step, which is done.
    pub fn done(self) -> Plan
        ensures plan { planned self.entry.base result ≡ self.entry.plan }
        ensures updates { AllByRecursion (IsListUpdate self.entry.base.nodes) result.updates }
        ensures room { IfSome result.wants (λ w. w.count ≤ result.room) }
    {
        self.plan
    }
}

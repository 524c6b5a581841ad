ghost use Rattle.std.specs.Prelude.{◌≡◌, OnOk};
ghost use Rattle.oc_base.specs.Lawful.{IsNode};
ghost use Rattle.oc_model.specs.Adopting.{raises, raises_over, host, birth, has_lease, grants, sends_rejoin, adopts, asked_at, asked};
ghost use Rattle.oc_model.specs.Adoption.{adoption_refusal};
ghost use Rattle.oc_model.specs.Leases.{renew};
ghost use Rattle.oc_model.specs.Plan.{with_leases};
ghost use Rattle.oc_step.specs.StepView.{goes};

use oc_base::{Cert, Memory, NodeId, Rank, Refusal};
use oc_model::{Body, Record};
use oc_place::{Host, may_adopt, raise};
use oc_state::ListUpdate;
use oc_state::modes::in_tree;
use oc_state::ranks::rank_or_last;
use oc_step::Step;

// Rule 7, answer an ask.

/// The certificate of a granted lease: the ask of the child went to this parent, and the lease lives.
fn birth(child: NodeId, seq: u64, parent: NodeId) -> Cert
    ensures { result ≡ birth child seq parent }
{
    Cert {
        subject: child,
        seq,
        parent,
        dead: false,
        number: 0,
        clients: 0,
    }
}

/// Raises the epoch to this one, if there is one.
pub fn set_epoch(step: &mut Step, epoch: Option<u64>) -> Result<(), Memory>
    ensures { OnOk result (step.new ≡ goes step.old (raises step.old.plan epoch)) }
{
    match epoch {
        Some(epoch) => step.write(Record::Epoch { epoch }),
        None => Ok(()),
    }
}

/// Raises the epoch of an acting node above the asker's, if the node's rank does not precede it.
fn raise_over(step: &mut Step, asker: NodeId, rank: Rank) -> Result<(), Memory>
    ensures { OnOk result (step.new ≡ goes step.old (raises_over step.old.plan asker rank)) }
{
    let position = step.position();
    let own = rank_or_last(position.rank);
    if position.mode.is_acting() && !own.precedes(rank) && asker != step.id() {
        set_epoch(step, raise(rank.epoch))
    } else {
        Ok(())
    }
}

/// The reason why the node refuses this asker, if it does.
fn refusal(step: &Step, asker: NodeId, rank: Option<Rank>) -> Option<Refusal>
    requires { step.now.plan.node.kept.table ≡ step.now.base.kept.table }
    ensures { result ≡ adoption_refusal (host step.now.plan.node asker) asker rank }
{
    let position = step.position();
    let host = Host {
        id: step.id(),
        in_tree: in_tree(position.mode),
        rank: rank_or_last(position.rank),
        ancestors: step.ancestors(),
        chain: step.chain(),
        chain_child: step.chain_child(asker),
    };
    may_adopt(&host, asker, rank).err()
}

/// Whether a node has a lease of this one at that ask number.
pub fn has_lease(step: &Step, child: NodeId, seq: u64) -> bool
    ensures { result ≡ has_lease step.now.plan.node child seq }
{
    match step.entry(child) {
        Some(cert) => !cert.dead && cert.parent == step.id() && cert.seq == seq,
        None => false,
    }
}

/// Renews the lease of a child.
fn renew(step: &mut Step, child: NodeId) -> Result<(), Memory>
    requires { IsNode step.old.base.nodes child }
    ensures { OnOk result (step.new ≡ goes step.old (with_leases step.old.plan (renew step.old.plan.node.leases child step.old.plan.node.soft.clock))) }
{
    let now = step.volatile().clock;
    step.update(ListUpdate::Renew { child, now })
}

/// Accepts a node as a child, whose lease begins anew.
fn grant(step: &mut Step, child: NodeId, seq: u64) -> Result<(), Memory>
    requires { IsNode step.old.base.nodes child }
    ensures { OnOk result (step.new ≡ goes step.old (grants step.old.plan child seq)) }
{
    renew(step, child)?;
    let rank = rank_or_last(step.position().rank);
    let ancestors = step.ancestor_list()?;
    step.send(
        child,
        Body::Yes {
            seq,
            rank,
            ancestors,
        },
    )
}

/// Tells a node to ask anew, since it has no lease at that ask number.
pub fn send_rejoin(step: &mut Step, child: NodeId, seq: u64) -> Result<(), Memory>
    ensures { OnOk result (step.new ≡ goes step.old (sends_rejoin step.old.plan child seq)) }
{
    step.send(child, Body::Rejoin { seq })
}

/// Accepts a node as a child, or tells it to ask anew if the table has a later word on it.
fn adopt(step: &mut Step, child: NodeId, seq: u64) -> Result<(), Memory>
    requires { IsNode step.old.base.nodes child }
    ensures { OnOk result (step.new ≡ goes step.old (adopts step.old.plan child seq)) }
{
    let cert = birth(child, seq, step.id());
    if has_lease(step, child, seq) {
        grant(step, child, seq)
    } else if step.is_news(&cert) {
        step.write(Record::Entry { cert })?;
        grant(step, child, seq)
    } else {
        send_rejoin(step, child, seq)
    }
}

fn asked_at(step: &mut Step, asker: NodeId, seq: u64, rank: Option<Rank>) -> Result<(), Memory>
    requires asker { IsNode step.old.base.nodes asker }
    requires table { step.old.plan.node.kept.table ≡ step.old.base.kept.table }
    ensures { OnOk result (step.new ≡ goes step.old (asked_at step.old.plan asker seq rank)) }
{
    match refusal(step, asker, rank) {
        Some(why) => step.send(asker, Body::No { seq, why }),
        None => adopt(step, asker, seq),
    }
}

/// Rule 7, answer an ask: accepts or refuses a node with this rank.
#[tactic(auto, using(crate::proofs::Leaving::raised_table))]
pub fn asked(step: &mut Step, asker: NodeId, seq: u64, rank: Option<Rank>) -> Result<(), Memory>
    requires asker { IsNode step.old.base.nodes asker }
    requires table { step.old.plan.node.kept.table ≡ step.old.base.kept.table }
    ensures { OnOk result (step.new ≡ goes step.old (asked step.old.plan asker seq rank)) }
{
    raise_over(step, asker, rank_or_last(rank))?;
    asked_at(step, asker, seq, rank)
}

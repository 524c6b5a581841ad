ghost use Rattle.std.specs.Prelude.{◌≡◌, OnOk};
ghost use Rattle.oc_base.specs.Lawful.{IsNode};
ghost use Rattle.oc_model.specs.Checking.{merges_all, acknowledges, checked_in, takes_place, takes_rank, takes_rank_unless, takes_ancestors, took_ack, took_rejoin};
ghost use Rattle.oc_step.specs.StepView.{goes};

use crate::adopting::{has_lease, send_rejoin};
use crate::asking::ask_before;
use crate::check_in::CheckIn;
use crate::checking::merge;
use oc_base::{Cert, IdList, Memory, NodeId, Rank};
use oc_model::{Body, Record};
use oc_state::ListUpdate;
use oc_state::modes::is_peer;
use oc_state::ranks::{ancestors_by, better_rank, rank_or_last};
use oc_step::Step;

// Rule 13, check-ins: the acknowledgement of a check-in at the parent, and its effect at the child.

fn merge_all(step: &mut Step, certs: &[Cert]) -> Result<(), Memory>
    ensures { OnOk result (step.new ≡ goes step.old (merges_all certs.now step.old.plan)) }
{
    for cert in certs {
        merge(step, cert)?;
    }
    Ok(())
}

/// Renews the lease of a child, keeps its rate, and acknowledges its check-in.
fn acknowledge(step: &mut Step, child: NodeId, seq: u64, upto: u64, rate: u64) -> Result<(), Memory>
    requires { IsNode step.old.base.nodes child }
    ensures { OnOk result (step.new ≡ goes step.old (acknowledges step.old.plan child seq upto rate)) }
{
    let now = step.volatile().clock;
    step.update(ListUpdate::Renew { child, now })?;
    step.update(ListUpdate::Tell { child, rate })?;
    let rank = rank_or_last(step.position().rank);
    let ancestors = step.ancestor_list()?;
    step.send(
        child,
        Body::CheckAck {
            seq,
            upto,
            rank,
            ancestors,
        },
    )
}

/// Rule 13, check-ins: merges the news of a child with a lease at that ask number, and acknowledges; tells any other
/// node to ask anew.
pub fn checked_in(step: &mut Step, child: NodeId, told: &CheckIn) -> Result<(), Memory>
    requires { IsNode step.old.base.nodes child }
    ensures { OnOk result (step.new ≡ goes step.old (checked_in step.old.plan child told.now.seq told.now.upto
        told.now.rate told.now.number told.now.clients told.now.certs.now)) }
{
    if has_lease(step, child, told.seq) {
        let life = Cert {
            subject: child,
            seq: told.seq,
            parent: step.id(),
            dead: false,
            number: told.number,
            clients: told.clients,
        };
        merge(step, &life)?;
        merge_all(step, told.certs)?;
        acknowledge(step, child, told.seq, told.upto, told.rate)
    } else {
        send_rejoin(step, child, told.seq)
    }
}

fn take_place(step: &mut Step, upto: u64) -> Result<(), Memory>
    requires { step.old.plan.node.kept.log ≡ step.old.base.kept.log }
    ensures { OnOk result (step.new ≡ goes step.old (takes_place step.old.plan upto)) }
{
    if step.is_ahead(upto) {
        step.write(Record::Acked { upto })
    } else {
        Ok(())
    }
}

#[tactic(auto, using(crate::proofs::ByMode::rank_taken, crate::proofs::ByMode::rank_left))]
fn take_rank(step: &mut Step, told: Rank) -> Result<(), Memory>
    ensures { OnOk result (step.new ≡ goes step.old (takes_rank step.old.plan told)) }
{
    match better_rank(step.position().rank, told) {
        Some(rank) => step.write(Record::Ranked { rank }),
        None => Ok(()),
    }
}

/// Takes the rank beneath the told one, except while the node wishes for another place: a sibling's rank has to
/// precede its own when it asks there.
fn take_rank_unless(step: &mut Step, wish: Option<NodeId>, told: Rank) -> Result<(), Memory>
    ensures { OnOk result (step.new ≡ goes step.old (takes_rank_unless wish step.old.plan told)) }
{
    match wish {
        Some(_) => Ok(()),
        None => take_rank(step, told),
    }
}

#[tactic(auto, using(crate::proofs::SameIds::same_ids_is))]
fn take_ancestors(step: &mut Step, ids: IdList) -> Result<(), Memory>
    ensures { OnOk result (step.new ≡ goes step.old (takes_ancestors step.old.plan ids)) }
{
    if ids.items() == step.ancestors() {
        Ok(())
    } else {
        step.write(Record::Ancestors { ids })
    }
}

/// Rule 13, check-ins, at the child: takes an acknowledgement of its parent.
pub fn took_ack(
    step: &mut Step,
    from: NodeId,
    seq: u64,
    upto: u64,
    told: Rank,
    above: &[NodeId],
) -> Result<(), Memory>
    requires { step.old.plan.node.kept.log ≡ step.old.base.kept.log }
    ensures { OnOk result (step.new ≡ goes step.old (took_ack step.old.plan from seq upto told above.now)) }
{
    let position = step.position();
    if position.mode.is_joined_to(from) && seq == position.seq {
        let wish = step.volatile().wish;
        take_place(step, upto)?;
        take_rank_unless(step, wish, told)?;
        let ids = ancestors_by(step.alloc(), from, above)?;
        take_ancestors(step, ids)
    } else {
        step.ignore()
    }
}

/// Rule 13, check-ins, at the child: asks its parent anew, which has no lease at that ask number.
pub fn took_rejoin(step: &mut Step, from: NodeId, seq: u64) -> Result<(), Memory>
    ensures { OnOk result (step.new ≡ goes step.old (took_rejoin step.old.plan from seq)) }
{
    let position = step.position();
    if is_peer(position.mode, from) && seq == position.seq {
        ask_before(step, from)
    } else {
        step.ignore()
    }
}

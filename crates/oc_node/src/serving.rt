ghost use Rattle.std.specs.Prelude.{◌≡◌, IfSome, OnOk};
ghost use Rattle.oc_base.specs.Lawful.{IsNode};
ghost use Rattle.oc_model.specs.Plan.{begun};
ghost use Rattle.oc_model.specs.Serving.{redirects, client, may_move, measured};
ghost use Rattle.oc_step.specs.StepView.{goes};
ghost use Rattle.oc_step.specs.Since.{AreTold};

use oc_base::{GroupName, Memory, NodeId, Shelf};
use oc_model::{Answer, Record};
use oc_state::shelves::line_of;
use oc_state::{ListUpdate, Volatile};
use oc_step::Step;

// Rules 15 (client) and 16 (measured).

/// Sends a client to another node, or else serves this number of bytes itself and counts the client.
fn redirect(step: &mut Step, to: Option<NodeId>, count: u64) -> Result<(), Memory>
    requires { IfSome to (λ node. IsNode step.old.base.nodes node) }
    ensures { OnOk result (step.new ≡ goes step.old (redirects to step.old.plan count)) }
{
    match to {
        Some(node) => {
            step.update(ListUpdate::Redirect { node })?;
            step.answer(Answer::Redirect(node))
        }
        None => {
            let volatile = step.volatile();
            let served = volatile.served.saturating_add(1);
            step.set_volatile(Volatile { served, ..volatile });
            step.answer(Answer::Serve(count))
        }
    }
}

/// Rule 15, client: a client of this area asks for a group from a byte on.
pub fn client(
    step: &mut Step,
    shelf: &[Shelf],
    area: u8,
    start: u64,
    group: &GroupName,
) -> Result<(), Memory>
    requires { step.old.plan ≡ begun step.old.base }
    ensures { OnOk result (step.new ≡ goes step.old (client step.old.plan shelf.now area start group.now)) }
{
    match line_of(shelf, group) {
        Some(line) => {
            let node = step.server_for(area);
            redirect(step, node, line.held.saturating_sub(start))
        }
        None => step.answer(Answer::NoGroup),
    }
}

/// Lets reviews move the node again.
fn may_move(step: &mut Step)
    ensures { step.new ≡ goes step.old (may_move step.old.plan) }
{
    let volatile = step.volatile();
    step.set_volatile(Volatile {
        moves: 0,
        ..volatile
    });
}

/// Rule 16, measured: keeps a reading; a new one lets reviews move the node again.
pub fn measured(step: &mut Step, peer: NodeId, rate: u64, hops: u8) -> Result<(), Memory>
    requires { AreTold step.old.plan.records }
    ensures { OnOk result (step.new ≡ goes step.old (measured step.old.plan peer rate hops)) }
{
    if peer == step.id() {
        step.answer(Answer::Own)
    } else if step.reading(peer) == (rate, hops) {
        Ok(())
    } else {
        step.write(Record::Rate { peer, rate, hops })?;
        may_move(step);
        Ok(())
    }
}

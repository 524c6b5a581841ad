ghost use Rattle.std.specs.Prelude.{◌≡◌, OnOk};
ghost use Rattle.oc_base.specs.Lawful.{IsNode};
ghost use Rattle.oc_base.specs.Shelves.{IsShelf};
ghost use Rattle.oc_model.specs.Lawful.{IsBody, IsInput};
ghost use Rattle.oc_model.specs.Plan.{begun};
ghost use Rattle.oc_model.specs.Step.{received, taken};
ghost use Rattle.oc_step.specs.StepView.{goes};
ghost use Rattle.oc_step.specs.NodeView.{IsReached};

use crate::acknowledging::{checked_in, took_ack, took_rejoin};
use crate::adopting::asked;
use crate::asking::{relocate, took_no, took_yes, unreachable};
use crate::check_in::CheckIn;
use crate::checking::{check, tick};
use crate::chunk::Chunk;
use crate::content::{fetched, published, pulled, sealed_at, took_chunk};
use crate::looking::{looked, sees};
use crate::serving::{client, measured};
use crate::stand::Stand;
use oc_base::{Memory, NodeId, Shelf};
use oc_model::{Body, Input};
use oc_step::Step;

// The control step, which depends on the shelf but not on the bytes of the content.

/// Takes a message, by the rule for its kind.
fn receive(step: &mut Step, shelf: &[Shelf], from: NodeId, body: &Body) -> Result<(), Memory>
    requires begun { step.old.plan ≡ begun step.old.base }
    requires shelf { IsShelf shelf.now }
    requires from { IsNode step.old.base.nodes from }
    requires body { IsBody step.old.base.nodes body.now }
    ensures { OnOk result (step.new ≡ goes step.old (received step.old.plan shelf.now from body.now)) }
{
    match body {
        Body::Look => looked(step, from),
        Body::LookIs {
            in_tree,
            parent,
            rate,
            children,
        } => sees(
            step,
            from,
            &Stand {
                in_tree: *in_tree,
                parent: *parent,
                rate: *rate,
                children: children.items(),
            },
        ),
        Body::Ask { seq, rank } => asked(step, from, *seq, *rank),
        Body::Yes {
            seq,
            rank,
            ancestors,
        } => took_yes(step, from, *seq, *rank, ancestors.items()),
        Body::No { seq, why } => took_no(step, from, *seq, *why),
        Body::CheckIn {
            seq,
            upto,
            rate,
            number,
            clients,
            certs,
        } => checked_in(
            step,
            from,
            &CheckIn {
                seq: *seq,
                upto: *upto,
                rate: *rate,
                number: *number,
                clients: *clients,
                certs: certs.items(),
            },
        ),
        Body::CheckAck {
            seq,
            upto,
            rank,
            ancestors,
        } => took_ack(step, from, *seq, *upto, *rank, ancestors.items()),
        Body::Rejoin { seq } => took_rejoin(step, from, *seq),
        Body::Fetch { have } => fetched(step, shelf, from, have.items()),
        Body::Chunk {
            group,
            start,
            bytes,
            last,
        } => took_chunk(
            step,
            shelf,
            from,
            &Chunk {
                group,
                start: *start,
                bytes: bytes.items(),
                last: *last,
            },
        ),
    }
}

/// Takes an input, by the rule for its kind.
pub(crate) fn take(step: &mut Step, shelf: &[Shelf], input: &Input) -> Result<(), Memory>
    requires begun { step.old.plan ≡ begun step.old.base }
    requires reached { IsReached step.old.base }
    requires shelf { IsShelf shelf.now }
    requires input { IsInput step.old.base.nodes step.old.base.me input.now }
    ensures { OnOk result (step.new ≡ goes step.old (taken step.old.plan shelf.now input.now)) }
{
    match input {
        Input::Tick(time) => tick(step, shelf, *time),
        Input::CheckNow => check(step),
        Input::Relocate(peer) => relocate(step, *peer),
        Input::Unreachable(peer) => unreachable(step, *peer),
        Input::Pull(peer) => pulled(step, shelf, *peer),
        Input::Measured { peer, rate, hops } => measured(step, *peer, *rate, *hops),
        Input::Publish { group, bytes } => published(step, shelf, group, bytes.items()),
        Input::Seal { group } => sealed_at(step, shelf, group),
        Input::Client { area, start, group } => client(step, shelf, *area, *start, group),
        Input::Delivered(message) => receive(step, shelf, message.from, &message.body),
    }
}

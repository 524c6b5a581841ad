ghost use Rattle.std.specs.Prelude.{◌≡◌, ◌<◌, OnOk};
ghost use Rattle.oc_model.specs.Asking.{lost, send_ask, ask, next_epoch, act, descend, try_at, earlier, waits_awhile, try_first, next_try, round, ask_before, comes_back, patience_at, joins, took_yes, refused, took_no, not_seen, unreachable, notes_parent, relocate};
ghost use Rattle.oc_step.specs.StepView.{goes};

use oc_base::{MAX_DEPTH, Memory, NodeId, Rank, Refusal};
use oc_model::{Answer, Body, MAX_PATIENCE, Mode, Record, Search};
use oc_state::Volatile;
use oc_state::modes::{is_asking, is_descending, parent_of};
use oc_state::ranks::{ancestors_by, next_epoch, precedes_any, rank_or_last};
use oc_step::Step;

// The ways in which a node gets a parent or becomes a root: rules 1 to 4 (ask, next try, round,
// become acting), 8 (take a yes), 9 (take a no), 10 (unreachable) and 11 (relocate).

/// The time in seconds after which a node that nobody accepts asks all again.
const WAITING_TIME: u64 = 4;

// Rule 1, ask.

/// Gives up the parent or the ask, if there is one, and becomes idle.
pub fn lose(step: &mut Step) -> Result<(), Memory>
    ensures { OnOk result (step.new ≡ goes step.old (lost step.old.plan)) }
{
    match step.position().mode {
        Mode::Idle => Ok(()),
        _ => step.write(Record::Lost),
    }
}

/// Sends `peer` an ask with the present number.
pub fn send_ask(step: &mut Step, peer: NodeId) -> Result<(), Memory>
    ensures { OnOk result (step.new ≡ goes step.old (send_ask step.old.plan peer)) }
{
    let position = step.position();
    step.send(
        peer,
        Body::Ask {
            seq: position.seq,
            rank: position.rank,
        },
    )
}

/// Rule 1, ask: asks a peer by the next number, or becomes idle and answers `Spent` if no number is left.
pub fn ask(step: &mut Step, peer: NodeId) -> Result<(), Memory>
    ensures { OnOk result (step.new ≡ goes step.old (ask step.old.plan peer)) }
{
    match step.position().seq.checked_add(1) {
        Some(seq) => {
            step.write(Record::Ask { seq, peer })?;
            step.search(None);
            send_ask(step, peer)
        }
        None => {
            lose(step)?;
            step.answer(Answer::Spent)
        }
    }
}

// Rule 4, become acting.

/// Rule 4, become acting: becomes the root of the epoch after its own.
pub fn act(step: &mut Step) -> Result<(), Memory>
    ensures { OnOk result (step.new ≡ goes step.old (act step.old.plan)) }
{
    let epoch = next_epoch(rank_or_last(step.position().rank));
    step.write(Record::Acting)?;
    step.write(Record::Epoch { epoch })
}

// Rule 2, next try.

/// Asks a node for its position, on the way down to a first place.
pub fn descend(step: &mut Step, peer: NodeId) -> Result<(), Memory>
    ensures { OnOk result (step.new ≡ goes step.old (descend step.old.plan peer)) }
{
    step.search(Some(Search::Descend(peer)));
    step.send(peer, Body::Look)
}

/// Tries a node: one without a place so far begins a descent there, any other asks.
fn try_at(step: &mut Step, peer: NodeId) -> Result<(), Memory>
    ensures { OnOk result (step.new ≡ goes step.old (try_at step.old.plan peer)) }
{
    if !step.is_member() && step.ancestors().is_empty() {
        descend(step, peer)
    } else {
        ask(step, peer)
    }
}

/// The earlier of two seconds, of which the first may be unset.
fn earlier(due: Option<u64>, time: u64) -> u64
    ensures { result ≡ earlier due time }
{
    match due {
        Some(due) => due.min(time),
        None => time,
    }
}

/// Waits four seconds, or less if a check is due sooner; then the node asks all again.
fn wait_awhile(step: &mut Step) -> Result<(), Memory>
    ensures { OnOk result (step.new ≡ goes step.old (waits_awhile step.old.plan)) }
{
    let volatile = step.volatile();
    let due = Some(earlier(volatile.due, volatile.clock + WAITING_TIME));
    step.set_volatile(Volatile { due, ..volatile });
    step.answer(Answer::Waiting)
}

/// Takes the first of the tries. With none left, a chain member that nobody refused becomes the root.
fn try_first(step: &mut Step) -> Result<(), Memory>
    ensures { OnOk result (step.new ≡ goes step.old (try_first step.old.plan.node.soft.tries step.old.plan)) }
{
    match step.take_try() {
        Some(peer) => try_at(step, peer),
        None if step.is_member() && step.volatile().silent => act(step),
        None => wait_awhile(step),
    }
}

pub fn next_try(step: &mut Step) -> Result<(), Memory>
    ensures { OnOk result (step.new ≡ goes step.old (next_try step.old.plan)) }
{
    if step.id().0 == 1 {
        act(step)
    } else {
        try_first(step)
    }
}

// Rule 3, round.

/// Rule 3, round: sets the tries anew, except for one node, and takes the first.
pub fn round(step: &mut Step, without: Option<NodeId>) -> Result<(), Memory>
    ensures { OnOk result (step.new ≡ goes step.old (round step.old.plan without)) }
{
    step.set_tries(without)?;
    next_try(step)
}

/// Asks a node first, and all others after it.
pub fn ask_before(step: &mut Step, peer: NodeId) -> Result<(), Memory>
    ensures { OnOk result (step.new ≡ goes step.old (ask_before step.old.plan peer)) }
{
    step.set_tries(Some(peer))?;
    ask(step, peer)
}

// Rule 8, take a yes.

/// Whether a node with a wish comes back to the parent that it left for that wish, mostly after a refusal.
fn comes_back(step: &Step, parent: NodeId) -> bool
    ensures { result ≡ comes_back step.now.plan.node.soft.wish step.now.plan.node parent }
{
    let volatile = step.volatile();
    match (volatile.wish, volatile.left) {
        (Some(_), Some(left)) => left == parent,
        _ => false,
    }
}

/// The patience of a node that joins this parent: more if it comes back, by its id, so that two nodes that want
/// each other's places do not move together.
fn patience_at(step: &Step, parent: NodeId) -> u8
    ensures { result ≡ patience_at step.now.plan.node parent }
{
    if comes_back(step, parent) {
        let more = 1 + (step.id().0 % 3) as u8;
        step.volatile()
            .patience
            .saturating_add(more)
            .min(MAX_PATIENCE)
    } else {
        0
    }
}

/// Joins a parent, with the rank beneath the parent's and a new change log.
fn join(step: &mut Step, parent: NodeId, rank: Rank, above: &[NodeId]) -> Result<(), Memory>
    requires { rank.depth < MAX_DEPTH }
    ensures { OnOk result (step.new ≡ goes step.old (joins step.old.plan parent rank above.now)) }
{
    let ids = ancestors_by(step.alloc(), parent, above)?;
    let patience = patience_at(step, parent);
    step.write(Record::Joined {
        peer: parent,
        rank: rank.beneath(),
    })?;
    step.write(Record::Ancestors { ids })?;
    step.clear_tries();
    let volatile = step.volatile();
    step.set_volatile(Volatile {
        due: None,
        search: None,
        wish: None,
        waits: 0,
        patience,
        ..volatile
    });
    Ok(())
}

pub fn took_yes(
    step: &mut Step,
    from: NodeId,
    seq: u64,
    rank: Rank,
    above: &[NodeId],
) -> Result<(), Memory>
    ensures { OnOk result (step.new ≡ goes step.old (took_yes step.old.plan from seq rank above.now)) }
{
    let position = step.position();
    if is_asking(position.mode, from)
        && seq == position.seq
        && rank.depth < MAX_DEPTH
        && precedes_any(rank, position.rank)
    {
        join(step, from, rank, above)
    } else {
        step.ignore()
    }
}

// Rule 9, take a no.

/// Goes on after a refusal: a node outside the chain begins a descent at the chain member that it was told, and
/// any other takes its next try.
fn refused(step: &mut Step, why: Refusal) -> Result<(), Memory>
    ensures { OnOk result (step.new ≡ goes step.old (refused step.old.plan why)) }
{
    match why {
        Refusal::Chain(member) => {
            if step.is_member() || member == step.id() {
                next_try(step)
            } else {
                descend(step, member)
            }
        }
        _ => next_try(step),
    }
}

#[tactic(auto, using(crate::proofs::Leaving::lost_soft))]
pub fn took_no(step: &mut Step, from: NodeId, seq: u64, why: Refusal) -> Result<(), Memory>
    ensures { OnOk result (step.new ≡ goes step.old (took_no step.old.plan from seq why)) }
{
    let position = step.position();
    if is_asking(position.mode, from) && seq == position.seq {
        let volatile = step.volatile();
        lose(step)?;
        step.set_volatile(Volatile {
            silent: false,
            refused: true,
            ..volatile
        });
        refused(step, why)
    } else {
        step.ignore()
    }
}

// Rule 10, unreachable.

/// Goes on without the position of a node that is not the parent: a descent there takes its next try.
#[tactic(auto, using(crate::proofs::AskByMode::not_seen_is))]
fn not_seen(step: &mut Step, peer: NodeId) -> Result<(), Memory>
    ensures { OnOk result (step.new ≡ goes step.old (not_seen step.old.plan.node.soft.search step.old.plan peer)) }
{
    if is_descending(&step.volatile().search, peer) {
        step.search(None);
        next_try(step)
    } else {
        step.ignore()
    }
}

#[tactic(auto, using(crate::proofs::AskByMode::unreachable_is))]
pub fn unreachable(step: &mut Step, peer: NodeId) -> Result<(), Memory>
    ensures { OnOk result (step.new ≡ goes step.old (unreachable step.old.plan peer)) }
{
    if step.position().mode.is_joined_to(peer) {
        lose(step)?;
        round(step, Some(peer))
    } else if is_asking(step.position().mode, peer) {
        lose(step)?;
        next_try(step)
    } else {
        not_seen(step, peer)
    }
}

// Rule 11, relocate.

/// Notes the parent of a node with a wish as left, so that a moved node waits longer if it comes back.
#[tactic(auto, using(crate::proofs::AskByMode::left_with_wish, crate::proofs::AskByMode::left_without))]
fn note_parent(step: &mut Step)
    ensures { step.new ≡ goes step.old (notes_parent step.old.plan) }
{
    let volatile = step.volatile();
    let left = match volatile.wish {
        Some(_) => parent_of(step.position().mode).or(volatile.left),
        None => volatile.left,
    };
    step.set_volatile(Volatile { left, ..volatile });
}

pub fn relocate(step: &mut Step, peer: NodeId) -> Result<(), Memory>
    ensures { OnOk result (step.new ≡ goes step.old (relocate step.old.plan peer)) }
{
    let id = step.id();
    if peer == id {
        step.answer(Answer::Own)
    } else if id.0 == 1 || (step.is_member() && id.0 < peer.0) {
        step.answer(Answer::Fixed)
    } else {
        note_parent(step);
        ask_before(step, peer)
    }
}

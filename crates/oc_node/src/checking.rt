ghost use Rattle.std.specs.Prelude.{◌≡◌, ◌≤◌, [], ◌∷◌, true, OnOk, filter, nat_lt};
ghost use Rattle.oc_base.specs.declared.limits.TheConstants.{LAST_SECOND};
ghost use Rattle.oc_model.specs.Checking.{counts_clients, checks_in, notes_time, reports, checks_as, next_check, sets_due, checks, merges, at_time, starts_leases, dies, ends_leases, looks_at_each, looks_round, is_due, forgets_refusal, goes_on, tick_checks_as, tick_checks, checks_in_time, is_past, has_news, reports_news_as, checks_if_due, fetches_as, tick};
ghost use Rattle.oc_model.specs.Choice.{below};
ghost use Rattle.oc_model.specs.Leases.{start_all};
ghost use Rattle.oc_model.specs.Plan.{begun};
ghost use Rattle.oc_model.specs.Records.{is_joined};
ghost use Rattle.oc_model.specs.Table.{newest};
ghost use Rattle.oc_step.specs.StepView.{goes};
ghost use Rattle.oc_step.specs.NodeView.{IsReached};
ghost use Rattle.oc_step.specs.Since.{AreTold};

use crate::adopting::set_epoch;
use crate::asking::{round, send_ask};
use oc_base::{Cert, CertList, Memory, NodeId, Shelf, ShelfList};
use oc_model::{Body, Mode, Record, Search};
use oc_place::raise;
use oc_state::ranks::rank_or_last;
use oc_state::{ListUpdate, Volatile};
use oc_step::Step;

// The upkeep of leases and the reports of changes: rules 5 (check now) and 6 (tick).

/// The greatest time from one check to the next, in seconds: well before a lease of 30 seconds ends.
const CHECK_TIME: u64 = 20;

// Rule 5, check now.

/// Adds the clients that were served to the node's own count, under its next own number if there is one.
fn count_clients(step: &mut Step) -> Result<(), Memory>
    ensures { OnOk result (step.new ≡ goes step.old (counts_clients step.old.plan)) }
{
    let position = step.position();
    let volatile = step.volatile();
    if volatile.served == 0 || position.number == u64::MAX {
        return Ok(());
    }
    step.write(Record::Info {
        number: position.number + 1,
        clients: position.clients.saturating_add(volatile.served),
    })?;
    step.set_volatile(Volatile {
        served: 0,
        ..volatile
    });
    Ok(())
}

/// Sends the parent a check-in: rate, own number, client count, and the certificates that wait, 64 at most.
fn check_in(step: &mut Step, parent: NodeId) -> Result<(), Memory>
    requires told { AreTold step.old.plan.records }
    requires joined { is_joined step.old.plan.node.kept.mode ≡ true }
    ensures { OnOk result (step.new ≡ goes step.old (checks_in step.old.plan parent)) }
{
    let position = step.position();
    let rate = step.rate_to(parent);
    let certs = step.next_certs()?;
    let upto = step.acked() + certs.len() as u64;
    step.send(
        parent,
        Body::CheckIn {
            seq: position.seq,
            upto,
            rate,
            number: position.number,
            clients: position.clients,
            certs: CertList::of(certs),
        },
    )
}

/// Notes this second as that of the last check-in.
fn note_time(step: &mut Step)
    ensures { step.new ≡ goes step.old (notes_time step.old.plan) }
{
    let volatile = step.volatile();
    let checked = Some(volatile.clock);
    step.set_volatile(Volatile {
        checked,
        ..volatile
    });
}

/// Counts the clients, and checks in with the parent.
fn report(step: &mut Step, parent: NodeId) -> Result<(), Memory>
    requires told { AreTold step.old.plan.records }
    requires joined { is_joined step.old.plan.node.kept.mode ≡ true }
    ensures { OnOk result (step.new ≡ goes step.old (reports step.old.plan parent)) }
{
    note_time(step);
    count_clients(step)?;
    check_in(step, parent)
}

fn check_as(step: &mut Step, mode: Mode) -> Result<(), Memory>
    requires told { AreTold step.old.plan.records }
    requires mode { mode ≡ step.old.plan.node.kept.mode }
    ensures { OnOk result (step.new ≡ goes step.old (checks_as mode step.old.plan)) }
{
    match mode {
        Mode::Joined(parent) => report(step, parent),
        Mode::Acting => {
            let rank = rank_or_last(step.position().rank);
            set_epoch(step, raise(rank.epoch))
        }
        Mode::Idle => round(step, None),
        Mode::Asking(peer) => send_ask(step, peer),
    }
}

/// The second of the next check; it depends on the id, so that siblings do not report together for ever.
fn next_check(step: &Step) -> u64
    ensures { result ≡ next_check step.now.plan.node }
{
    step.volatile().clock + CHECK_TIME - u64::from(step.id().0 % 3)
}

/// Sets the second of the next check.
fn set_due(step: &mut Step)
    ensures { step.new ≡ goes step.old (sets_due step.old.plan) }
{
    let due = Some(next_check(step));
    let volatile = step.volatile();
    step.set_volatile(Volatile { due, ..volatile });
}

pub fn check(step: &mut Step) -> Result<(), Memory>
    requires { AreTold step.old.plan.records }
    ensures { OnOk result (step.new ≡ goes step.old (checks step.old.plan)) }
{
    set_due(step);
    let mode = step.position().mode;
    check_as(step, mode)
}

// Rule 6, tick.

/// Merges a certificate; a record is written only if the table changes.
pub fn merge(step: &mut Step, cert: &Cert) -> Result<(), Memory>
    ensures { OnOk result (step.new ≡ goes step.old (merges step.old.plan cert.now)) }
{
    if step.is_news(cert) {
        step.write(Record::Entry { cert: *cert })
    } else {
        Ok(())
    }
}

/// Sets the clock; the clock never goes back.
fn set_time(step: &mut Step, time: u64)
    requires { time ≤ LAST_SECOND }
    ensures { step.new ≡ goes step.old (at_time step.old.plan time) }
{
    let volatile = step.volatile();
    let clock = volatile.clock.max(time);
    step.set_volatile(Volatile { clock, ..volatile });
}

/// Gives each leased child without a lease end one, 30 seconds away.
fn start_leases(step: &mut Step) -> Result<(), Memory>
    requires table { step.old.plan.node.kept.table ≡ step.old.base.kept.table }
    requires id { step.old.plan.node.me ≡ step.old.base.me }
    ensures { OnOk result (step.new ≡ goes step.old (starts_leases step.old.plan)) }
{
    let now = step.volatile().clock;
    step.update(ListUpdate::Start { now })
}

/// Notes a child as dead, by its entry in the table.
#[tactic(auto, using(crate::proofs::ByMode::dies_by, crate::proofs::ByMode::dies_not))]
fn end_lease(step: &mut Step, child: NodeId) -> Result<(), Memory>
    ensures { OnOk result (step.new ≡ goes step.old (dies (newest step.old.plan.node.kept.table child) step.old.plan)) }
{
    match step.entry(child) {
        Some(cert) => merge(step, &Cert { dead: true, ..cert }),
        None => Ok(()),
    }
}

/// Rule 6, tick, part 1: notes each leased child as dead whose lease has ended.
fn end_leases(step: &mut Step) -> Result<(), Memory>
    requires reached { IsReached step.old.base }
    requires table { step.old.plan.node.kept.table ≡ step.old.base.kept.table }
    requires id { step.old.plan.node.me ≡ step.old.base.me }
    requires leases { step.old.plan.node.leases ≡ start_all step.old.base.kept.table step.old.base.me step.old.base.leases step.old.plan.node.soft.clock }
    ensures { OnOk result (step.new ≡ goes step.old (ends_leases step.old.plan)) }
{
    let now = step.volatile().clock;
    let mut after = 0;
    while let Some(child) = step.next_ended(after, now) {
        end_lease(step, child)?;
        after = child.0;
    }
    Ok(())
}

/// Asks an earlier member for its position, if it is nearer than `other`.
fn look_past(step: &mut Step, other: u32, earlier: u32) -> Result<(), Memory>
    ensures { OnOk result (step.new ≡ goes step.old (looks_at_each (filter (λ x. nat_lt other x) (earlier ∷ [])) step.old.plan)) }
{
    if other < earlier {
        step.send(NodeId(earlier), Body::Look)
    } else {
        Ok(())
    }
}

/// Asks the earlier members nearer than `other` for their positions, the nearest first.
fn look_at_earlier(step: &mut Step, other: u32) -> Result<(), Memory>
    ensures { OnOk result (step.new ≡ goes step.old (looks_at_each (filter (λ x. nat_lt other x) (below step.old.plan.node.me)) step.old.plan)) }
{
    for earlier in (1..step.id().0).rev() {
        look_past(step, other, earlier)?;
    }
    Ok(())
}

/// Rule 6, tick, part 2, after the check: an ordinary joined node reviews its place, unless it was refused; a chain
/// member looks at the earlier members that are nearer than its parent.
fn look_round(step: &mut Step, mode: Mode) -> Result<(), Memory>
    ensures { OnOk result (step.new ≡ goes step.old (looks_round mode step.old.plan)) }
{
    match mode {
        Mode::Joined(parent) => {
            if step.is_member() {
                look_at_earlier(step, parent.0)
            } else if step.volatile().refused {
                Ok(())
            } else {
                step.search(Some(Search::Review));
                step.send(parent, Body::Look)
            }
        }
        Mode::Acting => {
            if step.is_member() {
                look_at_earlier(step, 0)
            } else {
                Ok(())
            }
        }
        _ => Ok(()),
    }
}

/// Forgets a refusal at a check that had been set; the first check in a new place does not.
fn forget_refusal(step: &mut Step)
    ensures { step.new ≡ goes step.old (forgets_refusal step.old.plan.node.soft.due step.old.plan) }
{
    let volatile = step.volatile();
    match volatile.due {
        Some(_) => step.set_volatile(Volatile {
            refused: false,
            ..volatile
        }),
        None => {}
    }
}

/// Sends the `Look` of a descent again, or begins a round: a search whose answer was lost goes on.
fn go_on(step: &mut Step, search: &Option<Search>) -> Result<(), Memory>
    ensures { OnOk result (step.new ≡ goes step.old (goes_on search.now step.old.plan)) }
{
    match search {
        Some(Search::Descend(peer)) => step.send(*peer, Body::Look),
        _ => round(step, None),
    }
}

fn tick_check_as(step: &mut Step, mode: Mode) -> Result<(), Memory>
    requires told { AreTold step.old.plan.records }
    requires mode { mode ≡ step.old.plan.node.kept.mode }
    ensures { OnOk result (step.new ≡ goes step.old (tick_checks_as mode step.old.plan)) }
{
    match mode {
        Mode::Idle => {
            let search = step.volatile().search;
            go_on(step, &search)
        }
        _ => check_as(step, mode),
    }
}

/// The check of a tick, after which the next one is set.
fn tick_check(step: &mut Step) -> Result<(), Memory>
    requires { AreTold step.old.plan.records }
    ensures { OnOk result (step.new ≡ goes step.old (tick_checks step.old.plan)) }
{
    set_due(step);
    let mode = step.position().mode;
    tick_check_as(step, mode)
}

/// Rule 6, tick, part 2: makes the check that is due, and looks for a better place after it.
#[tactic(auto, using(crate::proofs::Ticks::forgets_told))]
fn check_in_time(step: &mut Step) -> Result<(), Memory>
    requires { AreTold step.old.plan.records }
    ensures { OnOk result (step.new ≡ goes step.old (checks_in_time step.old.plan)) }
{
    let mode = step.position().mode;
    forget_refusal(step);
    tick_check(step)?;
    look_round(step, mode)
}

/// Whether the last check-in was at least two seconds ago.
#[tactic(auto, using(crate::proofs::Ticks::past_is))]
fn is_past(step: &Step) -> bool
    ensures { result ≡ is_past step.now.plan.node.soft.checked step.now.plan.node.soft.clock }
{
    match step.volatile().checked {
        Some(checked) => step.volatile().clock.saturating_sub(checked) >= 2,
        None => false,
    }
}

/// Whether certificates wait, and the last check-in was at least two seconds ago.
fn has_news(step: &Step) -> bool
    requires told { AreTold step.now.plan.records }
    requires joined { is_joined step.now.plan.node.kept.mode ≡ true }
    ensures { result ≡ has_news step.now.plan.node }
{
    step.is_waiting() && is_past(step)
}

/// Rule 6, tick, part 3: checks in with news between two checks, so that news goes up within seconds.
fn report_news_as(step: &mut Step, mode: Mode) -> Result<(), Memory>
    requires told { AreTold step.old.plan.records }
    requires mode { mode ≡ step.old.plan.node.kept.mode }
    ensures { OnOk result (step.new ≡ goes step.old (reports_news_as mode step.old.plan)) }
{
    match mode {
        Mode::Joined(parent) => {
            if has_news(step) {
                report(step, parent)
            } else {
                Ok(())
            }
        }
        _ => Ok(()),
    }
}

fn check_if_due(step: &mut Step) -> Result<(), Memory>
    requires { AreTold step.old.plan.records }
    ensures { OnOk result (step.new ≡ goes step.old (checks_if_due step.old.plan)) }
{
    if is_due(step) {
        check_in_time(step)
    } else {
        let mode = step.position().mode;
        report_news_as(step, mode)
    }
}

fn is_due(step: &Step) -> bool
    ensures { result ≡ is_due step.now.plan.node.soft.due step.now.plan.node.soft.clock }
{
    match step.volatile().due {
        Some(due) => due <= step.volatile().clock,
        None => true,
    }
}

/// Rule 6, tick, part 4: a joined node asks its parent for more of every group.
fn fetch_as(step: &mut Step, mode: Mode, shelf: &[Shelf]) -> Result<(), Memory>
    ensures { OnOk result (step.new ≡ goes step.old (fetches_as mode step.old.plan shelf.now)) }
{
    match mode {
        Mode::Joined(parent) => {
            let have = ShelfList::of(shelf.to_vec(step.alloc())?);
            step.send(parent, Body::Fetch { have })
        }
        _ => Ok(()),
    }
}

#[tactic(auto, using(crate::proofs::Ticks::ends_told, crate::proofs::Ticks::ends_soft))]
pub fn tick(step: &mut Step, shelf: &[Shelf], time: u64) -> Result<(), Memory>
    requires reached { IsReached step.old.base }
    requires begun { step.old.plan ≡ begun step.old.base }
    requires time { time ≤ LAST_SECOND }
    ensures { OnOk result (step.new ≡ goes step.old (tick step.old.plan shelf.now time)) }
{
    set_time(step, time);
    start_leases(step)?;
    end_leases(step)?;
    check_if_due(step)?;
    let mode = step.position().mode;
    fetch_as(step, mode, shelf)
}

ghost use Rattle.std.specs.Prelude.{◌≡◌, ◌+◌, ◌<◌, ◌≤◌, length, OnOk};
ghost use Rattle.std.specs.List.{AllByRecursion};
ghost use Rattle.oc_base.specs.Lawful.{IsNode};
ghost use Rattle.oc_model.specs.Numbers.{at, capped, put_at};
ghost use Rattle.oc_state.specs.ListUpdates.{AreReserved, IsListUpdate, leases_by, rates_by, counts_by, leases_after, rates_after, counts_after};

use oc_base::{Memory, NodeId, Slots};
use oc_updown::{Leases, Table};

/// One change of the lists that have an item for each node: lease ends, the rates of children, and
/// redirection counts.
#[derive(Clone, Copy)]
pub enum ListUpdate {
    /// Each leased child without a lease end gets one, 30 seconds from now.
    Start { now: u64 },
    /// The lease of a child begins anew.
    Renew { child: NodeId, now: u64 },
    /// A child told this rate.
    Tell { child: NodeId, rate: u64 },
    /// A client was sent to this node.
    Redirect { node: NodeId },
}

/// Makes these changes, one after another, in the lists of the node `me`, which has this table. There must be memory
/// for them. Takes no memory.
pub fn update_all(
    updates: &[ListUpdate],
    table: &Table,
    me: NodeId,
    leases: &mut Leases,
    rates: &mut Slots<u64>,
    counts: &mut Slots<u64>,
)
    requires updates { AllByRecursion (IsListUpdate table.now.nodes) updates.now }
    requires lists { 0 < length updates.now → AreReserved table.now.nodes leases.old rates.old counts.old }
    ensures leases { leases.new.ends ≡ leases_after table.now.entries me leases.old.ends updates.now }
    ensures rates { rates.new.items ≡ rates_after rates.old.items updates.now }
    ensures counts { counts.new.items ≡ counts_after counts.old.items updates.now }
{
    for update in updates {
        update_one(update, table, me, leases, rates, counts);
    }
}

fn update_one(
    update: &ListUpdate,
    table: &Table,
    me: NodeId,
    leases: &mut Leases,
    rates: &mut Slots<u64>,
    counts: &mut Slots<u64>,
)
    requires update { IsListUpdate table.now.nodes update.now }
    requires lists { AreReserved table.now.nodes leases.old rates.old counts.old }
    ensures leases { leases.new.ends ≡ leases_by table.now.entries me leases.old.ends update.now }
    ensures rates { rates.new.items ≡ rates_by rates.old.items update.now }
    ensures counts { counts.new.items ≡ counts_by counts.old.items update.now }
    ensures lists { AreReserved table.now.nodes leases.new rates.new counts.new }
{
    match update {
        ListUpdate::Start { now } => leases.start_all(table, me, *now),
        ListUpdate::Renew { child, now } => leases.renew(*child, *now),
        ListUpdate::Tell { child, rate } => rates.put(child.index(), *rate),
        ListUpdate::Redirect { node } => count(counts, *node),
    }
}

/// Takes the memory for these changes; none if there is no change.
pub fn reserve_lists(
    updates: &[ListUpdate],
    leases: &mut Leases,
    rates: &mut Slots<u64>,
    counts: &mut Slots<u64>,
) -> Result<(), Memory>
    ensures leases { leases.new ≡ record leases.old { room = leases.new.room } }
    ensures leases_room { OnOk result (0 < length updates.now → length leases.new.ends ≤ leases.new.room) }
    ensures rates { rates.new ≡ record rates.old { room = rates.new.room } }
    ensures rates_room { OnOk result (0 < length updates.now → length rates.new.items ≤ rates.new.room) }
    ensures counts { counts.new ≡ record counts.old { room = counts.new.room } }
    ensures counts_room { OnOk result (0 < length updates.now → length counts.new.items ≤ counts.new.room) }
{
    if updates.is_empty() {
        return Ok(());
    }
    leases.reserve()?;
    rates.reserve()?;
    counts.reserve()
}

/// Counts one more client that was sent to this node.
fn count(counts: &mut Slots<u64>, node: NodeId)
    requires node { IsNode (length counts.old.items) node }
    requires room { length counts.old.items ≤ counts.old.room }
    ensures counts { counts.new.items ≡ put_at counts.old.items node (capped (at counts.old.items node 0 + 1)) }
    ensures length { length counts.new.items ≡ length counts.old.items }
    ensures room { counts.new.room ≡ counts.old.room }
{
    let index = node.index();
    counts.put(index, counts.get_or(index, 0).saturating_add(1));
}

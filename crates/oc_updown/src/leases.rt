ghost use Rattle.std.specs.Prelude.{◌≡◌, ◌^◌, ◌≤◌, length, replicate, None, IfOk, OnOk};
ghost use Rattle.oc_base.specs.declared.limits.TheConstants.{LAST_SECOND};
ghost use Rattle.oc_model.specs.Leases.{renew, start_all, next_ended};
ghost use Rattle.oc_base.specs.Lawful.{IsNode};
ghost use Rattle.oc_updown.specs.Ended.{IsNextEnded};

use crate::Table;
use crate::children::{next_over, renew, start_rows};
use oc_base::{Memory, NodeId, Slots};
use std::alloc::Global;
use std::marker::Model;

/// The duration of a lease, in seconds.
pub const LEASE_TIME: u64 = 30;

/// The seconds at which the leases of children end. A contract sees them as a list by the number of a
/// node, in which an end may be unset, and the number of ends for which there is memory.
#[derive(Drop)]
pub struct Leases {
    /// The end of each lease, by the index of the node.
    ends: Slots<Option<u64>>,
}

impl Model for Leases {
    ghost use Rattle.oc_updown.specs.LeasesView.{LeasesView};

    ghost Value = { LeasesView };

    ghost view = { λ l. record { ends = l.ends.items; room = l.ends.room } };
}

impl Leases {
    /// Lease ends of which none is set.
    pub fn new(alloc: Global, nodes: u32) -> Result<Leases, Memory>
        ensures unset { IfOk result (λ leases. leases.ends ≡ replicate nodes None) }
        ensures length { IfOk result (λ leases. length leases.ends ≡ nodes) }
    {
        Ok(Leases {
            ends: Slots::new(alloc, nodes as usize, None)?,
        })
    }

    /// Takes the memory for the ends of all leases.
    pub fn reserve(&mut self) -> Result<(), Memory>
        ensures room { OnOk result (length self.new.ends ≤ self.new.room) }
        ensures stays { self.old.room ≤ self.new.room }
        ensures rest { self.new ≡ record self.old { room = self.new.room } }
    {
        self.ends.reserve()
    }

    /// The second at which each lease ends, by the number of the child, if it is set.
    pub fn ends(&self) -> &Slots<Option<u64>>
        ensures { result.now.items ≡ self.now.ends }
    {
        &self.ends
    }

    /// Renews the lease of a child: it ends 30 seconds from now. There must be memory for all ends. Takes
    /// no memory.
    #[tactic(auto, using(crate::proofs::Lengths::length_of_renewed))]
    pub fn renew(&mut self, child: NodeId, now: u64)
        requires child { IsNode (length self.old.ends) child }
        requires now { now ≤ LAST_SECOND }
        requires room { length self.old.ends ≤ self.old.room }
        ensures ends { self.new.ends ≡ renew self.old.ends child now }
        ensures length { length self.new.ends ≡ length self.old.ends }
        ensures room { self.new.room ≡ self.old.room }
    {
        renew(&mut self.ends, child, now);
    }

    /// Sets the lease end of each leased child of this node that has none: 30 seconds from now. There must
    /// be memory for all ends. Takes no memory.
    #[tactic(auto, using(crate::proofs::Lengths::length_of_started))]
    pub fn start_all(&mut self, table: &Table, me: NodeId, now: u64)
        requires nodes { table.now.nodes ≤ length self.old.ends }
        requires now { now ≤ LAST_SECOND }
        requires room { length self.old.ends ≤ self.old.room }
        ensures ends { self.new.ends ≡ start_all table.now.entries me self.old.ends now }
        ensures length { length self.new.ends ≡ length self.old.ends }
        ensures room { self.new.room ≡ self.old.room }
    {
        start_rows(table.rows(), me, &mut self.ends, now);
    }

    /// The leased child with the least id past `after` whose lease has ended: its end is set, and is not later
    /// than now. Takes no memory.
    #[tactic(auto, using(crate::proofs::Least::next_is_least))]
    pub fn next_ended(&self, table: &Table, me: NodeId, after: u32, now: u64) -> Option<NodeId>
        requires { table.now.nodes ≤ length self.now.ends }
        ensures found { result ≡ next_ended table.now.entries me self.now.ends after now }
        ensures least { IsNextEnded table.now.entries me self.now.ends after now result }
    {
        next_over(table.rows(), me, &self.ends, after, now)
    }
}

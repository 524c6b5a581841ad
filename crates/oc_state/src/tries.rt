ghost use Rattle.std.specs.Prelude.{◌≡◌, ◌+◌, ◌<◌, ◌^◌, [], drop, unwrap_or, IfSome};
ghost use Rattle.oc_model.specs.Numbers.{first_of};

use oc_base::{IdList, NodeId};
use std::alloc::Global;
use std::marker::Model;

/// The nodes still to be asked for a place, in their order. Contracts see the list of them.
#[derive(Drop)]
pub struct Tries {
    list: IdList,
    /// The number of nodes that are taken off the list.
    taken: usize,
}

impl Model for Tries {
    ghost use Rattle.std.specs.Prelude.{List, ℕ, ◌≤◌, length, drop};

    ghost Value = { List ℕ };

    ghost view = { λ t. drop t.taken t.list };

    ghost invariant = { λ t. t.taken ≤ length t.list };
}

impl Tries {
    /// No nodes.
    pub fn none(alloc: Global) -> Tries
        ensures { result ≡ [] }
    {
        Tries::of(IdList::of(Vec::new(alloc)))
    }

    /// A list of these nodes, with none taken off.
    pub fn of(list: IdList) -> Tries
        ensures { result ≡ list }
    {
        Tries { list, taken: 0 }
    }

    /// The node at an index, among those that are left.
    pub fn get(&self, place: usize) -> Option<NodeId>
        ensures first { result ≡ first_of (drop place self.now) }
        ensures fits { IfSome result (λ _. place + 1 < 2 ^ 64) }
    {
        let left = &self.list.items()[self.taken..];
        left.get(place).copied()
    }

    /// Takes off the first `count` nodes, or all if fewer are left.
    #[tactic(auto, using(crate::proofs::Lists::drop_more))]
    pub fn skip(&mut self, count: usize)
        ensures { self.new ≡ drop count self.old }
    {
        let left = self.list.items().len() - self.taken;
        self.taken += count.min(left);
    }

    /// Replaces the list by `set`, if there is one, and then takes off the first `count` nodes.
    pub fn step(&mut self, set: Option<Tries>, count: usize)
        ensures { self.new ≡ drop count (unwrap_or set self.old) }
    {
        match set {
            Some(tries) => {
                *self = tries;
                self.skip(count);
            }
            None => self.skip(count),
        }
    }
}

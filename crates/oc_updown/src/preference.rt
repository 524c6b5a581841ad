ghost use Rattle.std.specs.Prelude.{◌≡◌, ◌<◌, ◌≤◌, length, IfSome};
ghost use Rattle.oc_model.specs.Numbers.{at};
ghost use Rattle.oc_updown.specs.Better.{is_near, is_better, beats};

use oc_base::{NodeId, Slots};

/// The order of preference among servers, for one client.
#[derive(Drop)]
pub(crate) struct Preference<'a> {
    /// The area of each node, by its number.
    pub areas: &'a [u8],
    /// The number of clients to which each node was named, by its number.
    pub counts: &'a Slots<u64>,
    /// The area of the client.
    pub area: u8,
}

impl<'a> Preference<'a> {
    /// Whether the node is better than the best so far, whose id is smaller.
    pub fn beats(&self, node: NodeId, best: &Option<NodeId>) -> bool
        requires first { 1 ≤ node }
        requires areas { node ≤ length self.now.areas.now }
        requires counts { node ≤ length self.now.counts.now.items }
        requires behind { IfSome best.now (λ b. (1 ≤ b) × (b < node)) }
        ensures { result ≡ beats (is_better self.now.areas.now self.now.counts.now.items self.now.area) node best.now }
    {
        match best {
            Some(best) => self.is_better(node, *best),
            None => true,
        }
    }

    /// Whether the node is better than the earlier one: it is in the client's area and the earlier one is not,
    /// or they are alike in this and it was named to fewer clients.
    fn is_better(&self, node: NodeId, earlier: NodeId) -> bool
        requires first { 1 ≤ earlier }
        requires behind { earlier < node }
        requires areas { node ≤ length self.now.areas.now }
        requires counts { node ≤ length self.now.counts.now.items }
        ensures { result ≡ is_better self.now.areas.now self.now.counts.now.items self.now.area node earlier }
    {
        let near = self.is_near(node);
        if near == self.is_near(earlier) {
            self.count(node) < self.count(earlier)
        } else {
            near
        }
    }

    /// Whether the node is in the client's area.
    fn is_near(&self, node: NodeId) -> bool
        requires first { 1 ≤ node }
        requires areas { node ≤ length self.now.areas.now }
        ensures { result ≡ is_near self.now.areas.now self.now.area node }
    {
        self.areas[node.index()] == self.area
    }

    /// The number of clients to which the node was named.
    fn count(&self, node: NodeId) -> u64
        requires first { 1 ≤ node }
        requires counts { node ≤ length self.now.counts.now.items }
        ensures { result ≡ at self.now.counts.now.items node 0 }
    {
        self.counts.get_or(node.index(), 0)
    }
}

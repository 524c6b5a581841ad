//! Settle and heal, played on a world.

use crate::World;
use oc_base::{Memory, NodeId, Rank};
use oc_calm::Cluster;
use oc_model::{Act, Mode};

impl Cluster for World {
    ghost world = { λ w. w.world };

    fn act(&mut self, act: &Act) -> Result<(), Memory> {
        self.play(act)
    }

    fn nodes(&self) -> u32 {
        self.count()
    }

    fn is_up(&self, node: NodeId) -> bool {
        self.runs(node)
    }

    fn chain(&self) -> u32 {
        self.chain_length()
    }

    fn mode(&self, node: NodeId) -> Mode {
        self.node(node).mode()
    }

    fn seq(&self, node: NodeId) -> u64 {
        self.node(node).seq()
    }

    fn rank(&self, node: NodeId) -> Option<Rank> {
        self.node(node).rank()
    }

    fn clock(&self, node: NodeId) -> u64 {
        self.node(node).now()
    }

    fn waiting(&self, node: NodeId) -> u64 {
        let log = self.node(node).log();
        log.length() - log.acked()
    }

    fn lease(&self, parent: NodeId, child: NodeId) -> Option<u64> {
        self.node(parent).table().leased_by(parent, child)
    }

    fn sent(&self) -> u64 {
        self.sent_count()
    }

    fn last_is_ack(&self) -> bool {
        self.ends_with_ack()
    }
}

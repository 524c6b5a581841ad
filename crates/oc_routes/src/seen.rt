use crate::about::About;
use crate::directory::Directory;
use crate::tally::Tally;
use oc_base::Shelf;
use oc_node::Node;

/// A node that is looked at.
#[derive(Clone, Copy, Drop)]
pub struct Seen<'a> {
    pub node: &'a Node,
    /// The node's holding of each group.
    pub shelf: &'a [Shelf],
    /// The number of messages in its outbox.
    pub messages: usize,
    /// The nodes of its network, by its configuration.
    pub directory: Directory<'a>,
    /// The greatest id that a node of it can have.
    pub ids: u32,
    /// The counts of its run.
    pub tally: &'a Tally,
    pub about: About,
}

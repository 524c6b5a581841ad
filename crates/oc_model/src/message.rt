use oc_base::{Bytes, CertList, ChildList, GroupName, IdList, NodeId, Rank, Refusal, ShelfList};

/// A message from one node to another.
#[derive(Clone, Debug, Drop)]
pub struct Message {
    pub from: NodeId,
    pub to: NodeId,
    pub body: Body,
}

/// The body of a message. Each rate is in bytes per second, 0 where nothing was measured.
#[derive(Clone, Debug, Drop)]
pub enum Body {
    /// Asks for the receiver's position in the tree (rule 12, look).
    Look,
    /// The sender's position: its parent with the rate to it, and its leased children with theirs (rule 12).
    LookIs {
        in_tree: bool,
        parent: Option<NodeId>,
        rate: u64,
        children: ChildList,
    },
    /// Asks the receiver to be the parent (rule 1). `seq` counts the sender's asks, and `rank` is its own.
    Ask {
        seq: u64,
        rank: Option<Rank>,
    },
    /// Accepts the receiver as a child (rule 7): the sender's rank, and its ancestors, nearest first.
    Yes {
        seq: u64,
        rank: Rank,
        ancestors: IdList,
    },
    /// Refuses to be the parent, and tells why (rule 7).
    No {
        seq: u64,
        why: Refusal,
    },
    /// Renews the lease, and tells the parent the news: the rate to it, the sender's own number and client
    /// count, and the certificates of the change log up to the place `upto` (rules 5 and 13).
    CheckIn {
        seq: u64,
        upto: u64,
        rate: u64,
        number: u64,
        clients: u64,
        certs: CertList,
    },
    /// Acknowledges the certificates up to the place `upto`, with the sender's rank and ancestors (rule 13).
    CheckAck {
        seq: u64,
        upto: u64,
        rank: Rank,
        ancestors: IdList,
    },
    /// Tells a child to ask anew, since it has no lease at that ask number (rules 7 and 13).
    Rejoin {
        seq: u64,
    },
    /// Asks for more content, and tells the sender's holdings (rule 14).
    Fetch {
        have: ShelfList,
    },
    /// The bytes of a group from `start` on; `last` where they end a sealed group (rule 14).
    Chunk {
        group: GroupName,
        start: u64,
        bytes: Bytes,
        last: bool,
    },
}

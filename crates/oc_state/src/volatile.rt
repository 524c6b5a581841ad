ghost use Rattle.std.specs.Prelude.{◌≡◌};
ghost use Rattle.oc_state.specs.Volatile.{new_volatile};

use oc_base::NodeId;
use oc_model::Search;

/// The small parts that a start clears; the lists by node are not among them.
#[derive(Clone, Copy)]
pub struct Volatile {
    /// The time, in seconds.
    pub clock: u64,
    /// The second of the next check.
    pub due: Option<u64>,
    /// Whether no node has refused since the tries were last set.
    pub silent: bool,
    /// Whether a node has refused since the last check in time.
    pub refused: bool,
    /// The second of the last check-in.
    pub checked: Option<u64>,
    pub search: Option<Search>,
    /// The number of clients served since the node last took clients into its own count.
    pub served: u64,
    /// The place that reviews speak for, until the node has a parent anew.
    pub wish: Option<NodeId>,
    /// The parent that the node left when it last asked for its wish, or was moved while it had one.
    pub left: Option<NodeId>,
    /// The number of reviews that spoke for the wish, less those that did not.
    pub waits: u64,
    /// The number of reviews above two that have to speak for a wish before the node asks for it.
    pub patience: u8,
    /// The number of reviews that made the node ask since a measure last changed.
    pub moves: u8,
}

impl Volatile {
    /// The parts of a node that just started.
    pub fn new() -> Volatile
        ensures { result ≡ new_volatile }
    {
        Volatile {
            clock: 0,
            due: None,
            silent: false,
            refused: false,
            checked: None,
            search: None,
            served: 0,
            wish: None,
            left: None,
            waits: 0,
            patience: 0,
            moves: 0,
        }
    }
}

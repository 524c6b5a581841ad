ghost use Rattle.std.specs.Prelude.{◌≡◌};
ghost use Rattle.oc_model.specs.Node.{Durable};
ghost use Rattle.oc_model.specs.Records.{fold_one, is_joined};
ghost use Rattle.oc_state.specs.Position.{position_of, new_position};

use oc_base::Rank;
use oc_model::{Mode, Record};

/// The small durable parts of a node: its position in the tree, and its counts.
#[derive(Clone, Copy)]
pub struct Position {
    /// The number of the node's last ask.
    pub seq: u64,
    pub mode: Mode,
    pub rank: Option<Rank>,
    /// The node's own number, and its client count.
    pub number: u64,
    pub clients: u64,
}

impl Position {
    /// The position of a new node.
    pub fn new() -> Position
        ensures { result ≡ new_position }
    {
        Position {
            seq: 0,
            mode: Mode::Idle,
            rank: None,
            number: 0,
            clients: 0,
        }
    }

    /// Whether the node has a parent.
    pub fn is_joined(self) -> bool
        ensures { result ≡ is_joined self.mode }
    {
        matches!(self.mode, Mode::Joined(_))
    }

    /// The position after a record.
    pub fn after(self, change: &Record) -> Position
        ensures { (d : Durable) → position_of d ≡ self → result ≡ position_of (fold_one d change.now) }
    {
        match change {
            Record::Ask { seq, peer } => Position {
                seq: *seq,
                mode: Mode::Asking(*peer),
                ..self
            },
            Record::Joined { peer, rank } if self.seq != 0 => Position {
                mode: Mode::Joined(*peer),
                rank: Some(*rank),
                ..self
            },
            Record::Lost => Position {
                mode: Mode::Idle,
                ..self
            },
            Record::Acting => Position {
                mode: Mode::Acting,
                ..self
            },
            Record::Ranked { rank } => Position {
                rank: Some(*rank),
                ..self
            },
            Record::Epoch { epoch } => Position {
                rank: Some(Rank {
                    epoch: *epoch,
                    depth: 0,
                }),
                ..self
            },
            Record::Info { number, clients } => Position {
                number: *number,
                clients: *clients,
                ..self
            },
            Record::Snapshot { .. } => Position::new(),
            _ => self,
        }
    }
}

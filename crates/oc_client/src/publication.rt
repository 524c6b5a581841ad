ghost use Rattle.std.specs.Prelude.{◌≡◌};

use crate::input::PUT_PIECE_BYTES;

/// The place of an input in its group.
#[derive(Clone, Copy, Debug, PartialEq, Eq)]
pub enum WriteMode {
    /// A group that has no bytes yet.
    New,
    /// The present end of the group.
    Append,
    /// A group that has the first bytes of the input already; only the rest is sent.
    Resume,
}

impl WriteMode {
    ghost use Rattle.oc_client.specs.Places.{sends_empty};

    /// Whether an input of no bytes is sent, so that the group is made.
    pub(crate) fn sends_empty(self) -> bool
        ensures { result ≡ sends_empty self }
    {
        match self {
            WriteMode::New | WriteMode::Append => true,
            WriteMode::Resume => false,
        }
    }
}

/// The options of a publishing.
#[derive(Clone, Copy, Debug, PartialEq, Eq)]
pub struct Publication {
    pub place: WriteMode,
    /// Whether the group is closed after the input.
    pub seal: bool,
    /// Whether the bytes of each read of the input are sent at once, and not only once they fill a
    /// piece.
    pub live: bool,
}

impl Publication {
    ghost use Rattle.oc_client.specs.Places.{least_piece};

    /// The least length in bytes of a piece that is not the last.
    pub(crate) fn least_piece(self) -> usize
        ensures { result ≡ least_piece self.live }
    {
        if self.live { 1 } else { PUT_PIECE_BYTES }
    }
}

ghost use Rattle.std.specs.Prelude.{◌≡◌};
ghost use Rattle.oc_chunked.specs.Stages.{fault_of};

use crate::fault::ChunkFault;

/// The place in a chunked text after the bytes taken so far.
#[derive(Clone, Copy, Debug, PartialEq, Eq)]
pub(crate) enum State {
    /// A size line.
    Size,
    /// A chunk with `left` bytes left, its CR LF included.
    Chunk { left: u32 },
    /// The trailer fields.
    Trailer,
    /// The end of the text.
    End,
    /// The refusal of bytes.
    Refused(BadText),
}

/// The reason why bytes are refused.
#[derive(Clone, Copy, Debug, PartialEq, Eq)]
pub(crate) enum BadText {
    Bad,
    Long,
}

impl BadText {
    pub(crate) fn fault(self) -> ChunkFault
        ensures { result ≡ fault_of self }
    {
        match self {
            BadText::Bad => ChunkFault::Bad,
            BadText::Long => ChunkFault::Long,
        }
    }
}

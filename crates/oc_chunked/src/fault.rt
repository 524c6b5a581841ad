ghost use Rattle.std.specs.Prelude.{◌≡◌};

use std::alloc::AllocError;
use std::error::Error;
use std::fmt;

/// The reason why a piece of a chunked text is refused.
#[derive(Clone, Copy, Debug, PartialEq, Eq)]
pub enum ChunkFault {
    /// The text is not chunked: a size line or the trailer fields are malformed, a chunk has more than
    /// 2^30 bytes or there are more than 64 trailer fields, or a chunk is not followed by CR LF.
    Bad,
    /// A size line or the trailer fields are too long.
    Long,
    /// Memory ran out.
    Memory,
}

impl fmt::Display for ChunkFault {
    fn fmt<W: fmt::Write>(&self, f: &mut fmt::Formatter<W>) -> fmt::Result {
        f.write_str(match self {
            ChunkFault::Bad => "not chunked",
            ChunkFault::Long => "line too long",
            ChunkFault::Memory => "out of memory",
        })
    }
}

impl Error for ChunkFault {}

impl From<AllocError> for ChunkFault {
    ghost use Rattle.oc_chunked.specs.declared.fault.ChunkFault.TheVariants.{Memory};

    ghost from_gives = { λ _ fault. fault ≡ Memory };

    fn from(_error: AllocError) -> ChunkFault {
        ChunkFault::Memory
    }
}

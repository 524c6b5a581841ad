ghost use Rattle.std.specs.Prelude.{◌≡◌};
ghost use Rattle.oc_client.specs.declared.put_end.PutEnd.TheVariants.{Memory as MemoryEnd};

use oc_base::Memory;
use std::alloc::AllocError;

/// The end of a publishing.
#[derive(Clone, Copy, Debug, PartialEq, Eq)]
pub enum PutEnd {
    /// The whole input is in the group, and the group is closed where that was asked for.
    Done,
    /// The address is no URL, its scheme is not `http`, the host is missing, or a user or a
    /// password is given. Nothing was dialled.
    BadUrl,
    /// The status of a reply that neither takes bytes nor gives the length of the group; or 503 at
    /// the last try.
    Refused(u16),
    /// The length of the group in bytes, which does not fit the position of the next piece, or
    /// exceeds the greatest length of a group.
    Length(u64),
    /// The input is shorter than the group.
    Short,
    /// The bytes that came at the last try are no valid reply.
    Reply,
    /// A call on the link failed at the last try.
    Link,
    /// A call on the input failed.
    Input,
    /// Memory ran out.
    Memory,
}

impl From<Memory> for PutEnd {
    ghost from_gives = { λ _ end. end ≡ MemoryEnd };

    fn from(_memory: Memory) -> PutEnd {
        PutEnd::Memory
    }
}

impl From<AllocError> for PutEnd {
    ghost from_gives = { λ _ end. end ≡ MemoryEnd };

    fn from(_error: AllocError) -> PutEnd {
        PutEnd::Memory
    }
}

ghost use Rattle.std.specs.Prelude.{◌≡◌};
ghost use Rattle.oc_content.specs.declared.errors.PutError.TheVariants.{Memory as PutMemory};
ghost use Rattle.oc_content.specs.declared.errors.FetchError.TheVariants.{Memory as FetchMemory};
ghost use Rattle.oc_content.specs.declared.errors.ReadError.TheVariants.{Disk as ReadDisk};
ghost use Rattle.oc_content.specs.Fetching.{of_read};

use oc_base::Memory;
use oc_io::Failed;
use std::alloc::AllocError;

/// Why bytes were not put; of several reasons the first one is answered.
#[derive(Clone, Copy, Debug, PartialEq, Eq)]
pub enum PutError {
    /// The bytes begin past the end of the group, which has `held` bytes.
    Gap { held: u64 },
    /// The group is sealed, and the bytes end past its end.
    Sealed,
    /// The group is new, and there are 64 groups already.
    TooManyGroups,
    /// The group would be longer than 2^40 bytes.
    TooLong,
    /// Memory ran out.
    Memory,
}

/// Why bytes were not read.
#[derive(Clone, Copy, Debug, PartialEq, Eq)]
pub enum ReadError {
    /// There is no such group.
    NoGroup,
    /// A call on the disk failed.
    Disk,
}

/// Why bytes were not fetched.
#[derive(Clone, Copy, Debug, PartialEq, Eq)]
pub enum FetchError {
    /// There is no such group.
    NoGroup,
    /// A call on the disk failed.
    Disk,
    /// Memory ran out.
    Memory,
}

impl From<AllocError> for PutError {
    ghost from_gives = { λ _ error. error ≡ PutMemory };

    fn from(_error: AllocError) -> PutError {
        PutError::Memory
    }
}

impl From<Memory> for PutError {
    ghost from_gives = { λ _ error. error ≡ PutMemory };

    fn from(_error: Memory) -> PutError {
        PutError::Memory
    }
}

impl From<Failed> for ReadError {
    ghost from_gives = { λ _ error. error ≡ ReadDisk };

    fn from(_failed: Failed) -> ReadError {
        ReadError::Disk
    }
}

impl From<AllocError> for FetchError {
    ghost from_gives = { λ _ error. error ≡ FetchMemory };

    fn from(_error: AllocError) -> FetchError {
        FetchError::Memory
    }
}

impl From<ReadError> for FetchError {
    ghost from_gives = { λ error made. made ≡ of_read error };

    fn from(error: ReadError) -> FetchError {
        match error {
            ReadError::NoGroup => FetchError::NoGroup,
            ReadError::Disk => FetchError::Disk,
        }
    }
}

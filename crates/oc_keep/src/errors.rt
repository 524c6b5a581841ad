ghost use Rattle.std.specs.Prelude.{◌≡◌};
ghost use Rattle.oc_keep.specs.declared.errors.ReadyError.TheVariants.{Memory as ReadyMemory};
ghost use Rattle.oc_keep.specs.declared.errors.TidyError.TheVariants.{Memory as TidyMemory};
ghost use Rattle.oc_keep.specs.Errors.{cause_of, of_ready, of_commit};

use oc_base::Memory;
use oc_store::{FileError, StoreError};
use std::alloc::AllocError;

/// The cause for which a node was not loaded from its files.
#[derive(Clone, Copy, Debug, PartialEq, Eq)]
pub enum KeepLoad {
    /// A control file was not loaded.
    Store(StoreError),
    /// The content file was not loaded.
    Content(FileError),
    /// Memory ran out for the node.
    Memory,
}

/// The cause for which an input was not taken.
#[derive(Clone, Copy, Debug)]
pub enum KeepError {
    /// A disk failed in an earlier call.
    Closed,
    /// Memory ran out, and nothing was changed.
    Memory,
    /// The file would pass 2^48 bytes, and nothing was changed.
    Full,
    /// A disk failed. The files recover the node before the input or after it.
    Disk,
}

/// The cause for which an input was not made ready.
#[derive(Clone, Copy)]
pub enum ReadyError {
    /// A disk failed in an earlier call.
    Closed,
    /// Memory ran out, and nothing was changed.
    Memory,
    /// A disk failed.
    Disk,
}

/// The cause for which an input that was made ready was not taken.
#[derive(Clone, Copy)]
pub enum CommitError {
    /// The file would pass 2^48 bytes, and nothing was changed.
    Full,
    /// A disk failed. The files recover the node before the input or after it.
    Disk,
}

/// The cause for which the control files were not turned over.
#[derive(Clone, Copy, Debug)]
pub enum TidyError {
    /// A disk failed in an earlier call.
    Closed,
    /// Memory ran out, and nothing was changed.
    Memory,
    /// A disk failed. The files recover the same node.
    Disk,
}

/// The cause for which bytes were not read.
#[derive(Clone, Copy, Debug)]
pub enum KeptRead {
    /// A disk failed in an earlier call.
    Closed,
    /// There is no such group.
    NoGroup,
    /// A disk failed.
    Disk,
}

impl KeepLoad {
    /// The cause, for any of the files.
    pub fn cause(self) -> FileError
        ensures { result ≡ cause_of self }
    {
        match self {
            KeepLoad::Store(error) => error.cause,
            KeepLoad::Content(cause) => cause,
            KeepLoad::Memory => FileError::Memory,
        }
    }
}

impl From<ReadyError> for KeepError {
    ghost from_gives = { λ error made. made ≡ of_ready error };

    fn from(error: ReadyError) -> KeepError {
        match error {
            ReadyError::Closed => KeepError::Closed,
            ReadyError::Memory => KeepError::Memory,
            ReadyError::Disk => KeepError::Disk,
        }
    }
}

impl From<CommitError> for KeepError {
    ghost from_gives = { λ error made. made ≡ of_commit error };

    fn from(error: CommitError) -> KeepError {
        match error {
            CommitError::Full => KeepError::Full,
            CommitError::Disk => KeepError::Disk,
        }
    }
}

impl From<Memory> for ReadyError {
    ghost from_gives = { λ _ error. error ≡ ReadyMemory };

    fn from(_error: Memory) -> ReadyError {
        ReadyError::Memory
    }
}

impl From<AllocError> for ReadyError {
    ghost from_gives = { λ _ error. error ≡ ReadyMemory };

    fn from(_error: AllocError) -> ReadyError {
        ReadyError::Memory
    }
}

impl From<Memory> for TidyError {
    ghost from_gives = { λ _ error. error ≡ TidyMemory };

    fn from(_error: Memory) -> TidyError {
        TidyError::Memory
    }
}

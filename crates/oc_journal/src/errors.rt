ghost use Rattle.std.specs.Prelude.{◌≡◌};
ghost use Rattle.oc_journal.specs.declared.errors.LoadError.TheVariants.{Disk as LoadDisk, Memory as LoadMemory};
ghost use Rattle.oc_journal.specs.declared.errors.FrameError.TheVariants.{Memory as FrameMemory};
ghost use Rattle.oc_journal.specs.declared.errors.FileError.TheVariants.{Memory as FileMemory};
ghost use Rattle.oc_journal.specs.Errors.{of_load, of_frame};

use oc_io::Failed;
use std::alloc::{AllocError, AllocFailed};

/// Why a journal was not loaded.
#[derive(Clone, Copy, Debug, PartialEq, Eq)]
pub enum LoadError {
    /// A call on the disk failed.
    Disk,
    /// The file does not begin with the magic, or an open gate has no whole frame after it.
    NotJournal,
    /// Memory ran out.
    Memory,
}

/// Why a frame was not appended.
#[derive(Clone, Copy, Debug, PartialEq, Eq)]
pub enum AppendError {
    /// A call on the disk failed earlier.
    Closed,
    /// The file would be longer than `MAX_JOURNAL_BYTES`.
    Full,
    /// A call on the disk failed.
    Disk,
}

/// Why a journal was not restarted.
#[derive(Clone, Copy, Debug, PartialEq, Eq)]
pub enum RestartError {
    /// A call on the disk failed earlier.
    Closed,
    /// A call on the disk failed.
    Disk,
}

/// Why a body was not read.
#[derive(Clone, Copy, Debug, PartialEq, Eq)]
pub enum FrameError {
    /// A call on the disk failed.
    Disk,
    /// Memory ran out.
    Memory,
}

/// Why a file was not loaded whose frames have a form of their own, as control records.
#[derive(Clone, Copy, Debug, PartialEq, Eq)]
pub enum FileError {
    /// A call on the disk failed.
    Disk,
    /// The file is no journal.
    NotJournal,
    /// The number of the first frame with a bad form, counted from 0.
    BadFrame(u64),
    /// Memory ran out.
    Memory,
}

impl From<LoadError> for FileError {
    ghost from_gives = { λ error made. made ≡ of_load error };

    fn from(error: LoadError) -> FileError {
        match error {
            LoadError::Disk => FileError::Disk,
            LoadError::NotJournal => FileError::NotJournal,
            LoadError::Memory => FileError::Memory,
        }
    }
}

impl From<FrameError> for FileError {
    ghost from_gives = { λ error made. made ≡ of_frame error };

    fn from(error: FrameError) -> FileError {
        match error {
            FrameError::Disk => FileError::Disk,
            FrameError::Memory => FileError::Memory,
        }
    }
}

impl From<AllocError> for FileError {
    ghost from_gives = { λ _ error. error ≡ FileMemory };

    fn from(_error: AllocError) -> FileError {
        FileError::Memory
    }
}

impl<T: Drop> From<AllocFailed<T>> for FileError {
    ghost from_gives = { λ _ error. error ≡ FileMemory };

    fn from(_error: AllocFailed<T>) -> FileError {
        FileError::Memory
    }
}

impl From<Failed> for LoadError {
    ghost from_gives = { λ _ error. error ≡ LoadDisk };

    fn from(_failed: Failed) -> LoadError {
        LoadError::Disk
    }
}

impl From<AllocError> for LoadError {
    ghost from_gives = { λ _ error. error ≡ LoadMemory };

    fn from(_error: AllocError) -> LoadError {
        LoadError::Memory
    }
}

impl<T: Drop> From<AllocFailed<T>> for LoadError {
    ghost from_gives = { λ _ error. error ≡ LoadMemory };

    fn from(_error: AllocFailed<T>) -> LoadError {
        LoadError::Memory
    }
}

impl From<AllocError> for FrameError {
    ghost from_gives = { λ _ error. error ≡ FrameMemory };

    fn from(_error: AllocError) -> FrameError {
        FrameError::Memory
    }
}

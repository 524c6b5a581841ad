ghost use Rattle.std.specs.Prelude.{◌≡◌};
ghost use Rattle.oc_store.specs.Sides.{opposite};

use oc_journal::FileError;
use std::error::Error;
use std::fmt;

/// One of the two control files.
#[derive(Clone, Copy, Debug, PartialEq, Eq)]
pub enum Side {
    First,
    Second,
}

/// Why a store was not loaded, and which of its files was refused.
#[derive(Clone, Copy, Debug, PartialEq, Eq)]
pub struct StoreError {
    /// The file that was refused.
    pub side: Side,
    pub cause: FileError,
}

impl fmt::Display for StoreError {
    fn fmt<W: fmt::Write>(&self, f: &mut fmt::Formatter<W>) -> fmt::Result {
        let side = self.side;
        match self.cause {
            FileError::Disk => write!(f, "a call on a disk failed"),
            FileError::NotJournal => write!(f, "the {side} control file is no journal"),
            FileError::BadFrame(number) => {
                write!(
                    f,
                    "frame {number} of the {side} control file is no list of records"
                )
            }
            FileError::Memory => write!(f, "out of memory"),
        }
    }
}

impl Error for StoreError {}

impl Side {
    /// The opposite side.
    pub fn opposite(self) -> Side
        ensures { result ≡ opposite self }
    {
        match self {
            Side::First => Side::Second,
            Side::Second => Side::First,
        }
    }
}

impl fmt::Display for Side {
    fn fmt<W: fmt::Write>(&self, f: &mut fmt::Formatter<W>) -> fmt::Result {
        match self {
            Side::First => write!(f, "first"),
            Side::Second => write!(f, "second"),
        }
    }
}

ghost use Rattle.std.specs.Prelude.{◌≡◌};
ghost use Rattle.oc_io.specs.Faults.{NoFall, Rose};

use crate::trouble::Trouble;
use oc_io::Failed;
use std::alloc::Global;
use std::io;

/// The number of calls that failed, and the last of them.
#[derive(Drop)]
pub(crate) struct Failures {
    pub(crate) count: u64,
    last: LastFailure,
}

impl Failures {
    /// No failures so far.
    pub(crate) fn new(alloc: Global) -> Failures
        ensures { result.count ≡ 0 }
    {
        Failures {
            count: 0,
            last: LastFailure::none(alloc),
        }
    }

    /// Counts a call that failed, and keeps its address and its error.
    pub(crate) fn keep(&mut self, address: &str, error: io::Error) -> Failed
        ensures count { NoFall self.old.count self.new.count }
        ensures cause { Rose self.old.count self.new.count }
    {
        self.last.keep(address, error);
        self.count = self.count.saturating_add(1);
        Failed
    }

    /// The reason of the last failure, if it was kept.
    pub(crate) fn trouble(&self) -> Option<Trouble<'_>> {
        self.last.trouble()
    }
}

/// The address and the error of the last call that failed, if there was memory to keep them.
#[derive(Drop)]
pub(crate) struct LastFailure {
    place: String,
    error: Option<io::Error>,
}

impl LastFailure {
    /// No failure so far.
    pub(crate) fn none(alloc: Global) -> LastFailure {
        LastFailure {
            place: String::new(alloc),
            error: None,
        }
    }

    /// Keeps the address and the error of a call that failed.
    pub(crate) fn keep(&mut self, address: &str, error: io::Error) {
        self.place.clear();
        self.error = match self.place.push_str(address) {
            Ok(()) => Some(error),
            Err(_) => None,
        };
    }

    /// The reason of the failure, if it was kept.
    pub(crate) fn trouble(&self) -> Option<Trouble<'_>> {
        match self.error {
            Some(error) => Some(Trouble {
                place: self.place.as_str(),
                error,
            }),
            None => None,
        }
    }
}

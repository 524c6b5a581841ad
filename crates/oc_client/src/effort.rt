//! The next step of a client that publishes, given the last answer.

ghost use Rattle.std.specs.Prelude.{◌≡◌};
ghost use Rattle.oc_client.specs.Efforts.{asks, behind_of, next_of, tried_again, may_try, end_of_failure, weighed, behind_failure};

use crate::answer::{Failure, PutAnswer};
use crate::put_end::PutEnd;

/// The number of failures that end a publishing, counted since a load was last taken.
pub(crate) const MAX_FAILURES: u8 = 5;

/// The purpose of the next request.
#[derive(Clone, Copy)]
pub(crate) enum Doing {
    /// A query for the length of the group.
    Finding,
    /// Bytes for the group, from the position `at` up to `behind`.
    Posting {
        at: u64,
        behind: u64,
        /// Whether an earlier try had no answer.
        tried: bool,
    },
    /// A query for the length of the group, to find out whether an earlier try was taken.
    Checking {
        at: u64,
        behind: u64,
    },
}

impl Doing {
    /// Whether the next request is a query for the length.
    pub(crate) fn asks(self) -> bool
        ensures { result ≡ asks self }
    {
        match self {
            Doing::Posting { .. } => false,
            Doing::Finding | Doing::Checking { .. } => true,
        }
    }

    /// The position in the group where the bytes to send end.
    fn behind(self) -> u64
        ensures { result ≡ behind_of self }
    {
        match self {
            Doing::Finding => 0,
            Doing::Posting { behind, .. } | Doing::Checking { behind, .. } => behind,
        }
    }

    /// The purpose of the next request after one without an answer.
    fn behind_failure(self) -> Doing
        ensures { result ≡ behind_failure self }
    {
        match self {
            Doing::Posting { at, behind, .. } => Doing::Checking { at, behind },
            other => other,
        }
    }
}

/// The next request of a client, with the number of failures before it.
#[derive(Clone, Copy)]
pub(crate) struct Effort {
    pub(crate) doing: Doing,
    /// The number of requests without an answer since a load was last taken.
    pub(crate) failures: u8,
}

/// The length of the group that a client has reached.
#[derive(Clone, Copy)]
pub(crate) struct Progress {
    /// The length of the group, in bytes.
    pub(crate) length: u64,
    /// The number of requests without an answer since a load was last taken.
    pub(crate) failures: u8,
}

/// The step that an answer leads to.
#[derive(Clone, Copy)]
pub(crate) enum Next {
    /// Another request is needed.
    Again(Effort),
    /// The goal of the requests is reached.
    Settled(Progress),
    /// The publishing ends.
    Ended(PutEnd),
}

/// The result of an answer or of a failure.
pub(crate) fn react(effort: Effort, answer: Result<PutAnswer, Failure>) -> Next
    ensures { result ≡ next_of effort answer }
{
    match answer {
        Err(failure) => try_again(effort, failure),
        Ok(PutAnswer::Taken) => Next::Settled(Progress {
            length: effort.doing.behind(),
            failures: 0,
        }),
        Ok(PutAnswer::Length(length)) => weigh(effort, length),
        Ok(PutAnswer::Refused(status)) => Next::Ended(PutEnd::Refused(status)),
    }
}

/// The result of a failure.
fn try_again(effort: Effort, failure: Failure) -> Next
    ensures { result ≡ tried_again effort failure }
{
    if !may_try(failure, effort.failures) {
        return Next::Ended(end_of_failure(failure));
    }
    Next::Again(Effort {
        doing: effort.doing.behind_failure(),
        failures: effort.failures + 1,
    })
}

/// Whether another try is made after a failure, given the number of failures before it.
fn may_try(failure: Failure, count: u8) -> bool
    ensures { result ≡ may_try failure count }
{
    match failure {
        Failure::Memory => false,
        Failure::Link | Failure::Reply | Failure::Unavailable => count < MAX_FAILURES - 1,
    }
}

/// The end of a publishing that a failure brings.
fn end_of_failure(failure: Failure) -> PutEnd
    ensures { result ≡ end_of_failure failure }
{
    match failure {
        Failure::Link => PutEnd::Link,
        Failure::Reply => PutEnd::Reply,
        Failure::Unavailable => PutEnd::Refused(503),
        Failure::Memory => PutEnd::Memory,
    }
}

/// The result of an answer that gives the length of the group.
fn weigh(effort: Effort, length: u64) -> Next
    ensures { result ≡ weighed effort length }
{
    match effort.doing {
        Doing::Finding => Next::Settled(Progress {
            length,
            failures: effort.failures,
        }),
        Doing::Posting { behind, tried, .. } => {
            if tried && length == behind {
                Next::Settled(Progress {
                    length,
                    failures: 0,
                })
            } else {
                Next::Ended(PutEnd::Length(length))
            }
        }
        Doing::Checking { at, behind } => {
            if length == at {
                Next::Again(Effort {
                    doing: Doing::Posting {
                        at,
                        behind,
                        tried: true,
                    },
                    failures: effort.failures,
                })
            } else if length == behind {
                Next::Settled(Progress {
                    length,
                    failures: 0,
                })
            } else {
                Next::Ended(PutEnd::Length(length))
            }
        }
    }
}

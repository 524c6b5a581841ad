use crate::fault::ReportFault;
use oc_base::Why;
use oc_io::ReadFault;
use oc_schedule::{ScheduleFault, What};

/// The end of a replay.
#[derive(Clone, Copy, Debug, PartialEq, Eq)]
pub enum ReplayEnd {
    /// The whole report, or the whole summary, was written.
    Done,
    /// A line of the schedule, counted from 1, is refused for this reason.
    Text { line: u32, why: Why },
    /// The schedule exceeds a limit.
    Limit(What),
    /// A call on the source failed.
    Source,
    /// A call on the sink failed.
    Sink,
    /// Memory ran out.
    Memory,
}

impl From<ReadFault> for ReplayEnd {
    ghost use Rattle.std.specs.Prelude.{◌≡◌};
    ghost use Rattle.oc_replay.specs.Ends.{end_of_reading};

    ghost from_gives = { λ fault end. end ≡ end_of_reading fault };

    fn from(fault: ReadFault) -> ReplayEnd {
        match fault {
            ReadFault::Failed => ReplayEnd::Source,
            ReadFault::TooMany => ReplayEnd::Limit(What::Bytes),
            ReadFault::Memory => ReplayEnd::Memory,
        }
    }
}

impl From<ScheduleFault> for ReplayEnd {
    ghost use Rattle.std.specs.Prelude.{◌≡◌};
    ghost use Rattle.oc_replay.specs.Ends.{end_of_schedule};

    ghost from_gives = { λ fault end. end ≡ end_of_schedule fault };

    fn from(fault: ScheduleFault) -> ReplayEnd {
        match fault {
            ScheduleFault::Line { line, why } => ReplayEnd::Text { line, why },
            ScheduleFault::Limit(what) => ReplayEnd::Limit(what),
            ScheduleFault::Memory => ReplayEnd::Memory,
        }
    }
}

impl From<ReportFault> for ReplayEnd {
    ghost use Rattle.std.specs.Prelude.{◌≡◌};
    ghost use Rattle.oc_replay.specs.Ends.{end_of_report};

    ghost from_gives = { λ fault end. end ≡ end_of_report fault };

    fn from(fault: ReportFault) -> ReplayEnd {
        match fault {
            ReportFault::Sink => ReplayEnd::Sink,
            ReportFault::Memory => ReplayEnd::Memory,
        }
    }
}

ghost use Rattle.std.specs.Prelude.{◌≡◌};
ghost use Rattle.oc_replay.specs.declared.fault.ReportFault.TheVariants.{Sink as SinkFailed, Memory as NoMemory};

use oc_base::Memory;
use oc_io::Failed;

/// The reason why a report was not written to its end.
#[derive(Clone, Copy, Debug, PartialEq, Eq)]
pub enum ReportFault {
    /// A call on the sink failed.
    Sink,
    /// Memory ran out.
    Memory,
}

impl From<Failed> for ReportFault {
    ghost from_gives = { λ _ fault. fault ≡ SinkFailed };

    fn from(_failed: Failed) -> ReportFault {
        ReportFault::Sink
    }
}

impl From<Memory> for ReportFault {
    ghost from_gives = { λ _ fault. fault ≡ NoMemory };

    fn from(_memory: Memory) -> ReportFault {
        ReportFault::Memory
    }
}

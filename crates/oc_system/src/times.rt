use std::rt::Clock;
use std::time::Duration;

/// The system's monotonic clock, which no change of the time of day sets back. If the system does
/// not give the time, the last time is kept.
#[derive(Drop)]
pub(crate) struct Watch {
    last: Duration,
}

impl Watch {
    pub(crate) fn new() -> Watch {
        Watch {
            last: Duration::ZERO,
        }
    }

    /// The time since a moment of the system's choice.
    pub(crate) fn read<R: Clock>(&mut self, rt: &R) -> Duration {
        if let Ok(time) = rt.monotonic() {
            self.last = time;
        }
        self.last
    }

    /// The time since a moment of the system's choice, in milliseconds.
    pub(crate) fn millis<R: Clock>(&mut self, rt: &R) -> u64 {
        u64::try_from(self.read(rt).as_millis()).unwrap_or(u64::MAX)
    }
}

/// The end of a time limit, in milliseconds: in all, and without progress.
#[derive(Clone, Copy)]
pub(crate) struct Deadline {
    end: u64,
    pause: u64,
    pause_end: u64,
}

impl Deadline {
    /// No time limit.
    pub(crate) fn never() -> Deadline {
        Deadline {
            end: u64::MAX,
            pause: u64::MAX,
            pause_end: u64::MAX,
        }
    }

    /// A limit of `time` from now on.
    pub(crate) fn after(now: u64, time: u64) -> Deadline {
        Deadline {
            end: now.saturating_add(time),
            pause: u64::MAX,
            pause_end: u64::MAX,
        }
    }

    /// The same limit, and a limit of `pause` without progress.
    pub(crate) fn with_pause(self, now: u64, pause: u64) -> Deadline {
        Deadline {
            end: self.end,
            pause,
            pause_end: now.saturating_add(pause),
        }
    }

    /// Notes progress.
    pub(crate) fn progress(&mut self, now: u64) {
        self.pause_end = now.saturating_add(self.pause);
    }

    /// Whether the time has run out.
    pub(crate) fn is_over(&self, now: u64) -> bool {
        now >= self.end || now >= self.pause_end
    }
}

use oc_client::Pause;
use std::rt::Clock;
use std::thread;
use std::time::{Duration, SystemTime, UNIX_EPOCH};

/// The pause of one second before a client tries again, by the clock of the system.
#[derive(Drop)]
pub(crate) struct Second<'a, R> {
    rt: &'a R,
}

impl<'a, R: Clock> Second<'a, R> {
    pub(crate) fn new(rt: &'a R) -> Second<'a, R> {
        Second { rt }
    }
}

impl<R: Clock> Pause for Second<'_, R> {
    fn pause(&mut self) {
        thread::sleep(self.rt, Duration::from_secs(1));
    }
}

/// The time of the system's clock, in seconds since 1970; 0 where it gives none.
pub(crate) fn since_1970<R: Clock>(rt: &R) -> u64 {
    let Ok(now) = SystemTime::now(rt) else {
        return 0;
    };
    match now.duration_since(UNIX_EPOCH) {
        Ok(time) => time.as_secs(),
        Err(_) => 0,
    }
}

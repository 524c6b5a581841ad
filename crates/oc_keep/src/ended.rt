use crate::errors::{KeepError, KeepLoad};

/// The result of a trial.
#[derive(Clone, Copy)]
pub struct Trial {
    /// The number of inputs that were taken.
    pub done: u64,
    pub end: TrialEnd,
}

/// The end of a trial.
#[derive(Clone, Copy, Debug)]
pub enum TrialEnd {
    /// All inputs were taken.
    All,
    /// The node was not loaded.
    Load(KeepLoad),
    /// An input was refused.
    Take(KeepError),
}

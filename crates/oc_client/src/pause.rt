/// The wait of a client between a failure and the next try.
pub trait Pause {
    /// Waits a second.
    fn pause(&mut self);
}

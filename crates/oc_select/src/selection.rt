/// What a request selects of a content.
#[derive(Clone, Copy, Debug, PartialEq, Eq)]
pub enum Selection {
    /// All of it, with 200.
    Whole,
    /// So many bytes of it from a place on, at least one, with 206.
    Part { start: u64, count: u64 },
    /// Nothing, since the client has it: 304.
    NotModified,
    /// Nothing, since a condition does not hold: 412.
    PreconditionFailed,
    /// Nothing, since it has no byte of the range: 416.
    Unsatisfiable,
}

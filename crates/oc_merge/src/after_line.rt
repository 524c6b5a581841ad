/// A node after a line of its record.
#[derive(Drop)]
pub(crate) struct AfterLine<A> {
    /// The node; none if its state is unknown from here on.
    pub node: Option<A>,
    /// Whether the line is kept. Only the lines of inputs that were not taken are left out.
    pub there: bool,
}

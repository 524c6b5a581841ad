/// The end of a merge.
#[derive(Clone, Copy, Debug, PartialEq, Eq)]
pub enum MergeEnd {
    /// Every line was taken.
    Whole,
    /// The node of this line, a start, does not have the files that its record tells.
    State { line: u32 },
    /// The message of this line was not sent.
    Unsent { line: u32 },
}

use crate::progress_lines::ProgressLines;

/// The side effects of a publishing: pauses after failures, and lines that give the number of bytes
/// of the input in the group.
#[derive(Drop)]
pub struct Aside<P, E> {
    pub pause: P,
    pub lines: ProgressLines<E>,
}

/// The place of a reading between the lines.
#[derive(Clone, Copy, Debug)]
pub enum Place {
    /// Before the first header.
    Outside,
    /// After a header, with its areas.
    Opened,
    /// Directly after the start of this node.
    Begun(u32),
    /// In the record of this node.
    Within(u32),
}

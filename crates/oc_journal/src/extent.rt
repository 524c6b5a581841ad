/// The place of a frame's body in the file: its offset, and its length in bytes.
#[derive(Clone, Copy, Debug)]
pub struct Extent {
    pub at: u64,
    pub len: u32,
}

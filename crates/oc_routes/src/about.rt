/// The program that runs a node, and the file of its configuration.
#[derive(Clone, Copy, Debug)]
pub struct About {
    /// The version of the program.
    pub version: &'static str,
    /// The start of the program, in seconds since 1970 by the clock of the system.
    pub started: u64,
    /// Whether the file was refused when it was read last: a start with it would fail, or is needed.
    pub refused: bool,
}

//! The paths of a node that name no group: the name of a group has no `!`.

/// The path to which nodes post messages.
pub const MESSAGE_PATH: &str = "/!overcast";

/// The path of the content by which rates are measured.
pub const PROBE_PATH: &str = "/!probe";

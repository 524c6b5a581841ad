//! The limits of the parts of a chunked text.

/// The greatest size of a chunk that is read, in bytes: 2^30.
pub const MAX_CHUNK_SIZE: u64 = 1_073_741_824;

/// The greatest length of a size line in bytes, its line end included.
pub const MAX_SIZE_LINE_BYTES: usize = 1_024;

/// The greatest number of bytes of the trailer fields and their empty line.
pub const MAX_TRAILER_BYTES: usize = 8_192;

/// The number of trailer fields for which `httparse` has room: more than `MAX_TRAILER_BYTES` can
/// hold, since each takes three bytes.
pub(crate) const FIELD_ROOM: usize = 2_731;

/// The size in bytes of each chunk that is written, except the last.
pub(crate) const WRITTEN_BYTES: usize = 4_096;

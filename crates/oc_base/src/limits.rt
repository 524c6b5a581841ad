//! All limits of the system, each in one place. Definitions cite these names, and texts print their values.

// The network

/// The greatest number of nodes; their ids are 1 to their number.
pub const MAX_NODES: u32 = 1_024;

/// The greatest number of chain members, the nodes that can act as root.
pub const MAX_CHAIN: u32 = 16;

/// The greatest rank depth of a node that has a parent.
pub const MAX_DEPTH: u32 = 1_000;

/// The greatest number of ancestors of a node.
pub const MAX_ANCESTORS: usize = 1_000;

/// The greatest number of certificates in a check-in.
pub const MAX_CHECK_IN_CERTS: usize = 64;

/// The greatest area of a node.
pub const MAX_AREA: u8 = 255;

/// The greatest number of hops to a peer.
pub const MAX_HOPS: u8 = 255;

/// The greatest rate, in bytes per second: 2^40.
pub const MAX_RATE: u64 = 1_099_511_627_776;

/// The greatest time that a schedule or a running node tells, in seconds: 2^40.
pub const MAX_TIME: u64 = 1_099_511_627_776;

/// The last second of a node's clock: 2^41.
pub const LAST_SECOND: u64 = 2_199_023_255_552;

/// The greatest acknowledged count of a `Base` record: 2^62.
pub const MAX_BASE_ACKED: u64 = 4_611_686_018_427_387_904;

/// The greatest length of a change log at which a node takes a step: 2^62 + 2^48.
pub const MAX_LOG_LENGTH: u64 = 4_611_967_493_404_098_560;

// Content

/// The least and the greatest number of bytes of a group's name.
pub const MIN_NAME_BYTES: usize = 2;

pub const MAX_NAME_BYTES: usize = 200;

/// The greatest number of groups of a node.
pub const MAX_GROUPS: usize = 64;

/// The greatest number of bytes of a group: 2^40.
pub const MAX_GROUP_BYTES: u64 = 1_099_511_627_776;

/// The greatest number of bytes of one publish.
pub const MAX_PUBLISH_BYTES: usize = 1_000_000;

/// The greatest number of bytes of a chunk that goes from node to node, in any network.
pub const MAX_CHUNK_BYTES: usize = 524_288;

/// The greatest number of bytes of a chunk, in a network whose schedule names no other number.
pub const USUAL_CHUNK_BYTES: u32 = 4_096;

/// The greatest offset, in bytes, from which a client can ask for a group: 2^40.
pub const MAX_START: u64 = 1_099_511_627_776;

// Files

/// The greatest number of bytes of a frame's body.
pub const MAX_FRAME_BYTES: usize = 1_048_576;

/// The greatest number of records of a frame.
pub const MAX_FRAME_RECORDS: usize = 4_096;

/// The greatest number of bytes of a journal, 2^48: enough for the content of as many full groups as a
/// node may hold.
pub const MAX_JOURNAL_BYTES: u64 = 281_474_976_710_656;

/// The size in bytes past which a node writes a snapshot to the other control file.
pub const DUE_BYTES: u64 = 262_144;

// Schedules

/// The greatest number of lines of a schedule.
pub const MAX_SCHEDULE_LINES: u32 = 100_000;

/// The greatest number of bytes of a schedule or a configuration.
pub const MAX_SCHEDULE_BYTES: usize = 67_108_864;

/// The greatest number of bytes in all publish lines of a schedule together.
pub const MAX_SCHEDULE_PUBLISHED: usize = 262_144;

/// The greatest number of `settle` and `heal` lines of a schedule together.
pub const MAX_SCHEDULE_SETTLES: u32 = 16;

// HTTP

/// The greatest number of bytes of the head of a request or a reply.
pub const MAX_HEAD_BYTES: usize = 8_192;

/// The greatest number of fields of a head.
pub const MAX_FIELDS: usize = 64;

/// The greatest number of bytes of a request's body.
pub const MAX_BODY_BYTES: u64 = 1_000_000;

/// The greatest number of bytes of the content of a reply without a given length: 2^40.
pub const MAX_CONTENT_BYTES: u64 = 1_099_511_627_776;

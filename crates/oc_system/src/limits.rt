//! The limits of the sockets and files. No contract mentions them. Times are in milliseconds.

use oc_base::{MAX_BODY_BYTES, MAX_HEAD_BYTES, MAX_SCHEDULE_BYTES};

/// The greatest numbers of connections and of dials at one time.
pub(crate) const PLACES: usize = 1_024;

pub(crate) const DIALS: usize = 32;

/// The greatest length of a request, in bytes: of its head and its body together.
pub(crate) const MOST_MESSAGE: usize = MAX_HEAD_BYTES + MAX_BODY_BYTES as usize;

/// The length in bytes above which a request is large, and the number of large requests read at
/// once: so a thousand clients with long bodies don't take a gigabyte. The bytes of the others wait
/// in their sockets.
pub(crate) const LARGE_BYTES: usize = 65_536;

pub(crate) const MOST_LARGE: usize = 64;

/// The bytes of a large request that earn a millisecond more. A large request for whose place
/// another one waits keeps it for `HEAD_MILLIS` and the time that its bytes earn. So a slow sender
/// holds no place for long, and 128 kbit/s are always enough.
pub(crate) const LARGE_BYTES_A_MILLI: u64 = 16;

/// The number of unsent bytes of replies from which the next request of a connection waits, and
/// what comes of it waits in the socket. A client that asks on and reads nothing is held up so.
pub(crate) const MOST_AHEAD: usize = 262_144;

/// The greatest number of bytes that a connection was given and that did not go out: those before
/// its last request, and 524,288 of the last reply. No single write has many more, and bytes that
/// the socket takes at once are not counted.
pub(crate) const MOST_UNSENT: usize = MOST_AHEAD + 524_288;

/// The length in bytes of the send buffer that the system is asked for. The system's own choice
/// grows to several MB, and would hide for minutes whether a slow reader takes anything.
pub(crate) const SEND_BUFFER: i32 = 262_144;

/// The length in bytes up to which a reply has gone out for good once the socket took it: such a
/// reply fits the window that a peer accepts before it acknowledges anything.
pub(crate) const SHORT_REPLY: usize = 16_384;

/// The time for which bytes on a connection that ends are read and dropped, and the greatest number
/// of those bytes. A sender of a body that is too long has a while to end it, and finds the reply
/// then.
pub(crate) const LINGER_MILLIS: u64 = 2_000;

pub(crate) const LINGER_BYTES: usize = 1_048_576;

/// The time for a head, from the beginning of a connection or from the end of its last reply.
pub(crate) const HEAD_MILLIS: u64 = 10_000;

/// The times for a body: without progress, and in all.
pub(crate) const BODY_PAUSE_MILLIS: u64 = 10_000;

pub(crate) const BODY_MILLIS: u64 = 300_000;

/// The time for a reply without progress.
pub(crate) const REPLY_PAUSE_MILLIS: u64 = 120_000;

/// The times for a dial: for the connection to one address, without progress, for the beginning of
/// the reply, and in all. Between the last byte of the request and the first byte of the reply no
/// progress is asked for.
pub(crate) const CONNECT_MILLIS: u64 = 2_000;

pub(crate) const DIAL_PAUSE_MILLIS: u64 = 10_000;

pub(crate) const BEGIN_MILLIS: u64 = 25_000;

pub(crate) const DIAL_MILLIS: u64 = 300_000;

/// The time for which the connection of a dial is kept for the next one to its address, and the
/// greatest number of connections that are kept. A node closes a connection that asks nothing after
/// `HEAD_MILLIS`, so a kept one is given up before.
pub(crate) const SPARE_MILLIS: u64 = 8_000;

pub(crate) const MOST_SPARE: usize = 32;

/// The time in which the peer's system has to acknowledge what is sent on a kept connection. A new
/// connection shows in `CONNECT_MILLIS` that a peer has vanished, and so a kept one has to.
pub(crate) const ACKNOWLEDGE_MILLIS: i32 = 2_000;

/// The times for a call of a client: in all, since a node may keep a client that follows waiting
/// for ten seconds; and for one address of a name, so that there is time for the next one.
pub(crate) const CALL_MILLIS: u64 = 40_000;

pub(crate) const ADDRESS_MILLIS: u64 = 10_000;

/// The greatest number of addresses of one name that a dial of a node tries.
pub(crate) const MOST_ADDRESSES: usize = 16;

/// The time for which bytes are still sent after the last turn of a run.
pub(crate) const FINISH_MILLIS: u64 = 2_000;

/// The time between two looks for connections and dials whose time has run out.
pub(crate) const SWEEP_MILLIS: u64 = 100;

/// The time for which no connection is accepted after accepting one failed for a cause that does
/// not pass at once, such as a system without free files where no connection could give way.
pub(crate) const SHUT_MILLIS: u64 = 50;

/// The number of places looked at before the system is asked again which sockets are ready. So a
/// crowd of busy places keeps no new connection waiting.
pub(crate) const MOST_IN_A_ROW: u32 = 16;

/// The number of connections accepted before the present ones are looked at again.
pub(crate) const MOST_ACCEPTED: u32 = 64;

/// The number of reads of one connection before others are looked at.
pub(crate) const MOST_READS: u32 = 32;

/// The greatest number of tries of a call, as long as it is interrupted or its bytes are not all
/// written; and of a wait.
pub(crate) const MOST_TRIES: u32 = 1_000_000;

/// The length of the block that is taken and given back before anything else (`warm_memory`), in bytes.
pub(crate) const WARM_BYTES: usize = 16_777_216;

/// The number of events that one wait gives, and the length in bytes of a buffer into which sockets
/// are read.
pub(crate) const EVENTS: usize = 512;

pub(crate) const PIECE: usize = 65_536;

/// The number of fields for which there is room: more than `MAX_HEAD_BYTES` can hold, since each
/// takes three bytes.
pub(crate) const FIELD_ROOM: usize = 2_731;

/// The length in bytes of a page of a file, or of a part of one; and the greatest number of pages
/// written again after a failed sync, which is more than two syncs have between them.
pub(crate) const PAGE: u64 = 4_096;

pub(crate) const MOST_PAGES: u32 = 4_096;

/// The time between two looks at the file of a configuration.
pub(crate) const LOOK_MILLIS: u64 = 5_000;

/// The number of bytes from which a configuration is not read on: more than one may have.
pub(crate) const MOST_CONFIG: usize = MAX_SCHEDULE_BYTES + 1;

/// The number of reads of such a file, each of a piece, after which it is given up.
pub(crate) const CONFIG_READS: usize = 65_536;

//! A journal of frames that survives a crash at any moment.
//!
//! The file is a magic and then gates. After an open gate come a length, a body and the next gate. The
//! frames are the bodies up to the first gate that is not open. These are the bytes of a journal with
//! the frames `ab` and `c`:
//!
//! ```text
//! offset  0         8  9           13   15 16          20  21
//!        +---------+--+-----------+----+--+-----------+---+--+- - - -
//!        | OVERCST1| 1| 0, 0, 0, 2| a b| 1| 0, 0, 0, 1| c | 0| stale
//!        +---------+--+-----------+----+--+-----------+---+--+- - - -
//!         magic   gate length      body gate length   body gate
//! ```
//!
//! A gate is open exactly if its byte is 1. A frame is written after the closed gate and made durable
//! before the gate is opened, and the open gate is made durable too. Bytes after the last gate are not
//! part of any frame.
//!
//! A contract sees a [`Journal`] as its disk, the bodies of its frames, the offset of their end, the
//! number of further frames for which its index has memory, and whether it is closed. `specs/Promises`
//! names the promises of each call. The layers above rely on these: over every honest disk, after `load`
//! the frames are those that a read gave and every crash leaves them; after an `append` that answered Ok
//! every crash leaves the new frame too; at every moment of an `append` each image has the old frames,
//! with or without the new one; at every moment of a `restart` the old frames or none; and at every
//! moment of a `load` the frames of an image at its start. After a failed call of the disk the journal is
//! closed. Over a reliable disk with the room no call fails.
//!
//! `load` finds the frames by one read at each gate. `frame` and `peek` then make one read of the
//! disk. `append` takes no memory and makes four calls of `write_at` and `sync`: it writes the frame
//! after the closed gate and then the gate, each by [`write_safely`], a write and a sync. So at every
//! moment a crash leaves the frame complete after an open gate, or a gate that is not open. The number
//! of successful calls decides between the two, and after three of them also the byte that the crash
//! leaves as the gate: [`is_kept_new`].
#![tactic(auto)]

mod errors;
mod extent;
mod frame;
mod journal;
mod loading;
mod safely;
mod stopped;
mod stops;
mod synced;

pub use errors::{AppendError, FileError, FrameError, LoadError, RestartError};
pub use frame::{Frame, FrameFault};
pub use journal::Journal;
pub use stops::is_kept_new;
pub use synced::write_safely;

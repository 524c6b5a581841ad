//! The control state of a node in two journals: a commit survives a crash at any moment, and the files do
//! not grow without end.
//!
//! Each of the two control files is a journal whose frames are lists of control records. The current file
//! is the one of the greater generation, or the first at a tie; the generation is that of the snapshot
//! record that begins its first frame. A commit appends a frame to the current file. When that file is
//! long, the store turns over: it writes a snapshot with a greater generation to the other file, as its
//! only frame, and at that moment the other file becomes the current one.
//!
//! `specs/ControlFiles` defines the current file and the records that the two recover, `specs/StoreView`
//! the view of a [`Store`] in contracts, and `specs/Promises` the promises of each call.
//!
//! The contracts that the crates above use speak of the list of all records, over every image of both
//! files: a commit adds its frame, and at every moment each image has it or not; at every moment of a turn
//! each image recovers the old list or that of the snapshot, and a refusal leaves the current side and the
//! generation.
#![tactic(auto)]

mod errors;
mod framing;
mod generation;
mod law;
mod loading;
mod store;
mod turning;

pub use errors::{Side, StoreError};
pub use law::{
    files_are_those_of_more_nodes, frames_add_their_records, generations_are_of_snapshots,
};
pub use oc_journal::{AppendError, FileError, Frame, RestartError};
pub use oc_record::Record;
pub use store::Store;

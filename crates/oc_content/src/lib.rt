//! The content log: the bytes of groups and their seals, in the frames of a journal.
//!
//! The body of a frame is an entry: these bytes at the end of this group, and perhaps its seal
//! (`specs/Entries`). The meaning of all frames together is one definition, `content_of`: the groups
//! ascending by name, each with its bytes and its seal, or none where a frame is not allowed in its
//! place.
//!
//! A contract sees a [`Content`] as its journal, the line of each group, and the number of further
//! frames of each group for which its index has memory. The layers above rely on these: over every
//! honest disk the lines are those of the frames; [`Content::prepare`] takes all memory and refuses bytes
//! that may not be put; [`Content::commit`] takes no memory and appends the bytes past the present ones,
//! the seal, and nothing else; the journal promises what a crash leaves; and [`Content::read`] gives the
//! bytes of the group.
//!
//! The index has, for each group, the frames with its bytes. [`Content::spot`] finds a byte by binary
//! search, and `read` makes one read of the disk for each frame concerned.
//!
//! A peer that copies a group fetches one piece after another. [`Content::fetch`] hands such pieces out, each
//! in a buffer of its own, and [`Content::read_ahead`] reads the next one before the peer asks for it.
#![tactic(auto)]

mod ahead;
mod committing;
mod content;
mod entry_lines;
mod errors;
mod frame_reads;
mod group_state;
mod heading;
mod index;
mod indexing;
mod law;
mod piece;
mod putting;
mod spot;
mod track;

pub use content::Content;
pub use errors::{FetchError, PutError, ReadError};
pub use group_state::past;
pub use law::{bodies_say_their_entry, groups_are_their_pieces};
pub use oc_base::Shelf;
pub use oc_journal::{AppendError, FileError};
pub use piece::Piece;
pub use putting::NewBytes;
pub use spot::Spot;

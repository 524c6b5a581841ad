//! A schedule of events, played on a stage and written as a report or as a summary, and the digest of a node's files.
//!
//! The layer above uses [`replay`]. Over a stage of any type, and over any source and sink, it ends with `Done`
//! only where all input came and is a schedule s, the bytes that the sink took are exactly `report_of` s, or
//! with `summary` its `summary_of`, and the stage is at the last world of s. With `Text` and `Limit` it names
//! the first fault of the text, with `Source` and `Sink` the count of faults of that one rose, and where there
//! is no schedule nothing is written and the stage is as it was.
//!
//! A [`Stage`] shows a world of the model and plays on it by the model's own functions:
//! `new_world`, `next_world` and `word_of`. So the report is that of the model, whatever the type
//! of the stage.
//!
//! `specs/Report` defines the report of a run and its order, `specs/Lines` the lines of a report,
//! `specs/Bodies` the text of messages and `specs/Shows` the state of a node; [`show_text`] and
//! [`held_text`] show one node in the same words. `specs/Summary` has the counts of a world,
//! `specs/Replay` the output for a schedule, `specs/Pieces` the writing of a part of a text, and
//! `specs/Ends` the properties at each end. The text is gathered in one buffer, which is written
//! and used again whenever it has reached 64 KiB.
//!
//! [`files_text`] is the content of a node's files, as bytes: the records of its control part, and
//! after them the lines of [`held_text`], with the length and the seal of each group.
//! [`put_digest`] appends the SHA-256 of these (`specs/Digests`): two nodes with the same number,
//! among equally many nodes, have the same digest if all these are equal. The record of a running
//! node begins with the digest ([`put_has_line`]), so a reader of the record can identify the files
//! that the node had.
#![tactic(auto)]

mod bodies;
mod digest;
mod end;
mod fault;
mod items;
mod law;
mod lines;
mod pieces;
mod playing;
mod replaying;
mod reporting;
mod show;
mod stage;
mod summing;
mod texts;

pub use bodies::put_rank_or_dash;
pub use digest::{DIGEST_DIGITS, files_text, put_digest, put_has_line};
pub use end::ReplayEnd;
pub use law::examples_are_told;
pub use lines::{held_text, put_answer};
pub use replaying::replay;
pub use show::{put_mode, show_text};
pub use stage::{Said, Stage};

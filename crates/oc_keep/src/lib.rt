//! A node on its three files: nothing that was acknowledged is lost.
//!
//! A [`Kept`] is a node with its two control files and its content file. [`Kept::load`] makes the node that
//! [`Files`] recover, and starts it; [`Kept::load_among`] makes one whose files may tell of fewer nodes than its network
//! has room for, so that more may come while it runs. [`Kept::take`] takes one input: all memory first, then at most one frame of
//! one file, then the change of the node, and only then the messages. [`Kept::tidy`] puts a snapshot in the place
//! of all control records, where the current file is long. [`status_of`] is the status of the node that a replay
//! and `check` show.
//!
//! `specs/Files` defines the node that three files recover, and when a node survives every crash; `specs/KeptView`
//! the view of a [`Kept`] in contracts; `specs/Calls` the effect of each call, also where the call fails.
//!
//! The layers above rely on this: a take is the step of the model, and at its end every crash leaves the node after
//! the step; a crash at any moment leaves the node before the input or after it, and at any moment of a load, a
//! tidy or a read the same node. [`Kept::recovers`] gives the properties between calls. So any number of
//! interrupted [`trial`]s in a row loses nothing that was answered with `Ok`.
#![tactic(auto)]

mod ended;
mod errors;
mod files;
mod kept;
mod law;
mod ready;
mod readying;
mod seat;
mod starting;
mod status;
mod trials;
mod turning;
mod writing;

pub use ended::{Trial, TrialEnd};
pub use errors::{CommitError, KeepError, KeepLoad, KeptRead, ReadyError, TidyError};
pub use files::Files;
pub use kept::Kept;
pub use law::prepare_refuses_nothing_that_is_kept;
pub use oc_node::{Node, Outcome};
pub use oc_store::{FileError, Side, StoreError};
pub use ready::Ready;
pub use seat::Seat;
pub use status::{status_of, status_recovered};
pub use trials::trial;
pub use writing::brought;

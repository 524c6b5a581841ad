//! Records of running nodes, made into one schedule.
//!
//! A running node may write a record of itself: the header of its network, its start, and each
//! input that it takes. Three calls make a schedule of these records, one after another:
//!
//! - [`read`] reads their text, exactly as `records_of` defines for any bytes: the [`Records`] or
//!   the first fault, unless memory runs out. `specs/Reading` defines the order of the lines and
//!   the limits, `specs/Lines` the meaning of each kind of line and the lines that are skipped. The
//!   words and numbers are those of a schedule.
//! - [`without_missed`] leaves out the lines of inputs that were not taken, exactly those that `records_there`
//!   of `specs/Recorded` leaves out. It plays the lines of each node [`Alone`].
//! - [`merge`] gives the [`oc_schedule::Schedule`] of all lines that can be taken, and its
//!   [`MergeEnd`]. It plays on all [`Nodes`] of the network. `IsMergeOf` of `specs/Merging` defines
//!   a merge; by the laws of `oc_laws_world` it is the greatest, in whatever order the lines are
//!   tried.
//!
//! The cost of a line is that of its event, a look at each head, and a look at the lines for which
//! its node and the receivers of its messages wait.
#![tactic(auto)]

mod after_line;
mod alone;
mod choosing;
mod fault;
mod heads;
mod law;
mod lines;
mod merge_end;
mod merging;
mod nodes;
mod place;
mod places;
mod reader;
mod reading;
mod records;
mod text;
mod there;
mod told;
mod way;

pub use alone::Alone;
pub use fault::{
    Cause, MAX_RECORD_BYTES, MAX_RECORD_LINES, MAX_RECORD_PUBLISHED, Most, RecordsFault,
};
pub use law::{examples_are_read, missed_lines_are_left_out};
pub use merge_end::MergeEnd;
pub use merging::merge;
pub use nodes::Nodes;
pub use records::Records;
pub use text::read;
pub use there::without_missed;
pub use told::{Told, ToldLine};

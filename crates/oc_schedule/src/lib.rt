//! The text of a run: a header and the events that follow it, read, printed and generated.
//!
//! A schedule is text, one line for each thing: a header `overcast 1 nodes N chain C`, areas, and then events. The
//! layer above calls [`read`], which gives exactly the result of `schedule_of` for any bytes, the [`Schedule`] or
//! its first fault, unless memory runs out. A schedule that was read is within the ranges and the limits of its
//! [`Scale`] (`IsSchedule`), so each event may be given to a stage. [`print`] writes a schedule, which reads back
//! as the same, and [`generate`] makes the schedule of a seed.
//!
//! A running node prints each input that it takes in the words of a schedule, by [`put_act_line`] and
//! [`put_recv_line`]. Records of running nodes are read by [`opening`], [`area`], [`node_alone`] and [`act`].
//!
//! `specs/Schedule` defines how the lines follow one another and where the limits come, `specs/Lines` and
//! `specs/Acts` each kind of line, `specs/Fields` the fields other than numbers, and `specs/Printing` the text.
//! Words and numbers are those of `oc_base`. A new kind of line needs a definition in `specs/Lines`, one reader in
//! `lines`, and a branch of `event_in`, `event` and `put_event`; a new kind of input the same in `specs/Acts` and
//! `acts`.
#![tactic(auto)]

mod act_lines;
mod acts;
mod builder;
mod event_list;
mod fault;
mod fields;
mod generating;
mod kept_event;
mod law;
mod lines;
mod listed_event;
mod printing;
mod scale;
mod schedule;
mod schedule_text;
mod texts;

pub use act_lines::{put_act_line, put_recv_line};
pub use acts::act;
pub use event_list::EventList;
pub use fault::{LineFault, ScheduleFault, What};
pub use generating::{MAX_GENERATED_EVENTS, generate};
pub use kept_event::KeptEvent;
pub use law::{examples_are_read, generated_schedules_are_lawful};
pub use lines::{area, node_alone, opening};
pub use listed_event::ListedEvent;
pub use printing::print;
pub use scale::{MAX_LARGE_BYTES, MAX_LARGE_LINES, MAX_LARGE_PUBLISHED, Scale};
pub use schedule::Schedule;
pub use schedule_text::read;
pub use texts::put_bytes;

//! The program as a call: it gets the words and the outside, and gives a status and the outside
//! back.
//!
//! [`run`] has the contract that all crates lead up to: the end of the run, its status and its
//! line, and its effect on the outside. `Outside` in the `specs/` of `oc_commands` is the subject
//! of the contract, and `Happened` gives the effect of each end. `StatusFor` gives the status for
//! each request if nothing fails. [`run_in_memory`] and [`run_on_streams`] are `run` at readers and
//! writers, with the same clause about bytes and about counts of bytes.
//!
//! If a replay ends with status 0, [`headline_holds`] is part of that clause: the properties of
//! every world of the schedule, also inside settle and heal, and the results and reports of settle
//! and heal.
//!
//! The words are read by `oc_words`, and their request is performed by `oc_commands`.
//!
//! [`start`] makes the real things, which are the standard streams, or a file in the place of the input, three files of a
//! folder, sockets, and a world in memory for a replay, and calls [`run_on_streams`]. [`Places::of`] finds which files
//! they are, and [`given_words`] reads the words that the process was given.
#![tactic(auto)]

mod disks;
mod outside;
mod places;
mod running;
mod second;
mod starting;
mod streams;
mod words;

pub use disks::{Left, run_to_disks};
pub use oc_commands::{
    CheckEnd, ConfigEnd, ConfiguredEnd, End, GenEnd, RecordsEnd, RulesEnd, ServiceEnd, Status,
    headline_holds, help, tell, usage,
};
pub use oc_io::{ReaderSource, Traffic, WriterSink};
pub use oc_words::{
    Invocation, Name, Paths, Sample, VERSION, WordsFault, places_ask, read_words, rows_ask,
};
pub use outside::{Ended, Outside};
pub use places::Places;
pub use running::run;
pub use starting::{Started, end_early, run_words, start};
pub use streams::{MemoryRun, Streams, StreamsRun, Things, run_in_memory, run_on_streams};
pub use words::given_words;

//! Laws from the records of running nodes to their replay: a merge reads the records that nodes
//! write, and a replay of the merge leads each node through its own entries. They are laws about
//! the texts of `node --log record`, `merge` and `replay`.
//!
//! A law is a public function with an empty body, as in `oc_laws_world`. A [run](specs/Runs) is the
//! node in its files at the beginning, the lines of its inputs and notes, and the rest of a line
//! after a kill. [`nodes_write_lawful_runs`] says that the output of `run_node` of `oc_service` is
//! the text of a lawful run, since [`nodes_take_inputs_of_records`]; and [`stopped_runs_are_runs`]
//! that the part of it that a kill leaves is one, too. [`recorded_runs_are_read`] says that the
//! texts of some runs of one network, one after another, are read with the meaning of the runs;
//! [`recorded_runs_are_replayed`] that a whole merge of them leads to a world in which each node
//! has the state of its own entries, and that all laws hold on the way; and
//! [`recorded_stories_are_replayed`] that a node ends there in its true state.
//! [`merges_are_no_longer`] says for any records, also for those that no node wrote, that a merge
//! of records is no longer than the records.
#![tactic(auto)]

mod bounds;
mod records;
mod writing;

pub use bounds::merges_are_no_longer;
pub use records::{
    recorded_runs_are_read, recorded_runs_are_replayed, recorded_stories_are_replayed,
    records_are_runs, runs_compute, stopped_runs_are_runs,
};
pub use writing::{nodes_take_inputs_of_records, nodes_write_lawful_runs};

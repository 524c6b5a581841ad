//! Control records as bytes: each list of records has one spelling, and each refusal tells the first
//! fault from the left.
//!
//! A record is the code of its kind and its fields; numbers are big-endian. The body of a control frame
//! is a list of records, one after another, up to its end. `specs/Spelling` has the one spelling of each
//! record and the lawful ones, `specs/Reading` the records in bytes or the fault of the bytes.
//!
//! The contracts that the crates above use: `decode` gives a list exactly if the bytes are its spelling,
//! and otherwise the first fault; `encode` writes that spelling; no two lists have the same spelling. All
//! this rests on the fact that no two kinds have the same code.
//!
//! Laws about the records of one step: they rest on the definitions of `oc_model` and on the bytes here.
//!
//! A law is a public function with an empty body; code that relies on the law calls it, and may then use
//! its clauses. [`what_lawful_nodes_write_is_read`] is the law of a node's files: each frame of a lawful
//! input is read back as the records that the step wrote, and is no longer than the greatest frame.
//! [`a_frame_means_a_change`] says that a step writes exactly if it changes the durable state;
//! [`members_and_roots_seek_no_place`] has the property of a node that this law needs besides soundness.
//! [`what_is_no_news_goes_no_further`] says which certificates the change log of a joined node takes.
#![tactic(auto)]

mod changes;
mod codes;
mod decoding;
mod encoding;
mod fault;
mod kinds;
mod law;
mod quash;
mod written;

pub use changes::{a_frame_means_a_change, members_and_roots_seek_no_place};
pub use codes::CODES;
pub use decoding::decode;
pub use encoding::encode;
pub use fault::RecordFault;
pub use law::{
    codes_are_distinct, examples_are_read, least_lengths_are_exact, no_two_lists_have_one_spelling,
    records_are_read_among_more_nodes, spellings_are_read,
};
pub use oc_base::IdList;
pub use oc_model::Record;
pub use quash::what_is_no_news_goes_no_further;
pub use written::what_lawful_nodes_write_is_read;

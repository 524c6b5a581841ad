//! The common parts of the libraries of worked cases.
//!
//! A table is a text file with a case in each row: its name, its input, a `=`, and the expected
//! words. A [`Cases`] gives the result of a row, and [`play`] prints a line for each row: its name
//! and `ok`, or the words that came instead. [`RowFields`] cuts the input of a row into numbers,
//! bytes, ids and certificates.
#![tactic(auto)]

mod certs;
mod disks;
mod fault;
mod fields;
mod groups;
mod node_disks;
mod row;
mod row_disk;
mod spelled;
mod step;
mod table;
mod texts;

pub use certs::{cert_in, put_cert};
pub use disks::{disk_in, put_disk};
pub use fault::Fault;
pub use fields::RowFields;
pub use groups::{group_in, put_shelf};
pub use node_disks::NodeDisks;
pub use row::Row;
pub use row_disk::RowDisk;
pub use spelled::{put_spelled, spelled_in};
pub use step::RowStep;
pub use table::{Cases, play, read_table, tell};
pub use texts::{put_hex, put_shown};

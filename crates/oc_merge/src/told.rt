//! The statements of records.

ghost use Rattle.std.specs.Prelude.{◌≡◌};
ghost use Rattle.oc_merge.specs.Told.{published_by};

use oc_base::{Bytes, NodeId};
use oc_model::Input;

/// A statement of a record's line about its node.
#[derive(Debug, Drop)]
pub enum Told {
    /// The node started, with the digest of the files which it found, if the record has it.
    Started(Option<Bytes>),
    /// A message with these bytes came.
    Came(Bytes),
    /// The node took another input.
    Took(Input),
}

/// A line of records with a statement about a node.
#[derive(Debug, Drop)]
pub struct ToldLine {
    /// The number of the line among all lines that were read, counted from 1.
    pub number: u32,
    /// The node whose record has the line.
    pub node: NodeId,
    pub told: Told,
}

/// The number of bytes that a line publishes.
pub(crate) fn published_by(told: &Told) -> u64
    ensures { result ≡ published_by told.now }
{
    match told {
        Told::Took(Input::Publish { bytes, .. }) => bytes.items().len() as u64,
        _ => 0,
    }
}

//! The stages on which a merge of records plays: a world with an index of its messages, and one
//! node alone.
//!
//! Records of running nodes tell each message that came by its bytes, and a schedule delivers it by
//! its number. An [`IndexedWorld`] is a world with an index from bytes to numbers, so that a merge
//! finds the number of a message without a search through all that were sent.
//!
//! The index has, for each hash of a message's bytes, the least number of a message with this hash
//! (`specs/Index`). The message found is compared byte for byte. If two messages share a hash, the
//! net after the first of them is searched; so a hash shared by many messages costs time, but never
//! gives a wrong answer.
//!
//! A [`LoneNode`] is one node without the others and without files. A merge first plays the lines
//! of each record on it, to find inputs that were not taken.
#![tactic(auto)]

mod groups;
mod hash;
mod indexed_world;
mod lone_node;
mod numbers;

pub use indexed_world::IndexedWorld;
pub use lone_node::LoneNode;

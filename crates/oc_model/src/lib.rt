//! The model of Overcast, without memory, disk or text: the types of the rules, and in `specs/` the rules
//! of a node, the world of all nodes, and the claims about it. `docs/RULES.md` tells the rules in prose.
//!
//! No code here runs in a node: these definitions say how the code of the crates above has to behave, and
//! the laws of `oc_laws_step` and `oc_laws_world` are about them.
#![tactic(auto)]

mod answer;
mod decisions;
mod event;
mod header;
mod input;
mod law;
mod listing;
mod message;
mod mode;
mod place;
mod reading;
mod record;
mod soft;
mod status;
mod want;
mod word;

pub use answer::Answer;
pub use decisions::decisions_compute;
pub use event::{Act, Event};
pub use header::{Header, Sizes};
pub use input::Input;
pub use law::{choices_compute, content_computes, leases_compute, moves_compute, roots_compute};
pub use listing::listings_are_exact;
pub use message::{Body, Message};
pub use mode::Mode;
pub use place::{Candidate, Review};
pub use reading::Reading;
pub use record::Record;
pub use soft::{MAX_MOVES, MAX_PATIENCE, Search, Soft};
pub use status::NodeStatus;
pub use want::Want;
pub use word::Word;

//! One node of the overlay, pure: the effect of an input, without a disk, a text or another node.
//!
//! [`Node::plan`] looks at an input and changes nothing: it takes all memory that the step needs and gives a
//! [`Plan`], with the records of the durable changes, the messages and the answer. Once the records are
//! durable, [`Node::apply`] folds these same records into the node, and takes no memory. A start folds all
//! records of a node's file, by [`Node::recover`], and [`Node::snapshot`] gives few records that replace all
//! earlier ones.
//!
//! The rules are those of the model, in modules of the same names and in the order of its definitions: `asking`,
//! `adopting`, `checking` with `acknowledging`, `looking`, `content` and `serving`. Each leads a step under way
//! (`oc_step`) on as the model's definition does. `docs/RULES.md` tells them in prose.
//!
//! The layer above relies on this: the plan is the control step of the model (`plan`), and after the wanted
//! bytes are filled in (`Plan::fill`) applying it is the model's `step`: the node after it, the messages and
//! the answer. The records fit one frame, and folding them gives the durable state after the step.
#![tactic(auto)]

mod acknowledging;
mod adopting;
mod asking;
mod check_in;
mod checking;
mod chunk;
mod content;
mod looking;
mod node;
mod outcome;
mod serving;
mod stand;
mod step;

pub use node::Node;
pub use oc_base::Bytes;
pub use oc_model::{Answer, Input, Mode, Want};
pub use oc_step::Plan;
pub use outcome::Outcome;

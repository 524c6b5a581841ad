//! The basic types that all crates share: node ids, ranks, certificates, group names, the small list types,
//! the limits of the system, and [`Memory`], the answer when memory runs out.
//!
//! The definitions of the model use these types. A list type is a vector that contracts see as the list
//! of its items, so a message, an event or a record with such a list *is* a value of the model. Contracts
//! see a [`NodeId`] as its number, and a [`GroupName`] as its bytes.
//!
//! * [`reading`] and [`writing`] have the fields of the binary formats, [`words`] has the lines and words of
//! the text formats, and [`put`] and the functions beside it write texts.
//! * [`look_up`] finds a name in a list ascending by name.
//! * [`Slots`] hold a value for each node, and are made as fast for a thousand nodes as for ten.
//!
//! The contracts that the crates above use: `GroupName::parse` accepts exactly the names with
//! `IsGroupName`, and refuses others by `name_fault`; `of` and `items` of each list type are that list.
//! [`words`] reads the words and numbers of a line as `words` and `number_in` define, with the first cause
//! of a refusal. [`reading`] reads a binary field as the function of the same name in `specs/Reading`.
#![tactic(auto)]

mod cert;
mod code_row;
mod cutter;
mod field;
mod field_fault;
mod group;
mod group_name;
mod limits;
mod lists;
mod memory;
mod named;
mod node_id;
mod padding;
mod rank;
pub mod reading;
mod refusal;
mod reserved;
mod shelf;
mod slots;
mod texts;
mod why;
pub mod words;
pub mod writing;

pub use cert::{Cert, Child, Line};
pub use code_row::{CodeRow, distinct, row_of};
pub use cutter::{cut, cut_at_first, place_of};
pub use field::{Short, take_bytes, take_u8, take_u16, take_u32, take_u64};
pub use field_fault::FieldFault;
pub use group::Group;
pub use group_name::{GroupName, NameFault};
pub use limits::{
    DUE_BYTES, LAST_SECOND, MAX_ANCESTORS, MAX_AREA, MAX_BASE_ACKED, MAX_BODY_BYTES, MAX_CHAIN,
    MAX_CHECK_IN_CERTS, MAX_CHUNK_BYTES, MAX_CONTENT_BYTES, MAX_DEPTH, MAX_FIELDS, MAX_FRAME_BYTES,
    MAX_FRAME_RECORDS, MAX_GROUP_BYTES, MAX_GROUPS, MAX_HEAD_BYTES, MAX_HOPS, MAX_JOURNAL_BYTES,
    MAX_LOG_LENGTH, MAX_NAME_BYTES, MAX_NODES, MAX_PUBLISH_BYTES, MAX_RATE, MAX_SCHEDULE_BYTES,
    MAX_SCHEDULE_LINES, MAX_SCHEDULE_PUBLISHED, MAX_SCHEDULE_SETTLES, MAX_START, MAX_TIME,
    MIN_NAME_BYTES, USUAL_CHUNK_BYTES,
};
pub use lists::{Bytes, CertList, ChildList, IdList, LineList, ShelfList, Text};
pub use memory::Memory;
pub use named::{Lookup, Named, look_up};
pub use node_id::NodeId;
pub use padding::put_in_front;
pub use rank::Rank;
pub use refusal::Refusal;
pub use reserved::push_reserved;
pub use shelf::{Shelf, held_in_all};
pub use slots::Slots;
pub use texts::{put, put_number, put_with_number};
pub use why::Why;

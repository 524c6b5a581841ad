//! The decisions of a running node, as values: its deeds, and its works. No disk, link or output is here.
//!
//! `specs/Deeds` has for each deed the running node after it, the line that it writes and its calls on the
//! link. `specs/Turns` has the deeds of a turn, by the news of the link and the clock, in parts (`specs/Parts`): those
//! for requests (`specs/Asks`), for room and loss (`specs/Rooms`), for the replies to messages and probes
//! (`specs/Brought`), at a tick, and for the messages to dial (`specs/Sends`). The functions beside them decide by values:
//! the work that is due by itself and the longest wait of a turn ([`choosing`]), the news of a dial ([`reading`]), the
//! place from which a content is given ([`contents`]), and the lines of an input ([`brief`], [`record`]).
//!
//! The deeds of a turn are decided over a [`Doer`], which has the state of the node and does one deed at a time.
//! [`takes_due`] takes up work that is due by itself, and [`deals`] deals with news; both end with a tick, where one is
//! due, and with the messages to dial. Their contracts speak of parts alone: the part was done (`does`), or a front of it
//! was, and then the turn ended (`stops`). The effect of a deed on files, link and output is defined where a `Doer` is made.
//!
//! The works are a list [`Works`], the dials [`Dials`] and the messages to send an [`Outbox`]. A content under way is a
//! place in a group and not bytes ([`Transfer`]), so nothing grows with its length. A follower that has all of a group
//! waits ([`Waiting`]).
//!
//! [`connections_are_given_their_replies`] says that each connection is given the replies to its requests one after
//! another, those of refusals too, whatever deeds are done in whatever order. What a request selects of its group is settled when
//! it is taken up, and [`a_part_is_what_is_given`] says that a part is given as it is.
#![tactic(auto)]

pub mod asked;
pub mod brief;
mod came;
pub mod choosing;
pub mod contents;
pub mod counting;
mod dials;
mod doer;
mod due;
mod ends;
mod law;
pub mod lines;
mod log;
mod moving;
mod obeying;
mod outbox;
mod pace;
pub mod probing;
pub mod reading;
pub mod record;
mod reply_in_place;
mod reread;
pub mod rereading;
pub mod rooms;
mod sending;
mod taking_up;
mod told;
mod turn_law;
mod turning;
mod unfit;
mod work;
mod works;

pub use came::Came;
pub use dials::{Dialling, Dials, Errand, errand_in};
pub use doer::Doer;
pub use due::{Due, due_of};
pub use ends::TurnEnd;
pub use law::{
    a_part_is_what_is_given, connections_are_given_their_replies, examples_compute,
    what_is_given_in_chunks_is_there,
};
pub use log::Log;
pub use outbox::{Outbox, is_fetch, put_all};
pub use pace::{Pace, most_interval};
pub use reread::Reread;
pub use turn_law::{brief_lines_compute, turns_compute};
pub use turning::{deals, takes_due};
pub use unfit::{Unfit, put_unfit_line};
pub use work::{Pending, Transfer, Waiting, Work, client_input, pending_of};
pub use works::Works;

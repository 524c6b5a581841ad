//! A running node as one value, and its deeds.
//!
//! A [`Server`] is a node on its files with its outbox, its works, its dials, its link and its
//! output. It does a list of deeds: `oc_deeds` has for each the node after it, the line that it writes
//! and its calls on the link, and decides which are done. A `Server` is a `Doer` of that crate: each method of
//! `impl Doer for Server` does one deed. The relations for deeds that were done (`Did`), and for one that broke
//! (`Breaks`), have the cause, the nodes that crashes leave, and the part of a line that was written (`specs/Scenes`);
//! `Does` and `Stops` in `specs/Parts` rest on them. While deeds are done every crash at any moment leaves the node of a
//! prefix of them (`specs/Moments`). `IsServing` holds between any two calls.
//!
//! A content under way is a place in a group and not bytes: each piece is read when it is given, so nothing grows with its
//! length.
//!
//! The deeds of a turn are a function of `oc_deeds`: its `specs/Turns` has them by the news of the link and the clock
//! ([`Turns::turn`], and [`Turns::serve`] for one turn after another). The contract of a turn says that these deeds were done,
//! or that a front of them was done, with the input or line under way after it, and the end (`specs/Runs`). The news is that
//! in the bytes of the link, by the definitions of `oc_routes` and `oc_http`. Turns do their deeds in the order that the
//! replies ask for, however many are done and wherever the last one ends ([`turns_are_in_order`]).
#![tactic(auto)]

mod answering;
mod asking;
mod dialling;
mod doing;
mod giving;
mod hearing;
mod noting;
mod order_law;
mod record_law;
mod sendable;
mod server;
mod taking;
mod telling;
mod tidying;
mod turns;

pub use asking::Heard;
pub use order_law::turns_are_in_order;
pub use record_law::records_tell_all_changes;
pub use server::Server;
pub use turns::Turns;

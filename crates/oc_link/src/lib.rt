//! Links: a program's connections to others, and theirs to it.
//!
//! **The link of a running node** is a [`Link`]: a sequence of events. `next` gives one [`LinkEvent`]: a request
//! came, a reply has room for more, a connection is gone, a dial has its reply, or nothing happened within the wait.
//! No other call waits, and no other call but `listen` fails: a later failure is an event. A link tells the time,
//! too, looks at the file of the program's configuration, and tells people what became of it, so that its story says
//! in which order the link was dialled, the clock was read, and that file was.
//!
//! The story of a link, if it tells one, is the list of its calls with their answers ([`Call`]). The definitions of
//! `specs/Traffic` and `specs/Stands` take from that list the bytes that a connection received and was given, and the
//! state of the connection. The layer above uses the contract of each call: the call is added to the story, and the
//! event of `next` is one that may come after the calls so far. [`MemLink`] is a link in memory that plays a script.
//!
//! **The link of a client** is a [`Dialler`], whose calls may wait. It makes dials, of which one at a time is the
//! outgoing connection. Its story (`specs/Story`) tells the bytes that were read and written on each, and where a
//! call failed; the contract of each call says how the story goes on. A dialler of sockets tells no story, and for it
//! the clauses about counts and lengths hold. [`Outgoing`] borrows a dialler, and makes its outgoing connection a
//! source. [`MemDialler`] is a dialler in memory: it is made with the replies of its dials, and the listed calls
//! fail.
#![tactic(auto)]

mod arrived;
mod byte_strings;
mod call;
mod connections;
mod counts;
mod dialler;
mod dials;
mod event;
mod history;
mod ids;
mod link;
mod look;
mod mem_dialler;
mod mem_link;
mod outgoing;
mod phase;
mod script;

pub use arrived::Arrived;
pub use call::{Call, Ending};
pub use counts::LinkCounts;
pub use dialler::Dialler;
pub use event::{Arrival, Coming, LinkEvent, Loss};
pub use history::{given, held, is_under_way, may, standing_of};
pub use ids::{ConnectionId, DialId};
pub use link::Link;
pub use look::Look;
pub use mem_dialler::MemDialler;
pub use mem_link::MemLink;
pub use outgoing::Outgoing;
pub use phase::{Phase, Standing};
pub use script::{Happening, Step};

//! The client: downloads and publishings over HTTP/1.1.
//!
//! [`get`] asks for a URL, follows two redirections, and passes the content of the reply on to a
//! sink as it comes. [`follow`] asks for a group again and again, each time from the byte after
//! those written, on the same connection if the server keeps it. Both have one contract,
//! `Downloads`: the requests and their connections, the bytes read after each, and that the content
//! of each reply of 200 was written in order, or a prefix if it was not read whole, and nothing
//! else. `specs/Wishes` has the requests, `specs/Replies` defines replies and their content, and
//! `specs/Conversations` the state after each reply and the cause of each [`GetEnd`]. `Redirects`
//! comes exactly after a third 302 with a good Location, unless a call or memory failed
//! (`specs/Redirections`), and if the dials give [`get`] replies that lead to a whole content, none
//! is refused (`specs/Completeness`).
//!
//! [`put`] asks for the length of a group, and sends its input in pieces of [`PUT_PIECE_BYTES`]
//! bytes and one of the rest, each on a dial of its own with its position as `at=`: so a piece that
//! comes twice is taken once. If no reply comes, it asks for the length again, and learns from the answer
//! whether the piece was taken. Its contract is `IsPublished`: the requests made, the answer to
//! each, and that each piece is the next of the input (`specs/Publishing`). `specs/PutRequests` has
//! the requests, `specs/PutReplies` the answers in replies, and `specs/Efforts` the next step of a
//! client and the cause of each [`PutEnd`]. [`the_input_is_added_once`] is the law: with a source
//! that answers by the rules of `specs/Sources`, into whose group nobody else publishes, the group
//! has its old content and then the input, once, whichever dials failed, and however late the sent
//! bytes arrived.
//!
//! `specs/Addresses` says which URLs are asked and where. A link that tells its story shows the dials of these requests and
//! no others, and none of them is left open (`specs/Turns`, `specs/PutTurns`).
#![tactic(auto)]

mod address;
mod answer;
mod aside;
mod asking;
mod chunks;
mod client_state;
mod content;
mod conversation;
mod destination;
mod download;
mod effort;
mod end;
mod exchange;
mod fetch_options;
mod filling;
mod hearing;
mod input;
mod job;
mod law;
mod load;
mod metered;
mod pause;
mod progress_lines;
mod publication;
mod publishing;
mod put_end;
mod put_exchange;
mod put_hearing;
mod put_room;
mod query;
mod redirection;
mod reply_framing;
mod requests;
mod room;
mod settling;
mod target;
mod wish;

pub use aside::Aside;
pub use destination::Destination;
pub use download::{MAX_REDIRECTIONS, follow, get};
pub use end::GetEnd;
pub use fetch_options::FetchOptions;
pub use input::PUT_PIECE_BYTES;
pub use law::{examples_compute, the_input_is_added_once};
pub use metered::Metered;
pub use pause::Pause;
pub use progress_lines::{PROGRESS_STEP, ProgressLines};
pub use publication::{Publication, WriteMode};
pub use publishing::put;
pub use put_end::PutEnd;
pub use reply_framing::MAX_OPEN_BYTES;

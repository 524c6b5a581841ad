//! Requests and replies of a running node, and its reports: the request in the bytes of a connection, the input
//! that results, and the answer, piece by piece. All of this is functions over values, without a link, a disk or a
//! clock.
//!
//! A request goes through the node as one value, and its answer too: its bytes give a [`Verdict`], which for a
//! whole one is a [`Request`] with its operation ([`Asked`]), and for a refused one a [`Refusal`]; after the step of its
//! input the node has the parts of the reply ([`Answered`]), of which [`respond`] makes the [`Response`].
//!
//! `src/routes.rt` and `specs/Routes` are the table of routes: which operation a head asks for under the access rules
//! (`asked`), with its faults in their order, which input results from it and the body (`input_asked`), and the reply
//! of each operation (`response_for`). The parts of one route alone are in its file of `src/routes`, and its definitions
//! are in `specs/Message`, `Publish`, `Seal`, `Group`, `Probe`, `Status`, `Metrics` and `Page`. `specs/Refusals` has the
//! line and the reply of a refused request, and `specs/Reasons` the texts with the cause and a remedy: one line each
//! ([`a_refusal_is_one_line`]), made of nothing that a token, a key or a field could be in.
//!
//! The contracts used above: [`route`] gives exactly `asked`, [`input_of`] exactly `input_asked`, and the
//! input that it gives is one of this node; [`respond`] gives exactly `response_for` of the answer of the step.
//! The content of a group is given in the [`Response`] as a [`GroupRange`]; the layer above reads and sends
//! it. A connection is kept after every reply but the last ([`is_last`]), and after a refusal as its [`Refusal`] tells;
//! [`awaits_continue`] tells of a client that waits for the permission to send a body, and
//! [`split_reply`] takes the reply out of the messages of a step. [`steps_answer_by_the_table`] says that
//! a step gives the input of a request one of the answers to which the table has a reply.
//!
//! [`judge`] gives the verdict on a connection for the bytes of a request that came so far: to wait, to leave the
//! connection, to permit the body, to refuse the request, or to answer it. `specs/Verdicts` has the definition: the
//! answer to a source that gives these bytes and then ends, by the definitions of `oc_http` and of the routes, where its
//! end is that on the connection. [`a_request_has_one_verdict`] says that there is one, however the bytes are cut.
//!
//! A path is looked up as `oc_http` decoded it, byte by byte, and a Location has it in escapes
//! ([`a_location_names_its_group`]).
//!
//! A request that publishes or seals may name the length that its group has to have; [`unmet`] tells whether the source
//! refuses the request for that.
//!
//! A GET or HEAD of a group may have conditions and ask for a part (RFC 9110, sections 13 and 14): [`settled`] is the
//! request as a node answers it that holds the group so, by `oc_select` (`specs/Selections`). A part that is given is those
//! bytes of the group ([`a_part_is_those_bytes_of_its_group`]), and equal tags of a group mean equal bytes
//! ([`a_tag_tells_the_bytes_of_a_group`]).
//!
//! A content under way ([`UnderWay`]) is a place in a group; the layer above reads its next piece from
//! the content file. [`pieces_are_the_content`]: piece by piece they are the text of the whole content, whatever came
//! between. [`is_to_wait`], [`Follower::is_due`] and [`UnderWay::prospect`] tell who waits, and until when.
//!
//! The parts of a query besides start and area (`of=`, `known`, `here`) are a [`Hint`], by which a client is shown the
//! answer of the step.
//!
//! The reports of a node ([`report_of`]), for those who look after it, are `/-/status` as JSON, `/-/metrics` in the text
//! format of Prometheus, and the page `/-/` that draws the first; each has a second name, with `!`. [`status`] is
//! `status_text` of the node's control state and its shelf, and [`metrics`] is `metrics_text` of these and of the number of
//! messages in the outbox. The two definitions (`specs/Status`, `specs/Metrics`) are the formats: their readers need
//! nothing else. No byte of a group's name has to be escaped in either ([`names_are_plain`]), and the worked examples
//! compute ([`examples_are_told`]). [`page`] is a text of this crate and nothing more: no contract speaks of its drawing.
//!
//! In a network with a key a message is read only from a body whose MAC came with it ([`a_message_has_its_mac`]).
#![tactic(auto)]

mod about;
mod addresses;
mod answered;
mod arrays;
mod asker;
mod condition;
mod connections;
mod content;
mod counts;
mod directory;
mod fault;
mod hint;
mod holding;
mod json;
mod judging;
mod known_rows;
mod law;
mod leased;
mod lines;
mod manner;
mod objects;
mod query;
mod reasons;
mod refusals;
mod refused;
mod replies;
mod reply_law;
mod report;
mod response;
mod responses;
mod rest;
mod routes;
mod rows;
mod seen;
mod selecting;
mod selection_law;
mod showing;
mod sights;
mod status_law;
mod tally;
mod terms;
mod verdict;
mod waiting;

pub use about::About;
pub use addresses::address_of;
pub use answered::Answered;
pub use asker::Asker;
pub use condition::unmet;
pub use connections::{CONTINUE, MAX_REQUESTS, awaits_continue, is_last};
pub use content::{PIECE_BYTES, UnderWay};
pub use directory::Directory;
pub use fault::RouteFault;
pub use hint::{Asked, Hint, route_with_hint};
pub use holding::Holding;
pub use judging::judge;
pub use known_rows::KnownRows;
pub use law::{
    a_location_names_its_group, a_refusal_is_one_line, a_token_tells_nothing, examples_compute,
    steps_answer_by_the_table,
};
pub use lines::{put_input_line, put_refusal_line};
pub use manner::Manner;
pub use oc_http::Persistence;
pub use query::{first_value, has_part, number_told};
pub use refusals::refusal_reply;
pub use refused::Refused;
pub use replies::split_reply;
pub use reply_law::{
    a_condition_says_the_length, a_message_has_its_mac, a_request_has_one_verdict,
    pieces_are_the_content, pieces_follow_one_another, reply_examples_compute,
    who_waits_has_nothing_new,
};
pub use report::{Report, report_of};
pub use response::{GroupRange, Response};
pub use routes::metrics::{METRICS_NAME, METRICS_PATH, metrics};
pub use routes::page::{PAGE_NAME, PAGE_PATH, page};
pub use routes::status::{STATUS_NAME, STATUS_PATH, status};
pub use routes::{Operation, input_of, respond, route};
pub use seen::Seen;
pub use selecting::settled;
pub use selection_law::{
    a_client_that_is_told_nothing_knows_the_tag, a_part_is_those_bytes_of_its_group,
    a_tag_tells_the_bytes_of_a_group,
};
pub use status_law::{examples_are_told, names_are_plain};
pub use tally::{MessageFault, STATUSES, StatusCount, Tally};
pub use terms::Terms;
pub use verdict::{Refusal, Request, Verdict};
pub use waiting::{FOLLOW_MILLIS, Follower, IDLE_MILLIS, Prospect, is_to_wait, millis_left};

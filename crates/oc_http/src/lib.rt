//! HTTP/1.1 messages (RFC 9110, RFC 9112): heads and bodies are read from a source, requests and
//! replies are written.
//!
//! The bytes of a head are taken one at a time, so nothing after it is taken; `httparse` is asked at the
//! end of each line. [`read_head`] and its kin read one message, and a [`HeadReader`] reads the messages
//! of a connection, with the memory taken once. [`Fields`] gives the values of the fields of a head.
//!
//! The contracts used above: where [`read_head`] gives a head, the bytes that came are a head with these
//! contents, and where it gives an [`HttpFault`], that is the first fault of the bytes that came; [`read_body`]
//! gives the next bytes, as many as the head tells; a text that is written is exactly that of `specs/Writing`.
//! There is one answer to the bytes of a source, however they come ([`a_request_has_one_answer`]); the text of
//! [`write_request`] is read as that request ([`a_written_request_is_read`]), and the text of [`put_path`]
//! as that path ([`a_written_path_is_read`]).
//!
//! `specs/Fields` has the fields of a head, `specs/Targets` the path and the query of a target, `specs/Escapes`
//! the bytes of a path and their text, `specs/Requests` and `specs/Responses` the contents of a head and its
//! first fault, `specs/Taking` the bytes that are taken for each answer, and `specs/Writing` the texts.
#![tactic(auto)]

mod body;
mod byte;
mod content_type;
mod escapes;
mod fault;
mod field_line;
mod field_match;
mod fields;
mod framing;
mod head;
mod head_reader;
mod law;
mod lengths;
mod lines;
mod messages;
mod paths;
mod reply;
mod requests;
mod responses;
mod taking;
mod target;
mod text;
mod texts;
mod writing_replies;
mod writing_requests;

pub use byte::take_byte;
pub use content_type::{ContentType, MediaType};
pub use escapes::put_path;
pub use fault::HttpFault;
pub use field_match::FieldMatch;
pub use fields::Fields;
pub use framing::{Framing, Persistence};
pub use head::{Head, Method};
pub use head_reader::HeadReader;
pub use law::{
    a_request_has_one_answer, a_response_has_one_answer, a_response_head_has_one_answer,
    a_written_path_is_read, a_written_request_is_read, examples_compute,
};
pub use messages::{read_body, read_head, read_response, read_response_head};
pub use oc_base::Text;
pub use paths::{MESSAGE_PATH, PROBE_PATH};
pub use reply::{Reply, ReplyHead};
pub use requests::begins_with_head;
pub use responses::body_length;
pub use target::path_and_query;
pub use text::length_of;
pub use writing_replies::{write_reply_head, write_response, write_response_to_head};
pub use writing_requests::{write_follow, write_get, write_probe, write_request};

//! What a request selects of a content: all of it, a part, or nothing (RFC 9110, sections 13 and 14). These are functions over
//! values, without a socket, a route or a head.
//!
//! A [`Content`] is the bytes of a group, or a file of a folder in one. [`Selectors`] are the values of the six fields that a
//! request may have: If-Match, If-None-Match, If-Modified-Since, If-Unmodified-Since, If-Range and Range. [`select`] gives
//! exactly `selection` of the content, the request's line and these fields (`specs/Selecting`): the conditions come first, in
//! the order of the RFC, and then the range. Some fields are there and say nothing: those that are not spelled as they should
//! be, and a second one of a date or a range.
//!
//! * `specs/Tags` and `specs/Naming` have the lists of entity tags and what they say of a content's tag, `specs/Conditions` the
//!   conditions, and `specs/Ranges` the ranges and the parts that they are.
//! * [`put_tag`], [`put_change`], [`put_part`] and [`put_no_range`] put the values of ETag, Last-Modified and Content-Range, and
//!   [`media_type`] gives that of Content-Type by the ending of a path, from the table of `specs/Media`.
//!
//! The laws: a part is within its content ([`a_part_is_within_its_content`]), and it is the one that a GET asks for
//! ([`a_part_is_the_one_that_is_asked_for`]); a client is told that nothing was modified only where it named the content's tag,
//! or `*`, or a date that the content is no younger than ([`what_was_not_modified_is_known`]); contents of one path with one tag
//! have the same bytes ([`a_tag_tells_the_bytes`]); what a client was given is known when it sends it back
//! ([`what_was_given_is_known`]); a request with none of the fields is given all ([`a_plain_request_is_given_all`]).
#![tactic(auto)]

mod conditions;
mod content;
mod law;
mod media;
mod naming;
mod range;
mod ranges;
mod scanning;
mod selecting;
mod selection;
mod selectors;
pub mod text;
mod texts;

pub use content::{Content, Source, change_at};
pub use law::{
    a_part_is_the_one_that_is_asked_for, a_part_is_within_its_content,
    a_plain_request_is_given_all, a_tag_tells_the_bytes, examples_compute, what_was_given_is_known,
    what_was_not_modified_is_known,
};
pub use media::media_type;
pub use selecting::select;
pub use selection::Selection;
pub use selectors::{RequestLine, Selectors, Values};
pub use texts::{put_change, put_no_range, put_part, put_tag};

//! Chunked transfer coding (RFC 9112, section 7.1): a content as chunks, and back.
//!
//! [`chunk_text`] writes a content as chunks. An [`Unchunker`] reads a chunked text in pieces, cut
//! anywhere, and gives the number of bytes that must still belong to the text. `httparse` parses
//! the size lines and the trailer fields, at the end of each of their lines.
//!
//! `specs/Chunked` defines chunked texts. `specs/Taken` defines the progress of a reader in a text
//! (`IsTaken`), with its content. The layers above rest on this: however the pieces are cut, the
//! bytes that an [`Unchunker`] has taken lead to its stage, and it has given their content and
//! nothing else. [`a_text_is_read_in_one_way`] says that the same bytes lead to one stage with one
//! content, [`a_chunked_text_ends`] that a chunked text leads to the end, and
//! [`a_written_text_is_read`] that a written text is read with its content.
#![tactic(auto)]

mod decoder;
mod fault;
mod law;
mod limits;
mod lines;
mod reserved;
mod state;
mod unchunker;
mod writing;

pub use fault::ChunkFault;
pub use law::{a_chunked_text_ends, a_text_is_read_in_one_way, a_written_text_is_read};
pub use limits::{MAX_CHUNK_SIZE, MAX_SIZE_LINE_BYTES, MAX_TRAILER_BYTES};
pub use unchunker::Unchunker;
pub use writing::chunk_text;

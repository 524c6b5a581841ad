use crate::limits::{FIELD_ROOM, PIECE, WARM_BYTES};
use httparse::spans::{EMPTY_HEADER_SPAN, HeaderSpan};
use std::alloc::{AllocError, Global};

/// The buffers that the sockets of a link share: one into which they are read, and room for the
/// fields of a head.
#[derive(Drop)]
pub(crate) struct Tools {
    pub(crate) alloc: Global,
    pub(crate) piece: Vec<u8>,
    pub(crate) spans: Vec<HeaderSpan>,
}

impl Tools {
    pub(crate) fn new(alloc: Global) -> Result<Tools, AllocError> {
        warm_memory(alloc);
        Ok(Tools {
            alloc,
            piece: Vec::from_elem(alloc, 0u8, PIECE)?,
            spans: Vec::from_elem(alloc, EMPTY_HEADER_SPAN, FIELD_ROOM)?,
        })
    }
}

/// Takes a large block of memory, and gives it back without writing to it.
///
/// The GNU C library gives blocks of 128 KiB and more back to the system at once, which makes and
/// clears their pages again for the next ones: a third of the time of a node that copies content.
/// After a larger block was given back, the library keeps blocks up to that size, and twice as much
/// in all (mallopt(3): M_MMAP_THRESHOLD and M_TRIM_THRESHOLD follow it). With another C library, or
/// without the memory for the block, the call has no effect.
fn warm_memory(alloc: Global) {
    let block: Result<Vec<u8>, AllocError> = Vec::with_capacity(alloc, WARM_BYTES);
    let _given_back = block.is_ok();
}

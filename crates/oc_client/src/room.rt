ghost use Rattle.std.specs.Prelude.{◌≡◌, vec_len};
ghost use Rattle.oc_client.specs.declared.room.TheConstants.{PIECE_BYTES};

use oc_base::Memory;
use oc_http::HeadReader;
use std::alloc::Global;

/// The greatest number of bytes of a content that are passed on at once.
pub(crate) const PIECE_BYTES: usize = 65_536;

/// The memory of a conversation, which is taken before its first request.
#[derive(Drop)]
pub(crate) struct Room {
    pub(crate) alloc: Global,
    pub(crate) heads: HeadReader,
    /// The bytes of a reply read so far.
    pub(crate) buffer: Vec<u8>,
    /// The gathered content of a chunked reply.
    pub(crate) content: Vec<u8>,
    ghost whole: { vec_len buffer ≡ PIECE_BYTES },
}

impl Room {
    pub(crate) fn new(alloc: Global) -> Result<Room, Memory> {
        let heads = HeadReader::new(alloc)?;
        let buffer = vec![in alloc; 0; PIECE_BYTES]?;
        let mut content = Vec::new(alloc);
        content.reserve(PIECE_BYTES)?;
        Ok(Room {
            alloc,
            heads,
            buffer,
            content,
        })
    }
}

ghost use Rattle.std.specs.Prelude.{◌≡◌, vec_len};
ghost use Rattle.oc_client.specs.declared.put_room.TheConstants.{PASS_BYTES};

use oc_base::Memory;
use oc_http::HeadReader;
use std::alloc::Global;

/// The greatest number of bytes of the input that are skipped at once.
pub(crate) const PASS_BYTES: usize = 65_536;

/// The memory of a publishing, which is taken before its first request.
#[derive(Drop)]
pub(crate) struct PutRoom {
    pub(crate) heads: HeadReader,
    /// The buffer for bytes of the input that are skipped.
    pub(crate) passed: Vec<u8>,
    ghost whole: { vec_len passed ≡ PASS_BYTES },
}

impl PutRoom {
    pub(crate) fn new(alloc: Global) -> Result<PutRoom, Memory> {
        let heads = HeadReader::new(alloc)?;
        let passed = vec![in alloc; 0; PASS_BYTES]?;
        Ok(PutRoom { heads, passed })
    }
}

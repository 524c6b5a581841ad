ghost use Rattle.std.specs.Prelude.{◌≡◌, ◌≤◌, length, IfOk};
ghost use Rattle.oc_record.specs.Spelling.{records_bytes, HaveSpellings};

use oc_base::{MAX_FRAME_BYTES, Memory};
use oc_journal::{Frame, FrameFault};
use oc_record::{Record, encode};
use std::alloc::Global;

/// Makes a frame of records.
pub fn framed(alloc: Global, list: &[Record]) -> Result<Frame, Memory>
    requires spelled { HaveSpellings list.now }
    requires fits { length (records_bytes list.now) ≤ MAX_FRAME_BYTES }
    ensures { IfOk result (λ frame. frame ≡ records_bytes list.now) }
{
    let body = encode(alloc, list)?;
    match Frame::new(alloc, &body) {
        Ok(frame) => Ok(frame),
        Err(FrameFault::Memory) => Err(Memory),
        Err(FrameFault::TooLong) => unreachable!(),
    }
}

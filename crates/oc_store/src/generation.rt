ghost use Rattle.std.specs.Prelude.{◌≡◌, ◌<◌, [], length, IsTrue, IfOk, IsErrOf, OnOk};
ghost use Rattle.oc_journal.specs.Promises.{OnlyReads, NoneFailed, ClosesByRead};
ghost use Rattle.oc_store.specs.ControlFiles.{generation_in, generation_of};
ghost use Rattle.oc_store.specs.Turning.{is_below};

use oc_base::{take_u8, take_u64};
use oc_io::Disk;
use oc_journal::{Frame, FrameError, Journal};
use oc_record::CODES;
use std::alloc::Global;

/// The code of a snapshot record.
const SNAPSHOT: u8 = CODES[11].code;

/// The generation of the snapshot that begins a body; 0 if none does.
pub fn generation_in(body: &[u8]) -> u64
    ensures { result ≡ generation_in body.now }
{
    match (take_u8(body, 0), take_u64(body, 1)) {
        (Ok((SNAPSHOT, _)), Ok((generation, _))) => generation,
        _ => 0,
    }
}

/// The generation of the snapshot that begins a frame; 0 if none does.
pub fn generation_in_frame(frame: &Frame) -> u64
    ensures { result ≡ generation_in frame.now }
{
    let bytes = frame.bytes();
    generation_in(&bytes[4..bytes.len() - 1])
}

/// Whether the second file is current: only if its generation is greater than that of the first. A file
/// without frames has no generation, which counts as smaller than all.
pub fn is_below(first: Option<u64>, second: Option<u64>) -> bool
    ensures { result ≡ is_below first second }
{
    match (first, second) {
        (_, None) => false,
        (None, Some(_)) => true,
        (Some(first), Some(second)) => first < second,
    }
}

/// The generation of a control file; none if it has no frame.
pub fn generation_of<D: Disk>(
    alloc: Global,
    journal: &mut Journal<D>,
) -> Result<Option<u64>, FrameError>
    ensures generation { IfOk result (λ generation. IsTrue (D.view journal.old.disk).honest
        → generation ≡ generation_of journal.old.frames) }
    ensures same { OnlyReads D.view journal.old journal.new }
    ensures disk { IsErrOf result FrameError.Disk → ClosesByRead D.view journal.old journal.new }
    ensures none_failed { OnOk result (NoneFailed D.view journal.old journal.new) }
{
    let mut body = Vec::new(alloc);
    if journal.frame(0, &mut body)? {
        Ok(Some(generation_in(&body)))
    } else {
        Ok(None)
    }
}

/// The generation of a control file after this frame is added: that of its first frame.
pub fn generation_with<D: Disk>(journal: &Journal<D>, generation: u64, frame: &Frame) -> u64
    ensures first { journal.now.frames ≡ [] → result ≡ generation_in frame.now }
    ensures later { 0 < length journal.now.frames → result ≡ generation }
{
    if journal.count() == 0 {
        generation_in_frame(frame)
    } else {
        generation
    }
}

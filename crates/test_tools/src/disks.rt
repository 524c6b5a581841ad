use crate::fault::Fault;
use crate::fields::RowFields;
use crate::step::RowStep;
use crate::texts::put_hex;
use oc_io::{Disk, MemDisk};
use oc_journal::{Frame, Journal};
use std::alloc::Global;

/// Appends the bytes that a disk reads, in hexadecimal.
pub fn put_disk<D: Disk + Drop>(alloc: Global, out: &mut String, mut disk: D) -> Result<(), Fault> {
    let Ok(size) = disk.size() else {
        return Err(Fault::Unready);
    };
    let mut bytes = vec![in alloc; 0; size as usize]?;
    match disk.read_at(0, &mut bytes) {
        Ok(count) if count == bytes.len() => put_hex(out, &bytes),
        _ => Err(Fault::Unready),
    }
}

/// A disk with the journal of these bodies, all synced.
fn disk_with(alloc: Global, bodies: &[Vec<u8>]) -> Result<MemDisk, Fault> {
    let disk = filled_with(alloc, MemDisk::new(Vec::new(alloc)), bodies)?;
    Ok(disk.crash())
}

/// An empty disk, filled with the journal of these bodies.
fn filled_with<D: Disk + Drop>(alloc: Global, disk: D, bodies: &[Vec<u8>]) -> Result<D, Fault> {
    let Ok(mut journal) = Journal::load(alloc, disk) else {
        return Err(Fault::Unready);
    };
    for body in bodies {
        append(alloc, &mut journal, body)?;
    }
    Ok(journal.into_disk())
}

/// Appends a frame of this body.
fn append<D: Disk>(alloc: Global, journal: &mut Journal<D>, body: &[u8]) -> Result<(), Fault> {
    let Ok(frame) = Frame::new(alloc, body) else {
        return Err(Fault::Unready);
    };
    journal.reserve(&frame)?;
    match journal.append(&frame) {
        Ok(()) => Ok(()),
        Err(_) => Err(Fault::Unready),
    }
}

/// The disk of a text: its content, and after a `/` its failures.
///
/// The disk holds `bytes:HEX`, or the journal of the frames `frames:HEX,HEX`, or that of the one
/// frame `long:HEX,END`, which begins with these bytes, goes on with bytes 3, and ends at this
/// offset of the file. Then `fail:CALL` makes one of its later calls fail, and `stop:CALLS,IMAGE`
/// all writes and syncs after the first `CALLS`, with this byte after a crash at each place that
/// was not synced.
pub fn disk_in(alloc: Global, text: &str) -> Result<MemDisk, Fault> {
    let (held, failing) = text.split_once('/').unwrap_or((text, ""));
    let mut disk = held_in(alloc, RowStep::of(held))?;
    have_fail(alloc, &mut disk, RowStep::of(failing))?;
    Ok(disk)
}

/// Sets the calls of a disk that fail.
fn have_fail(alloc: Global, disk: &mut MemDisk, step: RowStep<'_>) -> Result<(), Fault> {
    let mut fields = step.fields;
    match step.word {
        "" => Ok(()),
        "fail" => {
            let call = fields.number()?;
            disk.fail_at(vec![in alloc; call]?);
            Ok(())
        }
        "stop" => {
            let calls = fields.byte()?;
            disk.stop_after(calls, fields.byte()?);
            Ok(())
        }
        _ => Err(Fault::Field),
    }
}

/// The disk with this content.
fn held_in(alloc: Global, mut step: RowStep<'_>) -> Result<MemDisk, Fault> {
    match step.word {
        "bytes" => bytes_disk(alloc, step.fields),
        "frames" => disk_with(alloc, &step.fields.all_bytes(alloc)?),
        "long" => disk_with(alloc, &long_body(alloc, step.fields)?),
        _ => Err(Fault::Field),
    }
}

fn bytes_disk(alloc: Global, mut fields: RowFields<'_>) -> Result<MemDisk, Fault> {
    Ok(MemDisk::new(fields.bytes(alloc)?))
}

/// The body that begins with these bytes, goes on with bytes 3, and whose frame ends at this
/// offset.
fn long_body(alloc: Global, mut fields: RowFields<'_>) -> Result<Vec<Vec<u8>>, Fault> {
    let mut body = fields.bytes(alloc)?;
    let end = fields.small()? as usize;
    body.resize(end.saturating_sub(13), 3)?;
    Ok(vec![in alloc; body]?)
}

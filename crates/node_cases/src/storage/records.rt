//! Control records: the meaning of bytes, and the bytes of records.

ghost use Rattle.std.specs.Prelude.{◌≡◌, IfSome};
ghost use Rattle.oc_record.specs.Spelling.{records_bytes};

use oc_record::{Record, decode, encode, spellings_are_read};
use std::alloc::Global;
use test_tools::{Fault, RowFields, put_hex, put_shown};

/// Appends the words of a row: the records of the bytes, or their fault. If the records are written
/// differently, those bytes follow.
pub fn put_words(alloc: Global, given: &str, said: &mut String) -> Result<(), Fault> {
    let mut fields = RowFields::of(given, ' ');
    let nodes = fields.small()?;
    let bytes = fields.bytes(alloc)?;
    match decode(alloc, &bytes, nodes) {
        Ok(list) => {
            put_shown(said, &list)?;
            put_written(alloc, &bytes, nodes, said)
        }
        Err(fault) => put_shown(said, &fault),
    }
}

/// Appends the bytes that the records of these bytes are written as, if they differ.
fn put_written(alloc: Global, bytes: &[u8], nodes: u32, said: &mut String) -> Result<(), Fault> {
    let written = written_again(alloc, bytes, nodes)?;
    if written.as_slice() == bytes {
        return Ok(());
    }
    put_hex(said, &written)
}

/// The bytes that the records of these bytes are written as.
fn written_again(alloc: Global, bytes: &[u8], nodes: u32) -> Result<Vec<u8>, Fault> {
    spellings_are_read();
    match decode(alloc, bytes, nodes) {
        Ok(list) => Ok(encode(alloc, &list)?),
        Err(_) => Err(Fault::Unready),
    }
}
